//! The root goes from Ready to Ended by step calls of the table alone, and its table is closed.
ghost use Rattle.std.specs.Prelude.{◌≡◌, [], ◌∷◌, length, Some};
ghost use Rattle.atomic_table.specs.Table.{rest};
ghost use Rattle.tj_body.specs.Programs.{program_of};
ghost use Rattle.tj_record.specs.declared.record.Finish.TheVariants.{Done};
ghost use Rattle.tj_words.specs.SeatViews.KnowsMore.{KnowsMore};
ghost use Rattle.tj_words.specs.Calls.LiveViews.{HasSlot, MayEnd, ended, homed};
ghost use Rattle.tj_words.specs.SeatViews.SeatSteps.{IsCellOf, IsSeatOf};
ghost use Rattle.tj_run.specs.Workers.{table_program};
ghost use Rattle.tj_run.specs.Inner.Carried.{IsClosing, RunsTask};
ghost use Rattle.tj_run.specs.Inner.Waits.{IsLeft};
ghost use Rattle.tj_table_tests.specs.ByHand.{IsRun, MayBegin};
ghost use Rattle.tj_table_tests.specs.EndsAlone.{EndsAlone};

use crate::by_hand::Rig;
use crate::written::table_of;
use std::alloc::Global;
use std::process::Abort;
use std::sync::Wait;
use tj_base::{CellId, Items, Pay};
use tj_body::{Answer, Ask, Body, RowList, TableBody, names_and_cells, points_in_rounds};
use tj_ready::LockedPool;
use tj_words::{Fill, Finish, Head, Once, Phase, Rec, RestWords, WSeat, value_words};

impl<B: Body, R: Wait + Abort> Rig<'_, B, R> {
    /// Claims a ready task in two steps: PHASE is exchanged, and the record is taken out of its slot.
    fn claim_in_steps(&self, seat: &mut WSeat<B>, t: CellId) -> Rec<B>
        requires table { IsSeatOf self.now.laid seat.old }
        requires begins { MayBegin (program_of B.places B.awaits B.left B.asks B.then)
            self.now.laid t.0 seat.old.me }
        ensures table { seat.new.table_id ≡ seat.old.table_id }
        ensures knows { KnowsMore seat.old.me.0 seat.new.me.0 }
        ensures runs { IsRun (program_of B.places B.awaits B.left B.asks B.then)
            self.now.laid result seat.new.me }
    {
        let Ok(()) = self.laid.swap_phase(seat, t, Phase::Ready, Phase::Running) else {
            panic!(self.rt; "it is ready");
        };
        let rec = self
            .laid
            .slot_swap(seat, t, None)
            .expect(self.rt, "its record is at home");
        let Answer::Start = rec.answer() else {
            panic!(self.rt; "it begins");
        };
        rec
    }

    /// Lays down the record of a task that ends: its slot, and PHASE.
    fn lay_in_steps(&self, seat: &mut WSeat<B>, t: CellId, rec: Rec<B>)
        requires table { IsSeatOf self.now.laid seat.old }
        requires cell { IsCellOf self.now.laid t.0 }
        requires slot { HasSlot t.0 seat.old.me }
        requires may { MayEnd (program_of B.places B.awaits B.left B.asks B.then) t.0
            (seat.old.me.0, (t.0, Some rec) ∷ rest seat.old.me.1) }
        ensures table { seat.new.table_id ≡ seat.old.table_id }
        ensures me { seat.new.me ≡ (
          homed ((t.0, Some rec) ∷ rest seat.old.me.1)
              (ended t.0 seat.old.me.0),
          rest seat.old.me.1,
        ) }
    {
        drop(self.laid.slot_swap(seat, t, Some(rec)));
        self.laid.put_phase(seat, t, Phase::Ended);
    }

    /// Ends a task that owns its result alone and that nobody waits for, step by step: OWN, BITS and TAG of
    /// its result, its record, HEAD and LIVE.
    fn end_in_steps(&self, seat: &mut WSeat<B>, rec: Rec<B>, v: Fill)
        requires table { IsSeatOf self.now.laid seat.old }
        requires runs { RunsTask self.now.laid rec seat.old.me }
        requires closing { IsClosing (table_program
            (program_of B.places B.awaits B.left B.asks B.then) self.now.laid) seat.old.me.0 rec
            (Done v) }
        requires alone { length rec.owned ≡ 1 }
        ensures table { seat.new.table_id ≡ seat.old.table_id }
        ensures left { IsLeft self.now.laid seat.old.me.0 seat.new.me }
    {
        self.ends_alone(seat, &rec, v);
        let t = rec.cell();
        let (tag, bits) = value_words(Some(v));
        self.laid.put_owner(seat, t, None);
        self.laid.put_once(seat, t, Once::Bits, bits);
        self.laid.put_once(seat, t, Once::Tag, tag);
        let ended = ended_alone(rec, v);
        self.lay_in_steps(seat, t, ended);
        let head = self.laid.shut(seat, t);
        let Head::Empty = head else {
            panic!(self.rt; "nobody waits for it");
        };
        self.laid.live_down(seat);
    }

    // What each step of the end rests on.
    fn ends_alone(&self, seat: &WSeat<B>, rec: &Rec<B>, v: Fill)
        requires runs { RunsTask self.now.laid rec.now seat.now.me }
        requires closing { IsClosing (table_program
            (program_of B.places B.awaits B.left B.asks B.then) self.now.laid) seat.now.me.0 rec.now
            (Done v) }
        requires alone { length rec.now.owned ≡ 1 }
        ensures cell { IsCellOf self.now.laid rec.now.cell.0 }
        ensures ends { EndsAlone (program_of B.places B.awaits B.left B.asks B.then)
            self.now.laid rec.now v seat.now.me }
    {
        let _ = seat;
        let _ = rec;
        let _ = v;
        points_in_rounds::<B>();
        names_and_cells();
    }
}

// The record of a task that has ended like this and owes nothing.
fn ended_alone<B>(rec: Rec<B>, v: Fill) -> Rec<B>
    requires alone { length rec.owned ≡ 1 }
    ensures { result ≡ record rec { owned = []; owed = []; finish = Some (Done v) } }
{
    let mut rec = rec;
    rec.set_finish(Finish::Done(v));
    rec.end();
    rec
}

/// Asserts that closed words have the root alone, which has ended with 0.
fn has_the_root_alone<B: Body, R: Abort>(rt: &R, rest: RestWords<B>) {
    if rest.drawn() != 1 {
        panic!(rt; "one cell was drawn");
    }
    let cell = rest.cell(CellId(0));
    assert!(rt; matches!(cell.phase, Phase::Ended), "the root has ended");
    assert!(rt; cell.own.is_none(), "nobody owns its result");
    assert!(rt;
        has_ended_with_0(rest.rec(CellId(0))),
        "its record says how it ended"
    );
    let closed = rest.into_closed();
    assert!(rt; closed.drawn() == 1, "and closed words have it still");
    assert!(rt; closed.cell(CellId(0)).tag == 1, "with a number");
}

fn has_ended_with_0<B: Body>(rec: Option<&Rec<B>>) -> bool {
    match rec {
        Some(rec) => matches!(rec.finish(), Some(Finish::Done(Fill::Num(0)))),
        None => false,
    }
}

#[test]
fn the_root_ends_by_step_calls(rt: HostRuntime) {
    points_in_rounds::<TableBody<'_>>();
    let lists: [RowList; 1] = [Items::of(Vec::new(rt.alloc()))];
    let (rig, mut seat, _pool) = table_of::<LockedPool, HostRuntime>(&rt, &lists, 2);
    let claimed = rig.claim_in_steps(&mut seat, CellId(0));
    let (rec, asked) = rig.ask(&seat, claimed);
    let Ask::End(v) = asked else {
        panic!(rt; "it ends at once");
    };
    let Pay::Num(number) = v else {
        panic!(rt; "with a number");
    };
    if !rec.promises().is_empty() {
        panic!(rt; "it owns its result alone");
    }
    rig.end_in_steps(&mut seat, rec, Fill::Num(number));
    if rig.laid.live(&mut seat) != 0 {
        panic!(rt; "nothing goes on");
    }
    has_the_root_alone(&rt, rig.laid.rest(seat));
}
