//! One seat that holds two tasks: the one gets a promise of the other one, and blocks. The other one sets
//! the promise once the first is parked, and wakes it; or before that, and it comes back.
ghost use Rattle.std.specs.Prelude.{◌≡◌, ◌<◌};
ghost use Rattle.tj_body.specs.Programs.{program_of};
ghost use Rattle.tj_words.specs.Calls.ExchangeViews.{KnowsTable};
ghost use Rattle.tj_words.specs.SeatViews.SeatSteps.{IsCellOf, IsSeatOf};
ghost use Rattle.tj_cells.specs.FilledCells.{MayFill, MayGiveUp};
ghost use Rattle.tj_run.specs.Inner.Carried.{RunsTask};
ghost use Rattle.tj_table_tests.specs.ByHand.{IsRun, MayBegin};

use crate::by_hand::Rig;
use crate::written::{Says, lists_of, table_of};
use std::marker::Brand;
use std::process::Abort;
use std::sync::Wait;
use std::sync::ledger::Blank;
use tj_base::{CellId, Pay, Sort};
use tj_body::{Answer, Ask, Body, names_and_cells, points_in_rounds};
use tj_cells::{Seen, fill, value};
use tj_detect::Verdict;
use tj_park::{Parked, claim, park, wake};
use tj_ready::{LockedPool, Pool};
use tj_words::{Fill, Rec, WSeat, Way};

impl<B: Body, R: Wait + Abort> Rig<'_, B, R> {
    /// A task that runs asks to set the promise that it owns beside its result. Tells which, and to what number.
    pub(crate) fn to_set(&self, seat: &WSeat<B>, rec: Rec<B>) -> (Rec<B>, CellId, Fill)
        requires runs { IsRun (program_of B.places B.awaits B.left B.asks B.then)
            self.now.laid rec seat.now.me }
        ensures runs { RunsTask self.now.laid result.0 seat.now.me }
        ensures cell { IsCellOf self.now.laid result.1.0 }
        ensures gives { MayGiveUp result.0.cell.0 result.1.0 seat.now.me.0 }
        ensures fills { MayFill (program_of B.places B.awaits B.left B.asks B.then) result.1.0
            result.2 seat.now.me.0 }
    {
        points_in_rounds::<B>();
        names_and_cells();
        let (rec, asked) = self.ask(seat, rec);
        let Ask::Set { p, v } = asked else {
            panic!(self.rt; "it sets a promise");
        };
        let Pay::Num(number) = v else {
            panic!(self.rt; "to a number");
        };
        let h = rec.at(p);
        let Sort::Promise = h.sort else {
            panic!(self.rt; "no task is set");
        };
        if rec.promises().len() != 1 {
            panic!(self.rt; "it owns its result and a promise");
        }
        if rec.promises()[0].0 != h.cell.0 {
            panic!(self.rt; "this one");
        }
        (rec, h.cell, Fill::Num(number))
    }

    /// A child waits for a promise of the task that runs, which sets it then. Tells how many were woken.
    fn set_beside<P: Pool>(
        &self,
        seat: &mut WSeat<B>,
        root: Rec<B>,
        child: CellId,
        pool: &mut P,
    ) -> u32
        requires table { IsSeatOf self.now.laid seat.old }
        requires child { IsCellOf self.now.laid child.0 }
        requires runs { IsRun (program_of B.places B.awaits B.left B.asks B.then)
            self.now.laid root seat.old.me }
        requires pool { P.limit pool.old ≡ self.now.laid.cells }
        ensures table { seat.new.table_id ≡ seat.old.table_id }
        ensures knows { KnowsTable seat.new.me.0 }
    {
        self.park_beside(seat, &root, child);
        let told = self.to_set(seat, root);
        let (mine, promise, given) = told;
        fill(&self.laid, seat, mine.cell(), promise, given);
        let Ok(woken) = wake(self.rt, self.alloc, &self.laid, seat, promise, pool) else {
            panic!(self.rt; "no memory");
        };
        woken
    }

    /// The child gets the promise and blocks; the root sets it, and wakes nobody; then the child is to be
    /// parked, and comes back. Tells what the promise is.
    fn set_between<P: Pool>(&self, seat: &mut WSeat<B>, pool: &mut P) -> Seen
        requires table { IsSeatOf self.now.laid seat.old }
        requires cells { 2 < self.now.laid.cells }
        requires begins { MayBegin (program_of B.places B.awaits B.left B.asks B.then)
            self.now.laid 0 seat.old.me }
        requires pool { P.limit pool.old ≡ self.now.laid.cells }
    {
        let root = self.to_fork(seat, pool);
        let told = self.to_set(seat, root);
        let (mine, promise, given) = told;
        let (mut rec, place, h) = self.ask_beside(seat, &mine, CellId(2));
        let t = rec.cell();
        let verdict = self.block_at::<Brand>(seat, &mut rec, place, h.cell, Blank::new(1));
        let Verdict::Walked = verdict else {
            panic!(self.rt; "its owner doesn't wait");
        };
        fill(&self.laid, seat, mine.cell(), promise, given);
        let Ok(0) = wake(self.rt, self.alloc, &self.laid, seat, promise, pool) else {
            panic!(self.rt; "it isn't in the chain yet");
        };
        let Parked::Back(_) = park(&self.laid, seat, t, h.cell, Way::Other, rec) else {
            panic!(self.rt; "it would never be woken");
        };
        value(&self.laid, seat, h.cell)
    }
}

/// The root makes a promise and forks a child that gets it, and sets the promise.
const READER: &[&[Says]] = &[
    &[Says::New, Says::Fork(1, &[1], &[]), Says::Set(1, 5)],
    &[Says::Get(1)],
];

#[test]
fn a_task_wakes_another_one_of_its_seat(rt: HostRuntime) {
    let lists = lists_of(&rt, rt.alloc(), READER);
    let (rig, mut seat, mut pool) = table_of::<LockedPool, HostRuntime>(&rt, &lists, 3);
    let root = rig.to_fork(&mut seat, &mut pool);
    let woken = rig.set_beside(&mut seat, root, CellId(2), &mut pool);
    assert!(rt; woken == 1, "the reader");
    let reader = Some(CellId(2));
    assert!(rt; pool.take(&rt) == reader, "at its start");
    assert!(rt; pool.take(&rt) == reader, "and again");
    assert!(rt; pool.take(&rt).is_none(), "and nobody else");
    let rec = claim(&rig.laid, &mut seat, CellId(2)).expect(&rt, "it is ready again");
    let Answer::RefAt(1) = rec.answer() else {
        panic!(rt; "to read the promise");
    };
    let None = claim(&rig.laid, &mut seat, CellId(2)) else {
        panic!(rt; "it runs already");
    };
}

#[test]
fn a_promise_is_set_by_the_seat_that_is_to_park(rt: HostRuntime) {
    let lists = lists_of(&rt, rt.alloc(), READER);
    let (rig, mut seat, mut pool) = table_of::<LockedPool, HostRuntime>(&rt, &lists, 3);
    let seen = rig.set_between(&mut seat, &mut pool);
    assert!(rt; seen == Seen::Num(5), "it goes on with the value");
}
