//! A task that a test runs by hand: a seat claims it, and makes the calls that a worker makes for each ask.
ghost use Rattle.std.specs.Prelude.{◌≡◌, ◌++◌, ◌∷◌, [], None, false};
ghost use Rattle.tj_body.specs.declared.ask.Answer.TheVariants.{Start};
ghost use Rattle.tj_body.specs.Programs.{program_of};
ghost use Rattle.tj_words.specs.Calls.ExchangeViews.{KnowsTable};
ghost use Rattle.tj_words.specs.SeatViews.SeatSteps.{IsCellOf, IsSameSeat, IsSeatOf};
ghost use Rattle.tj_park.specs.ChildViews.{Claimed};
ghost use Rattle.tj_detect.specs.Blocks.{MayBlock};
ghost use Rattle.tj_run.specs.Workers.{table_program};
ghost use Rattle.tj_run.specs.Inner.Carried.{IsAsked, RunsTask};
ghost use Rattle.tj_run.specs.Inner.Pieces.{child_record};
ghost use Rattle.tj_run.specs.Inner.Waits.{Blocked, OpensLedger, waits_at};
ghost use Rattle.tj_table_tests.specs.ByHand.{IsRun, MayBegin};

use std::alloc::Global;
use std::process::Abort;
use std::sync::Wait;
use std::sync::ledger::{Blank, Ledger};
use tj_base::{CellId, Sort, Steps};
use tj_body::{Answer, Ask, Body, names_and_cells, points_in_rounds};
use tj_cells::{birth, make};
use tj_detect::{Verdict, block};
use tj_park::{claim, release};
use tj_ready::Pool;
use tj_words::{Held, Laid, Rec, WSeat, Way};

/// A table whose tasks a test runs by hand, the allocator, and what the calls run on.
#[derive(Drop)]
pub(crate) struct Rig<'t, B: Body, R> {
    pub(crate) rt: &'t R,
    pub(crate) alloc: Global,
    pub(crate) laid: Laid<B>,
}

impl<B: Body, R: Wait + Abort> Rig<'_, B, R> {
    /// Claims a task that is to begin, whatever else the seat has.
    pub(crate) fn claim_first(&self, seat: &mut WSeat<B>, t: CellId) -> Rec<B>
        requires table { IsSeatOf self.now.laid seat.old }
        requires cell { IsCellOf self.now.laid t.0 }
        requires knows { KnowsTable seat.old.me.0 }
        ensures table { seat.new.table_id ≡ seat.old.table_id }
        ensures claimed { Claimed (program_of B.places B.awaits B.left B.asks B.then) t.0 result
            seat.old.me.0 seat.new.me.0 }
        ensures slot { seat.new.me.1 ≡ (t.0, None) ∷ seat.old.me.1 }
        ensures start { result.answer ≡ Start }
    {
        let rec = claim(&self.laid, seat, t).expect(self.rt, "it is ready");
        let Answer::Start = rec.answer() else {
            panic!(self.rt; "it begins");
        };
        rec
    }

    /// A free seat claims a task that is to begin.
    pub(crate) fn begin(&self, seat: &mut WSeat<B>, t: CellId) -> Rec<B>
        requires table { IsSeatOf self.now.laid seat.old }
        requires begins { MayBegin (program_of B.places B.awaits B.left B.asks B.then)
            self.now.laid t.0 seat.old.me }
        ensures table { seat.new.table_id ≡ seat.old.table_id }
        ensures runs { IsRun (program_of B.places B.awaits B.left B.asks B.then)
            self.now.laid result seat.new.me }
    {
        self.claim_first(seat, t)
    }

    /// The body of a task that runs is given the record's answer, and asks.
    pub(crate) fn ask(&self, seat: &WSeat<B>, rec: Rec<B>) -> (Rec<B>, Ask<B>)
        requires runs { IsRun (program_of B.places B.awaits B.left B.asks B.then)
            self.now.laid rec seat.now.me }
        ensures runs { RunsTask self.now.laid result.0 seat.now.me }
        ensures asked { IsAsked (table_program (program_of B.places B.awaits B.left B.asks B.then)
            self.now.laid) seat.now.me.0 result.0 result.1 }
    {
        let _ = seat;
        points_in_rounds::<B>();
        let mut rec = rec;
        let Ok(asked) = rec.next(self.alloc) else {
            panic!(self.rt; "no memory");
        };
        (rec, asked)
    }

    /// A task that runs makes a promise.
    pub(crate) fn to_promise(&self, seat: &mut WSeat<B>, rec: Rec<B>) -> Rec<B>
        requires table { IsSeatOf self.now.laid seat.old }
        requires runs { IsRun (program_of B.places B.awaits B.left B.asks B.then)
            self.now.laid rec seat.old.me }
        ensures table { seat.new.table_id ≡ seat.old.table_id }
        ensures runs { IsRun (program_of B.places B.awaits B.left B.asks B.then)
            self.now.laid result seat.new.me }
    {
        points_in_rounds::<B>();
        let (mut rec, asked) = self.ask(seat, rec);
        let Ask::New = asked else {
            panic!(self.rt; "it makes a promise");
        };
        let Ok(c) = make(&self.laid, seat, rec.cell(), rec.made() + 1) else {
            panic!(self.rt; "a cell is left");
        };
        rec.set_answer(Answer::Local(rec.places()));
        hold(self.rt, &mut rec, c, Sort::Promise);
        let Ok(()) = rec.own(c) else {
            panic!(self.rt; "no memory");
        };
        rec.count_made();
        rec
    }

    /// A task that runs forks a child, to which it passes one cell and hands none.
    pub(crate) fn to_child<P: Pool>(&self, seat: &mut WSeat<B>, rec: Rec<B>, pool: &mut P) -> Rec<B>
        requires table { IsSeatOf self.now.laid seat.old }
        requires runs { IsRun (program_of B.places B.awaits B.left B.asks B.then)
            self.now.laid rec seat.old.me }
        requires pool { P.limit pool.old ≡ self.now.laid.cells }
        ensures table { seat.new.table_id ≡ seat.old.table_id }
        ensures limit { P.limit pool.new ≡ P.limit pool.old }
        ensures runs { IsRun (program_of B.places B.awaits B.left B.asks B.then)
            self.now.laid result seat.new.me }
    {
        points_in_rounds::<B>();
        names_and_cells();
        let (mut rec, asked) = self.ask(seat, rec);
        let Ask::Fork { body, pass, hand } = asked else {
            panic!(self.rt; "it forks a child");
        };
        if hand.items().len() != 0 {
            panic!(self.rt; "nothing is handed");
        }
        if pass.items().len() != 1 {
            panic!(self.rt; "one cell is passed");
        }
        let place = pass.items()[0];
        let passed = rec.at(place);
        let Ok(c) = birth(&self.laid, seat, rec.cell(), rec.made() + 1) else {
            panic!(self.rt; "a cell is left");
        };
        let child = child_of(self.rt, self.alloc, c, body, passed);
        let Ok(()) = release(self.rt, self.alloc, &self.laid, seat, c, child, pool) else {
            panic!(self.rt; "no memory");
        };
        rec.set_answer(Answer::Local(rec.places()));
        hold(self.rt, &mut rec, c, Sort::Task);
        rec.count_made();
        rec
    }

    /// Claims the root, which makes a promise and forks a child.
    pub(crate) fn to_fork<P: Pool>(&self, seat: &mut WSeat<B>, pool: &mut P) -> Rec<B>
        requires table { IsSeatOf self.now.laid seat.old }
        requires begins { MayBegin (program_of B.places B.awaits B.left B.asks B.then)
            self.now.laid 0 seat.old.me }
        requires pool { P.limit pool.old ≡ self.now.laid.cells }
        ensures table { seat.new.table_id ≡ seat.old.table_id }
        ensures limit { P.limit pool.new ≡ P.limit pool.old }
        ensures runs { IsRun (program_of B.places B.awaits B.left B.asks B.then)
            self.now.laid result seat.new.me }
    {
        let root = self.begin(seat, CellId(0));
        let rec = self.to_promise(seat, root);
        self.to_child(seat, rec, pool)
    }

    /// A task blocks on its wait for `q`, the promise at the place, and notes in its record what it waits for.
    pub(crate) fn block_at<L: Ledger>(
        &self,
        seat: &mut WSeat<B>,
        rec: &mut Rec<B>,
        place: u32,
        q: CellId,
        blank: Blank,
    ) -> Verdict
        requires blank { OpensLedger blank.name blank.parts L.name L.parts }
        requires table { IsSeatOf self.now.laid seat.old }
        requires task { IsCellOf self.now.laid rec.old.cell.0 }
        requires cell { IsCellOf self.now.laid q.0 }
        requires may { MayBlock rec.old.cell.0 q.0 Way.Other seat.old.me.0 }
        ensures seat { IsSameSeat seat.old seat.new }
        ensures view { Blocked result rec.old.cell.0 q.0 Way.Other seat.old.me.0 seat.new.me.0 }
        ensures rec { rec.new ≡ waits_at place false rec.old }
    {
        let mut steps = Steps::<L>::new(blank);
        let verdict = block(&self.laid, seat, rec.cell(), q, Way::Other, &mut steps);
        rec.set_wait(place, false);
        verdict
    }
}

// A task holds one cell more.
fn hold<B, R: Abort>(rt: &R, rec: &mut Rec<B>, cell: CellId, sort: Sort)
    ensures { rec.new ≡ record rec.old {
      held = rec.old.held ++ record { cell = cell; sort = sort } ∷ [];
    } }
{
    let Ok(()) = rec.hold(Held { cell, sort }) else {
        panic!(rt; "no memory");
    };
}

// The record of a child that holds itself and what it is passed, and owns its result.
fn child_of<B: Drop, R: Abort>(rt: &R, alloc: Global, c: CellId, body: B, passed: Held) -> Rec<B>
    ensures { result ≡ child_record c body (passed ∷ []) [] }
{
    let Ok(others) = vec![in alloc; passed] else {
        panic!(rt; "no memory");
    };
    let Ok(rec) = Rec::at_start(alloc, c, body, others, Vec::new(alloc)) else {
        panic!(rt; "no memory");
    };
    rec
}
