//! Waits: the tests of a get and of a join, and how a task that waits leaves its worker.
ghost use Rattle.std.specs.Prelude.{◌≡◌, IfOk, IfSome, None};
ghost use Rattle.tj_body.specs.Programs.{program_of};
ghost use Rattle.tj_body.specs.Inner.AskSteps.{get_of, join_of};
ghost use Rattle.tj_words.specs.SeatViews.SeatSteps.{IsCellOf, IsSameSeat, IsSeatOf};
ghost use Rattle.tj_words.specs.SeatViews.TreeReads.{HasReadTree, KnowsTask};
ghost use Rattle.tj_words.specs.Steps.WalkSteps.{way_by};
ghost use Rattle.tj_cells.specs.CallLogs.{Grows};
ghost use Rattle.tj_run.specs.Workers.{table_program};
ghost use Rattle.tj_run.specs.Inner.Carried.{IsAsked, IsWaiting, RunsTask};
ghost use Rattle.tj_run.specs.Inner.Going.{Goes};
ghost use Rattle.tj_run.specs.Inner.Posts.{IsPostOf, StaysAsked};
ghost use Rattle.tj_run.specs.Inner.Waits.{
  ComesBack,
  HasBlocked,
  IsHeldAs,
  IsLeft,
  OpensLedger,
  waits_at,
};

use crate::next::{Next, Wanted};
use crate::post::Post;
use crate::why::Why;
use std::marker::Brand;
use std::sync::Wait;
use std::sync::ledger::{Blank, Ledger};
use tj_base::{CellId, Sort, Steps};
use tj_body::{Answer, Body, points_in_rounds};
use tj_detect::{Verdict, block, way_of};
use tj_park::{Parked, park, shelve};
use tj_ready::Pool;
use tj_words::{Finish, Held, Hurt, Laid, Rec, WSeat, Way};

impl<B: Body, P: Pool, R: Wait> Post<'_, B, P, R> {
    /// The task waits for a promise.
    #[inline(always)]
    pub(crate) fn get(&mut self, laid: &Laid<B>, rec: &mut Rec<B>, at: Wanted) -> Result<Next, Why>
        requires post { IsPostOf P.limit laid.now self.old }
        requires runs { RunsTask laid.now rec.old self.old.seat.me }
        requires asked { IsAsked (table_program (program_of B.places B.awaits B.left B.asks B.then)
            laid.now) self.old.seat.me.0 rec.old (get_of at.spare at.place) }
        ensures stays { StaysAsked P.limit self.old self.new rec.old rec.new result }
        ensures log { Grows self.old.seat self.new.seat }
        ensures goes { IfOk result (λ next. Goes (program_of B.places B.awaits B.left B.asks B.then)
            laid.now next rec.new self.old.seat.me.0 self.new.seat.me) }
    {
        points_in_rounds::<B>();
        match rec.at(at.place).sort {
            Sort::Task => Ok(Next::Ends(Finish::Failed(Hurt::Kind))),
            Sort::Promise => self.look(laid, rec, at),
        }
    }

    /// The task waits for a task's result. Under the strict rule it fails where it isn't before that
    /// task in the fork order.
    #[inline(always)]
    pub(crate) fn join(&mut self, laid: &Laid<B>, rec: &mut Rec<B>, at: Wanted) -> Result<Next, Why>
        requires post { IsPostOf P.limit laid.now self.old }
        requires runs { RunsTask laid.now rec.old self.old.seat.me }
        requires asked { IsAsked (table_program (program_of B.places B.awaits B.left B.asks B.then)
            laid.now) self.old.seat.me.0 rec.old (join_of at.spare at.place) }
        ensures stays { StaysAsked P.limit self.old self.new rec.old rec.new result }
        ensures log { Grows self.old.seat self.new.seat }
        ensures goes { IfOk result (λ next. Goes (program_of B.places B.awaits B.left B.asks B.then)
            laid.now next rec.new self.old.seat.me.0 self.new.seat.me) }
    {
        points_in_rounds::<B>();
        let h = rec.at(at.place);
        if let Sort::Promise = h.sort {
            return Ok(Next::Ends(Finish::Failed(Hurt::Kind)));
        }
        if !laid.strict() {
            return self.look(laid, rec, at);
        }
        match way_to::<B, Brand>(laid, &mut self.seat, rec.cell(), h, Blank::new(1)) {
            Way::Other => Ok(Next::Ends(Finish::Failed(Hurt::Order(h.cell)))),
            Way::Along => self.look(laid, rec, at),
        }
    }
}

/// The way of a wait of task `t` for the cell.
#[inline(always)]
fn way_to<B: Body, L: Ledger>(
    laid: &Laid<B>,
    seat: &mut WSeat<B>,
    t: CellId,
    h: Held,
    blank: Blank,
) -> Way
    requires blank { OpensLedger blank.name blank.parts L.name L.parts }
    requires table { IsSeatOf laid.now seat.old }
    requires task { IsCellOf laid.now t.0 }
    requires cell { IsCellOf laid.now h.cell.0 }
    requires task_known { KnowsTask t.0 seat.old.me.0 }
    requires held { IsHeldAs h seat.old.me.0 }
    ensures seat { IsSameSeat seat.old seat.new }
    ensures view { HasReadTree laid.now.cells seat.old.me.0 seat.new.me.0 }
    ensures way { result ≡ way_by seat.new.me.0.born t.0 h.cell.0 }
    ensures log { Grows seat.old seat.new }
{
    match h.sort {
        Sort::Promise => Way::Other,
        Sort::Task => {
            let mut steps = Steps::<L>::new(blank);
            way_of(laid, seat, t, h.cell, &mut steps)
        }
    }
}

/// The task blocks on its wait for the cell at the place. Tells the cell, the way of the wait and the
/// verdict.
#[inline(never)]
fn block_at<B: Body, L: Ledger>(
    laid: &Laid<B>,
    seat: &mut WSeat<B>,
    rec: &mut Rec<B>,
    place: u32,
    spare: bool,
    blank: Blank,
) -> (CellId, Way, Verdict)
    requires blank { OpensLedger blank.name blank.parts L.name L.parts }
    requires table { IsSeatOf laid.now seat.old }
    requires runs { RunsTask laid.now rec.old seat.old.me }
    requires waiting { IsWaiting (table_program (program_of B.places B.awaits B.left B.asks B.then)
        laid.now) seat.old.me.0 rec.old place spare }
    ensures table { seat.new.table_id ≡ seat.old.table_id }
    ensures task { IsCellOf laid.now rec.new.cell.0 }
    ensures cell { IsCellOf laid.now result.0.0 }
    ensures kept { rec.new ≡ waits_at place spare rec.old }
    ensures blocked { HasBlocked (program_of B.places B.awaits B.left B.asks B.then) laid.now
        rec.new result.0.0 result.1 result.2 seat.old.me seat.new.me }
    ensures log { Grows seat.old seat.new }
{
    let t = rec.cell();
    let h = rec.at(place);
    let way = way_to::<B, Brand>(laid, seat, t, h, Blank::new(1));
    let mut steps = Steps::<L>::new(blank);
    let verdict = block(laid, seat, t, h.cell, way, &mut steps);
    rec.set_wait(place, spare);
    (h.cell, way, verdict)
}

/// The task waits for the cell at the place: it blocks, and leaves the worker, parked or on a standing
/// cycle. It comes back where something has become of the cell by then.
#[inline(always)]
pub(crate) fn wait<B: Body>(
    laid: &Laid<B>,
    seat: &mut WSeat<B>,
    rec: Rec<B>,
    place: u32,
    spare: bool,
) -> Option<Rec<B>>
    requires table { IsSeatOf laid.now seat.old }
    requires runs { RunsTask laid.now rec seat.old.me }
    requires waiting { IsWaiting (table_program (program_of B.places B.awaits B.left B.asks B.then)
        laid.now) seat.old.me.0 rec place spare }
    ensures table { seat.new.table_id ≡ seat.old.table_id }
    ensures left { result ≡ None → IsLeft laid.now seat.old.me.0 seat.new.me }
    ensures back { IfSome result (λ r. ComesBack (program_of B.places B.awaits B.left B.asks B.then)
        laid.now r seat.old.me.0 seat.new.me) }
    ensures log { Grows seat.old seat.new }
    // The record that comes back is the one that was passed, but that it waits at the place.
    ensures same { IfSome result (λ r. r ≡ waits_at place spare rec) }
{
    let mut rec = rec;
    let (q, way, verdict) = block_at::<B, Brand>(laid, seat, &mut rec, place, spare, Blank::new(1));
    let t = rec.cell();
    match verdict {
        Verdict::Alarm => {
            shelve(laid, seat, t, rec);
            None
        }
        Verdict::Walked | Verdict::Skipped => match park(laid, seat, t, q, way, rec) {
            Parked::Left => None,
            Parked::Back(rec) => Some(rec),
        },
    }
}
