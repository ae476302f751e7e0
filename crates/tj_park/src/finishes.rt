//! The end of a task. Each promise that it owes is broken, and those who wait for it are woken; then its
//! result is set or broken. From then on the task has ended, and its record goes home for good. Those
//! who wait for the result are woken last, by the token that the end of the task gives.
ghost use Rattle.std.specs.Prelude.{◌≡◌, ◌≤◌, [], ◌∷◌, length, None, OnErr, OnOk, Some};
ghost use Rattle.atomic_table.specs.Table.{rest};
ghost use Rattle.tj_body.specs.Programs.{program_of};
ghost use Rattle.tj_record.specs.TaskRecords.{ended_record};
ghost use Rattle.tj_runs.specs.HomeRecords.{LiesForGood};
ghost use Rattle.tj_words.specs.SeatViews.KnowsMore.{IsTailOf};
ghost use Rattle.tj_words.specs.SeatViews.SeatSteps.{IsCellOf, IsSameSeat, IsSeatOf};
ghost use Rattle.tj_cells.specs.CallLogs.{MakesClosed};
ghost use Rattle.tj_park.specs.Inner.Breaks.{HasBroken, MayBreak};
ghost use Rattle.tj_park.specs.Endings.{HasFinished, MayFinish};
ghost use Rattle.tj_park.specs.EndLogs.{BreaksEach, BreaksSome, EndsTask, FailsToEnd, closed_with};
ghost use Rattle.tj_park.specs.Inner.Closings.{ClosesResult, MayCloseResult, StepsOfClose};
ghost use Rattle.tj_park.specs.Records.{HasNoRecord};
ghost use Rattle.tj_words.specs.Words.Lists.{numbers};

use crate::wakes::wake;
use std::alloc::Global;
use std::sync::Wait;
use tj_base::{CellId, Oom};
use tj_body::{Body, names_and_cells, points_in_rounds};
use tj_cells::{break_off, fill};
use tj_ready::Pool;
use tj_runs::ended_records;
use tj_words::{Finish, Laid, Phase, Rec, WSeat};

/// Ends task `t`, as its record says: breaks the promises that it owes, sets or breaks its result, puts
/// the record home, and wakes those who wait for any of these. After `Oom` the run is to stop.
#[inline(always)]
pub fn finish<B: Body, P: Pool, R: Wait>(
    rt: &R,
    alloc: Global,
    laid: &Laid<B>,
    seat: &mut WSeat<B>,
    t: CellId,
    rec: Rec<B>,
    pool: &mut P,
) -> Result<(), Oom>
    requires table { IsSeatOf laid.now seat.old }
    requires few { length seat.old.me.0.born ≤ laid.now.cells }
    requires slot { seat.old.me.1 ≡ (t.0, None) ∷ rest seat.old.me.1 }
    requires others { HasNoRecord (rest seat.old.me.1) }
    requires may { MayFinish (program_of B.places B.awaits B.left B.asks B.then) t.0 rec
        seat.old.me.0 }
    requires pool { P.limit pool.old ≡ laid.now.cells }
    // The seat is one of the same table.
    ensures table { seat.new.table_id ≡ seat.old.table_id }
    // It is the same seat.
    ensures id { seat.new.id ≡ seat.old.id }
    // Of which table the seat is stays known, after an error too.
    ensures about { seat.new.me.0.about ≡ seat.old.me.0.about }
    // What the seat has noted since stands in front of its notes, after an error too.
    ensures notes { IsTailOf seat.old.me.0.notes seat.new.me.0.notes }
    // The pool's limit stays.
    ensures limit { P.limit pool.new ≡ P.limit pool.old }
    // After `Ok` the task has left the seat; the seat knows that each promise that it owed is
    // broken, and that its result is as its record's finish says; nothing is to come for the seat
    // that wasn't, and its counts are as before. Its steps put one record home: the one that was
    // passed, with its task ended.
    ensures ended { OnOk result (HasFinished t.0 rec seat.old.me.0 seat.new.me.0) }
    // Its slot has left the seat too.
    ensures slots { OnOk result (seat.new.me.1 ≡ rest seat.old.me.1) }
    // This record lies at home for good: in each table in whose run (`tj_runs::tables_have_runs`) a
    // seat has had, at whatever moment, the view that `finish` leaves, by what stands PHASE of the
    // task is Ended, no seat holds the task, and the record that was passed, with its task ended,
    // lies at home: it owns nothing, and owes the promises that were broken, in the order in which
    // the task owned them.
    ensures home { OnOk result (LiesForGood (program_of B.places B.awaits B.left B.asks B.then) t.0
        (ended_record rec) seat.new.me.0) }
    // The steps of this call are: for each promise that it owed, in the order in which it owned
    // them, the promise is broken, and those who waited for it are woken as `wake` says; then the
    // result is closed as its record's finish says, PHASE of the task is stored as Ended, those who
    // waited for the result are woken, and LIVE is lowered at last. So each of those who waited was
    // put into the pool once; the pool had nothing else done to it, and the seat has noted nothing
    // but what these wakes note.
    ensures steps { OnOk result (EndsTask P.puts t.0 rec seat.old seat.new pool.old pool.new) }
    // After an error they are the first of these steps, up to one by which a task became ready that
    // the pool refused. Where PHASE of the task was stored as Ended, they put one record home then,
    // too: the one that was passed, with its task ended.
    ensures memory { OnErr result (FailsToEnd P.puts P.same t.0 rec seat.old seat.new
        pool.old pool.new) }
{
    points_in_rounds::<B>();
    names_and_cells();
    ended_records::<B>();
    let mut rec = rec;
    break_promises(rt, alloc, laid, seat, t, rec.promises(), pool)?;
    close_result(laid, seat, t, rec.finish());
    rec.end();
    drop(laid.slot_swap(seat, t, Some(rec)));
    laid.put_phase(seat, t, Phase::Ended);
    wake(rt, alloc, laid, seat, t, pool)?;
    laid.live_down(seat);
    Ok(())
}

// Breaks these promises of the task, and wakes those who wait for them.
fn break_promises<B: Body, P: Pool, R: Wait>(
    rt: &R,
    alloc: Global,
    laid: &Laid<B>,
    seat: &mut WSeat<B>,
    t: CellId,
    promises: &[CellId],
    pool: &mut P,
) -> Result<(), Oom>
    requires table { IsSeatOf laid.now seat.old }
    requires few { length seat.old.me.0.born ≤ laid.now.cells }
    requires slots { HasNoRecord seat.old.me.1 }
    requires may { MayBreak (program_of B.places B.awaits B.left B.asks B.then) t.0 promises.now
        seat.old.me.0 }
    requires pool { P.limit pool.old ≡ laid.now.cells }
    ensures seat { IsSameSeat seat.old seat.new }
    ensures about { seat.new.me.0.about ≡ seat.old.me.0.about }
    ensures notes { IsTailOf seat.old.me.0.notes seat.new.me.0.notes }
    ensures limit { P.limit pool.new ≡ P.limit pool.old }
    ensures broken { OnOk result (HasBroken t.0 promises.now [] seat.old.me.0 seat.new.me.0) }
    ensures breaks { OnOk result (BreaksEach P.puts (numbers promises.now) seat.old seat.new
        pool.old pool.new) }
    ensures memory { OnErr result (BreaksSome P.puts P.same (numbers promises.now) seat.old seat.new
        pool.old pool.new) }
{
    for p in promises {
        break_off(laid, seat, t, *p);
        wake(rt, alloc, laid, seat, *p, pool)?;
    }
    Ok(())
}

// Sets the result of a task that ends well, and breaks that of one that fails.
#[inline(always)]
fn close_result<B: Body>(laid: &Laid<B>, seat: &mut WSeat<B>, t: CellId, finish: Option<Finish>)
    requires table { IsSeatOf laid.now seat.old }
    requires cell { IsCellOf laid.now t.0 }
    requires may { MayCloseResult (program_of B.places B.awaits B.left B.asks B.then) t.0 finish
        seat.old.me.0 }
    ensures seat { IsSameSeat seat.old seat.new }
    ensures view { ClosesResult t.0 finish seat.old.me.0 seat.new.me.0 }
    ensures log { StepsOfClose t.0 finish seat.old seat.new }
{
    if let Some(f) = finish {
        close_by(laid, seat, t, f);
    }
}

#[inline(always)]
fn close_by<B: Body>(laid: &Laid<B>, seat: &mut WSeat<B>, t: CellId, f: Finish)
    requires table { IsSeatOf laid.now seat.old }
    requires cell { IsCellOf laid.now t.0 }
    requires may { MayCloseResult (program_of B.places B.awaits B.left B.asks B.then) t.0 (Some f)
        seat.old.me.0 }
    ensures seat { IsSameSeat seat.old seat.new }
    ensures view { ClosesResult t.0 (Some f) seat.old.me.0 seat.new.me.0 }
    ensures log { MakesClosed t.0 (closed_with f) seat.old seat.new }
{
    match f {
        Finish::Done(v) => fill(laid, seat, t, t, v),
        Finish::Failed(_) => break_off(laid, seat, t, t),
    }
}
