//! A run with a future that waits for a cell beside the workers.
ghost use Rattle.std.specs.Prelude.{◌≡◌, ◌<◌, ◌≤◌, ◌*◌, [], All, IfErr, IfOk, IfSome, false, length};
ghost use Rattle.std.specs.Thread.{IsSync};
ghost use denote.Param.Send.{IsSend};
ghost use Rattle.tj_base.specs.declared.cell.TheConstants.{MAX_CELLS};
ghost use Rattle.tj_body.specs.Asks.{IsFresh};
ghost use Rattle.tj_body.specs.Programs.{program_of};
ghost use Rattle.tj_body.specs.Rounds.{IsFull};
ghost use Rattle.tj_words.specs.Law.{IsRooted};
ghost use Rattle.tj_words.specs.LawParts.Lots.{least_lot};
ghost use Rattle.tj_words.specs.SeatViews.SeatSteps.{IsSeatOf};
ghost use Rattle.tj_words.specs.SeatViews.Views.{IsIdle, left_half};
ghost use Rattle.tj_run.specs.Workers.{IsFree, table_program};
ghost use Rattle.tj_run.specs.Leaving.{Leaves};
ghost use Rattle.tj_run.specs.Runs.{HasLots, RestsAt};
ghost use Rattle.tj_future.specs.CellWatches.{IsCellWatched};
ghost use Rattle.tj_future.specs.LookLogs.{MakesLooks};
ghost use Rattle.tj_future.specs.Looks.{IsWatched};
ghost use Rattle.tj_future.specs.WatchedRuns.{EndsWatched, HasWatched};

use crate::beside::{fault_of, take_in};
use crate::polls::{CellWait, Polled};
use crate::watched::Watched;
use futures::executor::block_on;
use std::alloc::{AllocGlobal, Global};
use std::random::RandomSource;
use std::sync::Wait;
use std::thread::{Threads, join};
use tj_base::{CellId, Oom};
use tj_body::{Body, meaning_is_last, rest_is_meaning};
use tj_ports::Gate;
use tj_ready::Pool;
use tj_run::{Left, RunFault, begun, work_all};
use tj_words::{Laid, RestWords, WSeat};

/// Runs a program with this root to its rest without the strict rule, as `run_all` does, with a future
/// for cell `p`, which an executor polls in a thread of its own beside the workers, or after them where
/// no thread can be made. What is told of the cell is what the future was ready with, and the closed
/// table says it. That the call returns, and that the future and the workers overlap, is said by no
/// clause.
pub fn run_polled<B: Polled, P: Pool, G: Gate, R>(
    rt: &R,
    alloc: Global,
    root: B,
    cells: u32,
    workers: u32,
    gate: &G,
    p: CellId,
) -> Result<(Watched, RestWords<B>), RunFault>
where
    R: Wait + Threads + RandomSource + AllocGlobal + Sync,
    requires cells { (p.0 < cells) × (cells ≤ MAX_CELLS) }
    requires workers { (0 < workers) × (workers ≤ 64) }
    requires root { IsFresh B.places B.awaits B.left 1 root }
    // With `Ok` the table rests at the meaning of the root without the strict rule, as of
    // `tj_run::run_all`.
    ensures rest { IfOk result (λ out. RestsAt (program_of B.places B.awaits B.left B.asks B.then)
        root cells false out.1) }
    // What is told of the cell is what the closed table says of it, and nothing else: its value,
    // Broken where it has none and its TAG isn't 0, Rested where its TAG is 0 or it wasn't drawn; so
    // Stopped isn't told.
    ensures answer { IfOk result (λ out. IsCellWatched out.1.cells out.1.words p.0 out.0) }
    // It is what the future was ready with: the future's seat began with a half of the first seat,
    // made looks at the cell, of which the last was answered so, as `look_at` says it, and no other
    // step; and the seat that closed the table has taken it in, with its log, in the run whose end
    // this is.
    ensures watched { IfOk result (λ out. EndsWatched (program_of B.places B.awaits B.left B.asks
        B.then) cells false root p.0 out.0 out.1) }
    // Then the meaning isn't full.
    ensures fits { IfOk result (λ _. ¬ IsFull
        (program_of B.places B.awaits B.left B.asks B.then false root) cells) }
    // Full comes only where the meaning is full.
    ensures full { IfErr result (λ fault. fault ≡ RunFault.Full → IsFull
        (program_of B.places B.awaits B.left B.asks B.then false root) cells) }
{
    rest_is_meaning::<B>();
    meaning_is_last::<B>();
    let (ends, laid, seat) = begun::<B, P, R>(rt, alloc, root, cells, workers, false)?;
    let (seat, left, answer) = work_polled::<B, P, G, R>(rt, alloc, &laid, seat, ends, gate, p)?;
    match left {
        Left::Rested => Ok((answer, laid.rest(seat))),
        Left::Stopped(why) => Err(fault_of(why)),
    }
}

// The workers, and an executor with a wait for cell `p` beside them, whose seat is taken in again.
fn work_polled<B: Polled, P: Pool, G: Gate, R>(
    rt: &R,
    alloc: Global,
    laid: &Laid<B>,
    seat: WSeat<B>,
    ends: Vec<P>,
    gate: &G,
    p: CellId,
) -> Result<(WSeat<B>, Left, Watched), Oom>
where
    R: Wait + Threads + RandomSource + AllocGlobal + Sync,
    requires cell { p.0 < laid.now.cells }
    requires table { IsSeatOf laid.now seat }
    requires free { IsFree laid.now seat.me }
    requires rooted { IsRooted (table_program (program_of B.places B.awaits B.left B.asks B.then)
        laid.now) }
    requires crosses { IsSync R.row × IsSync G.row × IsSend B.row × IsSend P.row }
    requires pools { All (λ end. P.limit end ≡ laid.now.cells) ends.items }
    requires lots { HasLots (length ends.items) (left_half seat.me.0) }
    requires room { 2 * least_lot ≤ seat.me.0.lot }
    ensures table { IfOk result (λ out. out.0.table_id ≡ seat.table_id) }
    ensures left { IfOk result (λ out. Leaves (program_of B.places B.awaits B.left B.asks B.then)
        out.1 seat.me.0 out.0.me) }
    ensures watched { IfOk result (λ out. HasWatched (program_of B.places B.awaits B.left B.asks
        B.then) laid.now.cells p.0 out.2 out.1 seat.me.0 out.0) }
{
    let (mine, theirs) = laid.split(seat);
    let waiting = move || -> Option<(Watched, WSeat<B>)>
        requires { IsSeatOf laid.now theirs × (p.0 < laid.now.cells) × IsIdle theirs.me.0
            × (theirs.me.1 ≡ []) }
        ensures { IfSome result (λ given. (given.1.table_id ≡ theirs.table_id)
            × IsIdle given.1.me.0 × (given.1.me.1 ≡ []) × (given.1.me.0.lot ≡ theirs.me.0.lot)
            × IsWatched (program_of B.places B.awaits B.left B.asks B.then)
            laid.entry.now.cells p.0 given.0 theirs.me.0 given.1.me.0
            × MakesLooks p.0 given.0 theirs given.1) }
    {
        match block_on(rt, CellWait::new(laid, theirs, p)) {
            Ok(given) => Some(given),
            Err(_) => None,
        }
    };
    let working = move || -> (WSeat<B>, Left)
        requires { IsSync R.row × IsSync G.row × IsSend B.row × IsSend P.row
            × IsSeatOf laid.now mine × IsFree laid.now mine.me
            × IsRooted (table_program (program_of B.places B.awaits B.left B.asks B.then) laid.now)
            × All (λ end. P.limit end ≡ laid.now.cells) ends.items
            × HasLots (length ends.items) mine.me.0 }
        ensures { (result.0.table_id ≡ mine.table_id) × Leaves
            (program_of B.places B.awaits B.left B.asks B.then) result.1 mine.me.0 result.0.me }
    { work_all::<B, P, G, R>(rt, alloc, laid, mine, ends, gate) };
    let (waited, worked) = join(rt, waiting, working);
    let Some(given) = waited else {
        return Err(Oom);
    };
    let (answer, watched) = given;
    let (seat, left) = take_in(laid, worked.0, worked.1, watched, answer);
    Ok((seat, left, answer))
}
