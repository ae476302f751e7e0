//! A run: a table, a pool with an end for each worker, and the workers. Two start at once, and each
//! further one where there is work for it, in a thread of its own where one can be made. A worker for
//! which no thread could be made runs after the one before it; any one of them can finish the run.
ghost use Rattle.std.specs.Prelude.{◌≡◌, ◌≢◌, ◌⊎◌, ◌<◌, ◌≤◌, [], All, IfErr, IfOk, length};
ghost use Rattle.std.specs.List.Sorted.{IsPermutation};
ghost use Rattle.std.specs.Thread.{IsSync};
ghost use denote.Param.Send.{IsSend};
ghost use Rattle.tj_base.specs.declared.cell.TheConstants.{MAX_CELLS};
ghost use Rattle.tj_body.specs.Asks.{IsFresh};
ghost use Rattle.tj_body.specs.Programs.{program_of};
ghost use Rattle.tj_body.specs.Rounds.{IsFull};
ghost use Rattle.tj_words.specs.Law.{IsRooted};
ghost use Rattle.tj_words.specs.SeatViews.SeatSteps.{IsSeatOf};
ghost use Rattle.tj_words.specs.SeatViews.Views.{IsIdle, both};
ghost use Rattle.tj_run.specs.Workers.{IsFree, table_program};
ghost use Rattle.tj_run.specs.Leaving.{Leaves};
ghost use Rattle.tj_run.specs.Runs.{HasLots, RestsAt};

use crate::beginning::begun;
use crate::turns::{wait_for_work, worker};
use crate::why::{Left, RunFault, Why};
use std::alloc::Global;
use std::sync::Wait;
use std::thread::{Threads, join};
use tj_body::Body;
use tj_ports::Gate;
use tj_ready::Pool;
use tj_words::{Laid, RestWords, WSeat};

/// Runs a program with this root to its rest, on a table of so many cells, by so many workers. `Full`
/// comes exactly where the meaning needs more cells.
pub fn run_all<B: Body, P: Pool, G: Gate, R: Wait + Threads + Sync>(
    rt: &R,
    alloc: Global,
    root: B,
    cells: u32,
    workers: u32,
    gate: &G,
    strict: bool,
) -> Result<RestWords<B>, RunFault>
    requires cells { (0 < cells) × (cells ≤ MAX_CELLS) }
    requires workers { (0 < workers) × (workers ≤ 64) }
    requires root { IsFresh B.places B.awaits B.left 1 root }
    // With `Ok` the table rests: the cells, the root and the rule are those that were given, and no
    // more cells were drawn than there are; each task has ended, or is parked or has alarmed, and
    // nothing has become of what it waits for; what stands is exactly the meaning of the root, with
    // the value of each cell; each standing cycle, and each cycle of the meaning's waits, has a
    // member that has alarmed, and each task that has alarmed is on a cycle. The words and the
    // records are the end of a run of a table for this program from its first state: by step calls,
    // each of a seat of which what it asks is so, by splits, and by merges of idle seats.
    ensures rest { IfOk result (RestsAt
        (program_of B.places B.awaits B.left B.asks B.then) root cells strict) }
    // Then the meaning isn't full.
    ensures fits { IfOk result (λ _. ¬ IsFull
        (program_of B.places B.awaits B.left B.asks B.then strict root) cells) }
    // Full comes only where the meaning is full. So, want of memory aside, it comes exactly there.
    ensures full { IfErr result (λ fault. fault ≡ RunFault.Full → IsFull
        (program_of B.places B.awaits B.left B.asks B.then strict root) cells) }
{
    let (ends, laid, seat) = begun::<B, P, R>(rt, alloc, root, cells, workers, strict)?;
    let (seat, left) = work_all::<B, P, G, R>(rt, alloc, &laid, seat, ends, gate);
    match left {
        Left::Rested => Ok(laid.rest(seat)),
        Left::Stopped(why) => Err(fault_of(why)),
    }
}

// Why a run that was stopped has no outcome.
fn fault_of(why: Why) -> RunFault
    ensures { result ≡ RunFault.Full → why ≡ Why.Full }
{
    match why {
        Why::Full => RunFault::Full,
        Why::Memory => RunFault::Oom,
    }
}

/// A worker for each end of the pool. Two are started at once, and each further one by the one before
/// it, in a thread of its own where one can be made, once there is work for one more.
pub fn work_all<B: Body, P: Pool, G: Gate, R: Wait + Threads + Sync>(
    rt: &R,
    alloc: Global,
    laid: &Laid<B>,
    seat: WSeat<B>,
    ends: Vec<P>,
    gate: &G,
) -> (WSeat<B>, Left)
    requires table { IsSeatOf laid.now seat }
    requires free { IsFree laid.now seat.me }
    requires rooted { IsRooted (table_program (program_of B.places B.awaits B.left B.asks B.then)
        laid.now) }
    requires crosses { IsSync R.row × IsSync G.row × IsSend B.row × IsSend P.row }
    requires pools { All (λ end. P.limit end ≡ laid.now.cells) ends.items }
    requires lots { HasLots (length ends.items) seat.me.0 }
    // The seat that the workers give back is one of the same table.
    ensures table { result.0.table_id ≡ seat.table_id }
    // They leave as one worker does: at rest, with the lot of the seat that was given; or stopped,
    // where any of them was.
    ensures left { Leaves (program_of B.places B.awaits B.left B.asks B.then) result.1 seat.me.0
        result.0.me }
{
    work_more::<B, P, G, R>(rt, alloc, laid, seat, reversed(ends), gate, 0)
}

// The ends from the last one on, so that the first one's worker is started first.
fn reversed<P: Pool>(ends: Vec<P>) -> Vec<P>
    ensures same { IsPermutation ends.items result.items }
    ensures count { length result.items ≡ length ends.items }
{
    let mut ends = ends;
    ends.as_mut_slice().reverse();
    ends
}

/// The same for the ends from the last one on, where so many workers have been started before.
#[cycle(workers)]
fn work_more<B: Body, P: Pool, G: Gate, R: Wait + Threads + Sync>(
    rt: &R,
    alloc: Global,
    laid: &Laid<B>,
    seat: WSeat<B>,
    ends: Vec<P>,
    gate: &G,
    started: u32,
) -> (WSeat<B>, Left)
    requires table { IsSeatOf laid.now seat }
    requires free { IsFree laid.now seat.me }
    requires rooted { IsRooted (table_program (program_of B.places B.awaits B.left B.asks B.then)
        laid.now) }
    requires crosses { IsSync R.row × IsSync G.row × IsSend B.row × IsSend P.row }
    requires pools { All (λ end. P.limit end ≡ laid.now.cells) ends.items }
    requires lots { HasLots (length ends.items) seat.me.0 }
    ensures table { result.0.table_id ≡ seat.table_id }
    ensures left { Leaves (program_of B.places B.awaits B.left B.asks B.then) result.1 seat.me.0
        result.0.me }
{
    let mut seat = seat;
    let mut ends = ends;
    let number = started.saturating_add(1);
    let Some(end) = ends.pop() else {
        return (seat, Left::Stopped(Why::Memory));
    };
    if ends.is_empty() {
        return worker(rt, alloc, laid, seat, end, gate, number);
    }
    if let Some(how) = wait_for_work(rt, laid, &mut seat, started) {
        return (seat, how);
    }
    let (mine, theirs) = laid.split(seat);
    let own = move || -> (WSeat<B>, Left)
        requires { IsSync R.row × IsSync G.row × IsSend B.row × IsSend P.row
            × IsSeatOf laid.now theirs × IsFree laid.now theirs.me
            × IsRooted (table_program (program_of B.places B.awaits B.left B.asks B.then) laid.now)
            × (P.limit end ≡ laid.now.cells) }
        ensures { (result.0.table_id ≡ theirs.table_id) × Leaves
            (program_of B.places B.awaits B.left B.asks B.then) result.1 theirs.me.0 result.0.me }
    { worker(rt, alloc, laid, theirs, end, gate, number) };
    let others = move || -> (WSeat<B>, Left)
        requires { IsSync R.row × IsSync G.row × IsSend B.row × IsSend P.row
            × IsSeatOf laid.now mine × IsFree laid.now mine.me
            × IsRooted (table_program (program_of B.places B.awaits B.left B.asks B.then) laid.now)
            × All (λ end. P.limit end ≡ laid.now.cells) ends.items
            × HasLots (length ends.items) mine.me.0 }
        ensures { (result.0.table_id ≡ mine.table_id) × Leaves
            (program_of B.places B.awaits B.left B.asks B.then) result.1 mine.me.0 result.0.me }
    { work_more(rt, alloc, laid, mine, ends, gate, number) };
    let (b, a) = join(rt, others, own);
    both_left(laid, a, b)
}

// How two leave that were one seat: at rest, or stopped where one of them was.
fn both_left<B: Body>(laid: &Laid<B>, a: (WSeat<B>, Left), b: (WSeat<B>, Left)) -> (WSeat<B>, Left)
    requires table { IsSeatOf laid.now a.0 }
    requires other_table { IsSeatOf laid.now b.0 }
    requires rested { (a.1 ≡ Left.Rested) → IsIdle a.0.me.0 × (a.0.me.1 ≡ []) }
    requires other_rested { (b.1 ≡ Left.Rested) → IsIdle b.0.me.0 × (b.0.me.1 ≡ []) }
    ensures table { result.0.table_id ≡ laid.now.table.shared.table_id }
    ensures rested { result.1 ≡ Left.Rested → (a.1 ≡ Left.Rested) × (b.1 ≡ Left.Rested)
        × (result.0.me ≡ (both b.0.me.0 a.0.me.0, [])) × IsIdle result.0.me.0 }
    ensures stopped { result.1 ≢ Left.Rested → (result ≡ a) ⊎ (result ≡ b) }
{
    match (a.1, b.1) {
        (Left::Rested, Left::Rested) => (laid.merge(b.0, a.0), Left::Rested),
        (Left::Stopped(why), _) => (a.0, Left::Stopped(why)),
        (Left::Rested, Left::Stopped(why)) => (b.0, Left::Stopped(why)),
    }
}
