//! A run with a watch of its root beside the workers.
ghost use Rattle.std.specs.Prelude.{◌≡◌, ◌≢◌, ◌⊎◌, ◌<◌, ◌≤◌, ◌*◌, [], All, false, IfErr, IfOk, IfSome, None, length};
ghost use Rattle.std.specs.Thread.{IsSync};
ghost use denote.Param.Send.{IsSend};
ghost use Rattle.tj_base.specs.declared.cell.TheConstants.{MAX_CELLS};
ghost use Rattle.tj_body.specs.Asks.{IsFresh};
ghost use Rattle.tj_body.specs.Points.{IsIn};
ghost use Rattle.tj_body.specs.Programs.{program_of};
ghost use Rattle.tj_body.specs.Rounds.{IsFull};
ghost use Rattle.tj_words.specs.Law.{IsRooted};
ghost use Rattle.tj_words.specs.LawParts.Lots.{least_lot};
ghost use Rattle.tj_words.specs.SeatViews.SeatSteps.{IsSeatOf};
ghost use Rattle.tj_words.specs.SeatViews.Views.{IsIdle, both, left_half};
ghost use Rattle.tj_run.specs.Workers.{IsFree, table_program};
ghost use Rattle.tj_run.specs.Leaving.{Leaves};
ghost use Rattle.tj_run.specs.Runs.{HasLots, RestsAt};
ghost use Rattle.tj_future.specs.LookLogs.{MakesLooks};
ghost use Rattle.tj_future.specs.Looks.{IsWatched};
ghost use Rattle.tj_future.specs.RootWatches.{IsRootWatched};
ghost use Rattle.tj_future.specs.WatchedRuns.{EndsWatched, HasWatched};

use crate::looks::watch;
use crate::watched::Watched;
use std::alloc::Global;
use std::sync::Wait;
use std::thread::{Threads, join};
use tj_base::CellId;
use tj_body::Body;
use tj_ports::Gate;
use tj_ready::Pool;
use tj_run::{Left, RunFault, Why, begun, work_all};
use tj_words::{Laid, RestWords, WSeat};

/// Runs a program with this root to its rest without the strict rule, as `run_all` does, with a watch
/// of the root beside the workers. `Full` comes exactly where the meaning needs more cells. What is
/// told of the root is what the watch was answered, and its record says it. That watch and workers
/// overlap is said by no clause.
pub fn run_watched<B: Body, P: Pool, G: Gate, R: Wait + Threads + Sync>(
    rt: &R,
    alloc: Global,
    root: B,
    cells: u32,
    workers: u32,
    gate: &G,
) -> Result<(Watched, RestWords<B>), RunFault>
    requires cells { (0 < cells) × (cells ≤ MAX_CELLS) }
    requires workers { (0 < workers) × (workers ≤ 64) }
    requires root { IsFresh B.places B.awaits B.left 1 root }
    // With `Ok` the table rests at the meaning of the root without the strict rule, as of
    // `tj_run::run_all`.
    ensures rest { IfOk result (λ out. RestsAt (program_of B.places B.awaits B.left B.asks B.then)
        root cells false out.1) }
    // What is told of the root is what its record says, and nothing else: its value where it
    // finished with one, Broken where it failed, Rested where it has no ending; so Stopped isn't
    // told.
    ensures watched { IfOk result (λ out. IsRootWatched out.1.records out.0) }
    // It is what the watch was answered: the watch's seat began with a half of the first seat, made
    // looks at the root, of which the last was answered so, as `look_at` says it, and no other step;
    // and the seat that closed the table has taken it in, with its log, in the run whose end this is.
    ensures run { IfOk result (λ out. EndsWatched (program_of B.places B.awaits B.left B.asks B.then)
        cells false root 0 out.0 out.1) }
    // Then the meaning isn't full.
    ensures fits { IfOk result (λ _. ¬ IsFull
        (program_of B.places B.awaits B.left B.asks B.then false root) cells) }
    // Full comes only where the meaning is full. So, want of memory aside, it comes exactly there.
    ensures full { IfErr result (λ fault. fault ≡ RunFault.Full → IsFull
        (program_of B.places B.awaits B.left B.asks B.then false root) cells) }
{
    let (ends, laid, seat) = begun::<B, P, R>(rt, alloc, root, cells, workers, false)?;
    let (seat, left, answer) = work_watched::<B, P, G, R>(rt, alloc, &laid, seat, ends, gate);
    match left {
        Left::Rested => Ok((answer, laid.rest(seat))),
        Left::Stopped(why) => Err(fault_of(why)),
    }
}

// Why a run that was stopped has no outcome.
pub(crate) fn fault_of(why: Why) -> RunFault
    ensures { result ≡ RunFault.Full → why ≡ Why.Full }
{
    match why {
        Why::Full => RunFault::Full,
        Why::Memory => RunFault::Oom,
    }
}

// The workers, and a watch of the root beside them, whose seat is taken in again, with what the watch
// was answered. Where no thread can be made for the watch, it comes after the workers.
pub(crate) fn work_watched<B: Body, P: Pool, G: Gate, R: Wait + Threads + Sync>(
    rt: &R,
    alloc: Global,
    laid: &Laid<B>,
    seat: WSeat<B>,
    ends: Vec<P>,
    gate: &G,
) -> (WSeat<B>, Left, Watched)
    requires table { IsSeatOf laid.now seat }
    requires free { IsFree laid.now seat.me }
    requires rooted { IsRooted (table_program (program_of B.places B.awaits B.left B.asks B.then)
        laid.now) }
    requires crosses { IsSync R.row × IsSync G.row × IsSend B.row × IsSend P.row }
    requires pools { All (λ end. P.limit end ≡ laid.now.cells) ends.items }
    requires lots { HasLots (length ends.items) (left_half seat.me.0) }
    requires room { 2 * least_lot ≤ seat.me.0.lot }
    ensures table { result.0.table_id ≡ seat.table_id }
    ensures left { Leaves (program_of B.places B.awaits B.left B.asks B.then) result.1 seat.me.0
        result.0.me }
    ensures watched { HasWatched (program_of B.places B.awaits B.left B.asks B.then) laid.now.cells
        0 result.2 result.1 seat.me.0 result.0 }
{
    let (mine, theirs) = laid.split(seat);
    let watching = move || -> (Watched, WSeat<B>)
        requires { IsSeatOf laid.now theirs × (0 < laid.now.cells) × IsIdle theirs.me.0
            × (theirs.me.1 ≡ []) }
        ensures { (result.1.table_id ≡ theirs.table_id) × IsIdle result.1.me.0
            × (result.1.me.1 ≡ []) × (result.1.me.0.lot ≡ theirs.me.0.lot) × IsWatched
            (program_of B.places B.awaits B.left B.asks B.then) laid.entry.now.cells 0 result.0
            theirs.me.0 result.1.me.0 × MakesLooks 0 result.0 theirs result.1 }
    { watch(rt, laid, theirs, CellId(0)) };
    let working = move || -> (WSeat<B>, Left)
        requires { IsSync R.row × IsSync G.row × IsSend B.row × IsSend P.row
            × IsSeatOf laid.now mine × IsFree laid.now mine.me
            × IsRooted (table_program (program_of B.places B.awaits B.left B.asks B.then) laid.now)
            × All (λ end. P.limit end ≡ laid.now.cells) ends.items
            × HasLots (length ends.items) mine.me.0 }
        ensures { (result.0.table_id ≡ mine.table_id) × Leaves
            (program_of B.places B.awaits B.left B.asks B.then) result.1 mine.me.0 result.0.me }
    { work_all::<B, P, G, R>(rt, alloc, laid, mine, ends, gate) };
    let (watched, worked) = join(rt, watching, working);
    let (answer, watched) = watched;
    let (seat, left) = take_in(laid, worked.0, worked.1, watched, answer);
    (seat, left, answer)
}

// The seat of the workers takes in that of the watch. The run was stopped where either says so.
pub(crate) fn take_in<B: Body>(
    laid: &Laid<B>,
    worked: WSeat<B>,
    left: Left,
    watched: WSeat<B>,
    answer: Watched,
) -> (WSeat<B>, Left)
    requires table { IsSeatOf laid.now worked }
    requires other_table { IsSeatOf laid.now watched }
    requires rested { left ≡ Left.Rested → IsIdle worked.me.0 × (worked.me.1 ≡ []) }
    requires idle { IsIdle watched.me.0 }
    requires slots { watched.me.1 ≡ [] }
    ensures table { result.0.table_id ≡ laid.now.table.shared.table_id }
    ensures rested { result.1 ≡ Left.Rested → (left ≡ Left.Rested)
        × (result.0.me ≡ (both worked.me.0 watched.me.0, [])) × IsIdle result.0.me.0 }
    ensures runs_on { result.1 ≡ Left.Rested → (why : Why) → answer ≢ Watched.Stopped why }
    ensures took { result.1 ≡ Left.Rested → IsIn watched.log result.0.took }
    ensures stopped { (why : Why) → result.1 ≡ Left.Stopped why
        → ((result.0 ≡ worked) × (left ≡ Left.Stopped why))
        ⊎ ((result.0 ≡ watched) × (answer ≡ Watched.Stopped why)) }
{
    match (left, stopped_by(answer)) {
        (Left::Stopped(why), _) => (worked, Left::Stopped(why)),
        (Left::Rested, Some(why)) => (watched, Left::Stopped(why)),
        (Left::Rested, None) => (laid.merge(worked, watched), Left::Rested),
    }
}

// Why the run was stopped, where a watch was answered so.
fn stopped_by(answer: Watched) -> Option<Why>
    ensures some { IfSome result (λ why. answer ≡ Watched.Stopped why) }
    ensures none { result ≡ None → (why : Why) → answer ≢ Watched.Stopped why }
{
    match answer {
        Watched::Value(_) => None,
        Watched::Broken => None,
        Watched::Rested => None,
        Watched::Stopped(why) => Some(why),
    }
}
