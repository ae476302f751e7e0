//! A worker's turns. In each it loads STOP, and takes a task from its pool. Where there is none it
//! loads LIVE: at 0 no task is ready, runs or walks, and no worker is about to make one ready.
ghost use Rattle.std.specs.Prelude.{◌≡◌, ◌≢◌, ℕ, ◌<◌, IfSome, MatchResult, None};
ghost use Rattle.tj_body.specs.Points.{IsIn};
ghost use Rattle.tj_body.specs.Programs.{program_of};
ghost use Rattle.tj_words.specs.Law.{IsRooted};
ghost use Rattle.tj_words.specs.SeatViews.SeatSteps.{IsSameSeat, IsSeatOf};
ghost use Rattle.tj_words.specs.SeatViews.Views.{saw_stop};
ghost use Rattle.tj_cells.specs.CallLogs.{Grows};
ghost use Rattle.tj_run.specs.Workers.{IsFree, table_program};
ghost use Rattle.tj_run.specs.Leaving.{EndsLog, Found, FoundStop, HasStopped, Leaves};
ghost use Rattle.tj_run.specs.Inner.Posts.{IsPostOf, IsSamePost};
ghost use Rattle.tj_run.specs.Inner.Turns.{TurnsTo};
ghost use Rattle.tj_run.specs.Inner.Waits.{IsLeft};

use crate::pauses::Pauses;
use crate::post::Post;
use crate::why::{Left, Why};
use std::alloc::Global;
use std::sync::Wait;
use tj_body::Body;
use tj_park::claim;
use tj_ports::Gate;
use tj_ready::Pool;
use tj_words::{Laid, Stop, WSeat};

/// A worker: it takes its turns until nothing goes on any more, or the run is stopped. `gate` is
/// entered before each turn, with the worker's number and the turn, both from 1. `Rested` comes only
/// where this call loaded LIVE as 0, as its last step, and `Stopped` only where it loaded STOP so.
pub fn worker<B: Body, P: Pool, G: Gate, R: Wait>(
    rt: &R,
    alloc: Global,
    laid: &Laid<B>,
    seat: WSeat<B>,
    pool: P,
    gate: &G,
    number: u32,
) -> (WSeat<B>, Left)
    requires table { IsSeatOf laid.now seat }
    requires free { IsFree laid.now seat.me }
    requires rooted { IsRooted (table_program (program_of B.places B.awaits B.left B.asks B.then)
        laid.now) }
    requires pool { P.limit pool ≡ laid.now.cells }
    // The seat that the worker gives back is one of the same table.
    ensures table { result.0.table_id ≡ seat.table_id }
    // A worker that has rested has loaded LIVE as 0, and its seat has no task, no slot and nothing
    // to do, and the lot that it came with. One that was stopped has loaded STOP, the last time, as
    // why it says; and as full only where the meaning of the program, with the number of cells, is
    // full.
    ensures left { Leaves (program_of B.places B.awaits B.left B.asks B.then) result.1 seat.me.0
        result.0.me }
    // Rested comes only where the last step of this call loaded LIVE as 0, and Stopped only where
    // it loaded STOP as why it says: the view before that step has what the seat noted in this call
    // in front of its notes.
    ensures found { Found result.1 seat.me.0 result.0.me.0 }
    // The log of its seat is longer by the steps of this call, and the last of them is that load:
    // of LIVE, which was 0, or of STOP, which said why.
    ensures log { EndsLog result.1 seat result.0 }
{
    let mut post = Post {
        rt,
        alloc,
        seat,
        pool,
    };
    let mut turn: u64 = 0;
    let mut pauses = Pauses::none();
    for _i in rt.forever() {
        turn = turn.saturating_add(1);
        gate.enter(number, turn);
        if let Some(how) = post.take_turn(laid, &mut pauses) {
            return (post.seat, how);
        }
    }
    unreachable!()
}

impl<B: Body, P: Pool, R: Wait> Post<'_, B, P, R> {
    /// One turn: the worker claims a task, if that is ready, and runs it. A task that isn't ready is left
    /// as it is. The worker leaves where it is at rest, or the run is stopped.
    #[inline(always)]
    fn take_turn(&mut self, laid: &Laid<B>, pauses: &mut Pauses) -> Option<Left>
        requires post { IsPostOf P.limit laid.now self.old }
        requires free { IsFree laid.now self.old.seat.me }
        requires rooted { IsRooted (table_program (program_of B.places B.awaits B.left B.asks
            B.then) laid.now) }
        ensures post { IsSamePost P.limit self.old self.new }
        ensures turns { TurnsTo (program_of B.places B.awaits B.left B.asks B.then) laid.now result
            self.old.seat.me.0 self.new.seat.me }
        ensures found { IfSome result (λ how. Found how self.old.seat.me.0 self.new.seat.me.0) }
        ensures log { IfSome result (λ how. EndsLog how self.old.seat self.new.seat) }
        ensures grows { Grows self.old.seat self.new.seat }
    {
        if let Some(why) = stop_word(laid, &mut self.seat) {
            return Some(Left::Stopped(why));
        }
        let Some(t) = self.pool.take(self.rt) else {
            return idle(self.rt, laid, &mut self.seat, pauses);
        };
        let stolen = self.pool.has_stolen();
        let Some(rec) = claim(laid, &mut self.seat, t) else {
            return None;
        };
        let mut parked = false;
        match self.run(laid, rec, &mut parked) {
            Ok(()) => {
                pauses.after_turn(self.rt, stolen, parked);
                None
            }
            Err(why) => Some(Left::Stopped(stop_run(laid, &mut self.seat, why))),
        }
    }
}

// Loads STOP.
fn stop_word<B: Body>(laid: &Laid<B>, seat: &mut WSeat<B>) -> Option<Why>
    requires table { IsSeatOf laid.now seat.old }
    ensures seat { IsSameSeat seat.old seat.new }
    ensures none { result ≡ None → seat.new.me.0 ≡ saw_stop 0 seat.old.me.0 }
    ensures some { IfSome result (λ why. HasStopped
        (program_of B.places B.awaits B.left B.asks B.then) why seat.old.me.0 seat.new.me.0) }
    ensures stands { (n : ℕ) → IsIn n seat.old.me.0.stored → result ≢ None }
    ensures found { IfSome result (λ why. FoundStop why seat.old.me.0 seat.new.me.0) }
    ensures log { IfSome result (λ why. EndsLog (Left.Stopped why) seat.old seat.new) }
    ensures grows { Grows seat.old seat.new }
{
    let word = laid.stopped(seat);
    match Stop::of_word(word) {
        None => None,
        Some(stop) => Some(Why::of_stop(stop)),
    }
}

// Loads LIVE: the worker has nothing to do. Where others have, it pauses.
fn idle<B: Body, R: Wait>(
    rt: &R,
    laid: &Laid<B>,
    seat: &mut WSeat<B>,
    pauses: &mut Pauses,
) -> Option<Left>
    requires table { IsSeatOf laid.now seat.old }
    requires free { IsFree laid.now seat.old.me }
    ensures table { seat.new.table_id ≡ seat.old.table_id }
    ensures turns { TurnsTo (program_of B.places B.awaits B.left B.asks B.then) laid.now result
        seat.old.me.0 seat.new.me }
    ensures found { IfSome result (λ how. Found how seat.old.me.0 seat.new.me.0) }
    ensures log { IfSome result (λ how. EndsLog how seat.old seat.new) }
    ensures grows { Grows seat.old seat.new }
{
    if laid.live(seat) == 0 {
        return Some(Left::Rested);
    }
    pauses.pause(rt);
    None
}

// Stores STOP, and loads it: another worker may have stored it too.
fn stop_run<B: Body>(laid: &Laid<B>, seat: &mut WSeat<B>, why: Why) -> Why
    requires table { IsSeatOf laid.now seat.old }
    requires refused { why ≡ Why.Full → 0 < seat.old.me.0.refused }
    ensures table { seat.new.table_id ≡ seat.old.table_id }
    ensures stopped { HasStopped (program_of B.places B.awaits B.left B.asks B.then) result
        seat.old.me.0 seat.new.me.0 }
    ensures found { FoundStop result seat.old.me.0 seat.new.me.0 }
    ensures log { EndsLog (Left.Stopped result) seat.old seat.new }
{
    let word = why.stop().word();
    laid.stop(seat, word);
    match stop_word(laid, seat) {
        Some(told) => told,
        None => unreachable!(),
    }
}

// Loads STOP and LIVE: how many tasks are live, or how a worker leaves that has nothing to do.
fn live_tasks<B: Body>(laid: &Laid<B>, seat: &mut WSeat<B>) -> Result<u32, Left>
    requires table { IsSeatOf laid.now seat.old }
    requires free { IsFree laid.now seat.old.me }
    ensures table { seat.new.table_id ≡ seat.old.table_id }
    ensures left { MatchResult result (λ _. IsLeft laid.now seat.old.me.0 seat.new.me) (λ how. Leaves
        (program_of B.places B.awaits B.left B.asks B.then) how seat.old.me.0 seat.new.me) }
{
    if let Some(why) = stop_word(laid, seat) {
        return Err(Left::Stopped(why));
    }
    let live = laid.live(seat);
    if live == 0 {
        return Err(Left::Rested);
    }
    Ok(live)
}

/// Waits before one more worker is started than so many. Two are started at once, where a task is live,
/// and a further one where more tasks are live than workers are started. Where it comes to that no
/// more, it leaves as a worker does that finds nothing to do.
pub(crate) fn wait_for_work<B: Body, R: Wait>(
    rt: &R,
    laid: &Laid<B>,
    seat: &mut WSeat<B>,
    started: u32,
) -> Option<Left>
    requires table { IsSeatOf laid.now seat.old }
    requires free { IsFree laid.now seat.old.me }
    ensures table { seat.new.table_id ≡ seat.old.table_id }
    ensures turns { TurnsTo (program_of B.places B.awaits B.left B.asks B.then) laid.now result
        seat.old.me.0 seat.new.me }
{
    let mut pauses = Pauses::none();
    for _i in rt.forever() {
        match live_tasks(laid, seat) {
            Err(how) => return Some(how),
            Ok(live) => {
                if started < live.max(2) {
                    return None;
                }
            }
        }
        pauses.pause(rt);
    }
    unreachable!()
}
