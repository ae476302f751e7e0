//! One look at a cell, and a watch, which looks until it is answered.
ghost use Rattle.std.specs.Prelude.{◌≡◌, ◌<◌, ◌≤◌, [], IfSome, None};
ghost use Rattle.tj_body.specs.Programs.{program_of};
ghost use Rattle.tj_words.specs.SeatViews.SeatSteps.{IsCellOf, IsSameSeat, IsSeatOf};
ghost use Rattle.tj_words.specs.SeatViews.Views.{IsIdle};
ghost use Rattle.tj_run.specs.Leaving.{stop_word};
ghost use Rattle.tj_future.specs.LookLogs.{MakesLook, MakesLooks};
ghost use Rattle.tj_future.specs.Looks.{Answers, GoesOn, IsWatched, told_as};

use crate::watched::Watched;
use std::sync::Wait;
use std::time::Duration;
use tj_base::CellId;
use tj_body::Body;
use tj_cells::{Seen, value};
use tj_run::Why;
use tj_runs::rested_runs;
use tj_words::{Fill, Laid, Stop, WSeat};

/// One look at cell `p`: it loads TAG, and where that is 0 then STOP, and where that is 0 then LIVE, and
/// where that is 0 TAG again. It answers nothing where LIVE is above 0.
// It gives the answer alone; what was loaded, and in which order, stands in the seat's view.
pub fn look_at<B: Body>(laid: &Laid<B>, seat: &mut WSeat<B>, p: CellId) -> Option<Watched>
    requires table { IsSeatOf laid.now seat.old }
    requires cell { IsCellOf laid.now p.0 }
    requires idle { IsIdle seat.old.me.0 }
    requires slots { seat.old.me.1 ≡ [] }
    // The seat is the same one of the same table, with the same slots.
    ensures seat { IsSameSeat seat.old seat.new }
    // It may be merged again: it holds no task and has nothing to come,
    ensures idle { IsIdle seat.new.me.0 }
    // nor has it a slot.
    ensures slots { seat.new.me.1 ≡ [] }
    // It has the lot that it came with.
    ensures lot { seat.new.me.0.lot ≡ seat.old.me.0.lot }
    // Nothing is answered only where TAG of this cell was loaded as 0, then STOP as 0, and then
    // LIVE above 0.
    ensures none { result ≡ None → GoesOn (program_of B.places B.awaits B.left B.asks B.then) p.0
        seat.old.me.0 seat.new.me.0 }
    // A value or Broken comes only where the words of this cell say so: what it says is what
    // becomes of the cell in some round of the program, for good, and the seat knows it from then
    // on; it was read at once, or after LIVE was loaded as 0. Where it is Rested, LIVE was found to
    // be 0, and a load of TAG of this cell that came later found 0; from that moment on no step
    // call, split or merge makes TAG other than 0, so the cell never gets a value. Where it is
    // Stopped, the word for why was found in STOP; and the meaning is full where that is the one
    // for full.
    ensures some { IfSome result (λ watched. Answers (program_of B.places B.awaits B.left B.asks
        B.then) laid.now.cells p.0 watched seat.old.me.0 seat.new.me.0) }
    // The call is these loads, in this order, and no other step: TAG of this cell as 0, then STOP
    // as 0, and then LIVE above 0, where nothing is answered; these with LIVE as 0, and then TAG as
    // 0, for Rested; TAG as 0 and then STOP as the word for why, for Stopped; TAG and BITS for a
    // value or Broken, at once or after TAG, STOP and LIVE were loaded as 0 each.
    ensures log { MakesLook p.0 result seat.old seat.new }
{
    rested_runs::<B>();
    let seen = value(laid, seat, p);
    let Seen::NotYet = seen else {
        return Some(told(seen));
    };
    let stop = laid.stopped(seat);
    if stop != 0 {
        return Some(Watched::Stopped(why_of(stop)));
    }
    if laid.live(seat) != 0 {
        return None;
    }
    Some(told(value(laid, seat, p)))
}

// What is told of a cell that was seen like this where nothing goes on any more.
fn told(seen: Seen) -> Watched
    ensures { result ≡ told_as seen }
{
    match seen {
        Seen::Num(number) => Watched::Value(Fill::Num(number)),
        Seen::Promise(cell) => Watched::Value(Fill::Promise(cell)),
        Seen::Task(cell) => Watched::Value(Fill::Task(cell)),
        Seen::Broken => Watched::Broken,
        Seen::NotYet => Watched::Rested,
    }
}

// What STOP says.
fn why_of(word: u64) -> Why
    requires some { 0 < word }
    requires known { word ≤ 2 }
    ensures { stop_word result ≡ word }
{
    match Stop::of_word(word) {
        Some(stop) => Why::of_stop(stop),
        None => unreachable!(),
    }
}

/// How many milliseconds a watch sleeps at first between two looks, and at most.
const SHORTEST: u64 = 1;

const LONGEST: u64 = 16;

/// Looks at cell `p` until it is answered. Between two looks it sleeps, for no longer than `LONGEST`,
/// while TAG of the cell is 0.
// No measure and no number of looks, after which it would have no answer.
pub fn watch<B: Body, R: Wait>(
    rt: &R,
    laid: &Laid<B>,
    seat: WSeat<B>,
    p: CellId,
) -> (Watched, WSeat<B>)
    requires table { IsSeatOf laid.now seat }
    requires cell { IsCellOf laid.now p.0 }
    requires idle { IsIdle seat.me.0 }
    requires slots { seat.me.1 ≡ [] }
    // The seat that comes back is one of the same table.
    ensures table { result.1.table_id ≡ seat.table_id }
    // It may be merged again,
    ensures idle { IsIdle result.1.me.0 }
    // and has no slot.
    ensures slots { result.1.me.1 ≡ [] }
    // It has the lot that it came with.
    ensures lot { result.1.me.0.lot ≡ seat.me.0.lot }
    // The answer is that of the last look, as `look_at` says it; the seat had known by then all
    // that it knew before.
    ensures answer { IsWatched (program_of B.places B.awaits B.left B.asks B.then) laid.now.cells
        p.0 result.0 seat.me.0 result.1.me.0 }
    // The call is looks and no other step: each but the last one answered nothing, and their loads
    // are those that `look_at` `log` says.
    ensures log { MakesLooks p.0 result.0 seat result.1 }
{
    let mut seat = seat;
    let mut pause = SHORTEST;
    for _i in rt.forever() {
        if let Some(watched) = look_at(laid, &mut seat, p) {
            return (watched, seat);
        }
        laid.park_on_tag(rt, p, Duration::from_millis(pause));
        pause = pause.saturating_mul(2).min(LONGEST);
    }
    unreachable!()
}
