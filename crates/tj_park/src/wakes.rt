//! Waking those who wait for a cell. The head of the cell's chain is shut, which takes the chain to this
//! seat as its rest; then the first of the rest becomes ready, until nobody is left. A token is taken
//! before each task becomes ready, and spent by that, so that LIVE isn't 0 in between.
ghost use Rattle.std.specs.Prelude.{◌≡◌, ◌+◌, ◌≤◌, IfOk, OnErr};
ghost use Rattle.tj_words.specs.SeatViews.SeatSteps.{IsSeatOf, IsCellOf, IsSameSeat};
ghost use Rattle.tj_words.specs.Words.Heads.{head_word};
ghost use Rattle.tj_park.specs.ParkLogs.{MakesLowered};
ghost use Rattle.tj_park.specs.Wakes.{MayWake, WakesAll, WakesSome};
ghost use Rattle.tj_park.specs.Inner.FirstWaiters.{
  MayWakeFirst,
  StepsOfFirst,
  WakesFirst,
  counted_in,
  lowered_for,
};

use std::alloc::Global;
use std::sync::Wait;
use tj_base::{CellId, Oom};
use tj_body::Body;
use tj_ready::Pool;
use tj_words::{Head, Laid, Phase, WSeat, Way};

/// Wakes each task that waits for `p`: it is ready then, and put into the pool. Tells how many there
/// were. After `Oom` one task more is ready and isn't in the pool, others are left to this seat as its
/// rest, and the run is to stop.
// It asks that no record lies in the slot taken last: its steps on LIVE would bring that home.
pub fn wake<B: Body, P: Pool, R: Wait>(
    rt: &R,
    alloc: Global,
    laid: &Laid<B>,
    seat: &mut WSeat<B>,
    p: CellId,
    pool: &mut P,
) -> Result<u32, Oom>
    requires table { IsSeatOf laid.now seat.old }
    requires cell { IsCellOf laid.now p.0 }
    requires may { MayWake p.0 seat.old.me }
    requires pool { P.limit pool.old ≡ laid.now.cells }
    // The seat is the same one of the same table, with the same slots.
    ensures seat { IsSameSeat seat.old seat.new }
    // The pool's limit stays.
    ensures limit { P.limit pool.new ≡ P.limit pool.old }
    // After `Ok` the chain that this call took is woken, each task of it once and put into the pool
    // in its order; the number is told, and nobody is left to the seat. Its view notes of each, in
    // this order, that NEXT named the one behind it, and that PHASE said that it was parked on this
    // cell. The steps of this call are: the head is swapped for a shut one, which finds the chain;
    // then for each task of it, in its order, NEXT and PHASE are loaded, LIVE is raised, PHASE
    // exchanged for Ready, and OTHERS lowered if the wait was counted there.
    ensures woke { IfOk result (λ n. WakesAll P.puts p.0 n seat.old seat.new pool.old pool.new) }
    // After an error some were woken and put, one more is ready and not in the pool, and the others
    // are left to the seat; the notes, and the steps, are those of the woken ones.
    ensures memory { OnErr result (WakesSome P.puts P.same p.0 seat.old seat.new
        pool.old pool.new) }
{
    let mut first = laid.shut(seat, p);
    let mut woken = 0;
    while let Head::Task(t) = first {
        first = wake_first(laid, seat, p, t);
        pool.put(rt, alloc, t)?;
        woken += 1;
    }
    Ok(woken)
}

// Makes the first task of the rest ready, and tells how the rest goes on.
fn wake_first<B: Body>(laid: &Laid<B>, seat: &mut WSeat<B>, p: CellId, t: CellId) -> Head
    requires table { IsSeatOf laid.now seat.old }
    requires cell { IsCellOf laid.now t.0 }
    requires may { MayWakeFirst p.0 t.0 seat.old.me }
    ensures seat { IsSameSeat seat.old seat.new }
    ensures small { head_word result ≤ laid.now.cells }
    ensures woke { WakesFirst p.0 t.0 result seat.old.me.0 seat.new.me.0 }
    ensures log { StepsOfFirst p.0 t.0 seat.old seat.new }
{
    let next = laid.next_of(seat, t);
    let was = laid.see_phase(seat, t, None);
    laid.live_up(seat);
    let _ = laid.swap_phase(seat, t, was, Phase::Ready);
    lower(laid, seat, was);
    next
}

// Lowers OTHERS for the wait of a task that was parked so, where it was counted there.
pub(crate) fn lower<B: Body>(laid: &Laid<B>, seat: &mut WSeat<B>, was: Phase)
    requires table { IsSeatOf laid.now seat.old }
    requires cleared { counted_in was ≤ seat.old.me.0.cleared }
    ensures seat { IsSameSeat seat.old seat.new }
    ensures view { seat.new.me.0 ≡ lowered_for was seat.new.me.0.steps seat.old.me.0 }
    ensures steps { seat.new.me.0.steps ≤ seat.old.me.0.steps + 1 }
    ensures log { MakesLowered was seat.old seat.new }
{
    match was {
        Phase::Waiting(_, Way::Other, _) => laid.others_down(seat),
        _ => {}
    }
}
