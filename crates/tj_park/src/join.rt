//! A task that its seat has parked is added to the chain of those who wait for its cell.
ghost use Rattle.std.specs.Prelude.{suc, ◌≡◌, ◌+◌, ◌≤◌, [], ◌∷◌};
ghost use Rattle.tj_events.specs.declared.walk.Way.{Way};
ghost use Rattle.tj_words.specs.Calls.ParkSteps.{new_push};
ghost use Rattle.tj_words.specs.SeatViews.SeatSteps.{IsCellOf, IsSameSeat, IsSeatOf};
ghost use Rattle.tj_park.specs.ParkLogs.{MakesJoin};
ghost use Rattle.tj_park.specs.ParkViews.{HasFoundChains};
ghost use Rattle.tj_park.specs.Inner.JoinViews.{FindsShutOnce, IsAdded, LooksOn, join_steps};

use tj_base::CellId;
use tj_body::Body;
use tj_words::{Head, Laid, WSeat};

/// Adds task `t` to the chain of `q`. False says that the head of the chain was found shut. Each
/// push that fails finds a longer chain, so there are at most as many as cells.
pub(crate) fn join_chain<B: Body>(laid: &Laid<B>, seat: &mut WSeat<B>, t: CellId, q: CellId) -> bool
    requires table { IsSeatOf laid.now seat.old }
    requires task { IsCellOf laid.now t.0 }
    requires cell { IsCellOf laid.now q.0 }
    requires push { (way : Way) × (seat.old.me.0.pushes ≡ new_push t.0 q.0 way ∷ []) }
    ensures seat { IsSameSeat seat.old seat.new }
    ensures looks { LooksOn laid.now.cells seat.old.me.0 seat.new.me.0 }
    ensures pushes { HasFoundChains laid.now.cells seat.old.me.0 seat.new.me.0 }
    ensures closed { FindsShutOnce q.0 result seat.old.me.0 seat.new.me.0 }
    ensures steps { seat.new.me.0.steps ≤ seat.old.me.0.steps + join_steps laid.now.cells }
    ensures log { MakesJoin t.0 q.0 result seat.old seat.new }
    ensures added { IsAdded q.0 result seat.old.me.0 seat.new.me.0 }
{
    let mut behind = laid.head(seat, q);
    while behind != Head::Shut {
        laid.put_next(seat, t, behind);
        let found = laid.push(seat, q, t, behind);
        if found == behind {
            return true;
        }
        behind = found;
    }
    false
}
