//! The way of a wait.
ghost use Rattle.std.specs.Prelude.{◌≡◌, ◌+◌, ◌*◌};
ghost use Rattle.tj_words.specs.SeatViews.SeatSteps.{IsSeatOf, IsCellOf, IsSameSeat};
ghost use Rattle.tj_words.specs.Steps.WalkSteps.{way_by};
ghost use Rattle.tj_words.specs.SeatViews.TreeReads.{KnowsTask, HasReadTree};
ghost use Rattle.tj_detect.specs.ClimbLogs.{LogsClimb};
ghost use Rattle.tj_detect.specs.TreeReads.{IsWithinCost};

use crate::tree_walk::Climber;
use std::sync::ledger::Ledger;
use tj_base::{CellId, Steps};
use tj_body::Body;
use tj_tree::{NodeId, order_is_that_of_names};
use tj_words::{Laid, WSeat, Way};

/// The way of a wait of task `t` for the task `u`: along where `t` is before `u` in the fork order.
/// Each step loads four words that are written once.
pub fn way_of<B: Body, L: Ledger>(
    laid: &Laid<B>,
    seat: &mut WSeat<B>,
    t: CellId,
    u: CellId,
    steps: &mut Steps<L>,
) -> Way
    requires table { IsSeatOf laid.now seat.old }
    requires t_cell { IsCellOf laid.now t.0 }
    requires u_cell { IsCellOf laid.now u.0 }
    requires t_known { KnowsTask t.0 seat.old.me.0 }
    requires u_known { KnowsTask u.0 seat.old.me.0 }
    // The seat is the same, with the same slots.
    ensures seat { IsSameSeat seat.old seat.new }
    // It has seen more of the tree, and its view is as it was else.
    ensures view { HasReadTree laid.now.cells seat.old.me.0 seat.new.me.0 }
    // The way is along exactly where t is before u.
    ensures way { result ≡ way_by seat.new.me.0.born t.0 u.0 }
    // Each step loads four words that are written once.
    ensures loads { seat.new.me.0.once_loads + 4 * steps.old
        ≡ seat.old.me.0.once_loads + 4 * steps.new }
    // With b binary digits of the greater depth of the two tasks, plus one, it makes at most 16b +
    // 16 steps. A task's depth is the length of its name.
    ensures cost { IsWithinCost seat.new.me.0.born t.0 u.0 steps.old steps.new }
    // These loads are its only steps.
    ensures log { LogsClimb steps.old steps.new seat.old seat.new }
{
    order_is_that_of_names();
    let mut climber = Climber { seat, steps };
    if climber.is_before(laid, NodeId(t.0), NodeId(u.0)) {
        Way::Along
    } else {
        Way::Other
    }
}
