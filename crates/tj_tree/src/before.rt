//! The fork order by a walk up the tree. The deeper task is moved up to the depth of the other,
//! then both are moved together until their parents agree: there the one with the greater kid
//! number was forked later, and is before. A move goes by the jump where that doesn't lead too far,
//! else to the parent. How far a jump leads depends on the depth alone, so each part takes a number
//! of looks that is linear in the digits of the depth.
ghost use Rattle.std.specs.Prelude.{ℕ, ◌≡◌, ◌≢◌, ◌+◌, ◌*◌, ◌^◌, ◌<◌, ◌≤◌, ◌↔◌, nat_le, IsTrue};
ghost use Rattle.tj_tree.specs.Forks.{order_of, IsEarlier};
ghost use Rattle.tj_tree.specs.Nodes.{node_of, ArePartOfTree, InEachTree, move_from};
ghost use Rattle.tj_tree.specs.Walk.{GoesOn, TakesFewSteps};
ghost use Rattle.tj_tree.specs.Inner.Moves.{IsKnown, IsAtOrAbove};

use crate::node::{NodeId, TaskNode};
use crate::reader::NodeReader;
use std::sync::ledger::Ledger;
use tj_base::Steps;

/// Whether task `a` is before task `b` in the fork order, whatever tree the reader shows.
// It ticks once a look and nowhere else; a move may take two looks.
pub fn before_in<R: NodeReader, L: Ledger>(
    reader: &mut R,
    a: NodeId,
    b: NodeId,
    steps: &mut Steps<L>,
) -> bool
    requires tree { ArePartOfTree (R.shows reader.old) }
    requires a_open { R.may_look reader.old a.0 }
    requires b_open { R.may_look reader.old b.0 }

    // The answer is that of the list of each tree that has the nodes shown at the return.
    ensures order { InEachTree (R.shows reader.new) (λ forks.
        IsTrue result ↔ IsEarlier (order_of forks) a.0 b.0) }

    // In each such tree the counter grows by at most 16b + 16, b as above.
    ensures cost { InEachTree (R.shows reader.new) (λ forks.
        TakesFewSteps forks a.0 b.0 steps.old steps.new) }
    // The counter grows by the number of looks.
    ensures counted { steps.new + R.looks reader.old ≡ steps.old + R.looks reader.new }
    // What the reader showed and let be looked at stays so, and it still shows part of a tree.
    ensures goes_on { GoesOn (R.shows reader.old) (R.may_look reader.old)
        (R.shows reader.new) (R.may_look reader.new) }
    // What the reader says that a look leaves alone is as it was.
    ensures stays { R.stays reader.old reader.new }
{
    let a = visit(reader, a, steps);
    let b = visit(reader, b, steps);
    let depth = a.node.depth.min(b.node.depth);
    let x = lifted(reader, a, depth, steps);
    let y = lifted(reader, b, depth, steps);
    if x.task.0 == y.task.0 {
        return a.node.depth < b.node.depth;
    }
    let (x, y) = parted(reader, x, y, steps);
    y.node.kid < x.node.kid
}

fn visit<R: NodeReader, L: Ledger>(reader: &mut R, task: NodeId, steps: &mut Steps<L>) -> TaskNode
    requires { R.may_look reader.old task.0 }
    ensures task { result.task ≡ task }
    ensures known { IsKnown (R.shows reader.new) (R.may_look reader.new) result }
    ensures step { steps.new ≡ steps.old + 1 }
    ensures look { R.looks reader.new ≡ R.looks reader.old + 1 }
    ensures goes_on { GoesOn (R.shows reader.old) (R.may_look reader.old)
        (R.shows reader.new) (R.may_look reader.new) }
    ensures stays { R.stays reader.old reader.new }
{
    let node = reader.look(task);
    steps.tick();
    TaskNode { task, node }
}

// The task at this depth that is the given one or above it.
fn lifted<R: NodeReader, L: Ledger>(
    reader: &mut R,
    from: TaskNode,
    depth: u32,
    steps: &mut Steps<L>,
) -> TaskNode
    requires tree { ArePartOfTree (R.shows reader.old) }
    requires known { IsKnown (R.shows reader.old) (R.may_look reader.old) from }
    requires deep { depth ≤ from.node.depth }
    ensures level { result.node.depth ≡ depth }
    ensures above { InEachTree (R.shows reader.new) (λ forks.
        IsAtOrAbove forks result.task.0 from.task.0) }
    ensures free { from.node.depth ≤ depth → steps.new ≡ steps.old }
    ensures cost { (digits : ℕ) → from.node.depth + 1 < 2 ^ digits
        → steps.new ≤ steps.old + (6 * digits + 2) }
    ensures counted { steps.new + R.looks reader.old ≡ steps.old + R.looks reader.new }
    ensures known { IsKnown (R.shows reader.new) (R.may_look reader.new) result }
    ensures goes_on { GoesOn (R.shows reader.old) (R.may_look reader.old)
        (R.shows reader.new) (R.may_look reader.new) }
    ensures stays { R.stays reader.old reader.new }
{
    let mut at = from;
    while depth < at.node.depth {
        at = higher(reader, at, depth, steps);
    }
    at
}

// The jump of a task, or its parent where the jump leads above the depth.
fn higher<R: NodeReader, L: Ledger>(
    reader: &mut R,
    at: TaskNode,
    depth: u32,
    steps: &mut Steps<L>,
) -> TaskNode
    requires tree { ArePartOfTree (R.shows reader.old) }
    requires known { IsKnown (R.shows reader.old) (R.may_look reader.old) at }
    ensures moved { InEachTree (R.shows reader.new) (λ forks.
        result.task ≡ move_from at.node (nat_le depth (node_of forks at.node.jump.0).depth)) }
    ensures cost { steps.new ≤ steps.old + 2 }
    ensures counted { steps.new + R.looks reader.old ≡ steps.old + R.looks reader.new }
    ensures known { IsKnown (R.shows reader.new) (R.may_look reader.new) result }
    ensures goes_on { GoesOn (R.shows reader.old) (R.may_look reader.old)
        (R.shows reader.new) (R.may_look reader.new) }
    ensures stays { R.stays reader.old reader.new }
{
    let jump = visit(reader, at.node.jump, steps);
    if depth <= jump.node.depth {
        jump
    } else {
        visit(reader, at.node.parent, steps)
    }
}

// The tasks that are these two or above them, and are children of one task.
fn parted<R: NodeReader, L: Ledger>(
    reader: &mut R,
    a: TaskNode,
    b: TaskNode,
    steps: &mut Steps<L>,
) -> (TaskNode, TaskNode)
    requires tree { ArePartOfTree (R.shows reader.old) }
    requires a_known { IsKnown (R.shows reader.old) (R.may_look reader.old) a }
    requires b_known { IsKnown (R.shows reader.old) (R.may_look reader.old) b }
    requires level { a.node.depth ≡ b.node.depth }
    requires apart { a.task.0 ≢ b.task.0 }
    ensures level { result.0.node.depth ≡ result.1.node.depth }
    ensures apart { result.0.task.0 ≢ result.1.task.0 }
    ensures siblings { result.0.node.parent.0 ≡ result.1.node.parent.0 }
    ensures a_above { InEachTree (R.shows reader.new) (λ forks.
        IsAtOrAbove forks result.0.task.0 a.task.0) }
    ensures b_above { InEachTree (R.shows reader.new) (λ forks.
        IsAtOrAbove forks result.1.task.0 b.task.0) }
    ensures cost { (digits : ℕ) → a.node.depth + 1 < 2 ^ digits
        → steps.new ≤ steps.old + (6 * digits + 2) }
    ensures counted { steps.new + R.looks reader.old ≡ steps.old + R.looks reader.new }
    ensures a_known { IsKnown (R.shows reader.new) (R.may_look reader.new) result.0 }
    ensures b_known { IsKnown (R.shows reader.new) (R.may_look reader.new) result.1 }
    ensures goes_on { GoesOn (R.shows reader.old) (R.may_look reader.old)
        (R.shows reader.new) (R.may_look reader.new) }
    ensures stays { R.stays reader.old reader.new }
{
    let (mut x, mut y) = (a, b);
    while x.node.parent.0 != y.node.parent.0 {
        let by_jump = x.node.jump.0 != y.node.jump.0;
        x = visit(reader, x.move_up(by_jump), steps);
        y = visit(reader, y.move_up(by_jump), steps);
    }
    (x, y)
}
