//! The fork order, by a walk up the tree that the table's words show. It goes as `tj_tree` goes over
//! a reader of nodes; a look here is four loads of words that are written once.
ghost use Rattle.std.specs.Prelude.{ℕ, ◌≡◌, ◌≢◌, ◌+◌, ◌*◌, ◌^◌, ◌<◌, ◌≤◌, ◌↔◌, nat_le, IsTrue};
ghost use Rattle.tj_tree.specs.Forks.{order_of, IsEarlier};
ghost use Rattle.tj_tree.specs.Nodes.{node_of, InEachTree, move_from};
ghost use Rattle.tj_tree.specs.Walk.{TakesFewSteps};
ghost use Rattle.tj_tree.specs.Inner.Moves.{IsAtOrAbove};
ghost use Rattle.tj_words.specs.SeatViews.SeenWords.{SeesTree};
ghost use Rattle.tj_words.specs.SeatViews.TreeReads.{MayLook, TreeShown};
ghost use Rattle.tj_detect.specs.Inner.Climbs.{HasClimbed, KnowsNode};

use std::sync::ledger::Ledger;
use tj_base::{CellId, Steps};
use tj_body::Body;
use tj_tree::{NodeId, TaskNode};
use tj_words::{Laid, WSeat};

// A seat that goes up the tree of forks, and the count of its steps.
#[derive(Drop)]
pub(crate) struct Climber<'s, 'c, B: Body, L: Ledger> {
    pub(crate) seat: &'s mut WSeat<B>,
    pub(crate) steps: &'c mut Steps<L>,
}

impl<B: Body, L: Ledger> Climber<'_, '_, B, L> {
    // Whether task `a` is before task `b` in the fork order.
    pub(crate) fn is_before(&mut self, laid: &Laid<B>, a: NodeId, b: NodeId) -> bool
        requires a_open { MayLook laid.now self.old.seat.now a.0 }
        requires b_open { MayLook laid.now self.old.seat.now b.0 }
        ensures seen { SeesTree self.new.seat.now.me.0.seen self.new.seat.now.me.0.born }
        ensures order { InEachTree (TreeShown self.new.seat.now) (λ forks.
            IsTrue result ↔ IsEarlier (order_of forks) a.0 b.0) }
        ensures cost { InEachTree (TreeShown self.new.seat.now) (λ forks.
            TakesFewSteps forks a.0 b.0 self.old.steps.now self.new.steps.now) }
        ensures climbs { HasClimbed laid.now self.old.seat self.new.seat self.old.steps
            self.new.steps }
    {
        let a = self.visit(laid, a);
        let b = self.visit(laid, b);
        let depth = a.node.depth.min(b.node.depth);
        let x = self.lifted(laid, a, depth);
        let y = self.lifted(laid, b, depth);
        if x.task.0 == y.task.0 {
            return a.node.depth < b.node.depth;
        }
        let (x, y) = self.parted(laid, x, y);
        y.node.kid < x.node.kid
    }

    fn visit(&mut self, laid: &Laid<B>, task: NodeId) -> TaskNode
        requires { MayLook laid.now self.old.seat.now task.0 }
        ensures task { result.task ≡ task }
        ensures known { KnowsNode laid.now self.new.seat.now result }
        ensures step { self.new.steps.now ≡ self.old.steps.now + 1 }
        ensures climbs { HasClimbed laid.now self.old.seat self.new.seat self.old.steps
            self.new.steps }
    {
        let node = laid.see_node(self.seat, CellId(task.0));
        self.steps.tick();
        TaskNode { task, node }
    }

    // The task at this depth that is the given one or above it.
    fn lifted(&mut self, laid: &Laid<B>, from: TaskNode, depth: u32) -> TaskNode
        requires known { KnowsNode laid.now self.old.seat.now from }
        requires deep { depth ≤ from.node.depth }
        ensures level { result.node.depth ≡ depth }
        ensures above { InEachTree (TreeShown self.new.seat.now) (λ forks.
            IsAtOrAbove forks result.task.0 from.task.0) }
        ensures free { from.node.depth ≤ depth → self.new.steps.now ≡ self.old.steps.now }
        ensures cost { (digits : ℕ) → from.node.depth + 1 < 2 ^ digits
            → self.new.steps.now ≤ self.old.steps.now + (6 * digits + 2) }
        ensures known { KnowsNode laid.now self.new.seat.now result }
        ensures climbs { HasClimbed laid.now self.old.seat self.new.seat self.old.steps
            self.new.steps }
    {
        let mut at = from;
        while depth < at.node.depth {
            at = self.higher(laid, at, depth);
        }
        at
    }

    // The jump of a task, or its parent where the jump leads above the depth.
    fn higher(&mut self, laid: &Laid<B>, at: TaskNode, depth: u32) -> TaskNode
        requires known { KnowsNode laid.now self.old.seat.now at }
        ensures moved { InEachTree (TreeShown self.new.seat.now) (λ forks.
            result.task ≡ move_from at.node (nat_le depth (node_of forks at.node.jump.0).depth)) }
        ensures cost { self.new.steps.now ≤ self.old.steps.now + 2 }
        ensures known { KnowsNode laid.now self.new.seat.now result }
        ensures climbs { HasClimbed laid.now self.old.seat self.new.seat self.old.steps
            self.new.steps }
    {
        let jump = self.visit(laid, at.node.jump);
        if depth <= jump.node.depth {
            jump
        } else {
            self.visit(laid, at.node.parent)
        }
    }

    // The tasks that are these two or above them, and are children of one task.
    fn parted(&mut self, laid: &Laid<B>, a: TaskNode, b: TaskNode) -> (TaskNode, TaskNode)
        requires a_known { KnowsNode laid.now self.old.seat.now a }
        requires b_known { KnowsNode laid.now self.old.seat.now b }
        requires level { a.node.depth ≡ b.node.depth }
        requires apart { a.task.0 ≢ b.task.0 }
        ensures level { result.0.node.depth ≡ result.1.node.depth }
        ensures apart { result.0.task.0 ≢ result.1.task.0 }
        ensures siblings { result.0.node.parent.0 ≡ result.1.node.parent.0 }
        ensures a_above { InEachTree (TreeShown self.new.seat.now) (λ forks.
            IsAtOrAbove forks result.0.task.0 a.task.0) }
        ensures b_above { InEachTree (TreeShown self.new.seat.now) (λ forks.
            IsAtOrAbove forks result.1.task.0 b.task.0) }
        ensures cost { (digits : ℕ) → a.node.depth + 1 < 2 ^ digits
            → self.new.steps.now ≤ self.old.steps.now + (6 * digits + 2) }
        ensures a_known { KnowsNode laid.now self.new.seat.now result.0 }
        ensures b_known { KnowsNode laid.now self.new.seat.now result.1 }
        ensures climbs { HasClimbed laid.now self.old.seat self.new.seat self.old.steps
            self.new.steps }
    {
        let (mut x, mut y) = (a, b);
        while x.node.parent.0 != y.node.parent.0 {
            let by_jump = x.node.jump.0 != y.node.jump.0;
            x = self.visit(laid, x.move_up(by_jump));
            y = self.visit(laid, y.move_up(by_jump));
        }
        (x, y)
    }
}
