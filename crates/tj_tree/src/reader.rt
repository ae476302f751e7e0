//! Reading the nodes of a tree that may be known in part only, and may grow meanwhile.
ghost use Rattle.std.specs.Prelude.{ℕ, ◌≡◌, ◌+◌};
ghost use Rattle.tj_tree.specs.declared.node.Node.{Node};
ghost use Rattle.tj_tree.specs.Walk.{GoesOn};

use crate::node::{Node, NodeId};

/// A reader of nodes. It answers a node at a time, from the tasks that it was asked for upwards.
// What a look means is a relation: a node may not be shown yet.
pub trait NodeReader {
    /// The nodes that it shows so far: that this task has this node.
    ghost shows: { Self → ℕ → Node → Type 0 };

    /// The tasks whose nodes may be looked at.
    ghost may_look: { Self → ℕ → Type 0 };

    /// How many looks were made.
    ghost looks: { Self → ℕ };

    /// That the second is the first after some looks: what a look leaves alone is as it was.
    ghost stays: { Self → Self → Type 0 };

    /// The node of a task that may be looked at. Its parent and its jump may be looked at from then
    /// on.
    fn look(&mut self, task: NodeId) -> Node
        requires { may_look self.old task.0 }
        // A look shows the node that it answers.
        ensures shown { shows self.new task.0 result }
        // What was shown and might be looked at stays so, and the nodes shown are still part of a
        // tree.
        ensures goes_on { GoesOn (shows self.old) (may_look self.old)
            (shows self.new) (may_look self.new) }
        // The node's parent may be looked at from then on.
        ensures parent { may_look self.new result.parent.0 }
        // The node's jump may be looked at from then on.
        ensures jump { may_look self.new result.jump.0 }
        // The number of looks is one more.
        ensures counted { looks self.new ≡ looks self.old + 1 }
        // What the reader says that a look leaves alone is as it was. By two laws of the trait that
        // is so of no look, and of looks after looks.
        ensures stays { stays self.old self.new };

    /// No look leaves all as it was.
    ghost stays_itself: { (reader : Self) → stays reader reader };

    /// Looks after looks are looks.
    ghost stays_on: { (first second third : Self) → stays first second → stays second third
        → stays first third };
}
