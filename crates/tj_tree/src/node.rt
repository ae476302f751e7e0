//! Nodes of a fork tree.
ghost use Rattle.std.specs.Prelude.{◌≡◌};
ghost use Rattle.tj_tree.specs.Nodes.{move_from};

/// The number of a task. The root is 0, and a task's number is greater than its parent's.
#[derive(Clone, Copy, PartialEq, Eq)]
pub struct NodeId(pub u32);

/// A task in the tree of forks. The root is its own parent and jump.
#[derive(Clone, Copy)]
pub struct Node {
    /// The task that forked it.
    pub parent: NodeId,
    /// Which of its parent's things it is. A later one has a greater number.
    pub kid: u32,
    /// How many forks lead to it from the root.
    pub depth: u32,
    /// A task above it, which is passed to move up by more than one fork at a time.
    pub jump: NodeId,
}

/// A task with its node.
#[derive(Clone, Copy)]
pub struct TaskNode {
    pub task: NodeId,
    pub node: Node,
}

impl TaskNode {
    /// Where a move leads: by the jump, or to the parent.
    pub fn move_up(&self, by_jump: bool) -> NodeId
        // It gives the parent of the task's node, or its jump.
        ensures { result ≡ move_from self.now.node by_jump }
    {
        if by_jump {
            self.node.jump
        } else {
            self.node.parent
        }
    }
}
