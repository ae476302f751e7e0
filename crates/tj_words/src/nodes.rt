//! Looks at the tree of forks, as the words show it: a look is four loads of words that are written
//! once.
ghost use Rattle.std.specs.Prelude.{◌≡◌, ◌+◌};
ghost use Rattle.tj_tree.specs.Walk.{GoesOn};
ghost use Rattle.tj_words.specs.CallLaws.StepLogs.{IsLookLogged, KeepsFour};
ghost use Rattle.tj_words.specs.SeatViews.TreeReads.{IsLater, MayLook, TreeShown};

use crate::links::link_cell;
use crate::offsets::Once;
use crate::table::{Laid, WSeat};
use tj_base::CellId;
use tj_body::Body;
use tj_tree::{Node, NodeId};

impl<B: Body> Laid<B> {
    /// The node of a task. Its parent and its jump may be looked at then.
    pub fn see_node(&self, seat: &mut WSeat<B>, task: CellId) -> Node
        requires { MayLook self.now seat.old task.0 }
        // A node is told that the words show as part of a tree of forks, all of whose nodes that
        // the seat has seen are shown so.
        ensures shown { TreeShown seat.new task.0 result }
        // The node of its parent may be looked at then.
        ensures parent { MayLook self.now seat.new result.parent.0 }
        // So may that of its jump.
        ensures jump { MayLook self.now seat.new result.jump.0 }
        // Four words that are written once were loaded.
        ensures loads { seat.new.me.0.once_loads ≡ seat.old.me.0.once_loads + 4 }
        // What was shown before is shown still, and what might be looked at may be so still.
        ensures goes_on { GoesOn (TreeShown seat.old) (MayLook self.now seat.old)
            (TreeShown seat.new) (MayLook self.now seat.new) }
        // Nothing of the seat is changed but what it knows of the tree, and its loads and steps.
        ensures later { IsLater self.now.cells seat.old seat.new }
        // The seat's log is longer by four entries: PARENT, KID, DEPTH and JUMP of the task were
        // loaded, one after the other, and found to be what the node says.
        ensures log { IsLookLogged task.0 result seat.old seat.new }
        // Beside these entries the seat keeps the views that it had before each of the four steps,
        // that before the call among them.
        ensures before { KeepsFour seat.old seat.new }
    {
        let parent = self.see_once(seat, task, Once::Parent);
        let kid = self.see_once(seat, task, Once::Kid);
        let depth = self.see_once(seat, task, Once::Depth);
        let jump = self.see_once(seat, task, Once::Jump);
        Node {
            parent: NodeId(link_cell(parent).0),
            kid: kid as u32,
            depth: depth as u32,
            jump: NodeId(link_cell(jump).0),
        }
    }
}
