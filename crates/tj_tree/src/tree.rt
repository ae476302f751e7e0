//! The tree of forks, whose order is found by a walk over a few of its nodes.
ghost use Rattle.std.specs.Prelude.{ℕ, ◌≡◌, ◌<◌, ◌≤◌, ◌↔◌, [], ◌∷◌, length, IfOk, OnOk, OnErr, IsTrue};
ghost use Rattle.tj_base.specs.declared.cell.TheConstants.{MAX_CELLS};
ghost use Rattle.tj_tree.specs.Forks.{Forks, HasTask, IsHistory, IsEarlier, order_of, task_count, next_fork};
ghost use Rattle.tj_tree.specs.Nodes.{child_node, node_of};
ghost use Rattle.tj_tree.specs.Walk.{TakesFewSteps};
ghost use Rattle.tj_tree.specs.Inner.Tree.{forks_of, AreEntriesOf};

use crate::before::before_in;
use crate::node::{Node, NodeId};
use crate::reader::NodeReader;
use std::alloc::Global;
use std::marker::{Brand, Model, PhantomData};
use std::sync::ledger::{Blank, Ledger};
use tj_base::{Oom, Steps};

/// A tree of forks. Contracts see its forks, the newest first.
#[derive(Drop)]
pub struct ForkTree {
    entries: Vec<Entry>,
}

// A task's node, and how many children it has.
#[derive(Clone, Copy)]
pub(crate) struct Entry {
    node: Node,
    kids: u32,
}

impl Model for ForkTree {
    ghost use Rattle.tj_tree.specs.Forks.{Forks};
    ghost use Rattle.tj_tree.specs.Inner.Tree.{forks_of, AreEntriesOf};

    ghost Value = { Forks };

    ghost view = { λ tree. forks_of tree.entries.items };

    ghost invariant = { λ tree. AreEntriesOf (forks_of tree.entries.items) tree.entries.items };
}

impl ForkTree {
    /// The root alone.
    pub fn new(alloc: Global) -> Result<ForkTree, Oom>
        // The tree has the root alone.
        ensures { IfOk result (λ tree. tree ≡ []) }
    {
        let root = NodeId(0);
        let node = Node {
            parent: root,
            kid: 0,
            depth: 0,
            jump: root,
        };
        let mut entries = Vec::new(alloc);
        entries.push(Entry { node, kids: 0 })?;
        Ok(ForkTree { entries })
    }

    /// A further task. Tasks, and the children of each, are numbered as they come.
    pub fn fork(&mut self, parent: NodeId) -> Result<NodeId, Oom>
        requires parent_there { parent.0 < task_count self.old }
        requires room { task_count self.old < MAX_CELLS }
        // The new task has the next number.
        ensures number { IfOk result (λ child. child.0 ≡ task_count self.old) }
        // The tree's history has the next fork by this parent more.
        ensures ok { OnOk result (self.new ≡ next_fork self.old parent.0 ∷ self.old) }
        // After an error the tree is as before.
        ensures err { OnErr result (self.new ≡ self.old) }
        // What the tree has then is a history: each fork could come next.
        ensures history { IsHistory self.new }
    {
        let child = NodeId(self.entries.len() as u32);
        add_child(&mut self.entries, parent)?;
        Ok(child)
    }

    /// How many tasks there are. They are numbered from 0 on.
    pub fn count(&self) -> u32
        // The answer is how many tasks there are.
        ensures count { result ≡ task_count self.now }
        // The tasks are those with a number below it.
        ensures tasks { (n : ℕ) → (n < result) ↔ HasTask self.now n }
        // What the tree has is a history.
        ensures history { IsHistory self.now }
    {
        self.entries.len() as u32
    }

    /// The node of a task.
    pub fn node(&self, task: NodeId) -> Node
        requires { task.0 < task_count self.now }
        // The answer is the node that the history gives: parent, kid number, depth and jump.
        ensures node { result ≡ node_of self.now task.0 }
        // Its parent is a task.
        ensures parent { result.parent.0 < task_count self.now }
        // Its jump is a task.
        ensures jump { result.jump.0 < task_count self.now }
    {
        node_at(self.entries.as_slice(), task)
    }

    /// Whether `a` is before `b` in the fork order.
    pub fn before<L: Ledger>(&self, a: NodeId, b: NodeId, steps: &mut Steps<L>) -> bool
        requires a_there { a.0 < task_count self.now }
        requires b_there { b.0 < task_count self.now }
        // True comes exactly where a is before b in the list that the forks build.
        ensures order { IsTrue result ↔ IsEarlier (order_of self.now) a.0 b.0 }

        // The counter grows by at most 16b + 16, b being the number of binary digits of the greater
        // depth plus one.
        ensures cost { TakesFewSteps self.now a.0 b.0 steps.old steps.new }
    {
        before_of::<Brand, Brand, L>(self, a, b, Blank::new(1), steps)
    }
}

/// The forks of a tree that is read.
pub(crate) trait Forked: Drop {
    ghost forks: { Forks };
}

impl Forked for Brand {
    ghost forks = { [] };
}

// Reads the tree of the forks of `F`, and counts its looks in a ledger of its own.
#[derive(Drop)]
struct TreeReader<'a, F: Forked, C: Ledger> {
    entries: &'a [Entry],
    looks: Steps<C>,
    forks: PhantomData<F>,
}

impl<F: Forked, C: Ledger> NodeReader for TreeReader<'_, F, C> {
    ghost use Rattle.std.specs.Prelude.{◌≡◌};
    ghost use Rattle.tj_tree.specs.Forks.{HasTask};
    ghost use Rattle.tj_tree.specs.Nodes.{node_of};
    ghost use Rattle.tj_tree.specs.Inner.Tree.{MayLook};

    ghost shows = { λ _ n node. HasTask F.forks n × (node_of F.forks n ≡ node) };

    ghost may_look = { λ reader n. MayLook F.forks reader.entries.now n };

    ghost looks = { λ reader. reader.looks };

    ghost stays = { λ _ _. Unit {0} };

    ghost stays_itself = { λ _. tt };

    ghost stays_on = { λ _ _ _ _ _. tt };

    fn look(&mut self, task: NodeId) -> Node {
        self.looks.tick();
        self.entries[task.0 as usize].node
    }
}

fn before_of<F: Forked, C: Ledger, L: Ledger>(
    tree: &ForkTree,
    a: NodeId,
    b: NodeId,
    blank: Blank,
    steps: &mut Steps<L>,
) -> bool
    requires forks { tree.now ≡ F.forks }
    requires name { blank.name ≡ C.name }
    requires parts { blank.parts ≡ C.parts }
    requires some { 0 < blank.parts }
    requires a_there { a.0 < task_count tree.now }
    requires b_there { b.0 < task_count tree.now }
    ensures order { IsTrue result ↔ IsEarlier (order_of tree.now) a.0 b.0 }
    ensures cost { TakesFewSteps tree.now a.0 b.0 steps.old steps.new }
{
    let mut reader: TreeReader<F, C> = TreeReader {
        entries: tree.entries.as_slice(),
        looks: Steps::new(blank),
        forks: PhantomData,
    };
    before_in(&mut reader, a, b, steps)
}

// Puts in a child of this task, and counts it.
fn add_child(entries: &mut Vec<Entry>, parent: NodeId) -> Result<(), Oom>
    requires entries { AreEntriesOf (forks_of entries.old.items) entries.old.items }
    requires parent_there { parent.0 < length entries.old.items }
    requires room { length entries.old.items < MAX_CELLS }
    ensures ok { OnOk result (let forks = forks_of entries.old.items in
        AreEntriesOf (next_fork forks parent.0 ∷ forks) entries.new.items) }
    ensures err { OnErr result (entries.new.items ≡ entries.old.items) }
{
    let index = parent.0 as usize;
    let kids = entries[index].kids + 1;
    let node = child_of(entries.as_slice(), parent);
    entries.push(Entry { node, kids: 0 })?;
    entries[index].kids = kids;
    Ok(())
}

// The node of the next child of this task.
fn child_of(entries: &[Entry], parent: NodeId) -> Node
    requires entries { AreEntriesOf (forks_of entries.now) entries.now }
    requires parent_there { parent.0 < length entries.now }
    requires room { length entries.now < MAX_CELLS }
    ensures { let forks = forks_of entries.now in
        result ≡ child_node (node_of forks) (next_fork forks parent.0) }
{
    let kids = entries[parent.0 as usize].kids;
    let above = node_at(entries, parent);
    let near = node_at(entries, above.jump);
    let far = node_at(entries, near.jump);
    let even = above.depth - near.depth == near.depth - far.depth;
    Node {
        parent,
        kid: kids + 1,
        depth: above.depth + 1,
        jump: if even { near.jump } else { parent },
    }
}

fn node_at(entries: &[Entry], task: NodeId) -> Node
    requires entries { AreEntriesOf (forks_of entries.now) entries.now }
    requires there { task.0 < length entries.now }
    ensures node { result ≡ node_of (forks_of entries.now) task.0 }
    ensures shallow { result.depth ≤ task.0 }
    ensures parent_there { result.parent.0 < length entries.now }
    ensures jump_there { result.jump.0 < length entries.now }
    ensures jump_up { (node_of (forks_of entries.now) result.jump.0).depth ≤ result.depth }
{
    entries[task.0 as usize].node
}
