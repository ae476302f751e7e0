//! The fork order by a tree and by a list: a small tree, and a deep chain whose nodes a reader of the
//! test's own looks up.
ghost use Rattle.std.specs.Prelude.{◌≡◌, ◌<◌};
ghost use Rattle.tj_tree.specs.Forks.{IsHistory, task_count};

use crate::shown::holds;
use std::alloc::Global;
use std::marker::Brand;
use std::process::Abort;
use std::sync::ledger::{Blank, Ledger};
use tj_base::Steps;
use tj_tree::{ForkTree, Node, NodeId, NodeReader, OrderList, before_in};

// A tree, and how many looks were made at it.
#[derive(Drop)]
struct Desk<'t> {
    tree: &'t ForkTree,
    looks: u64,
}

// Reads the tree of a desk that it borrows, and counts its looks there, and in a ledger for its
// contract.
#[derive(Drop)]
struct DeskReader<'a, 't, 'c, C: Ledger> {
    desk: &'a mut Desk<'t>,
    counted: &'c mut Steps<C>,
}

impl<C: Ledger> NodeReader for DeskReader<'_, '_, '_, C> {
    ghost use Rattle.std.specs.Prelude.{◌≡◌, ◌<◌, refl};
    ghost use Rattle.tj_tree.specs.Forks.{HasTask, task_count};
    ghost use Rattle.tj_tree.specs.Nodes.{node_of};
    ghost use Rattle.tj_tree.specs.Inner.Stays.{same_on};

    ghost shows = { λ reader n node.
        HasTask reader.desk.now.tree.now n × (node_of reader.desk.now.tree.now n ≡ node) };

    ghost may_look = { λ reader n. n < task_count reader.desk.now.tree.now };

    ghost looks = { λ reader. reader.counted.now };

    ghost stays = { λ first second. second.desk.ghost_name ≡ first.desk.ghost_name };

    ghost stays_itself = { λ _. refl };

    ghost stays_on = { λ _ _ _ p q. same_on p q };

    fn look(&mut self, task: NodeId) -> Node {
        let _count = self.desk.tree.count();
        self.counted.tick();
        self.desk.looks = self.desk.looks.wrapping_add(1);
        self.desk.tree.node(task)
    }
}

// The answer of a walk that counts its looks at the desk.
fn counted<C: Ledger, D: Ledger>(
    desk: &mut Desk<'_>,
    a: NodeId,
    b: NodeId,
    looks: Blank,
    steps: Blank,
) -> bool
    requires looks_name { looks.name ≡ C.name }
    requires looks_parts { looks.parts ≡ C.parts }
    requires looks_some { 0 < looks.parts }
    requires steps_name { steps.name ≡ D.name }
    requires steps_parts { steps.parts ≡ D.parts }
    requires steps_some { 0 < steps.parts }
    requires a_there { a.0 < task_count desk.old.tree.now }
    requires b_there { b.0 < task_count desk.old.tree.now }
{
    let _count = desk.tree.count();
    let mut looked = Steps::<C>::new(looks);
    let mut reader = DeskReader {
        desk,
        counted: &mut looked,
    };
    let mut steps = Steps::<D>::new(steps);
    walked(&mut reader, a, b, &mut steps)
}

fn walked<C: Ledger, D: Ledger>(
    reader: &mut DeskReader<'_, '_, '_, C>,
    a: NodeId,
    b: NodeId,
    steps: &mut Steps<D>,
) -> bool
    requires tree { IsHistory reader.old.desk.now.tree.now }
    requires a_there { a.0 < task_count reader.old.desk.now.tree.now }
    requires b_there { b.0 < task_count reader.old.desk.now.tree.now }
    ensures desk { reader.new.desk.ghost_name ≡ reader.old.desk.ghost_name }
{
    before_in(reader, a, b, steps)
}

// The answer of the tree itself.
fn answered<C: Ledger>(tree: &ForkTree, a: NodeId, b: NodeId, steps: Blank) -> bool
    requires name { steps.name ≡ C.name }
    requires parts { steps.parts ≡ C.parts }
    requires some { 0 < steps.parts }
    requires a_there { a.0 < task_count tree.now }
    requires b_there { b.0 < task_count tree.now }
{
    let mut steps = Steps::<C>::new(steps);
    tree.before(a, b, &mut steps)
}

// Whether each form gives this answer, the walk in so many looks.
fn is_given(
    tree: &ForkTree,
    list: &OrderList,
    (a, b): (NodeId, NodeId),
    before: bool,
    most: u64,
) -> bool {
    if a.0 >= tree.count() || b.0 >= tree.count() {
        return false;
    }
    let mut desk = Desk { tree, looks: 0 };
    let walked = counted::<Brand, Brand>(&mut desk, a, b, Blank::new(1), Blank::new(1));
    let answer = answered::<Brand>(tree, a, b, Blank::new(1));
    walked == before && answer == before && list.before(a, b) == before && desk.looks <= most
}

// The root alone in both forms.
fn both(rt: &impl Abort, alloc: Global) -> (ForkTree, OrderList) {
    let Ok(tree) = ForkTree::new(alloc) else {
        panic!(rt; "no memory");
    };
    let Ok(list) = OrderList::new(alloc) else {
        panic!(rt; "no memory");
    };
    (tree, list)
}

// A fork in both forms.
fn fork_both(rt: &impl Abort, tree: &mut ForkTree, list: &mut OrderList, parent: u32) -> NodeId {
    if parent >= tree.count() || tree.count() >= 16_384 {
        panic!(rt; "no room in the tree");
    }
    if parent >= list.count() || list.count() >= 16_384 {
        panic!(rt; "no room in the list");
    }
    let Ok(child) = tree.fork(NodeId(parent)) else {
        panic!(rt; "no memory");
    };
    let Ok(same) = list.fork(NodeId(parent)) else {
        panic!(rt; "no memory");
    };
    holds(rt, "both number alike", same.0 == child.0);
    child
}

/// What a row shows, two tasks, and whether the first is before the second.
const SMALL: &[(&str, u32, u32, bool)] = &[
    ("a later child is before an earlier one", 2, 1, true),
    ("and before its children", 2, 3, true),
    ("a parent is before its child", 1, 3, true),
    ("the order goes one way", 3, 2, false),
    ("nothing is before itself", 0, 0, false),
];

#[test]
fn a_small_tree(rt: HostRuntime) {
    let (mut tree, mut list) = both(&rt, rt.alloc());
    for (parent, child) in [(0, 1), (0, 2), (1, 3)] {
        let number = fork_both(&rt, &mut tree, &mut list, parent);
        holds(&rt, "forks are numbered in turn", number.0 == child);
    }
    for (shows, a, b, before) in SMALL {
        let pair = (NodeId(*a), NodeId(*b));
        holds(&rt, shows, is_given(&tree, &list, pair, *before, 48));
    }
}

#[test]
fn a_deep_chain(rt: HostRuntime) {
    let (mut tree, mut list) = both(&rt, rt.alloc());
    let mut last = NodeId(0);
    for _ in 0..16_382 {
        last = fork_both(&rt, &mut tree, &mut list, last.0);
    }
    let second = fork_both(&rt, &mut tree, &mut list, 0);
    holds(&rt, "16,384 nodes", tree.count() == 16_384);
    holds(&rt, "the end of the chain", last.0 == 16_382);
    assert!(rt; last.0 < tree.count());
    holds(&rt, "its depth", tree.node(last).depth == 16_382);
    holds(
        &rt,
        "a later child",
        is_given(&tree, &list, (second, last), true, 240),
    );
    holds(
        &rt,
        "the other way",
        is_given(&tree, &list, (last, second), false, 240),
    );
}
