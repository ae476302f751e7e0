//! The fork order as the list that defines it.
ghost use Rattle.std.specs.Prelude.{ℕ, ◌≡◌, ◌+◌, ◌<◌, ◌≤◌, ◌↔◌, [], ◌∷◌, length, insert, Contains, IfOk, OnErr, IsTrue};
ghost use Rattle.tj_base.specs.declared.cell.TheConstants.{MAX_CELLS};
ghost use Rattle.tj_tree.specs.Forks.{insert_after, IsEarlier};

use crate::node::NodeId;
use std::alloc::Global;
use std::marker::Model;
use tj_base::Oom;

/// The tasks, each before those that stand behind it.
#[derive(Drop)]
pub struct OrderList {
    tasks: Vec<u32>,
}

impl Model for OrderList {
    ghost use Rattle.std.specs.Prelude.{ℕ, List};
    ghost use Rattle.tj_tree.specs.Forks.{IsNumbering};

    ghost Value = { List ℕ };

    ghost view = { λ list. list.tasks.items };

    ghost invariant = { λ list. IsNumbering list.tasks.items };
}

impl OrderList {
    /// The root alone.
    pub fn new(alloc: Global) -> Result<OrderList, Oom>
        // The list is the root alone.
        ensures { IfOk result (λ list. list ≡ 0 ∷ []) }
    {
        let mut tasks = Vec::new(alloc);
        tasks.push(0)?;
        Ok(OrderList { tasks })
    }

    /// A further task, directly after its parent. The tasks are numbered as they come.
    pub fn fork(&mut self, parent: NodeId) -> Result<NodeId, Oom>
        requires parent_there { parent.0 < length self.old }
        requires room { length self.old < MAX_CELLS }
        // The new task has the next number.
        ensures number { IfOk result (λ child. child.0 ≡ length self.old) }
        // It stands directly after its parent, and all else is as before.
        ensures ok { IfOk result (λ child. self.new ≡ insert_after parent.0 child.0 self.old) }
        // After an error the list is as before.
        ensures err { OnErr result (self.new ≡ self.old) }
    {
        let child = self.tasks.len() as u32;
        let index = index_behind(self.tasks.as_slice(), parent.0);
        self.tasks.insert(index, child)?;
        Ok(NodeId(child))
    }

    /// How many tasks there are. They are numbered from 0 on.
    pub fn count(&self) -> u32
        // The answer is how many tasks there are.
        ensures { result ≡ length self.now }
    {
        self.tasks.len() as u32
    }

    /// Whether `a` stands before `b`.
    pub fn before(&self, a: NodeId, b: NodeId) -> bool
        // True comes exactly where a stands before b.
        ensures { IsTrue result ↔ IsEarlier self.now a.0 b.0 }
    {
        stands_before(self.tasks.as_slice(), a.0, b.0)
    }
}

// Where a child of the task goes.
fn index_behind(tasks: &[u32], task: u32) -> usize
    requires { Contains tasks.now task }
    ensures within { result ≤ length tasks.now }
    ensures directly { (c : ℕ) → insert tasks.now result c ≡ insert_after task c tasks.now }
{
    for (index, other) in tasks.iter().enumerate() {
        if *other == task {
            return index + 1;
        }
    }
    tasks.len()
}

fn stands_before(tasks: &[u32], a: u32, b: u32) -> bool
    ensures { IsTrue result ↔ IsEarlier tasks.now a b }
{
    let mut passed = false;
    for task in tasks {
        if passed && *task == b {
            return true;
        }
        passed = passed || *task == a;
    }
    false
}
