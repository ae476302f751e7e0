//! The tasks of a round, in the order of forks: a task, then its first child with all that comes
//! from it, and so on, as far as the round follows forks.
ghost use Rattle.std.specs.Prelude.{◌≡◌, ◌++◌, IfOk};
ghost use Rattle.tj_body.specs.History.{Assignment};
ghost use Rattle.tj_body.specs.Programs as programs;
ghost use Rattle.tj_body.specs.Programs.{Rules};
ghost use Rattle.tj_mean.specs.Inner.KeptRounds.{offspring, still};

use std::alloc::Global;
use tj_base::{Items, Name, Oom};
use tj_body::{Body, Task};

/// A task that is still to be taken.
#[derive(Drop)]
pub struct Pending<B> {
    pub task: Task<B>,
    /// How many forks after one another the round follows from it.
    pub depth: u32,
}

/// The root task.
pub fn root_task<B: Body>(alloc: Global, root: &B) -> Result<Task<B>, Oom>
    ensures { IfOk result (λ task. task ≡ programs.root_task root.now) }
{
    Ok(Task {
        name: Name::root(),
        body: root.twin(alloc)?,
        passed: Items::of(Vec::new(alloc)),
        handed: Items::of(Vec::new(alloc)),
    })
}

/// The children are to be taken next, the first of them first, if so many forks are followed that
/// they are reached.
pub fn push_children<B: Body>(
    pending: &mut Vec<Pending<B>>,
    mut children: Vec<Task<B>>,
    depth: u32,
) -> Result<(), Oom>
    ensures { IfOk result (λ _. (rules : Rules B) (V : Assignment) →
        still rules V pending.new.items
        ≡ offspring rules V depth children.items ++ still rules V pending.old.items) }
{
    if depth == 0 {
        return Ok(());
    }
    while let Some(task) = children.pop() {
        pending.push(Pending {
            task,
            depth: depth - 1,
        })?;
    }
    Ok(())
}
