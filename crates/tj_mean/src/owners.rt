//! Who owns each cell: the indexes of the tasks that wait, by the cells that they own.
ghost use Rattle.std.specs.Prelude.{ℕ, ◌≡◌, cond, Some, IfOk};
ghost use Rattle.tj_base.specs.ForkOrder.{Name};
ghost use Rattle.tj_body.specs.Names.{has, same};
ghost use Rattle.tj_mean.specs.Inner.Owners.{AreOwners, owner_in};
ghost use Rattle.tj_mean.specs.Outcomes.{owned_by};

use crate::name_map::NameMap;
use crate::outcome::Ending;
use crate::stopped::Stopped;
use std::alloc::Global;
use tj_base::{Name, Oom};

/// The index of the task that owns it, for each cell that a task owns.
pub type Owners = NameMap<usize>;

/// The owners of all cells that these tasks own.
pub fn owners_of(alloc: Global, tasks: &[Stopped]) -> Result<Owners, Oom>
    ensures { IfOk result (AreOwners tasks.now) }
{
    let mut owners = NameMap::new(alloc);
    for (index, task) in tasks.iter().enumerate() {
        enter_task(alloc, &mut owners, index, task)?;
    }
    Ok(owners)
}

/// The task with this index owns the cells that it owns.
fn enter_task(alloc: Global, owners: &mut Owners, index: usize, task: &Stopped) -> Result<(), Oom>
    ensures { IfOk result (λ _. (q : Name) → owner_in owners.new q
        ≡ cond (has q (owned_by task.now)) (Some index) (owner_in owners.old q)) }
{
    match &task.line.ending {
        Ending::Waits(_) => {
            enter_all(alloc, owners, index, task.holds.items())?;
            enter(alloc, owners, index, &task.line.name)
        }
        _ => Ok(()),
    }
}

/// The task with this index owns these cells.
fn enter_all(alloc: Global, owners: &mut Owners, index: usize, cells: &[Name]) -> Result<(), Oom>
    ensures { IfOk result (λ _. (q : Name) → owner_in owners.new q
        ≡ cond (has q cells.now) (Some index) (owner_in owners.old q)) }
{
    for cell in cells {
        enter(alloc, owners, index, cell)?;
    }
    Ok(())
}

/// The task with this index owns this cell.
fn enter(alloc: Global, owners: &mut Owners, index: usize, cell: &Name) -> Result<(), Oom>
    ensures { IfOk result (λ _. (q : Name) → owner_in owners.new q
        ≡ cond (same q cell.now) (Some index) (owner_in owners.old q)) }
{
    let copy = cell.copy(alloc)?;
    owners.put(copy, index)?;
    Ok(())
}

/// The index of the task that owns the cell, if one of them does.
pub fn owner(owners: &Owners, cell: &Name) -> Option<usize>
    ensures { result ≡ owner_in owners.now cell.now }
{
    owners.get(cell).copied()
}
