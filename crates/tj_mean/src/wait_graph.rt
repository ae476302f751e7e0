//! The wait graph of tasks that have stopped, and its cycles. The tasks stand in name order and go
//! by their indexes in it, so that the least name on a cycle is the least index.
ghost use Rattle.std.specs.Prelude.{◌≡◌, ◌↔◌, ℕ, ◌<◌, length, map};
ghost use Rattle.std.specs.Prelude.{Some, List, IfOk, IfSome, IsNone};
ghost use Rattle.std.specs.List.{All};
ghost use Rattle.tj_mean.specs.Inner.MetIndexes.{AreLeastTold};
ghost use Rattle.tj_mean.specs.Inner.Owners.{AreOwners};
ghost use Rattle.tj_mean.specs.Outcomes.{AreApart, AreCycles, Ascend};
ghost use Rattle.tj_mean.specs.Inner.Indexes.{IsLeastCycle, Waiting, WaitsAt};
ghost use Rattle.tj_mean.specs.WaitIndexes.{AreNext, LeadsOn, LeadsTo, Next, link_at, link_of};

use crate::least_indexes::least_indexes;
use crate::outcome::{CycleList, Ending, Link, LinkList};
use crate::owners::{Owners, owner, owners_of};
use crate::stopped::Stopped;
use std::alloc::Global;
use tj_base::{Items, Name, Oom};

/// Indexes of tasks.
pub type IndexList = Items<usize>;

/// The indexes on each of some cycles.
pub type IndexCycles = Items<IndexList>;

/// All cycles, each from its least name on, in the order of these names.
pub fn cycles(alloc: Global, tasks: &[Stopped]) -> Result<CycleList, Oom>
    requires apart { AreApart tasks.now }
    requires in_order { Ascend (map (λ s. s.line.name) tasks.now) }
    ensures { IfOk result (AreCycles tasks.now) }
{
    let next = next_tasks(alloc, tasks)?;
    let cycles = cycles_by(alloc, next.as_slice())?;
    all_links(alloc, tasks, cycles.items())
}

/// All cycles of indexes that lead to these, each from its least index on, in the order of these:
/// whichever tasks in name order lead to each other so, their cycles are these.
pub fn cycles_by(alloc: Global, next: &[Option<usize>]) -> Result<IndexCycles, Oom>
    requires { (i j : ℕ) → Next next.now i j → j < length next.now }
    // Each index of the answer leads to some index.
    ensures on { IfOk result (λ cycles. All (λ c. All (LeadsOn next.now) c) cycles) }
    // Whichever tasks in name order lead to each other so, of which no two have one name and none
    // owns what another owns: the cycles are theirs, exactly, each once, from its least name on, in
    // the order of these names.
    ensures cycles { IfOk result (λ cycles. (tasks : List Stopped) → AreApart tasks
        → Ascend (map (λ s. s.line.name) tasks) → AreNext tasks tasks next.now
        → AreCycles tasks (map (map (link_at tasks)) cycles)) }
{
    let least = least_indexes(alloc, next)?;
    let mut cycles = Vec::new(alloc);
    for first in 0..next.len() {
        if let Some(indexes) = cycle_of(alloc, next, least.as_slice(), first)? {
            cycles.push(Items::of(indexes))?;
        }
    }
    Ok(Items::of(cycles))
}

/// For each task the index of the task that it leads to.
fn next_tasks(alloc: Global, tasks: &[Stopped]) -> Result<Vec<Option<usize>>, Oom>
    requires apart { AreApart tasks.now }
    requires in_order { Ascend (map (λ s. s.line.name) tasks.now) }
    ensures { IfOk result (λ next. AreNext tasks.now tasks.now next.items) }
{
    let owners = owners_of(alloc, tasks)?;
    let mut next = Vec::new(alloc);
    for task in tasks {
        next.push(next_of(tasks, &owners, task))?;
    }
    Ok(next)
}

/// The index of the task that owns the cell that this task waits for, if it waits.
fn next_of(tasks: &[Stopped], owners: &Owners, task: &Stopped) -> Option<usize>
    requires apart { AreApart tasks.now }
    requires in_order { Ascend (map (λ s. s.line.name) tasks.now) }
    requires owners { AreOwners tasks.now owners.now }
    ensures { (p : ℕ) → (result ≡ Some p) ↔ LeadsTo tasks.now task.now p }
{
    match &task.line.ending {
        Ending::Waits(cell) => owner(owners, cell),
        _ => None,
    }
}

/// The indexes of the cycle with this least index, if there is one.
fn cycle_of(
    alloc: Global,
    next: &[Option<usize>],
    least: &[bool],
    first: usize,
) -> Result<Option<Vec<usize>>, Oom>
    requires first { first < length next.now }
    requires indexes { (i j : ℕ) → Next next.now i j → j < length next.now }
    requires length { length least.now ≡ length next.now }
    requires least { AreLeastTold next.now least.now }
    ensures some { IfOk result (λ found. IfSome found (λ indexes.
        IsLeastCycle next.now first indexes.items)) }
    ensures none { IfOk result (λ found. IsNone found
        → (indexes : List ℕ) → ¬ IsLeastCycle next.now first indexes) }
{
    if !least[first] {
        return Ok(None);
    }
    cycle_from(alloc, next, first)
}

/// The indexes from this one on along waits, if the way comes back to it, and over greater indexes
/// alone.
fn cycle_from(
    alloc: Global,
    next: &[Option<usize>],
    first: usize,
) -> Result<Option<Vec<usize>>, Oom>
    requires first { first < length next.now }
    requires indexes { (i j : ℕ) → Next next.now i j → j < length next.now }
    ensures some { IfOk result (λ found. IfSome found (λ indexes.
        IsLeastCycle next.now first indexes.items)) }
    ensures none { IfOk result (λ found. IsNone found
        → (indexes : List ℕ) → ¬ IsLeastCycle next.now first indexes) }
{
    let mut indexes = Vec::new(alloc);
    let mut at = first;
    for step in 0..next.len() {
        indexes.push(at)?;
        match next[at] {
            Some(owner) if owner == first => return Ok(Some(indexes)),
            Some(owner) if owner > first => at = owner,
            _ => return Ok(None),
        }
    }
    Ok(None)
}

/// The links of the tasks on all of these cycles.
fn all_links(alloc: Global, tasks: &[Stopped], cycles: &[IndexList]) -> Result<CycleList, Oom>
    requires { All (λ c. All (WaitsAt tasks.now) c) cycles.now }
    ensures { IfOk result (λ all. all ≡ map (map (link_at tasks.now)) cycles.now) }
{
    let mut all = Vec::new(alloc);
    for cycle in cycles {
        all.push(links(alloc, tasks, cycle.items())?)?;
    }
    Ok(Items::of(all))
}

/// The links of the tasks with these indexes.
fn links(alloc: Global, tasks: &[Stopped], indexes: &[usize]) -> Result<LinkList, Oom>
    requires there { All (λ p. p < length tasks.now) indexes.now }
    requires waiting { All (λ p. WaitsAt tasks.now p) indexes.now }
    ensures { IfOk result (λ links. links ≡ map (link_at tasks.now) indexes.now) }
{
    let mut links = Vec::new(alloc);
    for index in indexes {
        links.push(link_of(alloc, &tasks[*index])?)?;
    }
    Ok(Items::of(links))
}

/// The task with the cell that it waits for.
fn link_of(alloc: Global, task: &Stopped) -> Result<Link, Oom>
    requires { Waiting task.now }
    ensures { IfOk result (λ link. link ≡ link_of task.now) }
{
    match &task.line.ending {
        Ending::Waits(cell) => Ok(Link {
            task: task.line.name.copy(alloc)?,
            cell: cell.copy(alloc)?,
        }),
        _ => unreachable!(),
    }
}
