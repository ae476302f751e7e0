//! The outcome of tasks that have stopped, in whatever order they are told.
ghost use Rattle.std.specs.Prelude.{◌≡◌, map, IfOk};
ghost use Rattle.std.specs.List.Sorted.{IsPermutation};
ghost use Rattle.tj_body.specs.Laws.{AreDistinct};
ghost use Rattle.tj_mean.specs.Outcomes.{Ascend, AreApart, IsOutcomeOf};

use crate::outcome::{LineList, Outcome};
use crate::stopped::Stopped;
use crate::wait_graph::cycles;
use std::alloc::Global;
use tj_base::{Items, Oom, name_cmp};

/// The outcome of these tasks.
// The tasks come in any order: who tells them needn't sort them.
pub fn outcome_of(alloc: Global, tasks: Vec<Stopped>) -> Result<Outcome, Oom>
    requires { AreApart tasks.items }
    // The outcome of tasks that have stopped, of which no two have one name and none owns what
    // another owns, is what their lines and waits tell: a line for each, in name order, and exactly
    // the cycles, each once, from its least name on, in the order of these names.
    ensures { IfOk result (IsOutcomeOf tasks.items) }
{
    let tasks = in_name_order(tasks)?;
    let cycles = cycles(alloc, tasks.as_slice())?;
    let lines = lines_of(alloc, tasks)?;
    Ok(Outcome { lines, cycles })
}

/// The tasks in name order.
fn in_name_order(mut tasks: Vec<Stopped>) -> Result<Vec<Stopped>, Oom>
    requires { AreDistinct (map (λ s. s.line.name) tasks.items) }
    ensures same { IfOk result (λ sorted. IsPermutation tasks.items sorted.items) }
    ensures ascend { IfOk result (λ sorted. Ascend (map (λ s. s.line.name) sorted.items)) }
{
    tasks.sort_by(|a, b| name_cmp(&a.line.name, &b.line.name))?;
    Ok(tasks)
}

/// The lines of the tasks.
fn lines_of(alloc: Global, tasks: Vec<Stopped>) -> Result<LineList, Oom>
    ensures { IfOk result (λ lines. lines ≡ map (λ s. s.line) tasks.items) }
{
    let mut lines = Vec::new(alloc);
    for task in tasks {
        lines.push(task.line)?;
    }
    Ok(Items::of(lines))
}
