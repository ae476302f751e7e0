//! What an outcome tells of one task, and which tasks owe.
ghost use Rattle.std.specs.Prelude.{◌≡◌, not, IfOk, map};
ghost use Rattle.std.specs.List.{filter, find, list_any};
ghost use Rattle.std.specs.Option.{option_map};
ghost use Rattle.tj_body.specs.Names.{same};
ghost use Rattle.tj_mean.specs.Outcomes.{is_nil};

use std::alloc::{AllocError, Global};
use tj_base::{Name, Oom};
use tj_mean::{LinkList, Outcome, TaskLine};

/// The line of the task with this name.
pub fn line_of<'o>(outcome: &'o Outcome, name: &Name) -> Option<&'o TaskLine>
    // It is the first line with this name, and None where no line has it.
    ensures { option_map (λ line. line.now) result
        ≡ find (λ line. same line.name name.now) outcome.now.lines }
{
    outcome.lines.items().iter().find(|line| line.name == *name)
}

/// The cycle of waits that the task with this name is on.
pub fn cycle_with<'o>(outcome: &'o Outcome, name: &Name) -> Option<&'o LinkList>
    // It is the first cycle with a task of this name, and None where no cycle has it.
    ensures { option_map (λ cycle. cycle.now) result
        ≡ find (λ cycle. list_any (λ link. same link.task name.now) cycle) outcome.now.cycles }
{
    outcome
        .cycles
        .items()
        .iter()
        .find(|cycle| is_on(cycle, name))
}

/// Whether the task with this name is on the cycle.
fn is_on(cycle: &LinkList, name: &Name) -> bool
    ensures { result ≡ list_any (λ link. same link.task name.now) cycle.now }
{
    cycle.items().iter().any(|link| link.task == *name)
}

/// The lines of the tasks that ended before they had set each promise that they owned.
pub fn owing<'o>(alloc: Global, outcome: &'o Outcome) -> Result<Vec<&'o TaskLine>, Oom>
    // They are the lines of the tasks that owe, in name order.
    ensures { IfOk result (λ lines. map (λ line. line.now) lines.items
        ≡ filter (λ line. not (is_nil line.owes)) outcome.now.lines) }
{
    Ok(those_that_owe(alloc, outcome.lines.items())?)
}

/// Those of the lines whose tasks owe.
fn those_that_owe(alloc: Global, lines: &[TaskLine]) -> Result<Vec<&TaskLine>, AllocError>
    ensures { IfOk result (λ found. map (λ line. line.now) found.items
        ≡ filter (λ line. not (is_nil line.owes)) lines.now) }
{
    lines.iter().filter(|line| owes(line)).collect(alloc)
}

/// Whether the task owes.
fn owes(line: &TaskLine) -> bool
    ensures { result ≡ not (is_nil line.now.owes) }
{
    !line.owes.items().is_empty()
}
