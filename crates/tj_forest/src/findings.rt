//! What went wrong with a run: the findings, each by the line that it is of.
ghost use Rattle.std.specs.Prelude.{◌≡◌, ◌++◌, IfOk};
ghost use Rattle.std.specs.Option.{option_map};
ghost use Rattle.tj_findings.specs.Echoes as echoes;
ghost use Rattle.tj_findings.specs.Findings as spec;
ghost use Rattle.tj_forest.specs.Inner.Numbers.{IsSearchable};

use crate::lookups::Lookups;
use crate::searches::line_of;
use crate::told_parts::{copy_of, maker_named, told_cell, told_task, told_task_if, told_wait};
use std::alloc::Global;
use tj_base::{Cause, Items, Name, Oom};
use tj_findings::{Finding, Wait};
use tj_mean::{Ending, Link, LinkList};
use tj_trace::TraceLine;

/// The wait of a link of a cycle.
fn add_link(alloc: Global, lookups: &Lookups, link: &Link, waits: &mut Vec<Wait>) -> Result<(), Oom>
    requires lookups { IsSearchable lookups.now }
    ensures { IfOk result (λ _. waits.new.items
        ≡ waits.old.items ++ spec.link_wait lookups.now.lines.now link.now) }
{
    if let Some(line) = line_of(lookups, &link.task) {
        waits.push(told_wait(alloc, lookups, line, &link.cell)?)?;
    }
    Ok(())
}

/// A cycle.
pub fn told_cycle(alloc: Global, lookups: &Lookups, links: &LinkList) -> Result<Finding, Oom>
    requires lookups { IsSearchable lookups.now }
    ensures { IfOk result (λ finding.
        finding ≡ spec.told_cycle lookups.now.lines.now links.now) }
{
    let mut waits = Vec::new(alloc);
    for link in links.items() {
        add_link(alloc, lookups, link, &mut waits)?;
    }
    Ok(Finding::Cycle(Items::of(waits)))
}

/// The failure of a task for this cause.
pub fn told_failure(
    alloc: Global,
    lookups: &Lookups,
    line: &TraceLine,
    cause: &Cause,
) -> Result<Finding, Oom>
    requires lookups { IsSearchable lookups.now }
    ensures { IfOk result (λ finding. finding
        ≡ spec.told_failure lookups.now.lines.now line.now cause.now) }
{
    Ok(Finding::Failed {
        task: told_task(alloc, lookups, line)?,
        cause: copy_of(alloc, cause)?,
        about: maker_named(lookups, cause),
    })
}

/// A promise that the task with this line owned where it stopped.
pub fn told_debt(
    alloc: Global,
    lookups: &Lookups,
    line: &TraceLine,
    promise: &Name,
) -> Result<Finding, Oom>
    requires lookups { IsSearchable lookups.now }
    ensures { IfOk result (λ finding. finding
        ≡ spec.told_debt lookups.now.lines.now line.now promise.now) }
{
    Ok(Finding::Owed {
        promise: told_cell(alloc, lookups, promise)?,
        owner: told_task(alloc, lookups, line)?,
    })
}

/// Whether the promises of such a task are asked for: of one that ended, or of one that failed.
pub fn is_owing(ended: bool, ending: &Ending) -> bool
    ensures { result ≡ spec.is_owing ended ending.now }
{
    match ending {
        Ending::Done(_) => ended,
        Ending::Failed(_) | Ending::Waits(_) => !ended,
    }
}

/// The failure of a task for this cell, which is broken, with the line of the task where that began.
pub fn told_echo(
    alloc: Global,
    lookups: &Lookups,
    line: &TraceLine,
    cell: &Name,
    origin: Option<&TraceLine>,
) -> Result<Finding, Oom>
    requires lookups { IsSearchable lookups.now }
    requires origin { option_map (λ line. line.now) origin
        ≡ echoes.origin lookups.now.lines.now cell.now }
    ensures { IfOk result (λ finding. finding
        ≡ spec.told_echo lookups.now.lines.now line.now cell.now) }
{
    let origin = told_task_if(alloc, lookups, origin)?;
    let cell = told_cell(alloc, lookups, cell)?;
    let task = told_task(alloc, lookups, line)?;
    Ok(Finding::Echo { task, cell, origin })
}
