//! What is looked up in a trace by the name of a task or of a cell: a task by halving the lines, and
//! an owner in a map.
ghost use Rattle.std.specs.Prelude.{◌≡◌, IsTrue, Some, slice_get, option_and_then};
ghost use Rattle.std.specs.Cmp.Lexicographic.{slice_cmp};
ghost use Rattle.std.specs.Option.{option_map};
ghost use Rattle.std.specs.Ordering.{nat_cmp};
ghost use Rattle.tj_mean.specs.Outcomes.{Ascend};
ghost use Rattle.tj_trace.specs.Lookups as traces;
ghost use Rattle.tj_trace.specs.Traces.{names_of};
ghost use Rattle.tj_findings.specs.Echoes as echoes;
ghost use Rattle.tj_forest.specs.Inner.Numbers.{IsNumberOf, IsSearchable};
ghost use Rattle.tj_findings.specs.Searches as spec;
ghost use Rattle.tj_findings.specs.Went as ways;

use crate::lookups::Lookups;
use std::cmp::Ordering;
use tj_base::{Name, name_cmp};
use tj_trace::{Maker, TraceLine};

/// How the name of the task with this line compares to this one.
fn compared(line: &TraceLine, name: &Name) -> Ordering
    ensures { result ≡ slice_cmp nat_cmp line.now.line.name name.now }
{
    name_cmp(&line.line.name, name)
}

/// Whether the first line is that of the task with this name, as it is of the root.
fn is_first(lines: &[TraceLine], name: &Name) -> bool
    ensures { IsTrue result → IsNumberOf lines.now (Some 0) (spec.line_of lines.now name.now) }
{
    match lines {
        [first, ..] => first.line.name == *name,
        [] => false,
    }
}

/// The number of the line of the task with this name.
fn number_of(lines: &[TraceLine], name: &Name) -> Option<usize>
    requires { Ascend (names_of lines.now) }
    ensures { IsNumberOf lines.now result (spec.line_of lines.now name.now) }
{
    if is_first(lines, name) {
        return Some(0);
    }
    match lines.binary_search_by(|line| compared(line, name)) {
        Ok(number) => Some(number),
        Err(_) => None,
    }
}

/// The line with this number.
pub fn line_with(lines: &[TraceLine], number: Option<usize>) -> Option<&TraceLine>
    ensures { option_map (λ line. line.now) result
        ≡ option_and_then (slice_get lines.now) number }
{
    lines.get(number?)
}

/// The line of the task with this name.
#[tactic(auto, using(crate::proofs::LineNumbers::at_number))]
pub fn line_of<'t>(lookups: &Lookups<'t>, name: &Name) -> Option<&'t TraceLine>
    requires lookups { IsSearchable lookups.now }
    ensures { option_map (λ line. line.now) result
        ≡ spec.line_of lookups.now.lines.now name.now }
{
    line_with(lookups.lines, number_of(lookups.lines, name))
}

/// The number of the line of the task that owned the cell where it stopped.
pub fn owner_number(lookups: &Lookups, cell: &Name) -> Option<usize>
    requires lookups { IsSearchable lookups.now }
    ensures { IsNumberOf lookups.now.lines.now result
        (spec.owner_of lookups.now.lines.now cell.now) }
{
    lookups.owners.get(cell).copied()
}

/// The line of the task that owned the cell where it stopped.
#[tactic(auto, using(crate::proofs::LineNumbers::at_number))]
pub fn owner_of<'t>(lookups: &Lookups<'t>, cell: &Name) -> Option<&'t TraceLine>
    requires lookups { IsSearchable lookups.now }
    ensures { option_map (λ line. line.now) result
        ≡ spec.owner_of lookups.now.lines.now cell.now }
{
    line_with(lookups.lines, owner_number(lookups, cell))
}

/// The line of the task that set the promise.
#[tactic(auto, using(crate::proofs::LineNumbers::at_number))]
pub fn setter_of<'t>(lookups: &Lookups<'t>, promise: &Name) -> Option<&'t TraceLine>
    requires lookups { IsSearchable lookups.now }
    ensures { option_map (λ line. line.now) result
        ≡ ways.setter_of lookups.now.lines.now promise.now }
{
    line_with(lookups.lines, lookups.setters.get(promise).copied())
}

/// The number of the line of the task whose end broke the cell.
pub fn breaker(lookups: &Lookups, cell: &Name) -> Option<usize>
    requires lookups { IsSearchable lookups.now }
    ensures { IsNumberOf lookups.now.lines.now result
        (echoes.breaker lookups.now.lines.now cell.now) }
{
    owner_number(lookups, cell).or(number_of(lookups.lines, cell))
}

/// The statement that made the cell with this name.
pub fn maker_of(lookups: &Lookups, name: &Name) -> Option<Maker>
    requires lookups { IsSearchable lookups.now }
    ensures { result ≡ spec.maker_of lookups.now.lines.now name.now }
{
    let (k, maker) = name.split_last()?;
    made_by(line_of(lookups, maker), k)
}

/// The statement that made the k-th thing of the task, if it has a line.
fn made_by(line: Option<&TraceLine>, k: u32) -> Option<Maker>
    ensures { result ≡ traces.made_by (option_map (λ line. line.now) line.entry) k }
{
    made_at(line?, k)
}

/// The statement that made the k-th thing of the task.
fn made_at(line: &TraceLine, k: u32) -> Option<Maker>
    ensures { result ≡ traces.maker_at line.now k }
{
    let before = k.checked_sub(1)?;
    line.makers.items().get(before as usize).copied()
}
