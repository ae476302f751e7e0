//! Steps from line to line: to which cycle waits lead, and by what a chain of echoes began.
ghost use Rattle.std.specs.Prelude.{◌≡◌, IfOk, option_and_then, slice_get};
ghost use Rattle.std.specs.Option.{option_map};
ghost use Rattle.tj_findings.specs.Echoes as echoes;
ghost use Rattle.tj_findings.specs.Echoes.{echoed_by, most_doublings};
ghost use Rattle.tj_findings.specs.Forests as spec;
ghost use Rattle.tj_forest.specs.Inner.Jumps.{AreJumps};
ghost use Rattle.tj_forest.specs.Inner.Numbers.{AreSteps, IsNumberOf, IsSearchable};
ghost use Rattle.tj_forest.specs.Inner.Ways as ways;

use crate::echoes::{back, echoed_by};
use crate::jumps::{jump, jumps_by, line_at, line_from, step};
use crate::lookups::Lookups;
use crate::searches::{line_with, owner_number};
use std::alloc::Global;
use tj_base::{Name, Oom};
use tj_mean::Ending;
use tj_trace::TraceLine;

/// Which steps lead from line to line.
#[derive(Clone, Copy)]
pub enum Way {
    /// From a task that waits to the owner of what it waits for.
    Ahead,
    /// From an echo to the task from whose end it came.
    Back,
}

/// The cell for which a task waits that stopped so.
fn awaited(ending: &Ending) -> Option<&Name>
    ensures { option_map (λ name. name.now) result ≡ spec.awaited ending.now }
{
    match ending {
        Ending::Waits(cell) => Some(cell),
        Ending::Done(_) | Ending::Failed(_) => None,
    }
}

/// The number of the line of the task that owns the cell for which the one with this line waits.
fn ahead(lookups: &Lookups, line: &TraceLine) -> Option<usize>
    requires lookups { IsSearchable lookups.now }
    ensures { IsNumberOf lookups.now.lines.now result
        (spec.ahead lookups.now.lines.now line.now) }
{
    owner_number(lookups, awaited(&line.line.ending)?)
}

/// The number, if the line with it is of an echo.
fn echo_only(lookups: &Lookups, number: Option<usize>) -> Option<usize>
    ensures { spec.IsEchoOnly lookups.now.lines.now number result }
{
    let number = number?;
    echoed_by(&lookups.lines.get(number)?.line.ending)?;
    Some(number)
}

/// The number of the line to which a step of this way leads from another.
fn next(lookups: &Lookups, way: Way, line: &TraceLine) -> Option<usize>
    requires lookups { IsSearchable lookups.now }
    ensures { IsNumberOf lookups.now.lines.now result
        (ways.next way lookups.now.lines.now line.now) }
{
    match way {
        Way::Ahead => ahead(lookups, line),
        Way::Back => back(lookups, line),
    }
}

/// The steps of this way.
pub fn steps_of(alloc: Global, lookups: &Lookups, way: Way) -> Result<Vec<Option<usize>>, Oom>
    requires lookups { IsSearchable lookups.now }
    ensures { IfOk result (λ steps.
        AreSteps lookups.now.lines.now (ways.next way lookups.now.lines.now) steps.items) }
{
    let mut steps = Vec::new(alloc);
    for line in lookups.lines {
        steps.push(next(lookups, way, line))?;
    }
    Ok(steps)
}

/// The jumps of this way.
pub fn jumps_of(alloc: Global, lookups: &Lookups, way: Way) -> Result<Vec<usize>, Oom>
    requires lookups { IsSearchable lookups.now }
    ensures { IfOk result (λ jumps. AreJumps lookups.now.lines.now
        (ways.next way lookups.now.lines.now) most_doublings jumps.items) }
{
    let steps = steps_of(alloc, lookups, way)?;
    jumps_by(alloc, steps.as_slice())
}

/// Of these steps back those that lead to an echo.
fn steps_to_echoes(
    alloc: Global,
    lookups: &Lookups,
    back: &[Option<usize>],
) -> Result<Vec<Option<usize>>, Oom>
    requires back { AreSteps lookups.now.lines.now (echoes.back lookups.now.lines.now) back.now }
    ensures { IfOk result (λ steps.
        AreSteps lookups.now.lines.now (spec.echo_before lookups.now.lines.now) steps.items) }
{
    let mut steps = Vec::new(alloc);
    for step in back {
        steps.push(echo_only(lookups, *step))?;
    }
    Ok(steps)
}

/// The jumps from echo to echo, where these are the steps back.
pub fn jumps_to_echoes(
    alloc: Global,
    lookups: &Lookups,
    back: &[Option<usize>],
) -> Result<Vec<usize>, Oom>
    requires back { AreSteps lookups.now.lines.now (echoes.back lookups.now.lines.now) back.now }
    ensures { IfOk result (λ jumps. AreJumps lookups.now.lines.now
        (spec.echo_before lookups.now.lines.now) most_doublings jumps.items) }
{
    let steps = steps_to_echoes(alloc, lookups, back)?;
    jumps_by(alloc, steps.as_slice())
}

/// The line of the task on a cycle to which waits lead from the line with this number.
pub fn led_to<'t>(lookups: &Lookups<'t>, jumps: &[usize], number: usize) -> Option<&'t TraceLine>
    requires jumps { AreJumps lookups.now.lines.now (spec.ahead lookups.now.lines.now)
        most_doublings jumps.now }
    ensures { option_map (λ line. line.now) result
        ≡ option_map (spec.led_to lookups.now.lines.now) (slice_get lookups.now.lines.now number) }
{
    line_at(lookups.lines, jumps, number)
}

/// The name of what a chain began by whose first cell is this, which the task with this line broke.
fn begun_with<'n>(cell: &'n Name, line: &'n TraceLine) -> &'n Name
    ensures { result.now ≡ spec.begun_with cell.now line.now line.now.line.ending }
{
    match line.line.ending {
        Ending::Failed(_) => &line.line.name,
        Ending::Done(_) | Ending::Waits(_) => cell,
    }
}

/// The name of the cause by which a chain began whose first echo has this line, where the task with
/// the other line broke its cell.
fn begun_at<'t>(first: &'t TraceLine, broke: Option<&'t TraceLine>) -> Option<&'t Name>
    ensures { option_map (λ name. name.now) result ≡ option_and_then (λ q.
        option_map (λ l. spec.begun_with q l l.line.ending)
        (option_map (λ line. line.now) broke.entry)) (echoed_by first.now.line.ending) }
{
    let cell = echoed_by(&first.line.ending)?;
    Some(begun_with(cell, broke?))
}

/// The name of the cause by which the chain of the echo began whose line has this number.
pub fn begun_by<'t>(
    lookups: &Lookups<'t>,
    back: &[Option<usize>],
    jumps: &[usize],
    number: usize,
) -> Option<&'t Name>
    requires back { AreSteps lookups.now.lines.now (echoes.back lookups.now.lines.now) back.now }
    requires jumps { AreJumps lookups.now.lines.now (spec.echo_before lookups.now.lines.now)
        most_doublings jumps.now }
    ensures { option_map (λ name. name.now) result ≡ option_and_then
        (spec.begun_by lookups.now.lines.now) (slice_get lookups.now.lines.now number) }
{
    let first = line_at(lookups.lines, jumps, number)?;
    let broke = line_with(lookups.lines, step(back, jump(jumps, number)));
    begun_at(first, broke)
}

/// The line of the task from whose end the failure of the one with this number came at first.
pub fn origin_of<'t>(
    lookups: &Lookups<'t>,
    back: &[Option<usize>],
    jumps: &[usize],
    number: usize,
) -> Option<&'t TraceLine>
    requires back { AreSteps lookups.now.lines.now (echoes.back lookups.now.lines.now) back.now }
    requires jumps { AreJumps lookups.now.lines.now (echoes.back lookups.now.lines.now)
        most_doublings jumps.now }
    ensures { option_map (λ line. line.now) result
        ≡ option_map (echoes.back_by lookups.now.lines.now most_doublings)
        (option_and_then (echoes.back lookups.now.lines.now)
        (slice_get lookups.now.lines.now number)) }
{
    line_from(lookups.lines, jumps, step(back, number))
}
