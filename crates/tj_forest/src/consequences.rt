//! What follows from causes: what failed tasks owed, waits behind cycles, and echoes. Each is put below
//! its cause.
ghost use Rattle.std.specs.Prelude.{◌≡◌, ◌++◌, IfOk, List, Some, option_and_then};
ghost use Rattle.std.specs.Prelude.{false, slice_get};
ghost use Rattle.std.specs.List.{flat_map};
ghost use Rattle.std.specs.Option.{option_map};
ghost use Rattle.tj_findings.specs.Findings as findings;
ghost use Rattle.tj_findings.specs.Forests as spec;
ghost use Rattle.tj_findings.specs.Forests.{view_forest};
ghost use Rattle.tj_forest.specs.Inner.Numbers.{AreCausesFrom, IsGuide, IsSearchable};
ghost use Rattle.tj_findings.specs.Scenes.{view};
ghost use Rattle.tj_findings.specs.declared.finding.Finding as told;

use crate::causes::{causes_of, numbers_of};
use crate::chains::{Way, begun_by, jumps_of, jumps_to_echoes, led_to, origin_of, steps_of};
use crate::echoes::echoed_by;
use crate::findings::{is_owing, told_debt, told_echo};
use crate::jumps::jumps_by;
use crate::lookups::{Guide, Lookups, Numbers};
use crate::members::{is_member, members_of};
use crate::told_parts::told_wait;
use std::alloc::Global;
use tj_base::{Name, Oom};
use tj_findings::{Finding, Forest, Scene};
use tj_mean::{Ending, LinkList};
use tj_trace::TraceLine;

/// The number of the cause that is known by this name.
fn cause_number(guide: &Guide, name: Option<&Name>) -> Option<usize>
    ensures { (fs : List told.Finding) → AreCausesFrom fs 0 guide.now.causes
        → result ≡ option_and_then (spec.cause_from 0 fs) (option_map (λ x. x.now) name.entry) }
{
    guide.causes.get(name?).copied()
}

/// Each promise that the task with this line owed where it failed, below the cause with this number.
fn add_debts(
    alloc: Global,
    guide: &Guide,
    number: Option<usize>,
    line: &TraceLine,
    forest: &mut Forest,
) -> Result<(), Oom>
    requires guide { IsGuide guide.now }
    ensures { IfOk result (λ _. view_forest forest.new ≡ spec.put_each number
        (findings.owed guide.now.lookups.lines.now false line.now) (view_forest forest.old)) }
{
    if is_owing(false, &line.line.ending) {
        for promise in line.line.owes.items() {
            let finding = told_debt(alloc, &guide.lookups, line, promise)?;
            forest.put(number, finding)?;
        }
    }
    Ok(())
}

/// What a task owed that failed and echoes none, below its failure.
fn add_after_failure(
    alloc: Global,
    guide: &Guide,
    line: &TraceLine,
    forest: &mut Forest,
) -> Result<(), Oom>
    requires guide { IsGuide guide.now }
    ensures { IfOk result (λ _. (fs : List told.Finding)
        → AreCausesFrom fs 0 guide.now.causes
        → view_forest forest.new ≡ spec.put_all fs (view_forest forest.old)
        (spec.after_failure guide.now.lookups.lines.now line.now)) }
{
    if echoed_by(&line.line.ending).is_some() {
        return Ok(());
    }
    let number = cause_number(guide, Some(&line.line.name));
    add_debts(alloc, guide, number, line, forest)
}

/// The wait of a task, if it is in no cycle, below the cause with this number.
fn add_wait(
    alloc: Global,
    guide: &Guide,
    number: Option<usize>,
    line: &TraceLine,
    forest: &mut Forest,
) -> Result<(), Oom>
    requires guide { IsGuide guide.now }
    ensures { IfOk result (λ _. view_forest forest.new ≡ spec.put_each number
        (findings.behind guide.now.lookups.lines.now guide.now.members.cycles.now line.now)
        (view_forest forest.old)) }
{
    let member = is_member(&guide.members, &line.line.name);
    match (&line.line.ending, member) {
        (Ending::Waits(cell), false) => {
            let wait = told_wait(alloc, &guide.lookups, line, cell)?;
            forest.put(number, Finding::Behind(wait))
        }
        _ => Ok(()),
    }
}

/// The name of the task with this line, if there is one.
fn name_of<'t>(line: Option<&'t TraceLine>) -> Option<&'t Name>
    ensures { option_map (λ name. name.now) result
        ≡ option_map (λ line. line.line.name) (option_map (λ line. line.now) line.entry) }
{
    Some(&line?.line.name)
}

/// The wait of a task, if it is in no cycle, below the cycle to which it leads.
fn add_after_cycle(
    alloc: Global,
    guide: &Guide,
    at: usize,
    line: &TraceLine,
    forest: &mut Forest,
) -> Result<(), Oom>
    requires guide { IsGuide guide.now }
    requires here { slice_get guide.now.lookups.lines.now at ≡ Some line.now }
    ensures { IfOk result (λ _. (fs : List told.Finding)
        → AreCausesFrom fs 0 guide.now.causes
        → view_forest forest.new ≡ spec.put_all fs (view_forest forest.old)
        (spec.after_cycle guide.now.lookups.lines.now guide.now.members.cycles.now line.now)) }
{
    let name = name_of(led_to(&guide.lookups, guide.ahead.as_slice(), at));
    add_wait(alloc, guide, cause_number(guide, name), line, forest)
}

/// An echo, and what its task owed, below the cause by which its chain began.
fn add_after_chain(
    alloc: Global,
    guide: &Guide,
    at: usize,
    line: &TraceLine,
    forest: &mut Forest,
) -> Result<(), Oom>
    requires guide { IsGuide guide.now }
    requires here { slice_get guide.now.lookups.lines.now at ≡ Some line.now }
    ensures { IfOk result (λ _. (fs : List told.Finding)
        → AreCausesFrom fs 0 guide.now.causes
        → view_forest forest.new ≡ spec.put_all fs (view_forest forest.old)
        (spec.after_chain guide.now.lookups.lines.now line.now)) }
{
    let Some(cell) = echoed_by(&line.line.ending) else {
        return Ok(());
    };
    let back = guide.steps.as_slice();
    let name = begun_by(&guide.lookups, back, guide.to_echoes.as_slice(), at);
    let number = cause_number(guide, name);
    let origin = origin_of(&guide.lookups, back, guide.back.as_slice(), at);
    let finding = told_echo(alloc, &guide.lookups, line, cell, origin)?;
    forest.put(number, finding)?;
    add_debts(alloc, guide, number, line, forest)
}

/// What each failed task owed that echoes none.
fn add_failures(alloc: Global, guide: &Guide, forest: &mut Forest) -> Result<(), Oom>
    requires guide { IsGuide guide.now }
    ensures { IfOk result (λ _. (fs : List told.Finding)
        → AreCausesFrom fs 0 guide.now.causes
        → view_forest forest.new ≡ spec.put_all fs (view_forest forest.old)
        (flat_map (spec.after_failure guide.now.lookups.lines.now)
        guide.now.lookups.lines.now)) }
{
    for line in guide.lookups.lines {
        add_after_failure(alloc, guide, line, forest)?;
    }
    Ok(())
}

/// Each wait behind a cycle, and each echo with what its task owed.
fn add_waits_and_echoes(alloc: Global, guide: &Guide, forest: &mut Forest) -> Result<(), Oom>
    requires guide { IsGuide guide.now }
    ensures { IfOk result (λ _. (fs : List told.Finding)
        → AreCausesFrom fs 0 guide.now.causes
        → view_forest forest.new ≡ spec.put_all fs (view_forest forest.old)
        (flat_map (λ l. spec.after_cycle guide.now.lookups.lines.now
        guide.now.members.cycles.now l ++ spec.after_chain guide.now.lookups.lines.now l)
        guide.now.lookups.lines.now)) }
{
    for (at, line) in guide.lookups.lines.iter().enumerate() {
        add_after_cycle(alloc, guide, at, line, forest)?;
        add_after_chain(alloc, guide, at, line, forest)?;
    }
    Ok(())
}

/// What finds the cause of a finding, where causes have these numbers.
fn guide_of<'t>(
    alloc: Global,
    lookups: Lookups<'t>,
    cycles: &'t [LinkList],
    causes: Numbers,
) -> Result<Guide<'t>, Oom>
    requires lookups { IsSearchable lookups }
    ensures lines { IfOk result (λ guide.
        guide.lookups.lines.now ≡ lookups.entry.lines.now) }
    ensures cycles { IfOk result (λ guide. guide.members.cycles.now ≡ cycles.now) }
    ensures causes { IfOk result (λ guide. guide.causes ≡ causes) }
    ensures guide { IfOk result IsGuide }
{
    let members = members_of(alloc, cycles)?;
    let ahead = jumps_of(alloc, &lookups, Way::Ahead)?;
    let steps = steps_of(alloc, &lookups, Way::Back)?;
    let to_echoes = jumps_to_echoes(alloc, &lookups, steps.as_slice())?;
    let back = jumps_by(alloc, steps.as_slice())?;
    Ok(Guide {
        lookups,
        members,
        causes,
        ahead,
        steps,
        to_echoes,
        back,
    })
}

/// What went wrong with a run, with these cycles of the wait graph.
pub fn forest_of<'t>(
    scene: &Scene,
    lookups: Lookups<'t>,
    cycles: &'t [LinkList],
) -> Result<Forest, Oom>
    requires lookups { IsSearchable lookups }
    ensures { IfOk result (λ forest. view_forest forest ≡ spec.forest_of (view scene.now).places
        lookups.entry.lines.now cycles.now) }
{
    let alloc = scene.alloc;
    let trees = causes_of(scene, &lookups, cycles)?;
    let numbers = numbers_of(alloc, trees.as_slice())?;
    let guide = guide_of(alloc, lookups, cycles, numbers)?;
    let strays = Vec::new(alloc);
    let mut forest = Forest { trees, strays };
    add_failures(alloc, &guide, &mut forest)?;
    add_waits_and_echoes(alloc, &guide, &mut forest)?;
    Ok(forest)
}
