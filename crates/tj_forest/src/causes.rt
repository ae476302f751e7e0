//! The causes of what went wrong, in the order in which they are told. Failures, cycles and what ended
//! tasks owed have ranks, and are put into the order of these.
ghost use Rattle.std.specs.Prelude.{◌≡◌, ◌++◌, IfOk, cond, List, Some, length, map, true};
ghost use Rattle.std.specs.List.{flat_map};
ghost use Rattle.std.specs.Option.{option_map};
ghost use Rattle.tj_base.specs.ForkOrder.{Name};
ghost use Rattle.tj_body.specs.Names.{has};
ghost use Rattle.tj_mean.specs.declared.outcome.Link.{Link};
ghost use Rattle.tj_findings.specs.Findings as findings;
ghost use Rattle.tj_findings.specs.Forests as spec;
ghost use Rattle.tj_forest.specs.Inner.Numbers.{AreAwaitedFrom, AreRootsFrom, IsSearchable, number_in};
ghost use Rattle.tj_forest.specs.Inner.Ranks.{bare_ranks, ranks_of};
ghost use Rattle.tj_findings.specs.Scenes.{view};

use crate::findings::{is_owing, told_cycle, told_debt, told_failure};
use crate::lookups::{Lookups, Numbers};
use crate::owners::enter;
use std::alloc::Global;
use tj_base::{Cause, Name, Oom};
use tj_findings::{Finding, Scene, Tree, Wait};
use tj_mean::{Ending, LinkList, NameMap};
use tj_trace::{TraceLine, ask_spot};

/// The promise for which another task's right was wanted.
fn not_owned(ending: &Ending) -> Option<&Name>
    ensures { option_map (λ name. name.now) result ≡ spec.not_owned ending.now }
{
    match ending {
        Ending::Failed(Cause::Owner(name)) => Some(name),
        Ending::Failed(_) | Ending::Done(_) | Ending::Waits(_) => None,
    }
}

/// The promise that a task had no right to set.
fn refused<'t>(scene: &Scene, line: &'t TraceLine) -> Option<&'t Name>
    ensures { option_map (λ name. name.now) result
        ≡ spec.refused (view scene.now).places line.now }
{
    if ask_spot(scene.places, line.decl, line.at).is_some() {
        return None;
    }
    not_owned(&line.line.ending)
}

/// These cells have this number.
fn enter_cells(
    alloc: Global,
    numbers: &mut Numbers,
    number: usize,
    links: &LinkList,
) -> Result<(), Oom>
    ensures { IfOk result (λ _. (q : Name) → number_in numbers.new q
        ≡ cond (has q (map (λ k. k.cell) links.now)) (Some number) (number_in numbers.old q)) }
{
    for link in links.items() {
        enter(alloc, numbers, number, &link.cell)?;
    }
    Ok(())
}

/// For each cell the number of the first cycle in which a task waits for it.
fn awaited_by(alloc: Global, cycles: &[LinkList]) -> Result<Numbers, Oom>
    ensures { IfOk result (AreAwaitedFrom cycles.now 0) }
{
    let mut numbers = NameMap::new(alloc);
    let mut number = cycles.len();
    while number > 0 {
        number -= 1;
        enter_cells(alloc, &mut numbers, number, &cycles[number])?;
    }
    Ok(numbers)
}

/// Where a failure stands among so many cycles.
fn rank(scene: &Scene, awaited: &Numbers, count: usize, line: &TraceLine) -> usize
    ensures { (cycles : List (List Link)) → count ≡ length cycles
        → AreAwaitedFrom cycles 0 awaited.now
        → result ≡ spec.rank (view scene.now).places cycles line.now }
{
    match refused(scene, line) {
        Some(cell) => awaited.get(cell).copied().unwrap_or(count),
        None => count,
    }
}

/// The failure of a task, if it is no echo, with its rank.
fn add_failure(
    scene: &Scene,
    lookups: &Lookups,
    rank: usize,
    line: &TraceLine,
    trees: &mut Vec<Tree>,
) -> Result<(), Oom>
    requires lookups { IsSearchable lookups.now }
    ensures { IfOk result (λ _. ranks_of trees.new.items ≡ ranks_of trees.old.items
        ++ bare_ranks (map (λ f. (rank, f)) (findings.failed lookups.now.lines.now line.now))) }
{
    match &line.line.ending {
        Ending::Failed(Cause::Broken(_)) | Ending::Done(_) | Ending::Waits(_) => Ok(()),
        Ending::Failed(cause) => {
            let finding = told_failure(scene.alloc, lookups, line, cause)?;
            trees.push(Tree::bare(scene.alloc, rank, finding))?;
            Ok(())
        }
    }
}

/// Each failure that is no echo, with its rank.
fn add_failures(
    scene: &Scene,
    lookups: &Lookups,
    cycles: &[LinkList],
    trees: &mut Vec<Tree>,
) -> Result<(), Oom>
    requires lookups { IsSearchable lookups.now }
    ensures { IfOk result (λ _. ranks_of trees.new.items ≡ ranks_of trees.old.items
        ++ bare_ranks (flat_map (λ l. map (λ f. (spec.rank (view scene.now).places cycles.now l, f))
        (findings.failed lookups.now.lines.now l)) lookups.now.lines.now)) }
{
    let awaited = awaited_by(scene.alloc, cycles)?;
    for line in lookups.lines {
        let rank = rank(scene, &awaited, cycles.len(), line);
        add_failure(scene, lookups, rank, line, trees)?;
    }
    Ok(())
}

/// Each cycle, with its number as rank.
fn add_cycles(
    alloc: Global,
    lookups: &Lookups,
    cycles: &[LinkList],
    trees: &mut Vec<Tree>,
) -> Result<(), Oom>
    requires lookups { IsSearchable lookups.now }
    ensures { IfOk result (λ _. ranks_of trees.new.items ≡ ranks_of trees.old.items
        ++ bare_ranks (spec.ranked_from 0
        (map (findings.told_cycle lookups.now.lines.now) cycles.now))) }
{
    for (number, links) in cycles.iter().enumerate() {
        let finding = told_cycle(alloc, lookups, links)?;
        trees.push(Tree::bare(alloc, number, finding))?;
    }
    Ok(())
}

/// Each of these promises, which a task owed, with a rank.
fn add_debts(
    alloc: Global,
    lookups: &Lookups,
    rank: usize,
    line: &TraceLine,
    trees: &mut Vec<Tree>,
) -> Result<(), Oom>
    requires lookups { IsSearchable lookups.now }
    ensures { IfOk result (λ _. ranks_of trees.new.items ≡ ranks_of trees.old.items
        ++ bare_ranks (map (λ f. (rank, f)) (map (findings.told_debt lookups.now.lines.now line.now)
        line.now.line.owes))) }
{
    for promise in line.line.owes.items() {
        let finding = told_debt(alloc, lookups, line, promise)?;
        trees.push(Tree::bare(alloc, rank, finding))?;
    }
    Ok(())
}

/// What a task owed, if it ended, with a rank.
fn add_owed(
    alloc: Global,
    lookups: &Lookups,
    rank: usize,
    line: &TraceLine,
    trees: &mut Vec<Tree>,
) -> Result<(), Oom>
    requires lookups { IsSearchable lookups.now }
    ensures { IfOk result (λ _. ranks_of trees.new.items ≡ ranks_of trees.old.items
        ++ bare_ranks (map (λ f. (rank, f)) (findings.owed lookups.now.lines.now true line.now))) }
{
    if is_owing(true, &line.line.ending) {
        add_debts(alloc, lookups, rank, line, trees)?;
    }
    Ok(())
}

/// What the tasks owed that ended, with a rank.
fn add_all_owed(
    alloc: Global,
    lookups: &Lookups,
    rank: usize,
    trees: &mut Vec<Tree>,
) -> Result<(), Oom>
    requires lookups { IsSearchable lookups.now }
    ensures { IfOk result (λ _. ranks_of trees.new.items ≡ ranks_of trees.old.items
        ++ bare_ranks (map (λ f. (rank, f)) (flat_map (findings.owed lookups.now.lines.now true)
        lookups.now.lines.now))) }
{
    for line in lookups.lines {
        add_owed(alloc, lookups, rank, line, trees)?;
    }
    Ok(())
}

/// The causes with their ranks, as they are found.
fn ranked(scene: &Scene, lookups: &Lookups, cycles: &[LinkList]) -> Result<Vec<Tree>, Oom>
    requires lookups { IsSearchable lookups.now }
    ensures { IfOk result (λ trees. ranks_of trees.items ≡ bare_ranks (spec.ranked_causes
        (view scene.now).places lookups.now.lines.now cycles.now)) }
{
    let mut trees = Vec::new(scene.alloc);
    add_failures(scene, lookups, cycles, &mut trees)?;
    add_cycles(scene.alloc, lookups, cycles, &mut trees)?;
    add_all_owed(scene.alloc, lookups, cycles.len(), &mut trees)?;
    Ok(trees)
}

/// The causes in the order in which they are told, with nothing below them.
pub fn causes_of(scene: &Scene, lookups: &Lookups, cycles: &[LinkList]) -> Result<Vec<Tree>, Oom>
    requires lookups { IsSearchable lookups.now }
    ensures { IfOk result (λ trees. map spec.view_tree trees.items ≡ map spec.bare (spec.causes
        (view scene.now).places lookups.now.lines.now cycles.now)) }
{
    let mut trees = ranked(scene, lookups, cycles)?;
    trees.sort_by_key(|tree| tree.rank)?;
    Ok(trees)
}

/// The names by which a cause is known have this number.
fn enter_cause(
    alloc: Global,
    numbers: &mut Numbers,
    number: usize,
    finding: &Finding,
) -> Result<(), Oom>
    ensures { IfOk result (λ _. (x : Name) → number_in numbers.new x
        ≡ cond (has x (spec.names_of_cause finding.now)) (Some number) (number_in numbers.old x)) }
{
    match finding {
        Finding::Cycle(waits) => enter_tasks(alloc, numbers, number, waits.items()),
        Finding::Failed { task, .. } => enter(alloc, numbers, number, &task.name),
        Finding::Owed { promise, .. } => enter(alloc, numbers, number, &promise.name),
        Finding::Behind(_) | Finding::Echo { .. } => Ok(()),
    }
}

/// The tasks that wait have this number.
fn enter_tasks(
    alloc: Global,
    numbers: &mut Numbers,
    number: usize,
    waits: &[Wait],
) -> Result<(), Oom>
    ensures { IfOk result (λ _. (x : Name) → number_in numbers.new x
        ≡ cond (has x (map (λ w. w.task.name) waits.now)) (Some number)
        (number_in numbers.old x)) }
{
    for wait in waits {
        enter(alloc, numbers, number, &wait.task.name)?;
    }
    Ok(())
}

/// A number for each name of a cause. The causes are entered from the last to the first, so that the
/// first one of a name stays.
pub fn numbers_of(alloc: Global, trees: &[Tree]) -> Result<Numbers, Oom>
    ensures { IfOk result (AreRootsFrom trees.now 0) }
{
    let mut numbers = NameMap::new(alloc);
    let mut number = trees.len();
    while number > 0 {
        number -= 1;
        enter_cause(alloc, &mut numbers, number, &trees[number].root)?;
    }
    Ok(numbers)
}
