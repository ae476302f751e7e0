//! Several tasks of one declaration, or several names: the first two, and how many more there are.
ghost use Rattle.std.specs.Prelude.{◌≡◌, ◌++◌, IfOk, map};
ghost use Rattle.std.specs.List.{list_all};
ghost use Rattle.tj_base.specs.Texts.{name_text};
ghost use Rattle.tj_findings.specs.Groups as groups;
ghost use Rattle.tj_findings.specs.Scenes.{view};
ghost use Rattle.tj_texts.specs.WhyTexts as spec;

use crate::alike::same_maker;
use std::alloc::Global;
use tj_base::{Name, Oom};
use tj_command::count_text;
use tj_faults::joined;
use tj_findings::{Scene, ToldTask, label, name_of, named, spot_text};
use tj_trace::Maker;

/// Where the text speaks of one, or of several.
pub fn one_or(count: usize, one: &'static [u8], several: &'static [u8]) -> &'static [u8]
    ensures { result.now ≡ spec.one_or count one.now several.now }
{
    if count == 1 { one } else { several }
}

/// The first of two names, or of more, and how many more there are.
pub fn first_names(alloc: Global, names: &[&Name]) -> Result<Vec<u8>, Oom>
    ensures { IfOk result (λ text.
        text.items ≡ spec.first_names (map (λ name. name.now) names.now)) }
{
    match names {
        [] => Ok(Vec::new(alloc)),
        [first] => named(alloc, b"", *first),
        [first, second] => two_names(alloc, *first, b" and ", *second),
        [first, second, _, more @ ..] => many_names(alloc, *first, *second, more.len() + 1),
    }
}

/// The same of the names of tasks.
fn tasks_names(alloc: Global, tasks: &[&ToldTask]) -> Result<Vec<u8>, Oom>
    ensures { IfOk result (λ text. text.items ≡ spec.first_names (map (λ task. task.name)
        (map (λ task. task.now) tasks.now))) }
{
    match tasks {
        [] => Ok(Vec::new(alloc)),
        [first] => named(alloc, b"", &first.name),
        [first, second] => two_names(alloc, &first.name, b" and ", &second.name),
        [first, second, _, more @ ..] => {
            many_names(alloc, &first.name, &second.name, more.len() + 1)
        }
    }
}

/// The first two names, and how many more there are.
fn many_names(alloc: Global, first: &Name, second: &Name, more: usize) -> Result<Vec<u8>, Oom>
    ensures { IfOk result (λ text. text.items ≡ spec.many_names first.now second.now more) }
{
    let two = two_names(alloc, first, b", ", second)?;
    let count = count_text(alloc, b" and ", more as u128, b" more")?;
    joined(alloc, &[two.as_slice(), count.as_slice()])
}

/// Two names.
fn two_names(alloc: Global, first: &Name, between: &[u8], second: &Name) -> Result<Vec<u8>, Oom>
    ensures { IfOk result (λ text.
        text.items ≡ name_text first.now ++ between.now ++ name_text second.now) }
{
    let first = named(alloc, b"", first)?;
    let second = named(alloc, between, second)?;
    joined(alloc, &[first.as_slice(), second.as_slice()])
}

/// Where a task was forked, behind its declaration.
fn fork_text(scene: &Scene, fork: Option<Maker>) -> Result<Vec<u8>, Oom>
    ensures { IfOk result (λ text. text.items ≡ spec.fork_text (view scene.now) fork) }
{
    let Some(fork) = fork else {
        return Ok(Vec::new(scene.alloc));
    };
    let spot = spot_text(scene, fork.decl, fork.at)?;
    joined(scene.alloc, &[b" (forked at ", spot.as_slice(), b")"])
}

/// Whether all these tasks were forked by one statement.
fn one_fork(first: &ToldTask, tasks: &[&ToldTask]) -> bool
    ensures { result ≡ list_all (λ task. groups.same_maker first.now.fork task.fork)
        (map (λ task. task.now) tasks.now) }
{
    tasks.iter().all(|task| same_maker(first.fork, task.fork))
}

/// Several tasks of the declaration of the first.
fn crowd(scene: &Scene, first: &ToldTask, tasks: &[&ToldTask]) -> Result<Vec<u8>, Oom>
    ensures { IfOk result (λ text. text.items
        ≡ spec.crowd (view scene.now) first.now (map (λ task. task.now) tasks.now)) }
{
    let names = tasks_names(scene.alloc, tasks)?;
    let fork = if one_fork(first, tasks) {
        fork_text(scene, first.fork)?
    } else {
        Vec::new(scene.alloc)
    };
    let decl = name_of(scene.script, first.decl);
    joined(
        scene.alloc,
        &[names.as_slice(), b" of task ", decl, fork.as_slice()],
    )
}

/// The tasks: one with its declaration and fork, or several.
pub fn tasks_named(scene: &Scene, tasks: &[&ToldTask]) -> Result<Vec<u8>, Oom>
    ensures { IfOk result (λ text. text.items
        ≡ spec.tasks_named (view scene.now) (map (λ task. task.now) tasks.now)) }
{
    match tasks {
        [] => Ok(Vec::new(scene.alloc)),
        [task] => label(scene, *task),
        [first, ..] => crowd(scene, *first, tasks),
    }
}
