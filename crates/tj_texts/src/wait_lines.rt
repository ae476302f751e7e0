//! A line for tasks that wait at one statement.
ghost use Rattle.std.specs.Prelude.{◌≡◌, ◌++◌, IfOk, codes, cond, map};
ghost use Rattle.std.specs.List.{list_all};
ghost use Rattle.tj_base.specs.Texts.{name_text};
ghost use Rattle.tj_body.specs.Names.{same};
ghost use Rattle.tj_findings.specs.Groups as groups;
ghost use Rattle.tj_findings.specs.PartTexts as parts;
ghost use Rattle.tj_findings.specs.Scenes.{view};
ghost use Rattle.tj_texts.specs.WhyTexts as spec;

use crate::alike::{same_maker, same_name, wait_at};
use crate::crowds::{one_or, tasks_named};
use std::alloc::Global;
use tj_base::Oom;
use tj_faults::joined;
use tj_findings::{
    Finding, Scene, ToldTask, Wait, is_promise, made_text, named, owner_text, stop_text,
};

/// Whether the waits are for one cell.
fn one_cell(first: &Wait, waits: &[&Wait]) -> bool
    ensures { result ≡ list_all (λ wait. same first.now.cell.name wait.cell.name)
        (map (λ wait. wait.now) waits.now) }
{
    waits.iter().all(|wait| first.cell.name == wait.cell.name)
}

/// Whether one statement made the cells for which the tasks wait.
fn one_maker(first: &Wait, waits: &[&Wait]) -> bool
    ensures { result ≡ list_all (λ wait. groups.same_maker first.now.cell.maker wait.cell.maker)
        (map (λ wait. wait.now) waits.now) }
{
    waits
        .iter()
        .all(|wait| same_maker(first.cell.maker, wait.cell.maker))
}

/// Whether one task owns the cells for which the tasks wait.
fn one_owner(first: &Wait, waits: &[&Wait]) -> bool
    ensures { result ≡ list_all (λ wait. groups.same_name first.now.owner wait.owner)
        (map (λ wait. wait.now) waits.now) }
{
    waits.iter().all(|wait| same_name(first.owner.as_ref(), wait.owner.as_ref()))
}

/// The promise for which the tasks wait, or that they wait for several.
fn promise_named(alloc: Global, first: &Wait, waits: &[&Wait]) -> Result<Vec<u8>, Oom>
    ensures { IfOk result (λ text. text.items ≡ cond
        (list_all (λ wait. same first.now.cell.name wait.cell.name)
        (map (λ wait. wait.now) waits.now))
        (codes "the promise " ++ name_text first.now.cell.name) (codes "promises")) }
{
    if one_cell(first, waits) {
        named(alloc, b"the promise ", &first.cell.name)
    } else {
        Ok(Vec::from_slice(alloc, b"promises")?)
    }
}

/// Where the promises were made for which the tasks wait, if one statement made all of them.
fn waited_made(scene: &Scene, first: &Wait, waits: &[&Wait]) -> Result<Vec<u8>, Oom>
    ensures { IfOk result (λ text. text.items ≡ parts.where_agreed (list_all (λ wait.
        groups.same_maker first.now.cell.maker wait.cell.maker) (map (λ wait. wait.now) waits.now))
        (parts.made_text (view scene.now) first.now.cell.maker)) }
{
    if one_maker(first, waits) {
        made_text(scene, first.cell.maker)
    } else {
        Ok(Vec::new(scene.alloc))
    }
}

/// Who owns the promises for which the tasks wait, if one task owns all of them.
fn waited_owner(alloc: Global, first: &Wait, waits: &[&Wait]) -> Result<Vec<u8>, Oom>
    ensures { IfOk result (λ text. text.items ≡ parts.where_agreed (list_all (λ wait.
        groups.same_name first.now.owner wait.owner) (map (λ wait. wait.now) waits.now))
        (parts.owner_text first.now.owner)) }
{
    if one_owner(first, waits) {
        owner_text(alloc, &first.owner)
    } else {
        Ok(Vec::new(alloc))
    }
}

/// The promise for which the tasks wait, and its owner.
fn promises_text(scene: &Scene, first: &Wait, waits: &[&Wait]) -> Result<Vec<u8>, Oom>
    ensures { IfOk result (λ text. text.items
        ≡ spec.promises_text (view scene.now) first.now (map (λ wait. wait.now) waits.now)) }
{
    let promise = promise_named(scene.alloc, first, waits)?;
    let made = waited_made(scene, first, waits)?;
    let owner = waited_owner(scene.alloc, first, waits)?;
    joined(
        scene.alloc,
        &[promise.as_slice(), made.as_slice(), owner.as_slice()],
    )
}

/// The task for which the tasks wait.
fn joined_text(alloc: Global, first: &Wait, waits: &[&Wait]) -> Result<Vec<u8>, Oom>
    ensures { IfOk result (λ text. text.items
        ≡ spec.joined_text first.now (map (λ wait. wait.now) waits.now)) }
{
    if one_cell(first, waits) {
        named(alloc, b"the task ", &first.cell.name)
    } else {
        Ok(Vec::from_slice(alloc, b"tasks")?)
    }
}

/// What the tasks wait for at a statement.
fn cell_text(scene: &Scene, first: &Wait, waits: &[&Wait]) -> Result<Vec<u8>, Oom>
    ensures { IfOk result (λ text. text.items
        ≡ spec.cell_text (view scene.now) first.now (map (λ wait. wait.now) waits.now)) }
{
    if is_promise(first.cell.maker) {
        promises_text(scene, first, waits)
    } else {
        joined_text(scene.alloc, first, waits)
    }
}

/// The tasks that wait.
fn waiting<'w>(alloc: Global, waits: &[&'w Wait]) -> Result<Vec<&'w ToldTask>, Oom>
    ensures { IfOk result (λ tasks. map (λ task. task.now) tasks.items
        ≡ map (λ wait. wait.task) (map (λ wait. wait.now) waits.now)) }
{
    let mut tasks = Vec::new(alloc);
    for wait in waits {
        let wait = *wait;
        tasks.push(&wait.task)?;
    }
    Ok(tasks)
}

/// A line for waits at one statement, of which this is the first.
pub fn wait_text(scene: &Scene, first: &Wait, waits: &[&Wait]) -> Result<Vec<u8>, Oom>
    ensures { IfOk result (λ text. text.items
        ≡ spec.wait_text (view scene.now) first.now (map (λ wait. wait.now) waits.now)) }
{
    let tasks = waiting(scene.alloc, waits)?;
    let tasks = tasks_named(scene, tasks.as_slice())?;
    let stop = stop_text(scene, &first.task)?;
    let cell = cell_text(scene, first, waits)?;
    joined(
        scene.alloc,
        &[
            tasks.as_slice(),
            one_or(waits.len(), b" waits at ", b" wait at "),
            stop.as_slice(),
            b" for ",
            cell.as_slice(),
            b"\n",
        ],
    )
}

/// The same for waits, if there are any.
fn wait_line(scene: &Scene, waits: &[&Wait]) -> Result<Vec<u8>, Oom>
    ensures { IfOk result (λ text. text.items
        ≡ spec.wait_line (view scene.now) (map (λ wait. wait.now) waits.now)) }
{
    match waits {
        [] => Ok(Vec::new(scene.alloc)),
        [first, ..] => wait_text(scene, *first, waits),
    }
}

/// The waits of which findings tell: of cycles, of their members with this number.
pub fn waits_at<'f>(
    alloc: Global,
    number: usize,
    findings: &[&'f Finding],
) -> Result<Vec<&'f Wait>, Oom>
    ensures { IfOk result (λ waits. map (λ wait. wait.now) waits.items
        ≡ groups.waits_at number (map (λ f. f.now) findings.now)) }
{
    let mut waits = Vec::new(alloc);
    for finding in findings {
        if let Some(wait) = wait_at(number, *finding) {
            waits.push(wait)?;
        }
    }
    Ok(waits)
}

/// A line for tasks that wait and are in no cycle.
pub fn behind_line(scene: &Scene, findings: &[&Finding]) -> Result<Vec<u8>, Oom>
    ensures { IfOk result (λ text. text.items
        ≡ spec.behind_line (view scene.now) (map (λ f. f.now) findings.now)) }
{
    let waits = waits_at(scene.alloc, 0, findings)?;
    let line = wait_line(scene, waits.as_slice())?;
    joined(scene.alloc, &[b"behind a deadlock: ", line.as_slice()])
}
