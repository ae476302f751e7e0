//! A line for promises that tasks owed, made by one statement.
ghost use Rattle.std.specs.Prelude.{◌≡◌, ◌++◌, IfOk, codes, map, slice_get};
ghost use Rattle.std.specs.List.{list_all};
ghost use Rattle.tj_body.specs.Names.{same};
ghost use Rattle.tj_findings.specs.Groups as groups;
ghost use Rattle.tj_findings.specs.PartTexts as parts;
ghost use Rattle.tj_findings.specs.Scenes as stands;
ghost use Rattle.tj_findings.specs.PartTexts as parts;
ghost use Rattle.tj_findings.specs.Scenes.{view};
ghost use Rattle.tj_texts.specs.WhyTexts as spec;

use crate::alike::{cell_told, same_stand, task_told};
use crate::crowds::first_names;
use std::alloc::Global;
use tj_base::{Name, Oom};
use tj_faults::joined;
use tj_findings::{
    Finding, Scene, Stop, ToldCell, ToldTask, by_stop, made_text, name_of, promise_text, stop_text,
    task_at,
};

/// How a task stopped.
fn stopped_word(stop: Stop) -> &'static [u8]
    ensures { result.now ≡ parts.stopped_word stop }
{
    by_stop(stop, b"ended", b"failed", b"waits")
}

/// A task that owned something, and how and where it stopped.
fn owner_at(scene: &Scene, task: &ToldTask, owned: &[u8]) -> Result<Vec<u8>, Oom>
    ensures { IfOk result (λ text. text.items ≡ stands.task_at (view scene.now) task.now
        (owned.now ++ parts.stopped_word task.now.stop ++ codes " at ")) }
{
    let word = Vec::from_slice(scene.alloc, stopped_word(task.stop))?;
    let did = joined(scene.alloc, &[owned, word.as_slice(), b" at "])?;
    task_at(scene, task, did.as_slice())
}

/// A line for a promise that a task owed.
fn debt_line(scene: &Scene, promise: &ToldCell, owner: &ToldTask) -> Result<Vec<u8>, Oom>
    ensures { IfOk result (λ text.
        text.items ≡ spec.debt_line (view scene.now) promise.now owner.now) }
{
    let promise = promise_text(scene, promise)?;
    let owner = owner_at(scene, owner, b" owned it and ")?;
    joined(
        scene.alloc,
        &[
            b"owed: ",
            promise.as_slice(),
            b" was never set: ",
            owner.as_slice(),
            b"\n",
        ],
    )
}

/// Whether these are one task.
fn one_task(first: &ToldTask, tasks: &[&ToldTask]) -> bool
    ensures { result ≡ list_all (λ task. same first.now.name task.name)
        (map (λ task. task.now) tasks.now) }
{
    tasks.iter().all(|task| first.name == task.name)
}

/// Whether these tasks stopped at one statement.
fn one_stand(first: &ToldTask, tasks: &[&ToldTask]) -> bool
    ensures { result ≡ list_all (groups.same_stand first.now)
        (map (λ task. task.now) tasks.now) }
{
    tasks.iter().all(|task| same_stand(first, *task))
}

/// A task that owned several promises.
fn one_owner_text(scene: &Scene, task: &ToldTask) -> Result<Vec<u8>, Oom>
    ensures { IfOk result (λ text. text.items ≡ codes ": " ++ stands.task_at (view scene.now)
        task.now (codes " owned them and " ++ parts.stopped_word task.now.stop ++ codes " at ")) }
{
    let owner = owner_at(scene, task, b" owned them and ")?;
    joined(scene.alloc, &[b": ", owner.as_slice()])
}

/// Tasks that owned a promise each, and stopped where this one did.
fn each_owner_text(scene: &Scene, task: &ToldTask) -> Result<Vec<u8>, Oom>
    ensures { IfOk result (λ text. text.items ≡ codes ": task "
        ++ stands.name_of (slice_get (view scene.now).script task.now.decl)
        ++ codes " owned each and " ++ parts.stopped_word task.now.stop ++ codes " at "
        ++ stands.stop_text (view scene.now) task.now) }
{
    let stop = stop_text(scene, task)?;
    let word = Vec::from_slice(scene.alloc, stopped_word(task.stop))?;
    joined(
        scene.alloc,
        &[
            b": task ",
            name_of(scene.script, task.decl),
            b" owned each and ",
            word.as_slice(),
            b" at ",
            stop.as_slice(),
        ],
    )
}

/// Who owed several promises.
fn owners_text(scene: &Scene, first: &ToldTask, tasks: &[&ToldTask]) -> Result<Vec<u8>, Oom>
    ensures { IfOk result (λ text. text.items
        ≡ spec.owners_text (view scene.now) first.now (map (λ task. task.now) tasks.now)) }
{
    if one_task(first, tasks) {
        return one_owner_text(scene, first);
    }
    if one_stand(first, tasks) {
        return each_owner_text(scene, first);
    }
    Ok(Vec::new(scene.alloc))
}

/// The tasks that failed, or that owed a promise.
pub fn tasks_told<'f>(alloc: Global, findings: &[&'f Finding]) -> Result<Vec<&'f ToldTask>, Oom>
    ensures { IfOk result (λ tasks. map (λ task. task.now) tasks.items
        ≡ groups.tasks_told (map (λ f. f.now) findings.now)) }
{
    let mut tasks = Vec::new(alloc);
    for finding in findings {
        if let Some(task) = task_told(*finding) {
            tasks.push(task)?;
        }
    }
    Ok(tasks)
}

/// The cells for which tasks failed, or that they owed.
fn cells_told<'f>(alloc: Global, findings: &[&'f Finding]) -> Result<Vec<&'f Name>, Oom>
    ensures { IfOk result (λ cells. map (λ cell. cell.now) cells.items
        ≡ groups.cells_told (map (λ f. f.now) findings.now)) }
{
    let mut cells = Vec::new(alloc);
    for finding in findings {
        if let Some(cell) = cell_told(*finding) {
            cells.push(cell)?;
        }
    }
    Ok(cells)
}

/// Several promises that one statement made.
fn debts_text(scene: &Scene, promise: &ToldCell, findings: &[&Finding]) -> Result<Vec<u8>, Oom>
    ensures { IfOk result (λ text. text.items
        ≡ spec.debts_text (view scene.now) promise.now (map (λ f. f.now) findings.now)) }
{
    let names = cells_told(scene.alloc, findings)?;
    let names = first_names(scene.alloc, names.as_slice())?;
    let made = made_text(scene, promise.maker)?;
    joined(
        scene.alloc,
        &[b"owed: the promises ", names.as_slice(), made.as_slice()],
    )
}

/// That they were never set, and who owed them.
fn never_set(scene: &Scene, owner: &ToldTask, findings: &[&Finding]) -> Result<Vec<u8>, Oom>
    ensures { IfOk result (λ text. text.items
        ≡ spec.never_set (view scene.now) owner.now (map (λ f. f.now) findings.now)) }
{
    let owners = tasks_told(scene.alloc, findings)?;
    let owners = owners_text(scene, owner, owners.as_slice())?;
    joined(scene.alloc, &[b" were never set", owners.as_slice(), b"\n"])
}

/// A line for several promises that one statement made.
fn debts_line(
    scene: &Scene,
    promise: &ToldCell,
    owner: &ToldTask,
    findings: &[&Finding],
) -> Result<Vec<u8>, Oom>
    ensures { IfOk result (λ text. text.items ≡ spec.debts_line (view scene.now) promise.now
        owner.now (map (λ f. f.now) findings.now)) }
{
    let promises = debts_text(scene, promise, findings)?;
    let owners = never_set(scene, owner, findings)?;
    joined(scene.alloc, &[promises.as_slice(), owners.as_slice()])
}

/// A line for promises that tasks owed, of which this is the first.
pub fn owed_line(
    scene: &Scene,
    promise: &ToldCell,
    owner: &ToldTask,
    findings: &[&Finding],
) -> Result<Vec<u8>, Oom>
    ensures { IfOk result (λ text. text.items ≡ spec.owed_line (view scene.now) promise.now
        owner.now (map (λ f. f.now) findings.now)) }
{
    if findings.len() == 1 {
        debt_line(scene, promise, owner)
    } else {
        debts_line(scene, promise, owner, findings)
    }
}
