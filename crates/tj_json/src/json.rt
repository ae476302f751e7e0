//! What went wrong with a run, as objects of JSON: one of each finding, a line each.
ghost use Rattle.std.specs.Prelude.{◌≡◌, IfOk};
ghost use Rattle.std.specs.List.{flat_map};
ghost use Rattle.tj_json.specs.JsonTexts as spec;
ghost use Rattle.tj_findings.specs.ReasonTexts as reasons;
ghost use Rattle.tj_findings.specs.Scenes.{view};

use crate::json_parts::{cell_json, task_if_json, task_json, wait_json, waits_json};
use crate::went::went_json;
use std::alloc::Global;
use tj_base::{Cause, Oom, add_count};
use tj_faults::{begin_object, joined, quoted};
use tj_findings::{Finding, Scene, ToldCell, ToldTask, Wait, cause_word, reason_for, reason_words};
use tj_trace::Maker;

/// The beginning of an object of this kind for a finding of this level.
fn begin_at(alloc: Global, level: u32, kind: &[u8]) -> Result<Vec<u8>, Oom>
    ensures { IfOk result (λ json. json.items ≡ spec.begin_at level kind.now) }
{
    let begin = begin_object(alloc, kind)?;
    let mut number = Vec::new(alloc);
    add_count(&mut number, b",\"level\":", level as u128)?;
    joined(alloc, &[begin.as_slice(), number.as_slice()])
}

/// A cycle.
fn cycle_json(scene: &Scene, level: u32, waits: &[Wait]) -> Result<Vec<u8>, Oom>
    ensures { IfOk result (λ json.
        json.items ≡ spec.cycle_json (view scene.now) level waits.now) }
{
    let begin = begin_at(scene.alloc, level, b"deadlock")?;
    let waits = waits_json(scene, waits)?;
    joined(
        scene.alloc,
        &[begin.as_slice(), b",\"waits\":[", waits.as_slice(), b"]}\n"],
    )
}

/// A wait behind a cycle.
fn behind_json(scene: &Scene, level: u32, wait: &Wait) -> Result<Vec<u8>, Oom>
    ensures { IfOk result (λ json.
        json.items ≡ spec.behind_json (view scene.now) level wait.now) }
{
    let begin = begin_at(scene.alloc, level, b"behind")?;
    let wait = wait_json(scene, wait)?;
    joined(
        scene.alloc,
        &[begin.as_slice(), b",\"wait\":", wait.as_slice(), b"}\n"],
    )
}

/// The cell that a cause names, if it names one.
fn named_json(scene: &Scene, cause: &Cause, maker: Option<Maker>) -> Result<Vec<u8>, Oom>
    ensures { IfOk result (λ json.
        json.items ≡ spec.named_json (view scene.now) cause.now maker) }
{
    match cause {
        Cause::Owner(name) | Cause::Broken(name) | Cause::Order(name) => {
            cell_json(scene, name, maker)
        }
        Cause::Arith | Cause::Kind | Cause::Steps => Ok(Vec::from_slice(scene.alloc, b"null")?),
    }
}

/// Why a task failed for this cause, if there is a reason.
fn reason_json(scene: &Scene, task: &ToldTask, cause: &Cause) -> Result<Vec<u8>, Oom>
    ensures { IfOk result (λ json. json.items ≡ spec.reason_json task.now
        (reasons.reason_for (view scene.now) task.now cause.now)) }
{
    match reason_for(scene, task, cause) {
        Some(reason) => {
            let words = reason_words(scene.alloc, task, reason)?;
            quoted(scene.alloc, words.as_slice())
        }
        None => Ok(Vec::from_slice(scene.alloc, b"null")?),
    }
}

/// Why a task failed for this cause, the cell that this names, and where that went.
fn about_json(
    scene: &Scene,
    task: &ToldTask,
    cause: &Cause,
    about: Option<Maker>,
) -> Result<Vec<u8>, Oom>
    ensures { IfOk result (λ json.
        json.items ≡ spec.about_json (view scene.now) task.now cause.now about) }
{
    let reason = reason_json(scene, task, cause)?;
    let cell = named_json(scene, cause, about)?;
    let went = went_json(scene, task.decl, &task.went)?;
    joined(
        scene.alloc,
        &[
            reason.as_slice(),
            b",\"cell\":",
            cell.as_slice(),
            b",\"went\":",
            went.as_slice(),
        ],
    )
}

/// A cause, with the reason, the cell that it names, and where that went.
fn cause_json(
    scene: &Scene,
    task: &ToldTask,
    cause: &Cause,
    about: Option<Maker>,
) -> Result<Vec<u8>, Oom>
    ensures { IfOk result (λ json.
        json.items ≡ spec.cause_json (view scene.now) task.now cause.now about) }
{
    let word = quoted(scene.alloc, cause_word(cause))?;
    let about = about_json(scene, task, cause, about)?;
    joined(
        scene.alloc,
        &[word.as_slice(), b",\"reason\":", about.as_slice()],
    )
}

/// What is told of a failure that is no echo, behind its level.
fn failed_parts(
    scene: &Scene,
    task: &ToldTask,
    cause: &Cause,
    about: Option<Maker>,
) -> Result<Vec<u8>, Oom>
    ensures { IfOk result (λ json.
        json.items ≡ spec.failed_parts (view scene.now) task.now cause.now about) }
{
    let cause = cause_json(scene, task, cause, about)?;
    let task = task_json(scene, task)?;
    joined(
        scene.alloc,
        &[
            b",\"task\":",
            task.as_slice(),
            b",\"cause\":",
            cause.as_slice(),
            b"}\n",
        ],
    )
}

/// A failure that is no echo.
fn failed_json(
    scene: &Scene,
    level: u32,
    task: &ToldTask,
    cause: &Cause,
    about: Option<Maker>,
) -> Result<Vec<u8>, Oom>
    ensures { IfOk result (λ json. json.items
        ≡ spec.failed_json (view scene.now) level task.now cause.now about) }
{
    let begin = begin_at(scene.alloc, level, b"failed")?;
    let parts = failed_parts(scene, task, cause, about)?;
    joined(scene.alloc, &[begin.as_slice(), parts.as_slice()])
}

/// What is told of a promise that was owed, behind its level.
fn owed_parts(scene: &Scene, promise: &ToldCell, owner: &ToldTask) -> Result<Vec<u8>, Oom>
    ensures { IfOk result (λ json. json.items
        ≡ spec.owed_parts (view scene.now) promise.now owner.now) }
{
    let cell = cell_json(scene, &promise.name, promise.maker)?;
    let task = task_json(scene, owner)?;
    joined(
        scene.alloc,
        &[
            b",\"cell\":",
            cell.as_slice(),
            b",\"task\":",
            task.as_slice(),
            b"}\n",
        ],
    )
}

/// A promise that was owed.
fn owed_json(
    scene: &Scene,
    level: u32,
    promise: &ToldCell,
    owner: &ToldTask,
) -> Result<Vec<u8>, Oom>
    ensures { IfOk result (λ json. json.items
        ≡ spec.owed_json (view scene.now) level promise.now owner.now) }
{
    let begin = begin_at(scene.alloc, level, b"owed")?;
    let parts = owed_parts(scene, promise, owner)?;
    joined(scene.alloc, &[begin.as_slice(), parts.as_slice()])
}

/// A broken cell, and the task where an echo began.
fn began_json(scene: &Scene, cell: &ToldCell, origin: &Option<ToldTask>) -> Result<Vec<u8>, Oom>
    ensures { IfOk result (λ json.
        json.items ≡ spec.began_json (view scene.now) cell.now origin.now) }
{
    let cell = cell_json(scene, &cell.name, cell.maker)?;
    let origin = task_if_json(scene, origin)?;
    joined(
        scene.alloc,
        &[cell.as_slice(), b",\"origin\":", origin.as_slice()],
    )
}

/// What is told of an echo behind its level.
fn echo_parts(
    scene: &Scene,
    task: &ToldTask,
    cell: &ToldCell,
    origin: &Option<ToldTask>,
) -> Result<Vec<u8>, Oom>
    ensures { IfOk result (λ json. json.items
        ≡ spec.echo_parts (view scene.now) task.now cell.now origin.now) }
{
    let task = task_json(scene, task)?;
    let began = began_json(scene, cell, origin)?;
    joined(
        scene.alloc,
        &[
            b",\"task\":",
            task.as_slice(),
            b",\"cell\":",
            began.as_slice(),
            b"}\n",
        ],
    )
}

/// An echo.
fn echo_json(
    scene: &Scene,
    level: u32,
    task: &ToldTask,
    cell: &ToldCell,
    origin: &Option<ToldTask>,
) -> Result<Vec<u8>, Oom>
    ensures { IfOk result (λ json. json.items
        ≡ spec.echo_json (view scene.now) level task.now cell.now origin.now) }
{
    let begin = begin_at(scene.alloc, level, b"echo")?;
    let parts = echo_parts(scene, task, cell, origin)?;
    joined(scene.alloc, &[begin.as_slice(), parts.as_slice()])
}

/// A finding of this level.
pub fn finding_json(scene: &Scene, level: u32, finding: &Finding) -> Result<Vec<u8>, Oom>
    ensures { IfOk result (λ json.
        json.items ≡ spec.finding_json (view scene.now) level finding.now) }
{
    match finding {
        Finding::Cycle(waits) => cycle_json(scene, level, waits.items()),
        Finding::Behind(wait) => behind_json(scene, level, wait),
        Finding::Failed { task, cause, about } => failed_json(scene, level, task, cause, *about),
        Finding::Owed { promise, owner } => owed_json(scene, level, promise, owner),
        Finding::Echo { task, cell, origin } => echo_json(scene, level, task, cell, origin),
    }
}

/// Each of these findings, all of this level.
pub fn findings_json(scene: &Scene, level: u32, findings: &[Finding]) -> Result<Vec<u8>, Oom>
    ensures { IfOk result (λ json.
        json.items ≡ flat_map (spec.finding_json (view scene.now) level) findings.now) }
{
    let mut json = Vec::new(scene.alloc);
    for finding in findings {
        let added = finding_json(scene, level, finding)?;
        json.extend_from_slice(added.as_slice())?;
    }
    Ok(json)
}

/// A number of something.
fn count_json(alloc: Global, kind: &[u8], what: &[u8], count: u128) -> Result<Vec<u8>, Oom>
    ensures { IfOk result (λ json. json.items ≡ spec.count_json kind.now what.now count) }
{
    let begin = begin_object(alloc, kind)?;
    let mut number = Vec::new(alloc);
    add_count(&mut number, b"\":", count)?;
    joined(
        alloc,
        &[begin.as_slice(), b",\"", what, number.as_slice(), b"}\n"],
    )
}

/// Nothing went wrong with so many tasks.
pub fn fine_json(alloc: Global, count: usize) -> Result<Vec<u8>, Oom>
    ensures { IfOk result (λ json. json.items ≡ spec.fine_json count) }
{
    count_json(alloc, b"fine", b"tasks", count as u128)
}
