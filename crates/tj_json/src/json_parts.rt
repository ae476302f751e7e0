//! The parts of a finding as JSON: a position, a cell, a task and a wait.
ghost use Rattle.std.specs.Prelude.{◌≡◌, IfOk, slice_get};
ghost use Rattle.std.specs.List.{flat_map};
ghost use Rattle.tj_json.specs.JsonTexts as spec;
ghost use Rattle.tj_findings.specs.Scenes.{view};

use crate::values::{name_json, quoted_name, values_json};
use tj_base::{Name, Oom};
use tj_faults::{joined, quoted};
use tj_findings::{
    Scene, ToldCell, ToldTask, Wait, arguments_of, by_stop, is_promise, let_name, name_of,
    spot_text, stop_text,
};
use tj_trace::Maker;

/// The position of a statement, if there is one.
fn spot_json(scene: &Scene, maker: Option<Maker>) -> Result<Vec<u8>, Oom>
    ensures { IfOk result (λ json. json.items ≡ spec.spot_json (view scene.now) maker) }
{
    let Some(maker) = maker else {
        return Ok(Vec::from_slice(scene.alloc, b"null")?);
    };
    let spot = spot_text(scene, maker.decl, maker.at)?;
    quoted(scene.alloc, spot.as_slice())
}

/// The sort of a cell.
fn sort_json(maker: Option<Maker>) -> &'static [u8]
    ensures { result.now ≡ spec.sort_json maker }
{
    if is_promise(maker) {
        b"promise"
    } else {
        b"task"
    }
}

/// The variable of the `let` at this statement, if it is one that makes a promise.
fn let_json(scene: &Scene, maker: Option<Maker>) -> Result<Vec<u8>, Oom>
    ensures { IfOk result (λ json. json.items ≡ spec.let_json (view scene.now) maker) }
{
    let Some(maker) = maker else {
        return Ok(Vec::from_slice(scene.alloc, b"null")?);
    };
    match let_name(scene, maker) {
        Some(name) => quoted(scene.alloc, name),
        None => Ok(Vec::from_slice(scene.alloc, b"null")?),
    }
}

/// Where a cell was made, and for which variable.
fn made_json(scene: &Scene, maker: Option<Maker>) -> Result<Vec<u8>, Oom>
    ensures { IfOk result (λ json. json.items ≡ spec.made_json (view scene.now) maker) }
{
    let spot = spot_json(scene, maker)?;
    let variable = let_json(scene, maker)?;
    joined(
        scene.alloc,
        &[spot.as_slice(), b",\"variable\":", variable.as_slice()],
    )
}

/// A cell with the statement that made it.
pub fn cell_json(scene: &Scene, name: &Name, maker: Option<Maker>) -> Result<Vec<u8>, Oom>
    ensures { IfOk result (λ json.
        json.items ≡ spec.cell_json (view scene.now) name.now maker) }
{
    let name = quoted_name(scene.alloc, name)?;
    let sort = quoted(scene.alloc, sort_json(maker))?;
    let made = made_json(scene, maker)?;
    joined(
        scene.alloc,
        &[
            b"{\"name\":",
            name.as_slice(),
            b",\"sort\":",
            sort.as_slice(),
            b",\"made\":",
            made.as_slice(),
            b"}",
        ],
    )
}

/// How and where a task stopped.
fn stop_json(scene: &Scene, task: &ToldTask) -> Result<Vec<u8>, Oom>
    ensures { IfOk result (λ json. json.items ≡ spec.stop_json (view scene.now) task.now) }
{
    let word = by_stop(task.stop, b"ended", b"failed", b"waits");
    let word = quoted(scene.alloc, word)?;
    let at = stop_text(scene, task)?;
    let at = quoted(scene.alloc, at.as_slice())?;
    joined(scene.alloc, &[word.as_slice(), b",\"at\":", at.as_slice()])
}

/// With what a task began: its arguments.
fn arguments_json(scene: &Scene, task: &ToldTask) -> Result<Vec<u8>, Oom>
    ensures { IfOk result (λ json. json.items ≡ spec.arguments_json
        (slice_get (view scene.now).script task.now.decl) task.now.began) }
{
    match scene.script.tasks.get(task.decl) {
        Some(decl) => values_json(scene.alloc, arguments_of(decl, task.began.items())),
        None => Ok(Vec::new(scene.alloc)),
    }
}

/// What a task runs, with its arguments, and where it was forked.
fn start_json(scene: &Scene, task: &ToldTask) -> Result<Vec<u8>, Oom>
    ensures { IfOk result (λ json. json.items ≡ spec.start_json (view scene.now) task.now) }
{
    let decl = quoted(scene.alloc, name_of(scene.script, task.decl))?;
    let arguments = arguments_json(scene, task)?;
    let forked = spot_json(scene, task.fork)?;
    joined(
        scene.alloc,
        &[
            decl.as_slice(),
            b",\"began\":[",
            arguments.as_slice(),
            b"],\"forked\":",
            forked.as_slice(),
        ],
    )
}

/// A task with its declaration, its arguments, its fork, and how and where it stopped.
pub fn task_json(scene: &Scene, task: &ToldTask) -> Result<Vec<u8>, Oom>
    ensures { IfOk result (λ json. json.items ≡ spec.task_json (view scene.now) task.now) }
{
    let name = quoted_name(scene.alloc, &task.name)?;
    let start = start_json(scene, task)?;
    let stop = stop_json(scene, task)?;
    joined(
        scene.alloc,
        &[
            b"{\"name\":",
            name.as_slice(),
            b",\"task\":",
            start.as_slice(),
            b",\"stopped\":",
            stop.as_slice(),
            b"}",
        ],
    )
}

/// The same of a task, if there is one.
pub fn task_if_json(scene: &Scene, task: &Option<ToldTask>) -> Result<Vec<u8>, Oom>
    ensures { IfOk result (λ json. json.items ≡ spec.task_if_json (view scene.now) task.now) }
{
    match task {
        Some(task) => task_json(scene, task),
        None => Ok(Vec::from_slice(scene.alloc, b"null")?),
    }
}

/// A cell for which a task waits, and its owner.
fn awaited_json(scene: &Scene, cell: &ToldCell, owner: &Option<Name>) -> Result<Vec<u8>, Oom>
    ensures { IfOk result (λ json.
        json.items ≡ spec.awaited_json (view scene.now) cell.now owner.now) }
{
    let cell = cell_json(scene, &cell.name, cell.maker)?;
    let owner = name_json(scene.alloc, owner)?;
    joined(
        scene.alloc,
        &[cell.as_slice(), b",\"owner\":", owner.as_slice()],
    )
}

/// A wait of a task for a cell that has this owner.
fn parts_json(
    scene: &Scene,
    task: &ToldTask,
    cell: &ToldCell,
    owner: &Option<Name>,
) -> Result<Vec<u8>, Oom>
    ensures { IfOk result (λ json. json.items
        ≡ spec.parts_json (view scene.now) task.now cell.now owner.now) }
{
    let task = task_json(scene, task)?;
    let awaited = awaited_json(scene, cell, owner)?;
    joined(
        scene.alloc,
        &[
            b"{\"task\":",
            task.as_slice(),
            b",\"cell\":",
            awaited.as_slice(),
            b"}",
        ],
    )
}

/// A wait: the task, the cell, and its owner.
pub fn wait_json(scene: &Scene, wait: &Wait) -> Result<Vec<u8>, Oom>
    ensures { IfOk result (λ json. json.items ≡ spec.wait_json (view scene.now) wait.now) }
{
    parts_json(scene, &wait.task, &wait.cell, &wait.owner)
}

/// Waits, a comma before each.
fn more_waits(scene: &Scene, waits: &[Wait]) -> Result<Vec<u8>, Oom>
    ensures { IfOk result (λ json.
        json.items ≡ flat_map (spec.more_waits (view scene.now)) waits.now) }
{
    let mut json = Vec::new(scene.alloc);
    for wait in waits {
        let added = one_more(scene, wait)?;
        json.extend_from_slice(added.as_slice())?;
    }
    Ok(json)
}

/// A wait behind a comma.
fn one_more(scene: &Scene, wait: &Wait) -> Result<Vec<u8>, Oom>
    ensures { IfOk result (λ json. json.items ≡ spec.more_waits (view scene.now) wait.now) }
{
    let wait = wait_json(scene, wait)?;
    joined(scene.alloc, &[b",", wait.as_slice()])
}

/// Waits, with commas between them.
pub fn waits_json(scene: &Scene, waits: &[Wait]) -> Result<Vec<u8>, Oom>
    ensures { IfOk result (λ json. json.items ≡ spec.waits_json (view scene.now) waits.now) }
{
    match waits {
        [] => Ok(Vec::new(scene.alloc)),
        [first, more @ ..] => {
            let first = wait_json(scene, first)?;
            let more = more_waits(scene, more)?;
            joined(scene.alloc, &[first.as_slice(), more.as_slice()])
        }
    }
}
