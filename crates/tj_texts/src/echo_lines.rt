//! A line for failures at one statement that are echoes.
ghost use Rattle.std.specs.Prelude.{◌≡◌, IfOk, map};
ghost use Rattle.std.specs.List.{list_all};
ghost use Rattle.std.specs.Option.{option_map};
ghost use Rattle.tj_base.specs.declared.cause.Cause.TheVariants as causes;
ghost use Rattle.tj_findings.specs.Groups as groups;
ghost use Rattle.tj_findings.specs.Scenes.{view};
ghost use Rattle.tj_texts.specs.WhyTexts as spec;

use crate::alike::{origin_told, same_name};
use crate::failure_lines::{all_made, failed_text, of_cell};
use std::alloc::Global;
use tj_base::{Name, Oom};
use tj_faults::joined;
use tj_findings::{Finding, Scene, Stop, ToldCell, ToldTask, by_stop, named, stop_text};

/// What the task did from whose end a failure came.
fn end_word(stop: Stop) -> &'static [u8]
    ensures { result.now ≡ spec.end_word stop }
{
    by_stop(
        stop,
        b", which ended owing at ",
        b", which failed at ",
        b", which waits at ",
    )
}

/// The task from whose end a failure came.
fn origin_text(scene: &Scene, origin: &Option<ToldTask>) -> Result<Vec<u8>, Oom>
    ensures { IfOk result (λ text. text.items ≡ spec.origin_text (view scene.now) origin.now) }
{
    let Some(task) = origin else {
        return Ok(Vec::new(scene.alloc));
    };
    let stop = stop_text(scene, task)?;
    let name = named(scene.alloc, b", at first from ", &task.name)?;
    let end = end_word(task.stop);
    joined(scene.alloc, &[name.as_slice(), end, stop.as_slice()])
}

/// The name of a task, if there is one.
fn name_if(task: &Option<ToldTask>) -> Option<&Name>
    ensures { option_map (λ name. name.now) result ≡ option_map (λ task. task.name) task.now }
{
    Some(&task.as_ref()?.name)
}

/// Whether the echoes began with this task.
fn of_origin(origin: &Option<ToldTask>, findings: &[&Finding]) -> bool
    ensures { result ≡ list_all (λ f. groups.same_name (option_map (λ task. task.name) origin.now)
        (groups.origin_told f)) (map (λ f. f.now) findings.now) }
{
    let name = name_if(origin);
    findings
        .iter()
        .all(|finding| same_name(name, origin_told(*finding)))
}

/// Where echoes began, if they began with one task.
fn origins_text(
    scene: &Scene,
    origin: &Option<ToldTask>,
    findings: &[&Finding],
) -> Result<Vec<u8>, Oom>
    ensures { IfOk result (λ text. text.items
        ≡ spec.origins_text (view scene.now) origin.now (map (λ f. f.now) findings.now)) }
{
    if of_origin(origin, findings) {
        origin_text(scene, origin)
    } else {
        Ok(Vec::new(scene.alloc))
    }
}

/// The broken cells of echoes, of which this is the first.
fn broken_of(alloc: Global, cell: &Name, findings: &[&Finding]) -> Result<Vec<u8>, Oom>
    ensures { IfOk result (λ text. text.items
        ≡ spec.cause_of (causes.Broken cell.now) (map (λ f. f.now) findings.now)) }
{
    if of_cell(Some(cell), findings) {
        named(alloc, b"broken ", cell)
    } else {
        Ok(Vec::from_slice(alloc, b"broken")?)
    }
}

/// A line for failures that are echoes, of which this is the first.
pub fn echo_line(
    scene: &Scene,
    task: &ToldTask,
    cell: &ToldCell,
    origin: &Option<ToldTask>,
    findings: &[&Finding],
) -> Result<Vec<u8>, Oom>
    ensures { IfOk result (λ text. text.items ≡ spec.echo_line (view scene.now) task.now
        cell.now origin.now (map (λ f. f.now) findings.now)) }
{
    let tasks = failed_text(scene, task, findings)?;
    let broken = broken_of(scene.alloc, &cell.name, findings)?;
    let made = all_made(scene, cell.maker, findings)?;
    let origin = origins_text(scene, origin, findings)?;
    joined(
        scene.alloc,
        &[
            tasks.as_slice(),
            broken.as_slice(),
            made.as_slice(),
            origin.as_slice(),
            b"\n",
        ],
    )
}
