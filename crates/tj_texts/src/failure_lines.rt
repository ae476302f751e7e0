//! A line for failures at one statement that are no echoes.
ghost use Rattle.std.specs.Prelude.{◌≡◌, IfOk, map};
ghost use Rattle.std.specs.List.{list_all};
ghost use Rattle.std.specs.Option.{option_map};
ghost use Rattle.tj_findings.specs.Groups as groups;
ghost use Rattle.tj_findings.specs.Scenes.{view};
ghost use Rattle.tj_texts.specs.WhyTexts as spec;

use crate::alike::{cell_named, cell_told, maker_told, same_maker, same_name};
use crate::crowds::tasks_named;
use crate::cycle_lines::source_line;
use crate::debt_lines::tasks_told;
use crate::went_lines::all_went;
use std::alloc::Global;
use tj_base::{Cause, Name, Oom};
use tj_faults::joined;
use tj_findings::{
    Finding, Scene, ToldTask, all_reasons, cause_text, cause_word, made_text, stop_text,
};
use tj_trace::Maker;

/// Tasks that failed at the statement where this one did.
pub fn failed_text(scene: &Scene, first: &ToldTask, findings: &[&Finding]) -> Result<Vec<u8>, Oom>
    ensures { IfOk result (λ text. text.items ≡ spec.failed_text (view scene.now) first.now
        (map (λ f. f.now) findings.now)) }
{
    let tasks = tasks_told(scene.alloc, findings)?;
    let tasks = tasks_named(scene, tasks.as_slice())?;
    let stop = stop_text(scene, first)?;
    joined(
        scene.alloc,
        &[
            b"failed: ",
            tasks.as_slice(),
            b" at ",
            stop.as_slice(),
            b": ",
        ],
    )
}

/// Whether the findings are of this cell.
pub fn of_cell(cell: Option<&Name>, findings: &[&Finding]) -> bool
    ensures { result ≡ list_all (λ f. groups.same_name (option_map (λ x. x.now) cell.entry)
        (groups.cell_told f)) (map (λ f. f.now) findings.now) }
{
    findings
        .iter()
        .all(|finding| same_name(cell, cell_told(*finding)))
}

/// The cause of failures: its word, and where they have one cell this cell.
fn cause_of(alloc: Global, cause: &Cause, findings: &[&Finding]) -> Result<Vec<u8>, Oom>
    ensures { IfOk result (λ text. text.items
        ≡ spec.cause_of cause.now (map (λ f. f.now) findings.now)) }
{
    if of_cell(cell_named(cause), findings) {
        cause_text(alloc, cause)
    } else {
        Ok(Vec::from_slice(alloc, cause_word(cause))?)
    }
}

/// The cause of failures, and why they came about.
fn why_failed(
    scene: &Scene,
    first: &ToldTask,
    cause: &Cause,
    findings: &[&Finding],
) -> Result<Vec<u8>, Oom>
    ensures { IfOk result (λ text. text.items ≡ spec.why_failed (view scene.now) first.now cause.now
        (map (λ f. f.now) findings.now)) }
{
    let tasks = tasks_told(scene.alloc, findings)?;
    let word = cause_of(scene.alloc, cause, findings)?;
    let reasons = all_reasons(scene, first, cause, tasks.as_slice())?;
    joined(scene.alloc, &[word.as_slice(), reasons.as_slice()])
}

/// Whether this statement made the cells of the findings.
fn of_maker(maker: Option<Maker>, findings: &[&Finding]) -> bool
    ensures { result ≡ list_all (λ f. groups.same_maker maker (groups.maker_told f))
        (map (λ f. f.now) findings.now) }
{
    findings
        .iter()
        .all(|finding| same_maker(maker, maker_told(*finding)))
}

/// Where the cell was made that the causes name, if one statement made all of them.
pub fn all_made(scene: &Scene, maker: Option<Maker>, findings: &[&Finding]) -> Result<Vec<u8>, Oom>
    ensures { IfOk result (λ text. text.items
        ≡ spec.all_made (view scene.now) maker (map (λ f. f.now) findings.now)) }
{
    if of_maker(maker, findings) {
        made_text(scene, maker)
    } else {
        Ok(Vec::new(scene.alloc))
    }
}

/// Where the cells were made that the causes name, and where they went.
fn about_text(
    scene: &Scene,
    task: &ToldTask,
    about: Option<Maker>,
    findings: &[&Finding],
) -> Result<Vec<u8>, Oom>
    ensures { IfOk result (λ text. text.items ≡ spec.about_text (view scene.now) task.now about
        (map (λ f. f.now) findings.now)) }
{
    let tasks = tasks_told(scene.alloc, findings)?;
    let made = all_made(scene, about, findings)?;
    let went = all_went(scene, task, tasks.as_slice())?;
    joined(scene.alloc, &[made.as_slice(), went.as_slice()])
}

/// A line for failures that are no echoes, of which this is the first.
pub fn failed_line(
    scene: &Scene,
    task: &ToldTask,
    cause: &Cause,
    about: Option<Maker>,
    findings: &[&Finding],
) -> Result<Vec<u8>, Oom>
    ensures { IfOk result (λ text. text.items ≡ spec.failed_line (view scene.now) task.now
        cause.now about (map (λ f. f.now) findings.now)) }
{
    let tasks = failed_text(scene, task, findings)?;
    let why = why_failed(scene, task, cause, findings)?;
    let about = about_text(scene, task, about, findings)?;
    let source = source_line(scene, task)?;
    joined(
        scene.alloc,
        &[
            tasks.as_slice(),
            why.as_slice(),
            about.as_slice(),
            b"\n",
            source.as_slice(),
        ],
    )
}
