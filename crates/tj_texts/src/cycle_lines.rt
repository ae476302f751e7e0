//! The lines of cycles whose members stand at the same statements.
ghost use Rattle.std.specs.Prelude.{◌≡◌, ◌<◌, ◌+◌, ◌^◌, IfOk, map};
ghost use Rattle.tj_findings.specs.Scenes.{view};
ghost use Rattle.tj_texts.specs.WhyTexts as spec;

use crate::wait_lines::{wait_text, waits_at};
use std::alloc::Global;
use tj_base::Oom;
use tj_command::count_text;
use tj_faults::{caret_in, joined};
use tj_findings::{Finding, Scene, ToldTask, Wait, told_spot};

/// The most members that a cycle has which is told whole.
const MOST_MEMBERS: usize = 20;

/// How many members stand at each end of one that isn't.
const END_MEMBERS: usize = 10;

/// The source line where a task stopped, with a caret, if such lines are told.
pub fn source_line(scene: &Scene, task: &ToldTask) -> Result<Vec<u8>, Oom>
    ensures { IfOk result (λ text. text.items ≡ spec.source_line (view scene.now) task.now) }
{
    if scene.short {
        return Ok(Vec::new(scene.alloc));
    }
    caret_in(
        scene.alloc,
        scene.lines,
        told_spot(scene, task.decl, task.at),
    )
}

/// The lines for members of cycles with these waits, of which this is the first.
fn member_text(scene: &Scene, first: &Wait, waits: &[&Wait]) -> Result<Vec<u8>, Oom>
    ensures { IfOk result (λ text. text.items
        ≡ spec.member_text (view scene.now) first.now (map (λ wait. wait.now) waits.now)) }
{
    let line = wait_text(scene, first, waits)?;
    let source = source_line(scene, &first.task)?;
    joined(scene.alloc, &[b"  ", line.as_slice(), source.as_slice()])
}

/// The same for waits, if there are any.
fn member_lines(scene: &Scene, waits: &[&Wait]) -> Result<Vec<u8>, Oom>
    ensures { IfOk result (λ text. text.items
        ≡ spec.member_lines (view scene.now) (map (λ wait. wait.now) waits.now)) }
{
    match waits {
        [] => Ok(Vec::new(scene.alloc)),
        [first, ..] => member_text(scene, *first, waits),
    }
}

/// The lines for the members with this number of cycles.
fn member(scene: &Scene, cycles: &[&Finding], number: usize) -> Result<Vec<u8>, Oom>
    ensures { IfOk result (λ text. text.items
        ≡ spec.member (view scene.now) (map (λ f. f.now) cycles.now) number) }
{
    let waits = waits_at(scene.alloc, number, cycles)?;
    member_lines(scene, waits.as_slice())
}

/// Lines for so many members, from this number on.
fn members_from(
    scene: &Scene,
    cycles: &[&Finding],
    from: usize,
    count: usize,
) -> Result<Vec<u8>, Oom>
    requires { from + count < 2 ^ 64 }
    ensures { IfOk result (λ text. text.items
        ≡ spec.members_from (view scene.now) (map (λ f. f.now) cycles.now) from count) }
{
    let mut text = Vec::new(scene.alloc);
    for number in from..from + count {
        let added = member(scene, cycles, number)?;
        text.extend_from_slice(added.as_slice())?;
    }
    Ok(text)
}

/// A line for the members that are left out.
fn left_out(alloc: Global, count: usize) -> Result<Vec<u8>, Oom>
    ensures { IfOk result (λ text. text.items ≡ spec.left_out count) }
{
    count_text(alloc, b"  .. ", count as u128, b" more ..\n")
}

/// The members of cycles of so many.
pub fn members(scene: &Scene, all: bool, cycles: &[&Finding], count: usize) -> Result<Vec<u8>, Oom>
    ensures { IfOk result (λ text. text.items
        ≡ spec.members (view scene.now) all (map (λ f. f.now) cycles.now) count) }
{
    if all || count <= MOST_MEMBERS {
        return members_from(scene, cycles, 0, count);
    }
    ends(scene, cycles, count)
}

/// The members at the two ends of long cycles of so many.
fn ends(scene: &Scene, cycles: &[&Finding], count: usize) -> Result<Vec<u8>, Oom>
    requires { 20 < count }
    ensures { IfOk result (λ text. text.items
        ≡ spec.ends (view scene.now) (map (λ f. f.now) cycles.now) count) }
{
    let between = left_out(scene.alloc, count - MOST_MEMBERS)?;
    let back = members_from(scene, cycles, count - END_MEMBERS, END_MEMBERS)?;
    let front = members_from(scene, cycles, 0, END_MEMBERS)?;
    joined(
        scene.alloc,
        &[front.as_slice(), between.as_slice(), back.as_slice()],
    )
}

/// What each of so many tasks waits for.
fn each_other(count: usize) -> &'static [u8]
    ensures { result.now ≡ spec.each_other count }
{
    if count == 1 {
        b" waits for itself\n"
    } else {
        b" wait for each other\n"
    }
}

/// How many cycles there are, if there are several.
fn times(alloc: Global, count: usize) -> Result<Vec<u8>, Oom>
    ensures { IfOk result (λ text. text.items ≡ spec.times count) }
{
    if count == 1 {
        return Ok(Vec::new(alloc));
    }
    count_text(alloc, b"", count as u128, b" times ")
}

/// So many tasks.
pub fn tasks_text(alloc: Global, count: usize) -> Result<Vec<u8>, Oom>
    ensures { IfOk result (λ text. text.items ≡ spec.tasks_text count) }
{
    if count == 1 {
        return Ok(Vec::from_slice(alloc, b"1 task")?);
    }
    count_text(alloc, b"", count as u128, b" tasks")
}

/// Cycles of so many members.
pub fn deadlock(scene: &Scene, all: bool, cycles: &[&Finding], count: usize) -> Result<Vec<u8>, Oom>
    ensures { IfOk result (λ text. text.items
        ≡ spec.deadlock (view scene.now) all (map (λ f. f.now) cycles.now) count) }
{
    let times = times(scene.alloc, cycles.len())?;
    let tasks = tasks_text(scene.alloc, count)?;
    let members = members(scene, all, cycles, count)?;
    joined(
        scene.alloc,
        &[
            b"deadlock: ",
            times.as_slice(),
            tasks.as_slice(),
            each_other(count),
            members.as_slice(),
        ],
    )
}
