//! Why tasks failed by `arith` or `kind`, in words.
ghost use Rattle.std.specs.Prelude.{◌≡◌, IfOk, map};
ghost use Rattle.std.specs.Fmt.{signed_decimal};
ghost use Rattle.std.specs.List.{list_all};
ghost use Rattle.tj_body.specs.Names.{same};
ghost use Rattle.tj_findings.specs.ReasonTexts as spec;
ghost use Rattle.tj_findings.specs.Scenes as stands;
ghost use Rattle.tj_findings.specs.Scenes.{view};
ghost use Rattle.tj_reasons.specs.Reasons.{held_in};

use crate::finding::ToldTask;
use crate::scene::Scene;
use crate::statements::statement_at;
use crate::texts::named;
use std::alloc::Global;
use tj_base::{Cause, Oom, Sort, add_signed};
use tj_body::Value;
use tj_faults::joined;
use tj_reasons::{Met, Reason, Wanted, failed_at};

/// Why a task failed at the statement where it stopped, if there is such a statement.
fn reason_at(scene: &Scene, task: &ToldTask) -> Option<Reason>
    ensures { result ≡ spec.reason_in task.now.held
        (stands.statement_at (view scene.now) task.now.decl task.now.at) }
{
    let statement = statement_at(scene, task.decl, task.at)?;
    failed_at(task.held.items(), statement)
}

/// The same, if the cause is `arith` or `kind`.
pub fn reason_for(scene: &Scene, task: &ToldTask, cause: &Cause) -> Option<Reason>
    ensures { result ≡ spec.reason_for (view scene.now) task.now cause.now }
{
    match cause {
        Cause::Arith | Cause::Kind => reason_at(scene, task),
        Cause::Steps | Cause::Owner(_) | Cause::Broken(_) | Cause::Order(_) => None,
    }
}

/// A number.
fn number_words(alloc: Global, number: i64) -> Result<Vec<u8>, Oom>
    ensures { IfOk result (λ text. text.items ≡ signed_decimal number) }
{
    let mut text = Vec::new(alloc);
    add_signed(&mut text, number)?;
    Ok(text)
}

/// What the variable with this number held: a number, or a cell.
fn held_words(alloc: Global, held: &[Value], x: u32) -> Result<Vec<u8>, Oom>
    ensures { IfOk result (λ text. text.items ≡ spec.value_words (held_in held.now x)) }
{
    match held.get(x as usize) {
        Some(Value::Num(number)) => number_words(alloc, *number),
        Some(Value::Ref(reference)) => match reference.sort {
            Sort::Task => named(alloc, b"the task ", &reference.name),
            Sort::Promise => named(alloc, b"the promise ", &reference.name),
        },
        None => number_words(alloc, 0),
    }
}

/// What a task met.
fn met_words(alloc: Global, task: &ToldTask, met: Met) -> Result<Vec<u8>, Oom>
    ensures { IfOk result (λ text. text.items ≡ spec.met_words task.now met) }
{
    match met {
        Met::Number(number) => number_words(alloc, number),
        Met::Variable(x) => held_words(alloc, task.held.items(), x),
        Met::Itself => named(alloc, b"the task ", &task.name),
    }
}

/// What was wanted.
fn wanted_words(wanted: Wanted) -> &'static [u8]
    ensures { result.now ≡ spec.wanted_words wanted }
{
    match wanted {
        Wanted::Number => b"a number",
        Wanted::Promise => b"a promise",
        Wanted::Task => b"a task",
    }
}

/// What a task met where something else was wanted.
fn clash_words(alloc: Global, task: &ToldTask, met: Met, wanted: Wanted) -> Result<Vec<u8>, Oom>
    ensures { IfOk result (λ text. text.items ≡ spec.reason_words task.now (Reason.Met met wanted)) }
{
    let met = met_words(alloc, task, met)?;
    let wanted = Vec::from_slice(alloc, wanted_words(wanted))?;
    joined(
        alloc,
        &[met.as_slice(), b" where ", wanted.as_slice(), b" is wanted"],
    )
}

/// Why a task failed.
pub fn reason_words(alloc: Global, task: &ToldTask, reason: Reason) -> Result<Vec<u8>, Oom>
    ensures { IfOk result (λ text. text.items ≡ spec.reason_words task.now reason) }
{
    match reason {
        Reason::Division => Ok(Vec::from_slice(alloc, b"division by zero")?),
        Reason::Overflow => Ok(Vec::from_slice(alloc, b"overflow")?),
        Reason::Met(met, wanted) => clash_words(alloc, task, met, wanted),
    }
}

/// What is told of why a task failed, behind the word of the cause.
fn reason_text(scene: &Scene, task: &ToldTask, cause: &Cause) -> Result<Vec<u8>, Oom>
    ensures { IfOk result (λ text.
        text.items ≡ spec.reason_text (view scene.now) task.now cause.now) }
{
    match reason_for(scene, task, cause) {
        Some(reason) => {
            let words = reason_words(scene.alloc, task, reason)?;
            joined(scene.alloc, &[b", ", words.as_slice()])
        }
        None => Ok(Vec::new(scene.alloc)),
    }
}

/// Whether two texts are one.
fn same_text(first: &[u8], second: &[u8]) -> bool
    ensures { result ≡ same first.now second.now }
{
    first == second
}

/// Whether this is told of each of the tasks.
fn is_told_of(scene: &Scene, cause: &Cause, told: &[u8], tasks: &[&ToldTask]) -> Result<bool, Oom>
    ensures { IfOk result (λ is. is ≡ list_all (λ task.
        same told.now (spec.reason_text (view scene.now) task cause.now))
        (map (λ task. task.now) tasks.now)) }
{
    for task in tasks {
        let other = reason_text(scene, *task, cause)?;
        if !same_text(told, other.as_slice()) {
            return Ok(false);
        }
    }
    Ok(true)
}

/// Why tasks failed for this cause, if the same is told of each as of this one.
pub fn all_reasons(
    scene: &Scene,
    first: &ToldTask,
    cause: &Cause,
    tasks: &[&ToldTask],
) -> Result<Vec<u8>, Oom>
    ensures { IfOk result (λ text. text.items ≡ spec.all_reasons (view scene.now) first.now
        cause.now (map (λ task. task.now) tasks.now)) }
{
    let told = reason_text(scene, first, cause)?;
    if is_told_of(scene, cause, told.as_slice(), tasks)? {
        Ok(told)
    } else {
        Ok(Vec::new(scene.alloc))
    }
}
