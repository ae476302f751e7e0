//! What a task began with, as it is told behind the name of its declaration.
ghost use Rattle.std.specs.Prelude.{◌≡◌, ◌++◌, ◌≤◌, IfOk, codes, length, slice_get, take};
ghost use Rattle.tj_syntax.specs.View as trees;
ghost use Rattle.tj_findings.specs.Arguments as spec;

use crate::scene::Scene;
use std::alloc::Global;
use tj_base::{Oom, add_signed};
use tj_body::Value;
use tj_faults::joined;
use tj_syntax::Decl;

/// Adds a number, or the name of the cell to which it refers.
fn add_value(alloc: Global, text: &mut Vec<u8>, value: &Value) -> Result<(), Oom>
    ensures { IfOk result (λ _. text.new.items ≡ text.old.items ++ spec.value_text value.now) }
{
    match value {
        Value::Num(number) => add_signed(text, *number),
        Value::Ref(reference) => reference.name.text_into(alloc, text),
    }
}

/// Adds a comma and a value.
fn add_next(alloc: Global, text: &mut Vec<u8>, value: &Value) -> Result<(), Oom>
    ensures { IfOk result (λ _. text.new.items
        ≡ text.old.items ++ codes ", " ++ spec.value_text value.now) }
{
    text.extend_from_slice(b", ")?;
    add_value(alloc, text, value)
}

/// Adds values, each behind a comma.
fn add_more(alloc: Global, text: &mut Vec<u8>, values: &[Value]) -> Result<(), Oom>
    ensures { IfOk result (λ _. text.new.items
        ≡ text.old.items ++ spec.more_text values.now) }
{
    for value in values {
        add_next(alloc, text, value)?;
    }
    Ok(())
}

/// The first bytes of a text.
fn beginning(text: &[u8]) -> &[u8]
    requires { 38 ≤ length text.now }
    ensures { result.now ≡ take 38 text.now }
{
    let start = &text[..38];
    start
}

/// Of a longer text the beginning, and two dots.
fn cut_text(alloc: Global, text: Vec<u8>) -> Result<Vec<u8>, Oom>
    ensures { IfOk result (λ cut. cut.items ≡ spec.cut_text text.items) }
{
    if text.len() <= 40 {
        return Ok(text);
    }
    let start = beginning(text.as_slice());
    joined(alloc, &[start, b".."])
}

/// The arguments, if there are any.
fn in_brackets(alloc: Global, values: &[Value]) -> Result<Vec<u8>, Oom>
    ensures { IfOk result (λ text. text.items ≡ spec.in_brackets values.now) }
{
    let Some((first, more)) = values.split_first() else {
        return Ok(Vec::new(alloc));
    };
    let mut text = Vec::new(alloc);
    add_value(alloc, &mut text, first)?;
    add_more(alloc, &mut text, more)?;
    let cut = cut_text(alloc, text)?;
    joined(alloc, &[b"(", cut.as_slice(), b")"])
}

/// As many of these as the declaration has parameters.
pub fn arguments_of<'v>(task: &Decl, values: &'v [Value]) -> &'v [Value]
    ensures { result.now ≡ take (trees.task task.now).params values.now }
{
    let params = task.params as usize;
    if params <= values.len() {
        &values[..params]
    } else {
        values
    }
}

/// The arguments of a task of this declaration, of which its variables held these values at first.
pub fn arguments_text(scene: &Scene, decl: usize, values: &[Value]) -> Result<Vec<u8>, Oom>
    ensures { IfOk result (λ text. text.items ≡ spec.arguments_text
        (slice_get (trees.script scene.now.script.now) decl) values.now) }
{
    match scene.script.tasks.get(decl) {
        Some(task) => in_brackets(scene.alloc, arguments_of(task, values)),
        None => Ok(Vec::new(scene.alloc)),
    }
}
