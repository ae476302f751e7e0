//! A name as JSON, and what a task began with: numbers, and names of cells.
ghost use Rattle.std.specs.Prelude.{◌≡◌, IfOk};
ghost use Rattle.std.specs.List.{flat_map};
ghost use Rattle.tj_base.specs.Texts.{name_text};
ghost use Rattle.tj_faults.specs.Objects as objects;
ghost use Rattle.tj_json.specs.JsonTexts as spec;

use std::alloc::Global;
use tj_base::{Name, Oom, add_signed};
use tj_body::Value;
use tj_faults::joined;
use tj_findings::named;

/// A name in quotes.
pub fn quoted_name(alloc: Global, name: &Name) -> Result<Vec<u8>, Oom>
    ensures { IfOk result (λ json. json.items ≡ objects.quoted (name_text name.now)) }
{
    let mut json = named(alloc, b"\"", name)?;
    json.push(b'"')?;
    Ok(json)
}

/// A name, if there is one.
pub fn name_json(alloc: Global, name: &Option<Name>) -> Result<Vec<u8>, Oom>
    ensures { IfOk result (λ json. json.items ≡ spec.name_json name.now) }
{
    match name {
        Some(name) => quoted_name(alloc, name),
        None => Ok(Vec::from_slice(alloc, b"null")?),
    }
}

/// A number, or the name of the cell to which it refers.
fn value_json(alloc: Global, value: &Value) -> Result<Vec<u8>, Oom>
    ensures { IfOk result (λ json. json.items ≡ spec.value_json value.now) }
{
    match value {
        Value::Num(number) => {
            let mut json = Vec::new(alloc);
            add_signed(&mut json, *number)?;
            Ok(json)
        }
        Value::Ref(reference) => quoted_name(alloc, &reference.name),
    }
}

/// A value behind a comma.
fn next_value(alloc: Global, value: &Value) -> Result<Vec<u8>, Oom>
    ensures { IfOk result (λ json. json.items ≡ spec.next_value value.now) }
{
    let value = value_json(alloc, value)?;
    joined(alloc, &[b",", value.as_slice()])
}

/// Values, a comma before each.
fn next_values(alloc: Global, values: &[Value]) -> Result<Vec<u8>, Oom>
    ensures { IfOk result (λ json. json.items ≡ flat_map spec.next_value values.now) }
{
    let mut json = Vec::new(alloc);
    for value in values {
        let added = next_value(alloc, value)?;
        json.extend_from_slice(added.as_slice())?;
    }
    Ok(json)
}

/// Values, with commas between them.
pub fn values_json(alloc: Global, values: &[Value]) -> Result<Vec<u8>, Oom>
    ensures { IfOk result (λ json. json.items ≡ spec.values_json values.now) }
{
    match values {
        [] => Ok(Vec::new(alloc)),
        [first, more @ ..] => {
            let first = value_json(alloc, first)?;
            let more = next_values(alloc, more)?;
            joined(alloc, &[first.as_slice(), more.as_slice()])
        }
    }
}
