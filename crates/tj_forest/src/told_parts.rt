//! The parts of a finding: a task, a cell, and a wait.
ghost use Rattle.std.specs.Prelude.{◌≡◌, IfOk};
ghost use Rattle.std.specs.Option.{option_map};
ghost use Rattle.tj_findings.specs.Findings as spec;
ghost use Rattle.tj_forest.specs.Inner.Numbers.{IsSearchable};

use crate::lookups::Lookups;
use crate::searches::{maker_of, owner_of};
use crate::went::went_at;
use std::alloc::Global;
use tj_base::{Cause, Items, Name, Oom};
use tj_body::{Reference, Value};
use tj_findings::{Stop, ToldCell, ToldTask, Wait};
use tj_mean::Ending;
use tj_trace::{Maker, TraceLine, ValueList};

/// An equal value.
fn copy_value(alloc: Global, value: &Value) -> Result<Value, Oom>
    ensures { IfOk result (λ copy. copy ≡ value.now) }
{
    match value {
        Value::Num(number) => Ok(Value::Num(*number)),
        Value::Ref(reference) => Ok(Value::Ref(Reference {
            sort: reference.sort,
            name: reference.name.copy(alloc)?,
        })),
    }
}

/// Equal values.
fn copy_values(alloc: Global, values: &[Value]) -> Result<ValueList, Oom>
    ensures { IfOk result (λ copies. copies ≡ values.now) }
{
    let mut copies = Vec::new(alloc);
    for value in values {
        copies.push(copy_value(alloc, value)?)?;
    }
    Ok(Items::of(copies))
}

/// How a task stopped.
fn stop_of(ending: &Ending) -> Stop
    ensures { result ≡ spec.stop_of ending.now }
{
    match ending {
        Ending::Done(_) => Stop::Ended,
        Ending::Failed(_) => Stop::Failed,
        Ending::Waits(_) => Stop::Waits,
    }
}

/// The task with this line.
pub fn told_task(alloc: Global, lookups: &Lookups, line: &TraceLine) -> Result<ToldTask, Oom>
    requires lookups { IsSearchable lookups.now }
    ensures { IfOk result (λ task. task ≡ spec.told_task lookups.now.lines.now line.now) }
{
    Ok(ToldTask {
        name: line.line.name.copy(alloc)?,
        decl: line.decl,
        fork: maker_of(lookups, &line.line.name),
        stop: stop_of(&line.line.ending),
        at: line.at,
        began: copy_values(alloc, line.began.items())?,
        went: went_at(alloc, lookups, line)?,
        held: copy_values(alloc, line.held.items())?,
    })
}

/// The task with this line, if there is one.
pub fn told_task_if(
    alloc: Global,
    lookups: &Lookups,
    line: Option<&TraceLine>,
) -> Result<Option<ToldTask>, Oom>
    requires lookups { IsSearchable lookups.now }
    ensures { IfOk result (λ task. task ≡ option_map (spec.told_task lookups.now.lines.now)
        (option_map (λ line. line.now) line.entry)) }
{
    match line {
        Some(line) => Ok(Some(told_task(alloc, lookups, line)?)),
        None => Ok(None),
    }
}

/// The cell with this name.
pub fn told_cell(alloc: Global, lookups: &Lookups, name: &Name) -> Result<ToldCell, Oom>
    requires lookups { IsSearchable lookups.now }
    ensures { IfOk result (λ cell. cell ≡ spec.told_cell lookups.now.lines.now name.now) }
{
    Ok(ToldCell {
        name: name.copy(alloc)?,
        maker: maker_of(lookups, name),
    })
}

/// The name of the task with this line, if there is one.
fn name_if(alloc: Global, line: Option<&TraceLine>) -> Result<Option<Name>, Oom>
    ensures { IfOk result (λ name. name ≡ option_map (λ line. line.line.name)
        (option_map (λ line. line.now) line.entry)) }
{
    match line {
        Some(line) => Ok(Some(line.line.name.copy(alloc)?)),
        None => Ok(None),
    }
}

/// The wait of the task with this line for this cell.
pub fn told_wait(
    alloc: Global,
    lookups: &Lookups,
    line: &TraceLine,
    cell: &Name,
) -> Result<Wait, Oom>
    requires lookups { IsSearchable lookups.now }
    ensures { IfOk result (λ wait.
        wait ≡ spec.told_wait lookups.now.lines.now line.now cell.now) }
{
    let owner = name_if(alloc, owner_of(lookups, cell))?;
    let cell = told_cell(alloc, lookups, cell)?;
    let task = told_task(alloc, lookups, line)?;
    Ok(Wait { task, cell, owner })
}

/// An equal cause.
pub fn copy_of(alloc: Global, cause: &Cause) -> Result<Cause, Oom>
    ensures { IfOk result (λ copy. copy ≡ cause.now) }
{
    match cause {
        Cause::Arith => Ok(Cause::Arith),
        Cause::Kind => Ok(Cause::Kind),
        Cause::Steps => Ok(Cause::Steps),
        Cause::Owner(name) => Ok(Cause::Owner(name.copy(alloc)?)),
        Cause::Broken(name) => Ok(Cause::Broken(name.copy(alloc)?)),
        Cause::Order(name) => Ok(Cause::Order(name.copy(alloc)?)),
    }
}

/// The statement that made the cell which a cause names.
pub fn maker_named(lookups: &Lookups, cause: &Cause) -> Option<Maker>
    requires lookups { IsSearchable lookups.now }
    ensures { result ≡ spec.maker_named lookups.now.lines.now cause.now }
{
    match cause {
        Cause::Owner(name) | Cause::Broken(name) | Cause::Order(name) => maker_of(lookups, name),
        Cause::Arith | Cause::Kind | Cause::Steps => None,
    }
}
