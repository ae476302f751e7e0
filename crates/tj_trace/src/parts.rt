//! What a line tells of what its task set, handed on and held: of the places in its notes, and of
//! those in its variables.
ghost use Rattle.std.specs.Prelude.{◌≡◌, map, IfOk};
ghost use Rattle.tj_body.specs.History.{reference_at, to_task, value_at};
ghost use Rattle.tj_trace.specs.Inner.LineParts.{IsOfLine};
ghost use Rattle.tj_trace.specs.Traces.{hand_of, held_for, held_in, line_with, set_of};

use crate::line::{HandList, HandNote, SetList, SetNote, ValueList};
use crate::logged::{LoggedBody, PlaceHand, PlaceSet};
use std::alloc::Global;
use tj_base::{Cause, Items, Name, Oom, Pay, Sort};
use tj_body::{Reference, Value};
use tj_mean::{Ending, StoppedBody};

/// What its task set, handed on, began with, and held.
#[derive(Drop)]
pub struct Parts {
    pub sets: SetList,
    pub hands: HandList,
    pub began: ValueList,
    pub held: ValueList,
}

/// An equal reference.
fn copy_reference(alloc: Global, reference: &Reference) -> Result<Reference, Oom>
    ensures { IfOk result (λ copy. copy ≡ reference.now) }
{
    Ok(Reference {
        sort: reference.sort,
        name: reference.name.copy(alloc)?,
    })
}

/// A reference to the task with this name.
fn to_itself(alloc: Global, name: &Name) -> Result<Reference, Oom>
    ensures { IfOk result (λ reference. reference ≡ to_task name.now) }
{
    Ok(Reference {
        sort: Sort::Task,
        name: name.copy(alloc)?,
    })
}

/// The reference with this place of the task with this name.
fn referred(
    alloc: Global,
    name: &Name,
    references: &[Reference],
    place: u32,
) -> Result<Reference, Oom>
    ensures { IfOk result (λ found. found ≡ reference_at name.now references.now place) }
{
    match references.get(place as usize) {
        Some(reference) => copy_reference(alloc, reference),
        None => to_itself(alloc, name),
    }
}

/// The promises that the task set.
fn sets_of(
    alloc: Global,
    name: &Name,
    references: &[Reference],
    sets: &[PlaceSet],
) -> Result<SetList, Oom>
    ensures { IfOk result (λ notes. notes ≡ map (set_of name.now references.now) sets.now) }
{
    let mut notes = Vec::new(alloc);
    for set in sets {
        let promise = referred(alloc, name, references, set.place)?.name;
        notes.push(SetNote {
            promise,
            at: set.at,
        })?;
    }
    Ok(Items::of(notes))
}

/// The promises that the task handed on.
fn hands_of(
    alloc: Global,
    name: &Name,
    references: &[Reference],
    hands: &[PlaceHand],
) -> Result<HandList, Oom>
    ensures { IfOk result (λ notes. notes ≡ map (hand_of name.now references.now) hands.now) }
{
    let mut notes = Vec::new(alloc);
    for hand in hands {
        let promise = referred(alloc, name, references, hand.place)?.name;
        notes.push(HandNote {
            promise,
            thing: hand.thing,
        })?;
    }
    Ok(Items::of(notes))
}

/// The value that a variable of the task holds.
fn value_of(alloc: Global, name: &Name, references: &[Reference], held: Pay) -> Result<Value, Oom>
    ensures { IfOk result (λ value. value ≡ value_at name.now references.now held) }
{
    match held {
        Pay::Num(number) => Ok(Value::Num(number)),
        Pay::Ref(place) => Ok(Value::Ref(referred(alloc, name, references, place)?)),
    }
}

/// The values that variables of the task hold.
fn values_of(
    alloc: Global,
    name: &Name,
    references: &[Reference],
    vars: &[Pay],
) -> Result<ValueList, Oom>
    ensures { IfOk result (λ values. values ≡ map (value_at name.now references.now) vars.now) }
{
    let mut values = Vec::new(alloc);
    for held in vars {
        values.push(value_of(alloc, name, references, *held)?)?;
    }
    Ok(Items::of(values))
}

/// The values of a task that failed by this cause.
fn held_if(
    alloc: Global,
    cause: &Cause,
    name: &Name,
    references: &[Reference],
    vars: &[Pay],
) -> Result<ValueList, Oom>
    ensures { IfOk result (λ held.
        held ≡ held_for cause.now (map (value_at name.now references.now) vars.now)) }
{
    match cause {
        Cause::Arith | Cause::Kind => values_of(alloc, name, references, vars),
        Cause::Steps | Cause::Owner(_) | Cause::Broken(_) | Cause::Order(_) => {
            Ok(Items::of(Vec::new(alloc)))
        }
    }
}

/// The values that are told of a task that has stopped.
fn held_of(alloc: Global, task: &StoppedBody<LoggedBody>) -> Result<ValueList, Oom>
    ensures { IfOk result (λ held. held ≡ held_in task.now) }
{
    let name = &task.told.line.name;
    let vars = task.body.placed.vars();
    match &task.told.line.ending {
        Ending::Failed(cause) => held_if(alloc, cause, name, task.references.items(), vars),
        Ending::Done(_) | Ending::Waits(_) => Ok(Items::of(Vec::new(alloc))),
    }
}

/// The parts of the line of a task that has stopped.
pub fn parts_of(alloc: Global, task: &StoppedBody<LoggedBody>) -> Result<Parts, Oom>
    ensures { IfOk result (IsOfLine (line_with task.now)) }
{
    let name = &task.told.line.name;
    let references = task.references.items();
    let sets = sets_of(alloc, name, references, task.body.sets.as_slice())?;
    let hands = hands_of(alloc, name, references, task.body.hands.as_slice())?;
    let began = values_of(alloc, name, references, task.body.began.as_slice())?;
    let held = held_of(alloc, task)?;
    Ok(Parts {
        sets,
        hands,
        began,
        held,
    })
}
