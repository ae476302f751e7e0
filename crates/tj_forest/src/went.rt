//! Where a promise went that a task had no right to set or to hand on.
ghost use Rattle.std.specs.Prelude.{◌≡◌, IfOk, Some};
ghost use Rattle.std.specs.Option.{option_map};
ghost use Rattle.tj_body.specs.Names.{has};
ghost use Rattle.tj_trace.specs.Lookups.{maker_at};
ghost use Rattle.tj_forest.specs.Inner.Numbers.{IsSearchable};
ghost use Rattle.tj_findings.specs.Searches.{owner_of};
ghost use Rattle.tj_findings.specs.Went as spec;

use crate::lookups::Lookups;
use crate::searches::{owner_of, setter_of};
use std::alloc::Global;
use tj_base::{Cause, Name, Oom};
use tj_findings::Went;
use tj_mean::Ending;
use tj_trace::{HandNote, SetNote, TraceLine};

/// Where the task with this line set the promise.
fn set_in<'t>(line: &'t TraceLine, promise: &Name) -> Option<&'t SetNote>
    ensures { option_map (λ note. note.now) result ≡ spec.set_in line.now promise.now }
{
    line.sets
        .items()
        .iter()
        .find(|note| note.promise == *promise)
}

/// To which of its things the task with this line handed the promise.
fn hand_in<'t>(line: &'t TraceLine, promise: &Name) -> Option<&'t HandNote>
    ensures { option_map (λ note. note.now) result ≡ spec.hand_in line.now promise.now }
{
    line.hands
        .items()
        .iter()
        .find(|note| note.promise == *promise)
}

/// Whether the task owed the promise.
fn owed(line: &TraceLine, promise: &Name) -> bool
    ensures { result ≡ has promise.now line.now.line.owes }
{
    line.line
        .owes
        .items()
        .iter()
        .any(|other| *promise == *other)
}

/// The statement that made the thing with this number of the task with this line.
fn place_made(line: &TraceLine, thing: usize) -> usize
    ensures { result ≡ spec.maker_place (maker_at line.now thing) }
{
    let Some(before) = thing.checked_sub(1) else {
        return 0;
    };
    match line.makers.items().get(before) {
        Some(maker) => maker.at,
        None => 0,
    }
}

/// The task with this line had handed the promise to that thing.
fn handed(alloc: Global, line: &TraceLine, note: &HandNote) -> Result<Went, Oom>
    ensures { IfOk result (λ went. went ≡ spec.handed line.now note.now) }
{
    let at = place_made(line, note.thing);
    let by = line.line.name.copy(alloc)?;
    let thing = note.thing;
    Ok(Went::HandedHere { by, thing, at })
}

/// Where the promise went, if the task with this line set it.
fn by_setter(alloc: Global, line: &TraceLine, promise: &Name) -> Result<Option<Went>, Oom>
    ensures { IfOk result (λ went. went ≡ spec.by_setter (Some line.now) promise.now) }
{
    let Some(note) = set_in(line, promise) else {
        return Ok(None);
    };
    Ok(Some(Went::SetBy {
        task: line.line.name.copy(alloc)?,
        decl: line.decl,
        at: note.at,
    }))
}

/// Who owned the promise where it stopped, if somebody did.
fn by_owner(alloc: Global, lookups: &Lookups, promise: &Name) -> Result<Went, Oom>
    requires lookups { IsSearchable lookups.now }
    ensures { IfOk result (λ went. went ≡ spec.or_else (option_map (λ l. Went.OwnedBy l.line.name)
        (owner_of lookups.now.lines.now promise.now)) Went.Nowhere) }
{
    match owner_of(lookups, promise) {
        Some(line) => Ok(Went::OwnedBy(line.line.name.copy(alloc)?)),
        None => Ok(Went::Nowhere),
    }
}

/// Where the promise went that the failing task neither set nor handed on before.
fn went_elsewhere(alloc: Global, lookups: &Lookups, promise: &Name) -> Result<Went, Oom>
    requires lookups { IsSearchable lookups.now }
    ensures { IfOk result (λ went. went ≡ spec.went_elsewhere lookups.now.lines.now promise.now) }
{
    if let Some(line) = setter_of(lookups, promise) {
        if let Some(went) = by_setter(alloc, line, promise)? {
            return Ok(went);
        }
    }
    by_owner(alloc, lookups, promise)
}

/// Where the promise went for which the task with this line failed.
fn went_from(
    alloc: Global,
    lookups: &Lookups,
    line: &TraceLine,
    promise: &Name,
) -> Result<Went, Oom>
    requires lookups { IsSearchable lookups.now }
    ensures { IfOk result (λ went.
        went ≡ spec.went_from lookups.now.lines.now line.now promise.now) }
{
    if owed(line, promise) {
        return Ok(Went::TwiceHere);
    }
    if let Some(note) = set_in(line, promise) {
        return Ok(Went::SetHere(note.at));
    }
    if let Some(note) = hand_in(line, promise) {
        return handed(alloc, line, note);
    }
    went_elsewhere(alloc, lookups, promise)
}

/// Where the promise went that a cause names as not owned.
fn went_for(alloc: Global, lookups: &Lookups, line: &TraceLine, cause: &Cause) -> Result<Went, Oom>
    requires lookups { IsSearchable lookups.now }
    ensures { IfOk result (λ went.
        went ≡ spec.went_for lookups.now.lines.now line.now cause.now) }
{
    match cause {
        Cause::Owner(promise) => went_from(alloc, lookups, line, promise),
        Cause::Arith | Cause::Kind | Cause::Steps | Cause::Broken(_) | Cause::Order(_) => {
            Ok(Went::Nowhere)
        }
    }
}

/// Where the promise went for which the task with this line failed, if it failed so.
pub fn went_at(alloc: Global, lookups: &Lookups, line: &TraceLine) -> Result<Went, Oom>
    requires lookups { IsSearchable lookups.now }
    ensures { IfOk result (λ went.
        went ≡ spec.went_at lookups.now.lines.now line.now line.now.line.ending) }
{
    match &line.line.ending {
        Ending::Failed(cause) => went_for(alloc, lookups, line, cause),
        Ending::Done(_) | Ending::Waits(_) => Ok(Went::Nowhere),
    }
}
