//! Judging: the events of a run in order, with what the rules make of them. A line is said where a
//! walk ends, and the first event that isn't allowed ends the text.
ghost use Rattle.std.specs.Prelude.{◌≡◌, ◌≤◌, ◌<◌, ◌∷◌, ◌++◌, drop, map, codes, decimal, IfOk, IsSome, Some};
ghost use Rattle.std.specs.List.{flat_map};
ghost use Rattle.tj_events.specs.CoreFacts.{CoreFacts};
ghost use Rattle.tj_events.specs.Events.{Allowed};
ghost use Rattle.tj_core.specs.Checker.Core.{core_state, core_limit};
ghost use Rattle.tj_core.specs.Journals.Judging.{IsJudged, IsSaid, settled_line, alarm_line, wait_text, legal_line, illegal_line};
ghost use Rattle.tj_core.specs.Journals.Judging as spec;

use crate::births::MAX_CORE_CELLS;
use crate::plain_core::Core;
use crate::stage::Illegal;
use std::alloc::Global;
use tj_base::{ByteList, CellId, Oom, add_count, add_number};
use tj_events::{Event, LastRead};

/// The text of judging, and whether an event was illegal or an alarm.
#[derive(Drop)]
pub struct Judged {
    pub text: ByteList,
    pub marked: bool,
}

/// What the rules make of a run from the root alone on, with room for so many cells.
pub fn judge_text(alloc: Global, events: &[Event], cells: u32) -> Result<Judged, Oom>
    requires some { 0 < cells }
    requires small { cells ≤ MAX_CORE_CELLS }
    // The text and the mark are those of the events by the rules; marked exactly where an event is
    // illegal or an alarm is allowed.
    ensures { IfOk result (λ judged. IsJudged cells events.now judged.text judged.marked) }
{
    let mut core = Core::new(alloc, cells)?;
    let mut text = Vec::new(alloc);
    let mut marked = false;
    for event in events {
        let said = said_of(alloc, &core, *event)?;
        if let Err(Illegal) = core.apply(*event) {
            add_illegal(&mut text, core.applied() + 1)?;
            return Ok(outcome(text, true));
        }
        text.extend_from_slice(said.as_slice())?;
        marked = marked || is_alarm(*event);
    }
    add_legal(&mut text, core.applied())?;
    Ok(outcome(text, marked))
}

fn outcome(text: Vec<u8>, marked: bool) -> Judged
    ensures text { result.text ≡ text.items }
    ensures marked { result.marked ≡ marked }
{
    Judged {
        text: ByteList::of(text),
        marked,
    }
}

fn is_alarm(event: Event) -> bool
    ensures { result ≡ spec.is_alarm event }
{
    matches!(event, Event::Alarm(_))
}

/// What is said of an event, if it is allowed.
fn said_of(alloc: Global, core: &Core, event: Event) -> Result<Vec<u8>, Oom>
    ensures { let state = core_state core.now in
        IfOk result (λ said. CoreFacts state → Allowed (core_limit core.now) state event
        → IsSaid state event said.items) }
{
    match event {
        Event::Alarm(t) => said_of_alarm(alloc, core, t),
        Event::Settle(t) => said_of_settle(alloc, core, t),
        _ => Ok(Vec::new(alloc)),
    }
}

/// What is said of a settle.
fn said_of_settle(alloc: Global, core: &Core, t: CellId) -> Result<Vec<u8>, Oom>
    ensures { let state = core_state core.now in
        IfOk result (λ said. Allowed (core_limit core.now) state (Event.Settle t)
        → IsSaid state (Event.Settle t) said.items) }
{
    match core.walk(t) {
        Some((last, loads)) => settled(alloc, t, last, loads),
        None => Ok(Vec::new(alloc)),
    }
}

/// The line of a walk that ends after this last read.
fn settled(alloc: Global, t: CellId, last: LastRead, loads: u32) -> Result<Vec<u8>, Oom>
    ensures { IfOk result (λ line. line.items ≡ settled_line t.0 loads last) }
{
    let mut line = Vec::from_slice(alloc, b"task ")?;
    add_number(&mut line, t.0 as u128)?;
    if let LastRead::SawOthers(_) = last {
        line.extend_from_slice(b" skipped\n")?;
    } else {
        line.extend_from_slice(b" walked after ")?;
        add_number(&mut line, loads as u128)?;
        line.extend_from_slice(b" loads\n")?;
    }
    Ok(line)
}

/// What is said of an alarm.
fn said_of_alarm(alloc: Global, core: &Core, t: CellId) -> Result<Vec<u8>, Oom>
    ensures { let state = core_state core.now in
        IfOk result (λ said. CoreFacts state → Allowed (core_limit core.now) state (Event.Alarm t)
        → IsSaid state (Event.Alarm t) said.items) }
{
    let Some((_, loads)) = core.walk(t) else {
        return Ok(Vec::new(alloc));
    };
    let Some(tasks) = core.cycle_of(alloc, t)? else {
        return Ok(Vec::new(alloc));
    };
    let others = behind_first(tasks.as_slice());
    alarmed(alloc, core, t, loads, others)
}

/// The tasks behind the first.
fn behind_first(tasks: &[CellId]) -> &[CellId]
    ensures { result.now ≡ drop 1 tasks.now }
{
    match tasks {
        [_, others @ ..] => others,
        [] => &[],
    }
}

/// The line of an alarm of t on the cycle of t and then the others.
fn alarmed(
    alloc: Global,
    core: &Core,
    t: CellId,
    loads: u32,
    others: &[CellId],
) -> Result<Vec<u8>, Oom>
    ensures { let cells = (core_state core.now).cells in
        IfOk result (λ line. line.items ≡ alarm_line cells t.0 loads (map (λ c. c.0) others.now)) }
{
    let mut line = Vec::from_slice(alloc, b"task ")?;
    add_number(&mut line, t.0 as u128)?;
    line.extend_from_slice(b" alarmed after ")?;
    add_number(&mut line, loads as u128)?;
    line.extend_from_slice(b" loads: ")?;
    add_wait(&mut line, core, t)?;
    for other in others {
        line.extend_from_slice(b", ")?;
        add_wait(&mut line, core, *other)?;
    }
    line.extend_from_slice(b"\n")?;
    Ok(line)
}

/// Adds what a task waits for.
fn add_wait(text: &mut Vec<u8>, core: &Core, t: CellId) -> Result<(), Oom>
    ensures { let cells = (core_state core.now).cells in
        IfOk result (λ _. text.new.items ≡ text.old.items ++ wait_text cells t.0) }
{
    add_number(text, t.0 as u128)?;
    text.extend_from_slice(b" waits for ")?;
    if let Some(cell) = core.wait(t) {
        add_number(text, cell as u128)?;
    }
    Ok(())
}

fn add_legal(text: &mut Vec<u8>, events: u64) -> Result<(), Oom>
    ensures { IfOk result (λ _. text.new.items ≡ text.old.items ++ legal_line events) }
{
    add_count(text, b"legal ", events as u128)?;
    text.extend_from_slice(b" events\n")?;
    Ok(())
}

fn add_illegal(text: &mut Vec<u8>, line: u64) -> Result<(), Oom>
    ensures { IfOk result (λ _. text.new.items ≡ text.old.items ++ illegal_line line) }
{
    add_count(text, b"illegal at line ", line as u128)?;
    text.extend_from_slice(b"\n")?;
    Ok(())
}
