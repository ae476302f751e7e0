//! The statement that made most of the cells where a program needs more than the limit: the first
//! round that has more is gone through once more, in name order, until there are so many.
ghost use Rattle.std.specs.Prelude.{◌≡◌, ◌<◌, ◌≤◌, [], take, true, slice_get};
ghost use Rattle.std.specs.Prelude.{IfNone, IfOk, IfSome, IsTrue, Some};
ghost use Rattle.tj_base.specs.declared.cell.Sort.TheVariants as sort;
ghost use Rattle.tj_base.specs.declared.cell.TheConstants.{MAX_CELLS};
ghost use Rattle.tj_body.specs.Asks.{IsFresh};
ghost use Rattle.tj_body.specs.History as history;
ghost use Rattle.tj_body.specs.Points.{IsProper};
ghost use Rattle.tj_body.specs.Programs.{program_of, rules_of};
ghost use Rattle.tj_body.specs.Rounds as rounds;
ghost use Rattle.tj_eval.specs.Stands.{StandsRight, placed_awaits, placed_left, placed_places};
ghost use Rattle.tj_mean.specs.Inner.Assignments.{assignment_in};
ghost use Rattle.tj_syntax.specs.View as view;
ghost use Rattle.tj_trace.specs.Logs.{logged, logged_asks, logged_awaits, logged_left};
ghost use Rattle.tj_trace.specs.Logs.{logged_places, logged_program, logged_then};
ghost use Rattle.tj_trace.specs.Inner.RoundMakers.{IsTaken, made_by, round_makers};
ghost use Rattle.tj_trace.specs.Inner.TaskDepths.{AreAsInRound};
ghost use Rattle.tj_trace.specs.Inner.Quiet.{AreQuiet};
ghost use Rattle.tj_trace.specs.MostMade.{IsMostMade};

use crate::depths::full_depth;
use crate::found::{Found, follow};
use crate::line::Maker;
use crate::logged::LoggedBody;
use crate::most::{Most, most_of};
use crate::quiet::quiet_tasks;
use std::alloc::Global;
use tj_base::Oom;
use tj_body::{Body, Entry, Point, Task};
use tj_eval::PlacedBody;
use tj_mean::{NameMap, first_full, history, root_task};
use tj_syntax::Script;

/// The statement that made most of the first cells of the first round that has more than `cells`
/// cells.
pub fn most_made(
    alloc: Global,
    root: &PlacedBody,
    cells: u32,
    strict: bool,
) -> Result<Option<Most>, Oom>
    requires root { IsFresh placed_places placed_awaits placed_left 1 root.now }
    requires cells { (0 < cells) × (cells ≤ MAX_CELLS) }

    // What is found is the statement that made most of the first cells of that round, one more than
    // `cells`, tasks taken in name order, and the first in the script of those that made as many.
    ensures some { IfOk result (λ found.
        IfSome found (IsMostMade (logged_program strict root.now) cells)) }
    // None is found only where the meaning fits in `cells` cells.
    ensures none { IfOk result (λ found.
        IfNone found (¬ rounds.IsFull (logged_program strict root.now) cells)) }
{
    most_in_all(alloc, root, cells, strict, &[])
}

/// The same statement of a task of this script, found faster: tasks that only end a round aren't run
/// where their declarations have no `new`.
pub fn most_of_script(
    alloc: Global,
    script: &Script,
    root: &PlacedBody,
    cells: u32,
    strict: bool,
) -> Result<Option<Most>, Oom>
    requires root { IsFresh placed_places placed_awaits placed_left 1 root.now }
    requires right { StandsRight root.now }
    requires script { root.now.task.script ≡ view.script script.now }
    requires cells { (0 < cells) × (cells ≤ MAX_CELLS) }

    // What is found is the statement that made most of the first cells of the first round that has
    // more than `cells` cells, one more than `cells`, tasks taken in name order, and the first in
    // the script of those that made as many.
    ensures some { IfOk result (λ found.
        IfSome found (IsMostMade (logged_program strict root.now) cells)) }
    // None is found only where the meaning fits in `cells` cells.
    ensures none { IfOk result (λ found.
        IfNone found (¬ rounds.IsFull (logged_program strict root.now) cells)) }
{
    let quiet = quiet_tasks(alloc, script)?;
    most_in_all(alloc, root, cells, strict, quiet.as_slice())
}

/// The same statement, where these declarations are quiet.
fn most_in_all(
    alloc: Global,
    root: &PlacedBody,
    cells: u32,
    strict: bool,
    quiet: &[bool],
) -> Result<Option<Most>, Oom>
    requires root { IsFresh placed_places placed_awaits placed_left 1 root.now }
    requires cells { (0 < cells) × (cells ≤ MAX_CELLS) }
    requires quiet { AreQuiet (logged_program strict root.now) quiet.now }
    ensures some { IfOk result (λ found.
        IfSome found (IsMostMade (logged_program strict root.now) cells)) }
    ensures none { IfOk result (λ found.
        IfNone found (¬ rounds.IsFull (logged_program strict root.now) cells)) }
{
    let early = most_in_depths(alloc, root, cells, strict, quiet)?;
    if early.is_some() {
        return Ok(early);
    }
    let noting = LoggedBody::of(alloc, root.twin(alloc)?)?;
    let found = first_full(alloc, &noting, cells, strict)?;
    let Some(round) = found else {
        return Ok(None);
    };
    let makers = first_makers(
        alloc,
        &noting,
        cells,
        strict,
        round.number,
        &round.given,
        quiet,
    )?;
    most_of(alloc, makers.as_slice())
}

/// That statement, found faster and with little memory, where none of the round's tasks waits. None
/// tells nothing.
pub fn most_by_depths(
    alloc: Global,
    root: &PlacedBody,
    cells: u32,
    strict: bool,
) -> Result<Option<Most>, Oom>
    requires root { IsFresh placed_places placed_awaits placed_left 1 root.now }
    requires cells { (0 < cells) × (cells ≤ MAX_CELLS) }

    // What is found is the statement that made most of the first cells of that round, one more than
    // `cells`, tasks taken in name order, and the first in the script of those that made as many.
    ensures { IfOk result (λ found.
        IfSome found (IsMostMade (logged_program strict root.now) cells)) }
{
    most_in_depths(alloc, root, cells, strict, &[])
}

/// The same of a round none of whose tasks waits, where these declarations are quiet.
fn most_in_depths(
    alloc: Global,
    root: &PlacedBody,
    cells: u32,
    strict: bool,
    quiet: &[bool],
) -> Result<Option<Most>, Oom>
    requires root { IsFresh placed_places placed_awaits placed_left 1 root.now }
    requires cells { (0 < cells) × (cells ≤ MAX_CELLS) }
    requires quiet { AreQuiet (logged_program strict root.now) quiet.now }
    ensures { IfOk result (λ found.
        IfSome found (IsMostMade (logged_program strict root.now) cells)) }
{
    let noting = LoggedBody::of(alloc, root.twin(alloc)?)?;
    let found = full_depth(alloc, &noting, cells, strict)?;
    let Some(number) = found else {
        return Ok(None);
    };
    let given = NameMap::new(alloc);
    let makers = first_makers(alloc, &noting, cells, strict, number, &given, quiet)?;
    most_of(alloc, makers.as_slice())
}

/// What made the first cells of the round but the root's result.
fn first_makers(
    alloc: Global,
    root: &LoggedBody,
    cells: u32,
    strict: bool,
    number: u32,
    given: &NameMap<Entry>,
    quiet: &[bool],
) -> Result<Vec<Maker>, Oom>
    requires root { IsFresh logged_places logged_awaits logged_left 1 root.now }
    requires notes_nothing { root.now ≡ logged root.now.placed }
    requires round { let p = program_of logged_places logged_awaits logged_left logged_asks
        logged_then strict root.now in
        AreAsInRound p number (assignment_in given.now) }
    requires quiet { let p = program_of logged_places logged_awaits logged_left logged_asks
        logged_then strict root.now in AreQuiet p quiet.now }
    ensures { let p = program_of logged_places logged_awaits logged_left logged_asks
        logged_then strict root.now in IfOk result (λ makers.
        makers.items ≡ take cells (round_makers p number)) }
{
    let mut makers = Vec::new(alloc);
    let mut pending = Vec::new(alloc);
    let first = root_task(alloc, root)?;
    take_up(
        alloc,
        first,
        number,
        given,
        quiet,
        strict,
        &mut pending,
        &mut makers,
    )?;
    while let Some(Found { task, maker, depth }) = pending.pop() {
        if makers.len() >= cells as usize {
            break;
        }
        makers.push(maker)?;
        take_up(
            alloc,
            task,
            depth,
            given,
            quiet,
            strict,
            &mut pending,
            &mut makers,
        )?;
    }
    makers.truncate(cells as usize);
    Ok(makers)
}

/// The task is taken: what made its promises is noted, and its children are to be taken next, if
/// so many forks are followed that they are reached. A quiet task of which no fork is followed isn't
/// run.
fn take_up<'s>(
    alloc: Global,
    task: Task<LoggedBody<'s>>,
    depth: u32,
    given: &NameMap<Entry>,
    quiet: &[bool],
    strict: bool,
    pending: &mut Vec<Found<LoggedBody<'s>>>,
    makers: &mut Vec<Maker>,
) -> Result<(), Oom>
    requires proper { IsProper (rules_of logged_places logged_awaits logged_left logged_asks
        logged_then strict) task }
    requires notes_nothing { task.body ≡ logged task.body.placed }
    requires quiet { let rules = rules_of logged_places logged_awaits logged_left logged_asks
        logged_then strict in slice_get quiet.now task.body.placed.stand.decl ≡ Some true
        → made_by rules (assignment_in given.now) sort.Promise task ≡ [] }
    ensures { let rules = rules_of logged_places logged_awaits logged_left logged_asks logged_then
        strict in IfOk result (λ _. IsTaken (history.history rules (assignment_in given.now)
        task.entry) depth pending.old.items pending.new.items makers.old.items makers.new.items) }
{
    if may_leap(quiet, &task, depth) {
        return Ok(());
    }
    let (noted, children) = parts(history(alloc, task, given, strict)?);
    follow(alloc, noted, children, depth, pending, makers)
}

/// Whether no fork of the task is followed, and its declaration is quiet.
fn may_leap(quiet: &[bool], task: &Task<LoggedBody>, depth: u32) -> bool
    ensures { IsTrue result → (depth ≡ 0)
        × (slice_get quiet.now task.now.body.placed.stand.decl ≡ Some true) }
{
    if depth > 0 {
        return false;
    }
    match quiet.get(task.body.placed.decl()) {
        Some(is) => *is,
        None => false,
    }
}

/// What was noted of the task's things, and its children.
fn parts<'s>(point: Point<LoggedBody<'s>>) -> (Vec<Maker>, Vec<Task<LoggedBody<'s>>>)
    ensures makers { result.0.items ≡ point.entry.body.makers }
    ensures children { result.1.items ≡ point.entry.children }
{
    let body = point.body;
    let children = point.children.into_vec();
    (body.makers, children)
}
