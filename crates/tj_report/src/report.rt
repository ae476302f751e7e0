//! The report of an outcome: lines for each task in turn, a line for each cycle, and a last line.
//! Each function adds its part to the text.
ghost use Rattle.std.specs.Prelude.{[], ◌≡◌, ◌++◌, codes, IfOk};
ghost use Rattle.std.specs.List.{flat_map, join_by};
ghost use Rattle.tj_base.specs.Texts.{name_text};
ghost use Rattle.tj_mean.specs.ReportTexts.{shown_text, cause_text, ending_text, print_line};
ghost use Rattle.tj_mean.specs.ReportTexts.{owes_line, lines_of, task_lines, alarm_line, report};
ghost use Rattle.tj_mean.specs.ReportTexts.{verdict_line};
ghost use Rattle.tj_mean.specs.Outcomes.{is_marked};

use crate::shown_names::go_to;
use std::alloc::Global;
use tj_base::{Cause, Name, Oom, Shown, add_signed};
use tj_mean::{Ending, Link, Outcome, TaskLine, marked};

/// The report of the outcome.
pub fn report_text(alloc: Global, o: &Outcome) -> Result<Vec<u8>, Oom>
    // The text is the report of the outcome, line by line.
    ensures { IfOk result (λ text. text.items ≡ report o.now) }
{
    let mut text = Vec::new(alloc);
    add_tasks(alloc, &Name::root(), o.lines.items(), &mut text)?;
    for links in o.cycles.items() {
        add_alarm(alloc, links.items(), &mut text)?;
    }
    add_verdict(o, &mut text)?;
    Ok(text)
}

/// Adds the last line: whether the outcome is marked.
pub fn add_verdict(o: &Outcome, text: &mut Vec<u8>) -> Result<(), Oom>
    ensures { IfOk result (λ _. text.new.items ≡ text.old.items ++ verdict_line (is_marked o.now)) }
{
    let verdict: &[u8] = if marked(o) { b"marked\n" } else { b"clean\n" };
    text.extend_from_slice(verdict)?;
    Ok(())
}

/// Adds the last line, of an outcome that is marked or not.
pub fn add_last(marked: bool, text: &mut Vec<u8>) -> Result<(), Oom>
    ensures { IfOk result (λ _. text.new.items ≡ text.old.items ++ verdict_line marked) }
{
    let verdict: &[u8] = if marked { b"marked\n" } else { b"clean\n" };
    text.extend_from_slice(verdict)?;
    Ok(())
}

/// Adds the lines of each task. It is told of the root's name, from which it goes on.
fn add_tasks<'n>(
    alloc: Global,
    root: &'n Name,
    lines: &'n [TaskLine],
    text: &mut Vec<u8>,
) -> Result<(), Oom>
    requires { root.now ≡ [] }
    ensures { IfOk result (λ _. text.new.items ≡ text.old.items ++ flat_map task_lines lines.now) }
{
    let mut name = Vec::from_slice(alloc, b"0")?;
    let mut last = root;
    for line in lines {
        go_to(alloc, last, &line.name, &mut name)?;
        last = &line.name;
        add_task(alloc, name.as_slice(), line, text)?;
    }
    Ok(())
}

/// Adds the lines of the task with this printed name.
fn add_task(alloc: Global, name: &[u8], line: &TaskLine, text: &mut Vec<u8>) -> Result<(), Oom>
    ensures { IfOk result (λ _. text.new.items ≡ text.old.items ++ lines_of name.now line.now) }
{
    add_prints(name, line.prints.items(), text)?;
    text.extend_from_slice(name)?;
    add_ending(alloc, &line.ending, text)?;
    text.push(b'\n')?;
    add_owed(alloc, name, line.owes.items(), text)
}

/// Adds a line for each number that the task with this printed name has printed.
pub fn add_prints(name: &[u8], prints: &[i64], text: &mut Vec<u8>) -> Result<(), Oom>
    ensures { IfOk result (λ _.
        text.new.items ≡ text.old.items ++ flat_map (print_line name.now) prints.now) }
{
    for number in prints {
        add_print(name, *number, text)?;
    }
    Ok(())
}

/// Adds a line for one of them.
fn add_print(name: &[u8], number: i64, text: &mut Vec<u8>) -> Result<(), Oom>
    ensures { IfOk result (λ _. text.new.items ≡ text.old.items ++ print_line name.now number) }
{
    text.extend_from_slice(name)?;
    text.extend_from_slice(b" prints ")?;
    add_signed(text, number)?;
    text.push(b'\n')?;
    Ok(())
}

/// Adds what became of a task.
fn add_ending(alloc: Global, ending: &Ending, text: &mut Vec<u8>) -> Result<(), Oom>
    ensures { IfOk result (λ _. text.new.items ≡ text.old.items ++ ending_text ending.now) }
{
    match ending {
        Ending::Done(value) => {
            text.extend_from_slice(b" done ")?;
            add_shown(alloc, value, text)
        }
        Ending::Failed(cause) => {
            text.extend_from_slice(b" failed ")?;
            add_cause(alloc, cause, text)
        }
        Ending::Waits(cell) => add_named(alloc, b" waits for ", cell, text),
    }
}

/// Adds a value.
pub fn add_shown(alloc: Global, value: &Shown, text: &mut Vec<u8>) -> Result<(), Oom>
    // After `Ok` the text has grown by exactly the value as a report prints it.
    ensures { IfOk result (λ _. text.new.items ≡ text.old.items ++ shown_text value.now) }
{
    match value {
        Shown::Num(number) => add_signed(text, *number),
        Shown::Ref(cell) => add_named(alloc, b"@", cell, text),
    }
}

/// Adds why a task failed.
fn add_cause(alloc: Global, cause: &Cause, text: &mut Vec<u8>) -> Result<(), Oom>
    ensures { IfOk result (λ _. text.new.items ≡ text.old.items ++ cause_text cause.now) }
{
    match cause {
        Cause::Arith => text.extend_from_slice(b"arith")?,
        Cause::Kind => text.extend_from_slice(b"kind")?,
        Cause::Steps => text.extend_from_slice(b"steps")?,
        Cause::Owner(cell) => return add_named(alloc, b"owner ", cell, text),
        Cause::Broken(cell) => return add_named(alloc, b"broken ", cell, text),
        Cause::Order(cell) => return add_named(alloc, b"order ", cell, text),
    }
    Ok(())
}

/// Adds these bytes and the name of a cell.
fn add_named(alloc: Global, before: &[u8], cell: &Name, text: &mut Vec<u8>) -> Result<(), Oom>
    ensures { IfOk result (λ _.
        text.new.items ≡ text.old.items ++ (before.now ++ name_text cell.now)) }
{
    text.extend_from_slice(before)?;
    cell.text_into(alloc, text)
}

/// Adds a line for what the task with this printed name owes, if it owes something.
pub fn add_owed(alloc: Global, name: &[u8], owes: &[Name], text: &mut Vec<u8>) -> Result<(), Oom>
    ensures { IfOk result (λ _. text.new.items ≡ text.old.items ++ owes_line name.now owes.now) }
{
    if owes.is_empty() {
        return Ok(());
    }
    text.extend_from_slice(name)?;
    text.extend_from_slice(b" owes ")?;
    add_names(alloc, owes, text)?;
    text.push(b'\n')?;
    Ok(())
}

/// Adds the names of cells.
fn add_names(alloc: Global, cells: &[Name], text: &mut Vec<u8>) -> Result<(), Oom>
    ensures { IfOk result (λ _.
        text.new.items ≡ text.old.items ++ join_by name_text (codes ", ") cells.now) }
{
    let mut before: &[u8] = b"";
    for cell in cells {
        add_named(alloc, before, cell, text)?;
        before = b", ";
    }
    Ok(())
}

/// Adds a line for a cycle.
fn add_alarm(alloc: Global, links: &[Link], text: &mut Vec<u8>) -> Result<(), Oom>
    ensures { IfOk result (λ _. text.new.items ≡ text.old.items ++ alarm_line links.now) }
{
    text.extend_from_slice(b"alarm ")?;
    let mut before: &[u8] = b"";
    for link in links {
        add_named(alloc, before, &link.task, text)?;
        add_named(alloc, b" waits for ", &link.cell, text)?;
        before = b", ";
    }
    text.push(b'\n')?;
    Ok(())
}
