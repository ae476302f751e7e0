//! The summary of an outcome: a line of counts that ends with what the root returned, and a last
//! line as in the report.
ghost use Rattle.std.specs.Prelude.{◌≡◌, ◌++◌, decimal, length, IfOk};
ghost use Rattle.std.specs.List.{sum_by};
ghost use Rattle.tj_report.specs.SummaryTexts as spec;

use crate::report::{add_shown, add_verdict};
use std::alloc::Global;
use tj_base::{Oom, add_count};
use tj_mean::{Ending, Outcome, TaskLine};

/// How many tasks there are of each kind.
#[derive(Clone, Copy)]
struct Counts {
    done: usize,
    failed: usize,
    waiting: usize,
}

/// The summary of the outcome of a script of this size.
// The owed promises are added up in 128 bits, which so many lengths can't pass.
pub fn summary_text(alloc: Global, size: u32, o: &Outcome) -> Result<Vec<u8>, Oom>
    // The text is the summary of the outcome with the given size: how many tasks there are, how
    // many of them are done, failed or wait, how many promises are owed, how many cycles stand,
    // what the root returned, and whether it is marked.
    ensures { IfOk result (λ text. text.items ≡ spec.summary size o.now) }
{
    let mut text = Vec::new(alloc);
    add_count(&mut text, b"size ", size as u128)?;
    add_tasks(o.lines.items(), &mut text)?;
    add_count(&mut text, b" owed ", owed(o.lines.items()))?;
    add_count(&mut text, b" cycles ", o.cycles.items().len() as u128)?;
    text.extend_from_slice(b" result ")?;
    add_result(alloc, o.lines.items(), &mut text)?;
    text.push(b'\n')?;
    add_verdict(o, &mut text)?;
    Ok(text)
}

/// Adds how many tasks there are, and how many of each kind.
fn add_tasks(lines: &[TaskLine], text: &mut Vec<u8>) -> Result<(), Oom>
    ensures { IfOk result (λ _. text.new.items ≡ text.old.items ++ spec.task_counts lines.now) }
{
    let counts = count(lines);
    add_count(text, b" tasks ", lines.len() as u128)?;
    add_count(text, b" done ", counts.done as u128)?;
    add_count(text, b" failed ", counts.failed as u128)?;
    add_count(text, b" waiting ", counts.waiting as u128)
}

/// Counts the tasks of each kind.
fn count(lines: &[TaskLine]) -> Counts
    ensures done { result.done ≡ spec.count_with spec.is_done lines.now }
    ensures failed { result.failed ≡ spec.count_with spec.has_failed lines.now }
    ensures waiting { result.waiting ≡ spec.count_with spec.is_waiting lines.now }
{
    let mut done = 0;
    let mut failed = 0;
    let mut waiting = 0;
    for line in lines {
        match line.ending {
            Ending::Done(_) => done += 1,
            Ending::Failed(_) => failed += 1,
            Ending::Waits(_) => waiting += 1,
        }
    }
    Counts {
        done,
        failed,
        waiting,
    }
}

/// How many promises the tasks owe. The sum of so many lengths fits in 128 bits.
fn owed(lines: &[TaskLine]) -> u128
    ensures { result ≡ sum_by (λ l. length l.owes) lines.now }
{
    let mut owed = 0;
    for line in lines {
        owed += line.owes.items().len() as u128;
    }
    owed
}

/// Adds what the root returned, or a dash where it isn't done.
fn add_result(alloc: Global, lines: &[TaskLine], text: &mut Vec<u8>) -> Result<(), Oom>
    ensures { IfOk result (λ _. text.new.items ≡ text.old.items ++ spec.root_result lines.now) }
{
    for line in lines {
        if line.name.depth() == 0 {
            return add_done(alloc, &line.ending, text);
        }
    }
    text.push(b'-')?;
    Ok(())
}

/// Adds what a task with this ending returned, or a dash.
fn add_done(alloc: Global, ending: &Ending, text: &mut Vec<u8>) -> Result<(), Oom>
    ensures { IfOk result (λ _. text.new.items ≡ text.old.items ++ spec.done_text ending.now) }
{
    match ending {
        Ending::Done(value) => add_shown(alloc, value, text)?,
        _ => text.push(b'-')?,
    }
    Ok(())
}
