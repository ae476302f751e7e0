//! Scripts in a program: what became of a task, which tasks owe, the cycle that a task is on, and
//! where a text has its fault.
ghost use Rattle.tj_embed.specs.Limits.{AreLimits};

use std::alloc::Global;
use std::sync::Wait;
use std::thread::Threads;
use tj_base::{Name, add_count};
use tj_embed::{Options, cycle_with, line_of, owing, plan_script, run_script, script_in};
use tj_mean::{Ending, Outcome, TaskLine};

/// A task that forgets its promise.
pub(crate) const FORGETS: &[u8] = b"task main() {
  let p = new;
  fork giver(own p);
  let v = get p;
  return v;
}
task giver(p) {
  return 0;
}
";

/// Two tasks that wait for each other.
pub(crate) const CIRCLE: &[u8] = b"task main() {
  let p = new;
  let q = new;
  fork partner(own p, q);
  fork partner(own q, p);
  return 0;
}
task partner(mine, other) {
  let v = get other;
  set mine = v;
  return v;
}
";

/// What a line says of its task.
fn ending(line: &TaskLine) -> &'static [u8] {
    match &line.ending {
        Ending::Done(_) => b"done\n",
        Ending::Failed(_) => b"failed\n",
        Ending::Waits(_) => b"waits\n",
    }
}

/// The outcome of this script.
fn outcome_of<R: Wait + Threads + Sync + AllocGlobal>(
    rt: &R,
    text: &[u8],
    options: Options,
) -> Option<Outcome>
    requires { AreLimits options }
{
    let script = script_in(rt.alloc(), text).ok()?;
    let run = run_script(rt, rt.alloc(), &script, options).ok()?;
    run.outcome(rt.alloc()).ok()
}

/// How the root ends, and how many tasks owe.
pub(crate) fn which_owe<R: Wait + Threads + Sync + AllocGlobal>(rt: &R) -> Option<Vec<u8>> {
    let options = Options {
        workers: 2,
        cells: 100,
        ..Options::usual()
    };
    let outcome = outcome_of(rt, FORGETS, options)?;
    owing_text(rt.alloc(), &outcome)
}

/// The same of an outcome.
fn owing_text(alloc: Global, outcome: &Outcome) -> Option<Vec<u8>> {
    let root = line_of(outcome, &Name::root())?;
    let count = owing(alloc, outcome).ok()?.len();
    let mut text = Vec::from_slice(alloc, ending(root)).ok()?;
    add_count(&mut text, b"owing ", count as u128).ok()?;
    text.extend_from_slice(b"\n").ok()?;
    Some(text)
}

/// How many tasks are on the cycle of task 0.3.
pub(crate) fn on_a_cycle<R: Wait + Threads + Sync + AllocGlobal>(rt: &R) -> Option<Vec<u8>> {
    let options = Options {
        cells: 100,
        ..Options::usual()
    };
    let outcome = outcome_of(rt, CIRCLE, options)?;
    cycle_text(rt.alloc(), &outcome)
}

/// The same of an outcome.
fn cycle_text(alloc: Global, outcome: &Outcome) -> Option<Vec<u8>> {
    let name = Name::root().child(alloc, 3).ok()?;
    let count = cycle_with(outcome, &name)?.items().len();
    let mut text = Vec::new(alloc);
    add_count(&mut text, b"on a cycle of ", count as u128).ok()?;
    text.extend_from_slice(b"\n").ok()?;
    Some(text)
}

/// How many tasks the same script has, by its plan on one thread.
fn planned(alloc: Global) -> Option<usize> {
    let script = script_in(alloc, CIRCLE).ok()?;
    let outcome = plan_script(alloc, &script, Options::usual()).ok()?;
    Some(outcome.lines.items().len())
}

/// Whether its run is marked, and how many cells the run has drawn.
fn marked_and_drawn<R: Wait + Threads + Sync + AllocGlobal>(rt: &R) -> Option<(bool, u32)> {
    let alloc = rt.alloc();
    let script = script_in(alloc, CIRCLE).ok()?;
    let run = run_script(rt, alloc, &script, Options::usual()).ok()?;
    let marked = run.is_marked(alloc).ok()?;
    Some((marked, run.into_closed().drawn()))
}

/// The text of both.
pub(crate) fn planned_and_run<R: Wait + Threads + Sync + AllocGlobal>(rt: &R) -> Option<Vec<u8>> {
    let alloc = rt.alloc();
    let tasks = planned(alloc)?;
    let (marked, drawn) = marked_and_drawn(rt)?;
    let mut text = Vec::new(alloc);
    add_count(&mut text, b"tasks ", tasks as u128).ok()?;
    add_count(&mut text, b", cells ", drawn as u128).ok()?;
    let end: &[u8] = if marked { b", marked\n" } else { b", clean\n" };
    text.extend_from_slice(end).ok()?;
    Some(text)
}

/// The line and the column of the first fault of a text that is no script.
pub(crate) fn position_of_a_fault(alloc: Global) -> Option<Vec<u8>> {
    let fault = script_in(alloc, b"task main() {\n  return v;\n}\n").err()?;
    let at = fault.position()?;
    let mut text = Vec::new(alloc);
    add_count(&mut text, b"fault at ", at.line as u128).ok()?;
    add_count(&mut text, b":", at.column as u128).ok()?;
    text.extend_from_slice(b"\n").ok()?;
    Some(text)
}
