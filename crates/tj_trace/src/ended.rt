//! The outcome of the run of which a trace is told.
ghost use Rattle.std.specs.Prelude.{◌≡◌, ℕ, Bool, map, IfOk};
ghost use Rattle.tj_body.specs.Rounds.{meaning};
ghost use Rattle.tj_eval.specs.Stands.{PlacedState};
ghost use Rattle.tj_mean.specs.Outcomes.{IsOutcome};
ghost use Rattle.tj_trace.specs.Ended.{IsTrace, stopped_in};
ghost use Rattle.tj_trace.specs.Logs.{logged_program};
ghost use Rattle.tj_trace.specs.TraceLaws.{script_program};
ghost use Rattle.tj_trace.specs.Traces.{AreTraced};

use crate::line::TraceLine;
use std::alloc::Global;
use tj_base::{Cause, Items, Name, NameList, NumList, Oom, Shown};
use tj_mean::{Ending, Outcome, Stopped, TaskLine, outcome_of};

/// The outcome of the run of which these lines are told.
// What `trace` answers is told without a second run.
pub fn outcome_of_lines(alloc: Global, lines: &[TraceLine]) -> Result<Outcome, Oom>
    // The lines are the trace of some run.
    requires { IsTrace lines.now }
    // Of whichever root's program the lines are the trace, the outcome is that of the meaning
    // without stands and notes, with the same limit of cells.
    ensures { IfOk result (λ outcome. (strict : Bool) (root : PlacedState) (cells : ℕ)
        → AreTraced (logged_program strict root) cells lines.now
        → IsOutcome (meaning (script_program strict root) cells) outcome) }
{
    let tasks = tasks_of(alloc, lines)?;
    outcome_of(alloc, tasks)
}

/// What the lines tell of their tasks for an outcome.
fn tasks_of(alloc: Global, lines: &[TraceLine]) -> Result<Vec<Stopped>, Oom>
    ensures { IfOk result (λ tasks. tasks.items ≡ map stopped_in lines.now) }
{
    let mut tasks = Vec::new(alloc);
    for line in lines {
        tasks.push(task_of(alloc, line)?)?;
    }
    Ok(tasks)
}

/// The same of one line.
fn task_of(alloc: Global, line: &TraceLine) -> Result<Stopped, Oom>
    ensures { IfOk result (λ task. task ≡ stopped_in line.now) }
{
    let told = copy_line(alloc, &line.line)?;
    let holds = copy_names(alloc, line.holds.items())?;
    Ok(Stopped { line: told, holds })
}

/// An equal line.
fn copy_line(alloc: Global, line: &TaskLine) -> Result<TaskLine, Oom>
    ensures { IfOk result (λ copy. copy ≡ line.now) }
{
    let name = line.name.copy(alloc)?;
    let prints = copy_numbers(alloc, line.prints.items())?;
    let ending = copy_ending(alloc, &line.ending)?;
    let owes = copy_names(alloc, line.owes.items())?;
    Ok(TaskLine {
        name,
        prints,
        ending,
        owes,
    })
}

/// Equal numbers.
fn copy_numbers(alloc: Global, numbers: &[i64]) -> Result<NumList, Oom>
    ensures { IfOk result (λ copy. copy ≡ numbers.now) }
{
    Ok(Items::of(Vec::from_slice(alloc, numbers)?))
}

/// Equal names.
fn copy_names(alloc: Global, names: &[Name]) -> Result<NameList, Oom>
    ensures { IfOk result (λ copy. copy ≡ names.now) }
{
    let mut copy = Vec::new(alloc);
    for name in names {
        copy.push(name.copy(alloc)?)?;
    }
    Ok(Items::of(copy))
}

/// An equal ending.
fn copy_ending(alloc: Global, ending: &Ending) -> Result<Ending, Oom>
    ensures { IfOk result (λ copy. copy ≡ ending.now) }
{
    match ending {
        Ending::Done(value) => Ok(Ending::Done(copy_value(alloc, value)?)),
        Ending::Failed(cause) => Ok(Ending::Failed(copy_cause(alloc, cause)?)),
        Ending::Waits(cell) => Ok(Ending::Waits(cell.copy(alloc)?)),
    }
}

/// An equal value.
fn copy_value(alloc: Global, value: &Shown) -> Result<Shown, Oom>
    ensures { IfOk result (λ copy. copy ≡ value.now) }
{
    match value {
        Shown::Num(number) => Ok(Shown::Num(*number)),
        Shown::Ref(name) => Ok(Shown::Ref(name.copy(alloc)?)),
    }
}

/// An equal cause.
fn copy_cause(alloc: Global, cause: &Cause) -> Result<Cause, Oom>
    ensures { IfOk result (λ copy. copy ≡ cause.now) }
{
    match cause {
        Cause::Arith => Ok(Cause::Arith),
        Cause::Kind => Ok(Cause::Kind),
        Cause::Steps => Ok(Cause::Steps),
        Cause::Owner(promise) => Ok(Cause::Owner(promise.copy(alloc)?)),
        Cause::Broken(cell) => Ok(Cause::Broken(cell.copy(alloc)?)),
        Cause::Order(task) => Ok(Cause::Order(task.copy(alloc)?)),
    }
}
