//! The outcome of a run, from the words and records of its table at rest. Each record is told over
//! the names of the cells, and the outcome is that of all that is told.
ghost use Rattle.std.specs.Prelude.{IfOk};
ghost use Rattle.tj_body.specs.Programs.{program_of};
ghost use Rattle.tj_body.specs.Rounds.{meaning};
ghost use Rattle.tj_mean.specs.Outcomes.{IsOutcome};
ghost use Rattle.tj_report.specs.ClosedOutcomes.{AreCyclesOfOutcomeAlarmed};
ghost use Rattle.tj_report.specs.Inner.CellNames.{AreNames};
ghost use Rattle.tj_mean.specs.Inner.ToldOrder.{AreToldInSomeOrder};
ghost use Rattle.tj_words.specs.AtRest.RestMeaning.{AreCyclesOfMeaningAlarmed, HaveMeaning};

use crate::cell_names::names_of;
use crate::told_records::told_by;
use crate::walk_order::in_walk_order;
use std::alloc::Global;
use tj_base::{CellId, Name, Oom};
use tj_body::Body;
use tj_mean::{Outcome, Stopped, outcome_of as told_outcome};
use tj_words::RestWords;

/// The outcome of the meaning that the closed words and records are those of.
pub fn outcome_of<B: Body>(alloc: Global, rest: &RestWords<B>) -> Result<Outcome, Oom>
    requires { HaveMeaning (program_of B.places B.awaits B.left B.asks B.then rest.now.strict
        rest.now.root) rest.now.limit rest.now.cells rest.now.records }
    // The outcome is that of the meaning that the closed words and records are those of: a line for
    // each history, in name order, and exactly the cycles of its wait graph, each once, from its
    // least name on, in the order of these names.
    ensures outcome { let p = program_of B.places B.awaits B.left B.asks B.then rest.now.strict
        rest.now.root in IfOk result (IsOutcome (meaning p rest.now.limit)) }

    // Where each cycle of that meaning has a member that has alarmed, which `rest` says too, each
    // cycle of the outcome has one: a task with the name that some cell has by PARENT and KID,
    // whose PHASE says that it has alarmed.
    ensures alarmed { let p = program_of B.places B.awaits B.left B.asks B.then rest.now.strict
        rest.now.root in AreCyclesOfMeaningAlarmed p rest.now.limit rest.now.cells
        → IfOk result (AreCyclesOfOutcomeAlarmed rest.now.cells) }
{
    let names = names_of(alloc, rest)?;
    let told = told_tasks(alloc, rest, names.as_slice())?;
    let tasks = in_walk_order(alloc, rest, told)?;
    told_outcome(alloc, tasks)
}

/// What is told of all tasks.
fn told_tasks<B: Body>(
    alloc: Global,
    rest: &RestWords<B>,
    names: &[Name],
) -> Result<Vec<Stopped>, Oom>
    requires meaning { HaveMeaning (program_of B.places B.awaits B.left B.asks B.then
        rest.now.strict rest.now.root) rest.now.limit rest.now.cells rest.now.records }
    requires names { AreNames rest.now.cells names.now }
    ensures { let p = program_of B.places B.awaits B.left B.asks B.then rest.now.strict
        rest.now.root in IfOk result (λ tasks.
        AreToldInSomeOrder (meaning p rest.now.limit) tasks.items) }
{
    let mut tasks = Vec::new(alloc);
    for c in 0..rest.drawn() {
        if let Some(r) = rest.rec(CellId(c)) {
            tasks.push(told_by(alloc, names, r)?)?;
        }
    }
    Ok(tasks)
}
