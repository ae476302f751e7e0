//! A body of one's own, run by workers.
ghost use Rattle.std.specs.Prelude.{◌≡◌, IfOk, IfErr};
ghost use Rattle.tj_body.specs.Programs.{program_of};
ghost use Rattle.tj_body.specs.Rounds.{IsFull, meaning};
ghost use Rattle.tj_body.specs.Asks.{IsFresh};
ghost use Rattle.tj_embed.specs.Limits.{AreLimits};
ghost use Rattle.tj_embed.specs.Reports.{IsReportOfMeaning};
ghost use Rattle.tj_mean.specs.Outcomes.{IsOutcome};
ghost use Rattle.tj_run.specs.Runs.{RestsAt};
ghost use Rattle.tj_words.specs.AtRest.RestMeaning.{HaveMeaning};
ghost use Rattle.tj_words.specs.AtRest.RestValues.{AreValuesOfMeaning};

use crate::options::Options;
use std::alloc::Global;
use std::sync::Wait;
use std::thread::Threads;
use tj_body::Body;
use tj_mean::Outcome;
use tj_report::{RestReport, outcome_of, report_at_rest};
use tj_run::RunFault;
use tj_words::RestWords;

/// Runs a root and all that it forks by as many workers as the options say, and answers what became
/// of each task. `steps` of the options is for scripts alone. That the call returns isn't proved.
pub fn run_outcome<B: Body, R: Wait + Threads + Sync>(
    rt: &R,
    alloc: Global,
    root: B,
    options: Options,
) -> Result<Outcome, RunFault>
    requires limits { AreLimits options }
    requires root { IsFresh B.places B.awaits B.left 1 root }
    // Of a body of one's own, whose root is fresh, the outcome is that of the meaning.
    ensures outcome { let p = program_of B.places B.awaits B.left B.asks B.then options.strict root
        in IfOk result (IsOutcome (meaning p options.cells)) }

    // Where there is an outcome, the meaning isn't full, and Full comes only where it is.
    ensures fits { let p = program_of B.places B.awaits B.left B.asks B.then options.strict root
        in IfOk result (λ _. ¬ IsFull p options.cells) }
    ensures full { let p = program_of B.places B.awaits B.left B.asks B.then options.strict root
        in IfErr result (λ fault. fault ≡ RunFault.Full → IsFull p options.cells) }
{
    let rest = options.run(rt, alloc, root)?;
    let outcome = outcome_of(alloc, &rest)?;
    Ok(outcome)
}

/// The same for a program that wants the report alone: it is written straight off the table, without
/// an outcome.
pub fn run_report<B: Body, R: Wait + Threads + Sync>(
    rt: &R,
    alloc: Global,
    root: B,
    options: Options,
) -> Result<RestReport, RunFault>
    requires limits { AreLimits options }
    requires root { IsFresh B.places B.awaits B.left 1 root }
    // The text is the report, line by line, of an outcome of the meaning of the root, and is marked
    // where that is.
    ensures report { let p = program_of B.places B.awaits B.left B.asks B.then options.strict root
        in IfOk result (IsReportOfMeaning p options.cells) }

    // Where there is a report, the meaning isn't full, and Full comes only where it is.
    ensures fits { let p = program_of B.places B.awaits B.left B.asks B.then options.strict root
        in IfOk result (λ _. ¬ IsFull p options.cells) }
    ensures full { let p = program_of B.places B.awaits B.left B.asks B.then options.strict root
        in IfErr result (λ fault. fault ≡ RunFault.Full → IsFull p options.cells) }
{
    let table = options.run(rt, alloc, root)?;
    let report = report_at_rest(alloc, &table)?;
    Ok(report)
}

/// The same for a program that reads the table at rest: of what this gives, `outcome_of`,
/// `report_at_rest` and `value_named` of tj_report tell the outcome, the report and the value of a
/// promise by its name.
pub fn run_to_rest<B: Body, R: Wait + Threads + Sync>(
    rt: &R,
    alloc: Global,
    root: B,
    options: Options,
) -> Result<RestWords<B>, RunFault>
    requires limits { AreLimits options }
    requires root { IsFresh B.places B.awaits B.left 1 root }
    // The words, the records and the values are those of the meaning of the root, at rest; each
    // cycle of waits has a member that has alarmed, and each task that has alarmed is on one.
    ensures rest { IfOk result (RestsAt
        (program_of B.places B.awaits B.left B.asks B.then) root options.cells options.strict) }
    // So they are, by the names of the table itself: the words and the records,
    ensures meaning { IfOk result (λ r. HaveMeaning (program_of B.places B.awaits B.left B.asks
        B.then r.strict r.root) r.limit r.cells r.records) }
    // and the values.
    ensures values { IfOk result (λ r. AreValuesOfMeaning (program_of B.places B.awaits B.left
        B.asks B.then r.strict r.root) r.limit r.cells r.words) }

    // Where the run comes to rest, the meaning isn't full, and Full comes only where it is.
    ensures fits { let p = program_of B.places B.awaits B.left B.asks B.then options.strict root
        in IfOk result (λ _. ¬ IsFull p options.cells) }
    ensures full { let p = program_of B.places B.awaits B.left B.asks B.then options.strict root
        in IfErr result (λ fault. fault ≡ RunFault.Full → IsFull p options.cells) }
{
    let at_rest = options.run(rt, alloc, root)?;
    Ok(at_rest)
}
