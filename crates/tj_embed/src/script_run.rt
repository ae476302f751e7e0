//! A script run by workers, and the same on one thread.
ghost use Rattle.std.specs.Prelude.{◌≡◌, IfOk, IfErr};
ghost use Rattle.tj_body.specs.Rounds.{IsFull};
ghost use Rattle.tj_embed.specs.Limits.{AreLimits};
ghost use Rattle.tj_embed.specs.ScriptRuns.{IsOutcomeOfRun, IsOutcomeOfScript, IsReportOfRun, IsRunOf, NeedsMore};
ghost use Rattle.tj_embed.specs.ScriptRuns.{script_program};
ghost use Rattle.tj_syntax.specs.ScriptTexts.{IsSomeScript};
ghost use Rattle.tj_mean.specs.declared.outcome.Outcome.{Outcome};
ghost use Rattle.tj_mean.specs.Outcomes.{is_marked};
ghost use Rattle.tj_syntax.specs.View as shown;
ghost use Rattle.tj_report.specs.ClosedOutcomes.{AreCyclesOfOutcomeAlarmed};
ghost use Rattle.tj_report.specs.NamedValues.{IsOfName};
ghost use Rattle.tj_run.specs.Runs.{AreEndOfRun};
ghost use Rattle.tj_words.specs.AtRest.ClosedCells.{AreAtRest, AreCyclesAlarmed, AreAlarmsOnCycles};
ghost use Rattle.tj_words.specs.AtRest.RestMeaning.{HaveWords};

use crate::options::Options;
use std::alloc::Global;
use std::marker::Model;
use std::sync::Wait;
use std::thread::Threads;
use tj_base::{Name, Oom};
use tj_eval::{ScriptBody, main_body};
use tj_mean::{Outcome, PlanFault, plan};
use tj_report::{Became, outcome_of, report_at_rest, value_named};
use tj_run::RunFault;
use tj_syntax::Script;
use tj_words::{Closed, RestWords};

/// A script that workers have run until nothing went on any more.
#[derive(Drop)]
pub struct ScriptRun<'s> {
    rest: RestWords<ScriptBody<'s>>,
}

impl<'s> Model for ScriptRun<'s> {
    ghost use Rattle.tj_embed.specs.ScriptRuns.{script_program};
    ghost use Rattle.tj_eval.specs.Statements.{TaskState};
    ghost use Rattle.tj_run.specs.Runs.{RestsAt};
    ghost use Rattle.tj_words.specs.AtRest.RestShown.{RestShown};
    ghost use Rattle.std.specs.Coded.{codes};
    ghost use Rattle.tj_eval.specs.Inner.Codes.{expression_code, statement_code, statements_code};

    ghost Value = { RestShown TaskState };

    ghost coded = { Prim.hlevel (codes, expression_code, statement_code, statements_code) };

    ghost view = { λ run. run.rest };

    ghost invariant = { λ run. RestsAt script_program run.rest.root run.rest.limit run.rest.strict
        run.rest };
}

/// Runs the script by as many workers as the options say, over one table. A worker runs in a thread
/// of its own where one can be made. That the call returns isn't proved.
pub fn run_script<'s, R: Wait + Threads + Sync>(
    rt: &R,
    alloc: Global,
    script: &'s Script,
    options: Options,
) -> Result<ScriptRun<'s>, RunFault>
    requires limits { AreLimits options }
    requires script { IsSomeScript (shown.script script.now) }
    // A run of a script began with the body of its `main`, the given limit of cells and the given
    // rule.
    ensures run { IfOk result (IsRunOf (shown.script script.now) options) }

    // Where there is a run, its meaning isn't full, and Full comes only where the script needs more
    // cells.
    ensures fits { IfOk result (λ run. ¬ IsFull (script_program run.strict run.root) run.limit) }
    ensures full { IfErr result (λ fault. fault ≡ RunFault.Full
        → NeedsMore (shown.script script.now) options) }
{
    let root = main_body(alloc, script, options.steps)?;
    let rest = options.run(rt, alloc, root)?;
    Ok(ScriptRun { rest })
}

/// The outcome of the script on one thread: that of any run over workers.
pub fn plan_script(alloc: Global, script: &Script, options: Options) -> Result<Outcome, PlanFault>
    requires limits { AreLimits options }
    requires script { IsSomeScript (shown.script script.now) }
    // On one thread the outcome is that of the meaning of the script with these options. Full comes
    // only where the script needs more cells.
    ensures outcome { IfOk result (IsOutcomeOfScript (shown.script script.now) options) }
    ensures full { IfErr result (λ fault. fault ≡ PlanFault.Full
        → NeedsMore (shown.script script.now) options) }
{
    let root = main_body(alloc, script, options.steps)?;
    plan(alloc, &root, options.cells, options.strict)
}

impl<'s> ScriptRun<'s> {
    /// What became of each task, and each cycle of waits.
    pub fn outcome(&self, alloc: Global) -> Result<Outcome, Oom>
        // The outcome of a run is that of the meaning of what it began with.
        ensures { IfOk result (IsOutcomeOfRun self.now) }
    {
        outcome_of(alloc, &self.rest)
    }

    /// The report of the outcome, as `tj run` writes it.
    pub fn report(&self, alloc: Global) -> Result<Vec<u8>, Oom>
        // The report of a run is that of such an outcome.
        ensures { IfOk result (λ text. IsReportOfRun self.now text.items) }
    {
        Ok(report_at_rest(alloc, &self.rest)?.text)
    }

    /// Whether a task failed, owes or waits.
    pub fn is_marked(&self, alloc: Global) -> Result<bool, Oom>
        // A run is marked where such an outcome is.
        ensures { IfOk result (λ is. (outcome : Outcome) × IsOutcomeOfRun self.now outcome
            × (is ≡ is_marked outcome)) }
    {
        Ok(report_at_rest(alloc, &self.rest)?.marked)
    }

    /// What became of the cell with this name, a promise or the result of a task, and None where the
    /// run has no such cell.
    pub fn value(&self, alloc: Global, name: &Name) -> Result<Option<Became>, Oom>
        // It is what the meaning of what the run began with has for the cell of that name, and None
        // comes exactly where the meaning has no such cell.
        ensures { IfOk result (IsOfName (script_program self.now.strict self.now.root)
            self.now.limit name.now) }
    {
        let became = value_named(alloc, &self.rest, name)?;
        Ok(became)
    }

    /// What the words of the table show of its cells, at rest: each cycle of waits has a member that
    /// has alarmed, and each task that has alarmed is on one.
    pub fn into_closed(self) -> Closed
        // The closed words of a run are those of its table, at rest. Each cycle of waits has a
        // member that has alarmed, and each task that has alarmed is on one.
        ensures words { result ≡ self.entry.cells }
        ensures rest { AreAtRest result }
        ensures cycles { AreCyclesAlarmed result }
        ensures alarms { AreAlarmsOnCycles result }
        // They are the words of the meaning of what the run began with, which isn't full: its
        // cells, each once, what has become of each, and where each task's history stops.
        ensures meaning { HaveWords (script_program self.entry.strict self.entry.root)
            self.entry.limit result }
        // They are the end of a run of a table for it from its first state.
        ensures run { AreEndOfRun script_program self.entry.root self.entry.limit self.entry.strict
            result }
        // And each cycle of the run's outcome has a member that has alarmed.
        ensures alarmed { (outcome : Outcome) → IsOutcomeOfRun self.entry outcome
            → AreCyclesOfOutcomeAlarmed result outcome }
    {
        self.rest.into_closed()
    }
}
