//! Running a script over workers. What is written is told from the table that they leave at rest,
//! and the closed words of that table come with it.
ghost use Rattle.std.specs.Prelude.{ℕ, ◌<◌, ◌≤◌, List, IfOk};
ghost use Rattle.tj_gen.specs.declared.script.TheConstants.{MAX_SIZE};
ghost use Rattle.tj_base.specs.declared.cell.TheConstants.{MAX_CELLS};
ghost use Rattle.tj_body.specs.Asks.{IsFresh};
ghost use Rattle.tj_body.specs.Programs.{program_of};
ghost use Rattle.tj_gen.specs.Script.{script_text};
ghost use Rattle.tj_ports.specs.Reading.{IsWithin};
ghost use Rattle.tj_run.specs.Runs.{RestsAt};
ghost use Rattle.tj_program.specs.Inner.ClosedOutputs.{IsRunGiven, IsScriptGiven};
ghost use Rattle.tj_modes.specs.Inputs.{IsReadOf};
ghost use Rattle.tj_modes.specs.Output.{IsStartOfText};
ghost use Rattle.tj_modes.specs.Runs.{Start, IsStartOf, started};
ghost use Rattle.tj_syntax.specs.ScriptTexts.{IsSomeScript};
ghost use Rattle.tj_command.specs.Limits.{AreLimits};
ghost use Rattle.tj_syntax.specs.ScriptTexts.{most_bytes};
ghost use Rattle.tj_syntax.specs.View as view;

use crate::crew::Crew;
use crate::output::{ClosedOutput, refused_alone, unrested};
use std::alloc::Global;
use std::sync::Wait;
use std::thread::Threads;
use tj_base::Oom;
use tj_body::Body;
use tj_command::{Limits, Output, script_of, status_of};
use tj_eval::main_body;
use tj_gen::gen_script;
use tj_modes::{Told, ended, generated_text_is_a_script};
use tj_ports::{Gate, ReadEnd};
use tj_ready::NewestFirstPool;
use tj_report::{outcome_of, report_at_rest};
use tj_run::run_all;
use tj_syntax::{Script, script_in};
use tj_words::RestWords;

impl<G: Gate, R: Wait + Threads + Sync> Crew<'_, G, R> {
    /// The report of a run of the script that the input is, or the line of its fault.
    pub fn report(&self, input: &ReadEnd, limits: Limits) -> Result<ClosedOutput, Oom>
        requires limits { AreLimits limits }
        requires workers { (0 < self.now.count) × (self.now.count ≤ 64) }
        requires within { IsWithin most_bytes input.now }
        ensures { IfOk result (λ given. (all : List ℕ) → IsReadOf all input.now
            → IsScriptGiven Told.Report limits all given.output.status given.output.text.items
            given.closed) }
    {
        match script_of(self.alloc, input) {
            Ok(script) => self.run(&script, limits, Told::Report),
            Err(fault) => refused_alone(self.alloc, fault),
        }
    }

    /// The summary of a run of the generated script of this size.
    pub fn summary(&self, size: u32, limits: Limits) -> Result<ClosedOutput, Oom>
        requires size { (0 < size) × (size ≤ MAX_SIZE) }
        requires limits { AreLimits limits }
        requires workers { (0 < self.now.count) × (self.now.count ≤ 64) }
        ensures { IfOk result (λ given. (start : Start)
            × IsStartOfText limits (script_text size) start
            × IsRunGiven (Told.Summary size) start given.output.status given.output.text.items
            given.closed) }
    {
        generated_text_is_a_script();
        let text = gen_script(self.alloc, size)?;
        match script_in(self.alloc, text.as_slice()) {
            Ok(script) => self.run(&script, limits, Told::Summary(size)),
            // The generated text has no fault, so this is want of memory.
            Err(fault) => refused_alone(self.alloc, fault),
        }
    }

    /// A run of the script, as it is told, or that it is full.
    fn run(&self, script: &Script, limits: Limits, told: Told) -> Result<ClosedOutput, Oom>
        requires limits { AreLimits limits }
        requires workers { (0 < self.now.count) × (self.now.count ≤ 64) }
        requires script { IsSomeScript (view.script script.now) }
        ensures { IfOk result (λ given. (start : Start)
            × IsStartOf limits (view.script script.now) start
            × IsRunGiven told start given.output.status given.output.text.items given.closed) }
    {
        let root = main_body(self.alloc, script, limits.steps)?;
        self.run_body(root, limits.cells, limits.strict, told)
    }

    /// A run of what this root begins, as it is told, or that it is full.
    pub fn run_body<B: Body>(
        &self,
        root: B,
        cells: u32,
        strict: bool,
        told: Told,
    ) -> Result<ClosedOutput, Oom>
        requires cells { (0 < cells) × (cells ≤ MAX_CELLS) }
        requires workers { (0 < self.now.count) × (self.now.count ≤ 64) }
        requires root { IsFresh B.places B.awaits B.left 1 root }
        ensures { IfOk result (λ given. IsRunGiven told
            (started (program_of B.places B.awaits B.left B.asks B.then) strict cells root)
            given.output.status given.output.text.items given.closed) }
    {
        match run_all::<B, NewestFirstPool, G, R>(
            self.rt, self.alloc, root, cells, self.count, self.gate, strict,
        ) {
            Ok(rest) => ended_at_rest(self.alloc, rest, told),
            Err(fault) => unrested(self.alloc, fault, cells),
        }
    }
}

/// The outcome of a table at rest, as it is told, and the table's closed words.
pub fn ended_at_rest<B: Body>(
    alloc: Global,
    rest: RestWords<B>,
    told: Told,
) -> Result<ClosedOutput, Oom>
    requires { RestsAt (program_of B.places B.awaits B.left B.asks B.then) rest.root rest.limit
        rest.strict rest }
    ensures { IfOk result (λ given. IsRunGiven told
        (started (program_of B.places B.awaits B.left B.asks B.then) rest.strict rest.limit
        rest.root)
        given.output.status given.output.text.items given.closed) }
{
    if let Told::Report = told {
        return reported_at_rest(alloc, rest);
    }
    let outcome = outcome_of(alloc, &rest)?;
    let output = ended(alloc, told, &outcome)?;
    Ok(ClosedOutput {
        output,
        closed: Some(rest.into_closed_at_end()),
    })
}

/// The report of a table at rest, and the table's closed words.
fn reported_at_rest<B: Body>(alloc: Global, rest: RestWords<B>) -> Result<ClosedOutput, Oom>
    requires { RestsAt (program_of B.places B.awaits B.left B.asks B.then) rest.root rest.limit
        rest.strict rest }
    ensures { IfOk result (λ given. IsRunGiven Told.Report
        (started (program_of B.places B.awaits B.left B.asks B.then) rest.strict rest.limit
        rest.root)
        given.output.status given.output.text.items given.closed) }
{
    let report = report_at_rest(alloc, &rest)?;
    let output = Output {
        status: status_of(report.marked),
        text: report.text,
    };
    Ok(ClosedOutput {
        output,
        closed: Some(rest.into_closed_at_end()),
    })
}
