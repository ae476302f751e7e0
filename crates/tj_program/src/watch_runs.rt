//! Running a script over workers with a watch of the root beside them. What is written is what
//! became of the root, and the closed words of the table come with it.
ghost use Rattle.std.specs.Prelude.{ℕ, ◌<◌, ◌≤◌, false, List, IfOk};
ghost use Rattle.tj_future.specs.RootWatches.{IsRootWatched};
ghost use Rattle.tj_ports.specs.Reading.{IsWithin};
ghost use Rattle.tj_run.specs.Runs.{RestsAt};
ghost use Rattle.tj_program.specs.Inner.ClosedOutputs.{IsRunGiven, IsScriptGiven};
ghost use Rattle.tj_modes.specs.Inputs.{IsReadOf};
ghost use Rattle.tj_modes.specs.Runs.{Start, IsStartOf, script_program, start_of};
ghost use Rattle.tj_syntax.specs.ScriptTexts.{IsSomeScript};
ghost use Rattle.tj_command.specs.Limits.{AreLimits};
ghost use Rattle.tj_syntax.specs.ScriptTexts.{most_bytes};
ghost use Rattle.tj_syntax.specs.View as view;

use crate::crew::Crew;
use crate::output::{ClosedOutput, refused_alone, unrested};
use crate::watch_lines::watch_line;
use std::alloc::Global;
use std::sync::Wait;
use std::thread::Threads;
use tj_base::Oom;
use tj_command::{Output, script_of, status_of};
use tj_eval::{ScriptBody, main_body};
use tj_future::{Watched, run_watched};
use tj_mean::marked;
use tj_modes::Told;
use tj_ports::{Gate, ReadEnd};
use tj_ready::NewestFirstPool;
use tj_report::outcome_of;
use tj_syntax::Script;
use tj_words::RestWords;

impl<G: Gate, R: Wait + Threads + Sync> Crew<'_, G, R> {
    /// What became of the root in a run of the script that the input is, with a watch of it, or the
    /// line of the script's fault.
    pub fn watch(&self, input: &ReadEnd, cells: u32, steps: u32) -> Result<ClosedOutput, Oom>
        requires limits { AreLimits (record { cells = cells; steps = steps; strict = false }) }
        requires workers { (0 < self.now.count) × (self.now.count ≤ 64) }
        requires within { IsWithin most_bytes input.now }
        ensures { IfOk result (λ given. (all : List ℕ) → IsReadOf all input.now
            → IsScriptGiven Told.Root (record { cells = cells; steps = steps; strict = false }) all
            given.output.status given.output.text.items given.closed) }
    {
        match script_of(self.alloc, input) {
            Ok(script) => self.watch_script(&script, cells, steps),
            Err(fault) => refused_alone(self.alloc, fault),
        }
    }

    /// A run of the script with a watch of its root, or that it is full.
    fn watch_script(&self, script: &Script, cells: u32, steps: u32) -> Result<ClosedOutput, Oom>
        requires limits { AreLimits (record { cells = cells; steps = steps; strict = false }) }
        requires workers { (0 < self.now.count) × (self.now.count ≤ 64) }
        requires script { IsSomeScript (view.script script.now) }
        ensures { IfOk result (λ given. (start : Start)
            × IsStartOf (record { cells = cells; steps = steps; strict = false })
            (view.script script.now) start
            × IsRunGiven Told.Root start given.output.status given.output.text.items given.closed) }
    {
        let root = main_body(self.alloc, script, steps)?;
        match run_watched::<ScriptBody<'_>, NewestFirstPool, G, R>(
            self.rt, self.alloc, root, cells, self.count, self.gate,
        ) {
            Ok((watched, rest)) => watched_at_rest(self.alloc, watched, rest),
            Err(fault) => unrested(self.alloc, fault, cells),
        }
    }
}

/// The root's line of a table at rest of which this was told, and the table's closed words.
fn watched_at_rest(
    alloc: Global,
    watched: Watched,
    rest: RestWords<ScriptBody<'_>>,
) -> Result<ClosedOutput, Oom>
    requires rest { RestsAt script_program rest.root rest.limit rest.strict rest }
    requires watched { IsRootWatched rest.records watched }
    ensures { IfOk result (λ given. IsRunGiven Told.Root
        (start_of rest.entry.strict rest.entry.limit rest.entry.root)
        given.output.status given.output.text.items given.closed) }
{
    let outcome = outcome_of(alloc, &rest)?;
    let text = watch_line(alloc, watched, &outcome)?;
    let status = status_of(marked(&outcome));
    Ok(ClosedOutput {
        output: Output { status, text },
        closed: Some(rest.into_closed_at_end()),
    })
}
