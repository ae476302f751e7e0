//! What each mode gives. A mode that runs tasks over workers has the handle for waiting and for
//! threads; the others have none, and what they give comes back.
ghost use Rattle.std.specs.Prelude.{ℕ, List, IfOk};
ghost use Rattle.tj_ports.specs.Reading.{IsWithin};
ghost use Rattle.tj_syntax.specs.ScriptTexts.{most_bytes};
ghost use Rattle.tj_modes.specs.CommandLine.{HasLimits};
ghost use Rattle.tj_modes.specs.Inputs.{HasRead};
ghost use Rattle.tj_program.specs.Inner.ClosedOutputs.{IsGiven};

use crate::crew::Crew;
use crate::output::ClosedOutput;
use std::alloc::Global;
use std::sync::Wait;
use std::thread::Threads;
use tj_base::Oom;
use tj_command::Limits;
use tj_modes::{Command, output_of};
use tj_ports::{Gate, ReadEnd};

/// What a command gives, where it has read this of its input.
pub fn given_by<G: Gate, R: Wait + Threads + Sync>(
    rt: &R,
    alloc: Global,
    command: Command,
    input: &ReadEnd,
    gate: &G,
) -> Result<ClosedOutput, Oom>
    requires limits { HasLimits command }
    requires within { IsWithin most_bytes input.now }
    ensures { IfOk result (λ given. (all : List ℕ) → HasRead command all input.now
        → IsGiven command all given.output.status given.output.text.items given.closed) }
{
    match command {
        Command::Run {
            workers,
            cells,
            steps,
            strict,
        } => {
            let limits = Limits {
                cells,
                steps,
                strict,
            };
            Crew::new(rt, alloc, workers, gate).report(input, limits)
        }
        Command::Gen {
            size,
            workers,
            cells,
            steps,
        } => {
            let limits = Limits {
                cells,
                steps,
                strict: false,
            };
            Crew::new(rt, alloc, workers, gate).summary(size, limits)
        }
        Command::Relay {
            size,
            workers,
            cells,
        } => Crew::new(rt, alloc, workers, gate).relay(size, cells),
        Command::Watch {
            workers,
            cells,
            steps,
        } => Crew::new(rt, alloc, workers, gate).watch(input, cells, steps),
        Command::Plan { .. } | Command::List | Command::Judge { .. } | Command::Known { .. } => Ok(
            ClosedOutput {
                output: output_of(alloc, command, input)?,
                closed: None,
            },
        ),
    }
}
