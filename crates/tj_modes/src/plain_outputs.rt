//! What each mode without workers gives. It has no handle for waiting or for threads, so what it gives
//! comes back.
ghost use Rattle.std.specs.Prelude.{ℕ, ◌≡◌, ◌⊎◌, false, List, IfOk};
ghost use Rattle.tj_command.specs.Limits.{AreLimits};
ghost use Rattle.tj_command.specs.ScriptTexts as script_texts;
ghost use Rattle.tj_ports.specs.Reading.{IsWithin};
ghost use Rattle.tj_syntax.specs.ScriptTexts.{IsMemory, most_bytes};
ghost use Rattle.tj_modes.specs.CommandLine.{HasLimits};
ghost use Rattle.tj_modes.specs.Inputs.{HasRead, IsReadOf};
ghost use Rattle.tj_modes.specs.Output.{IsCommandOutput, IsListed, IsRefused, IsStartOfText};
ghost use Rattle.tj_modes.specs.Output.{has_workers};
ghost use Rattle.tj_modes.specs.Runs.{Start, IsRunOf};

use crate::command::Command;
use crate::judging::judging_of;
use crate::known_run::joins_of;
use crate::script_run::{Told, run_by_rounds};
use std::alloc::Global;
use tj_base::Oom;
use tj_command::{Limits, Output, Status, fault_line, script_of};
use tj_ports::ReadEnd;
use tj_syntax::{NoScript, list_text};

/// What a command without workers gives, where it has read this of its input.
pub fn output_of(alloc: Global, command: Command, input: &ReadEnd) -> Result<Output, Oom>
    requires alone { has_workers command ≡ false }
    requires limits { HasLimits command }
    requires within { IsWithin most_bytes input.now }
    // What a mode without workers gives is the output of its command for every input of which this
    // was read.
    ensures { IfOk result (λ output. (all : List ℕ) → HasRead command all input.now
        → IsCommandOutput command all output.status output.text.items) }
{
    match command {
        Command::Plan {
            cells,
            steps,
            strict,
        } => report(
            alloc,
            input,
            Limits {
                cells,
                steps,
                strict,
            },
        ),
        Command::List => listing(alloc, input),
        Command::Judge { cells } => judging_of(alloc, input, cells),
        Command::Known { cells, steps } => joins_of(alloc, input, cells, steps),
        Command::Run { .. } | Command::Gen { .. } | Command::Relay { .. } | Command::Watch { .. } =>
            unreachable!(),
    }
}

/// The report of the script that the input is, by one thread, or the line of its fault.
fn report(alloc: Global, input: &ReadEnd, limits: Limits) -> Result<Output, Oom>
    requires limits { AreLimits limits }
    requires within { IsWithin most_bytes input.now }
    ensures { IfOk result (λ output. (all : List ℕ) → IsReadOf all input.now
        → IsRefused all output.status output.text.items ⊎ ((start : Start)
        × IsStartOfText limits all start
        × IsRunOf Told.Report start output.status output.text.items)) }
{
    match script_of(alloc, input) {
        Ok(script) => run_by_rounds(alloc, &script, limits),
        Err(fault) => refused(alloc, fault),
    }
}

/// The canonical listing of the script that the input is, or the line of its fault.
fn listing(alloc: Global, input: &ReadEnd) -> Result<Output, Oom>
    requires within { IsWithin most_bytes input.now }
    ensures { IfOk result (λ output. (all : List ℕ) → IsReadOf all input.now
        → IsRefused all output.status output.text.items
        ⊎ IsListed all output.status output.text.items) }
{
    match script_of(alloc, input) {
        Ok(script) => Ok(Output {
            status: Status::Clean,
            text: list_text(alloc, &script)?,
        }),
        Err(fault) => refused(alloc, fault),
    }
}

/// The line of the fault.
pub fn refused(alloc: Global, fault: NoScript) -> Result<Output, Oom>
    // Of a script that is refused the status is Script and the text is the line of its fault, and
    // there is none for want of memory.
    ensures status { IfOk result (λ output. output.status ≡ Status.Script) }
    ensures text { IfOk result (λ output.
        output.text.items ≡ script_texts.fault_line fault) }
    ensures none { IfOk result (λ _. ¬ IsMemory fault) }
{
    Ok(Output {
        status: Status::Script,
        text: fault_line(alloc, fault)?,
    })
}
