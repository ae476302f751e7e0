//! What is told of an input: of a script what went wrong with its run, of any other text its fault.
ghost use Rattle.std.specs.Prelude.{ℕ, ◌≡◌, ◌≤◌, List, IfOk, length};
ghost use Rattle.tj_body.specs.Asks.{IsFresh};
ghost use Rattle.tj_body.specs.Rounds.{IsFull, meaning};
ghost use Rattle.tj_command.specs.Inputs.{IsReadOf};
ghost use Rattle.tj_command.specs.Limits.{AreLimits};
ghost use Rattle.tj_syntax.specs.ScriptTexts.{IsMemory, most_bytes};
ghost use Rattle.tj_eval.specs.Stands.{IsPlacedMain, PlacedState, StandsRight};
ghost use Rattle.tj_eval.specs.Stands.{placed_awaits, placed_left, placed_places};
ghost use Rattle.tj_mean.specs.Outcomes.{IsOutcome};
ghost use Rattle.tj_ports.specs.Reading.{IsWithin};
ghost use Rattle.tj_syntax.specs.Faults.{IsScript, kinds_of};
ghost use Rattle.tj_syntax.specs.View as view;
ghost use Rattle.tj_trace.specs.Ended.{IsTrace};
ghost use Rattle.tj_trace.specs.Logs.{logged_program};
ghost use Rattle.tj_trace.specs.TraceLaws.{script_program};
ghost use Rattle.tj_trace.specs.Traces.{AreTraced};
ghost use Rattle.tj_explain.specs.Tellings as tellings;
ghost use Rattle.tj_explain.specs.WhyOutput as outputs;
ghost use Rattle.tj_explain.specs.WhyOutput.{IsCommandOutput, IsToldRun};

use crate::line::WhyCommand;
use crate::parsed::parsed;
use crate::replies::{fault_told, fine_told, full_told};
use crate::telling::Telling;
use crate::why::why_text;
use std::alloc::Global;
use tj_base::Oom;
use tj_command::{Limits, Output, Status, status_of};
use tj_eval::{PlacedBody, Sizes, placed_main};
use tj_faults::lines_of;
use tj_findings::{Scene, statements_of};
use tj_lex::{Token, tokens};
use tj_mean::{Outcome, PlanFault, marked};
use tj_ports::ReadEnd;
use tj_syntax::{NoScript, Script, places, position_behind};
use tj_trace::{TraceLine, most_of_script, outcome_of_lines, trace};

/// What is told of an input, where this was read of it.
pub fn told_of(alloc: Global, command: WhyCommand, input: &ReadEnd) -> Result<Output, Oom>
    requires limits { AreLimits command.limits }
    requires within { IsWithin most_bytes input.now }
    ensures { IfOk result (λ output. (all : List ℕ) → IsReadOf all input.now
        → IsCommandOutput command all output.status output.text.items) }
{
    match input {
        ReadEnd::Whole(text) => told_of_text(alloc, command, text.items()),
        ReadEnd::Long(text) => {
            let at = position_behind(text.items());
            told_fault(
                alloc,
                command.telling,
                text.items(),
                &[],
                NoScript::Long(at),
            )
        }
    }
}

/// What is told of a text of at most 1,048,576 bytes, and the status of the script's outcome: of a
/// script what went wrong with its run and where, of any other text its first fault. An error comes
/// for want of memory.
pub fn told_of_text(alloc: Global, command: WhyCommand, text: &[u8]) -> Result<Output, Oom>
    // The limits of a run are those of a command line.
    requires limits { AreLimits command.limits }
    // A script has no more bytes.
    requires short { length text.now ≤ most_bytes }
    // It is the output of the command for this text.
    ensures { IfOk result (λ output.
        IsCommandOutput command text.now output.status output.text.items) }
{
    let found = match tokens(alloc, text) {
        Ok(found) => found,
        Err(fault) => return told_fault(alloc, command.telling, text, &[], NoScript::Tokens(fault)),
    };
    match parsed(alloc, text) {
        Ok(script) => told_script(alloc, command, text, found.as_slice(), &script),
        Err(fault) => told_fault(
            alloc,
            command.telling,
            text,
            found.as_slice(),
            NoScript::Grammar(fault),
        ),
    }
}

// The fault of a text with these tokens.
fn told_fault(
    alloc: Global,
    telling: Telling,
    text: &[u8],
    tokens: &[Token],
    fault: NoScript,
) -> Result<Output, Oom>
    ensures status { IfOk result (λ output. output.status ≡ Status.Script) }
    ensures text { IfOk result (λ output.
        output.text.items ≡ tellings.fault_told telling text.now tokens.now fault) }
    ensures none { IfOk result (λ _. ¬ IsMemory fault) }
{
    Ok(Output {
        status: Status::Script,
        text: fault_told(alloc, telling, text, tokens, fault)?,
    })
}

// What is told of the run of a script with this text and these tokens.
fn told_script(
    alloc: Global,
    command: WhyCommand,
    text: &[u8],
    tokens: &[Token],
    script: &Script,
) -> Result<Output, Oom>
    requires limits { AreLimits command.limits }
    requires script { IsScript (kinds_of tokens.now) (view.script script.now) }
    ensures { IfOk result (λ output. (root : PlacedState)
        × IsPlacedMain (view.script script.now) command.limits.steps root
        × IsToldRun command text.now (view.script script.now) tokens.now root output.status
        output.text.items) }
{
    let Limits {
        cells,
        steps,
        strict,
    } = command.limits;
    let sizes = Sizes::of(alloc, script)?;
    let root = placed_main(alloc, script, &sizes, steps)?;
    match trace(alloc, &root, cells, strict) {
        Ok(lines) => told_lines(alloc, command, text, tokens, script, lines.items()),
        Err(PlanFault::Full) => told_full(alloc, command, text, tokens, script, &root),
        Err(PlanFault::Oom) => Err(Oom),
    }
}

// What is told of the run with this root, which needs more cells than the limit.
fn told_full(
    alloc: Global,
    command: WhyCommand,
    text: &[u8],
    tokens: &[Token],
    script: &Script,
    root: &PlacedBody,
) -> Result<Output, Oom>
    requires limits { AreLimits command.limits }
    requires root { IsFresh placed_places placed_awaits placed_left 1 root.now }
    requires right { StandsRight root.now }
    requires script { root.now.task.script ≡ view.script script.now }
    requires full { IsFull (script_program command.limits.strict root.now) command.limits.cells }
    ensures { IfOk result (λ output. IsToldRun command text.now (view.script script.now) tokens.now
        root.now output.status output.text.items) }
{
    let Limits { cells, strict, .. } = command.limits;
    // There is a first round with more cells.
    let found = most_of_script(alloc, script, root, cells, strict)?;
    let Some(most) = found else {
        return Err(Oom);
    };
    let places = places(alloc, tokens)?;
    let statements = statements_of(alloc, script)?;
    let source = lines_of(alloc, text)?;
    let scene = Scene {
        alloc,
        script,
        statements: statements.as_slice(),
        places: &places,
        lines: source.as_slice(),
        short: command.short,
    };
    Ok(Output {
        status: Status::Full,
        text: full_told(&scene, command.telling, cells, most)?,
    })
}

// What is told of a run with this trace. Where nothing went wrong the lines are looked into for a
// picture alone.
fn told_lines(
    alloc: Global,
    command: WhyCommand,
    text: &[u8],
    tokens: &[Token],
    script: &Script,
    lines: &[TraceLine],
) -> Result<Output, Oom>
    requires { IsTrace lines.now }
    ensures { IfOk result (λ output. (root : PlacedState)
        → ¬ IsFull (script_program command.limits.strict root) command.limits.cells
        → AreTraced (logged_program command.limits.strict root) command.limits.cells lines.now
        → IsToldRun command text.now (view.script script.now) tokens.now root output.status
        output.text.items) }
{
    let outcome = outcome_of_lines(alloc, lines)?;
    if tells_lines(command.telling, marked(&outcome)) {
        told_traced(alloc, command, text, tokens, script, lines, &outcome)
    } else {
        told_fine(alloc, command.telling, &outcome)
    }
}

// Whether the lines of the trace are looked into.
fn tells_lines(telling: Telling, marked: bool) -> bool
    ensures { result ≡ outputs.tells_lines telling marked }
{
    match telling {
        Telling::Wrong | Telling::All | Telling::Json => marked,
        Telling::Dot => true,
    }
}

// What is told of a run in which nothing went wrong.
fn told_fine(alloc: Global, telling: Telling, outcome: &Outcome) -> Result<Output, Oom>
    ensures status { IfOk result (λ output. output.status ≡ Status.Clean) }
    ensures text { IfOk result (λ output.
        output.text.items ≡ tellings.fine_told telling (length outcome.now.lines)) }
{
    Ok(Output {
        status: Status::Clean,
        text: fine_told(alloc, telling, outcome.lines.items().len())?,
    })
}

// The same by the lines of its trace.
fn told_traced(
    alloc: Global,
    command: WhyCommand,
    text: &[u8],
    tokens: &[Token],
    script: &Script,
    lines: &[TraceLine],
    outcome: &Outcome,
) -> Result<Output, Oom>
    requires { IsTrace lines.now }
    ensures { IfOk result (λ output. (root : PlacedState)
        → ¬ IsFull (script_program command.limits.strict root) command.limits.cells
        → IsOutcome (meaning (script_program command.limits.strict root) command.limits.cells)
        outcome.now
        → AreTraced (logged_program command.limits.strict root) command.limits.cells lines.now
        → IsToldRun command text.now (view.script script.now) tokens.now root output.status
        output.text.items) }
{
    let places = places(alloc, tokens)?;
    let statements = statements_of(alloc, script)?;
    let source = lines_of(alloc, text)?;
    let scene = Scene {
        alloc,
        script,
        statements: statements.as_slice(),
        places: &places,
        lines: source.as_slice(),
        short: command.short,
    };
    Ok(Output {
        status: status_of(marked(outcome)),
        text: why_text(&scene, lines, outcome, command.telling)?,
    })
}
