//! The top call: from the words and the input to the text and the status.
//!
//! The words come first, then the whole input, then the text is made and put. So want of memory
//! comes only before the first byte is put. Where tasks are run over workers, the closed words of
//! the table that they leave at rest are answered beside the status.
ghost use Rattle.std.specs.Prelude.{ℕ, suc, true, false, ◌≡◌, ◌≢◌, ◌≤◌, ◌↔◌, List, Some, IfOk, IfSome, IsSome, OnOk, drop, length};
ghost use Rattle.std.specs.Io.KnownBytes.{Appends};
ghost use Rattle.tj_ports.specs.Faults.{HasFault, HasNoFault, IsSound};
ghost use Rattle.tj_ports.specs.Reading.{IsWithin};
ghost use Rattle.tj_program.specs.ClosedRuns.{HasOutcome, HaveWorkers, IsClosedRun, IsClosedRunOf};
ghost use Rattle.tj_modes.specs.CommandLine.{HasLimits, HasNoForm, IsCommand};
ghost use Rattle.tj_modes.specs.StrictRuns.{StrictRunsNeverWait};
ghost use Rattle.tj_modes.specs.declared.command.Command.{Command};
ghost use Rattle.tj_command.specs.declared.status.Status.{Status};
ghost use Rattle.tj_syntax.specs.ScriptTexts.{most_bytes};
ghost use Rattle.tj_modes.specs.Texts.{usage_line};
ghost use Rattle.tj_program.specs.Inner.ClosedOutputs.{AreWith, IsPutWith};
ghost use Rattle.tj_modes.specs.Inputs.{HasRead};
ghost use Rattle.tj_modes.specs.KnownRuns.{KnownJoinsOfMeaningAreAlong};
ghost use Rattle.tj_modes.specs.Output.{IsOutput, IsStart, TakesInput, takes_input};
ghost use Rattle.tj_modes.specs.Runs.{Start};
ghost use Rattle.tj_modes.specs.Delivery.{HasText, IsAnswerPut, IsAnswered, IsOutputPart};

use crate::mode_outputs::given_by;
use crate::output::ClosedOutput;
use std::alloc::Global;
use std::sync::Wait;
use std::thread::Threads;
use tj_base::ByteList;
use tj_command::{Status, put_text};
use tj_lex::MAX_TEXT;
use tj_modes::{
    Command, USAGE_LINE, command_of, known_joins_are_along, one_output, strict_runs_never_wait,
};
use tj_ports::{Gate, ReadEnd, ReadFault, Sink, Source, put_all, read_all};
use tj_words::Closed;

/// Does what the words say. The status names the outcome, and the text goes to the sink. With the
/// outcome of a run over workers come the closed words of its table.
pub fn run_words<S: Source, K: Sink, G: Gate, R: Wait + Threads + Sync>(
    rt: &R,
    alloc: Global,
    words: &[String],
    source: &mut S,
    sink: &mut K,
    gate: &G,
) -> (Status, Option<Closed>)
    // Where what is read is told and the sink tells its bytes, and neither has a fault, the sink
    // grows by exactly the output and the status is its status, or the status is Memory and nothing
    // is written. Neither the number of workers nor the gate has a part in the output. Of `relay`
    // the output is by channels as lists, and names no promise.
    ensures output { (input held : List ℕ) → (TakesInput words.now → S.left source.old ≡ Some input)
        → K.held sink.old ≡ Some held
        → (TakesInput words.now → HasNoFault (S.faults source.old) (S.faults source.new))
        → HasNoFault (K.faults sink.old) (K.faults sink.new)
        → IsAnswered words.now input held result.0 (K.held sink.new) }

    // Where what is read is told, a status that belongs to a text comes only where that text is the
    // output and was put whole.
    ensures whole { (input : List ℕ) → (TakesInput words.now → S.left source.old ≡ Some input)
        → HasText result.0 → (text : List ℕ) × IsOutput words.now input result.0 text
        × Appends (K.held sink.old) (K.held sink.new) text }

    // Where what is read is told, and words and input have an output, a status that belongs to a
    // text is that of the output, whose text was put.
    ensures exact { (input text : List ℕ) (status : Status)
        → (TakesInput words.now → S.left source.old ≡ Some input)
        → IsOutput words.now input status text → HasText result.0
        → (result.0 ≡ status) × Appends (K.held sink.old) (K.held sink.new) text }

    // With a status that belongs to a text, what was put is the text of an output of these words,
    // of this status, for some input, also where the source tells nothing.
    ensures cause { HasText result.0 → (input : List ℕ) × (text : List ℕ)
        × IsOutput words.now input result.0 text
        × Appends (K.held sink.old) (K.held sink.new) text }

    // With a status that belongs to a text, a mode that reads has taken the whole input, or one
    // byte more than a script may have.
    ensures taken { (input : List ℕ) → S.left source.old ≡ Some input → TakesInput words.now
        → HasText result.0
        → S.left source.new ≡ Some (drop (suc most_bytes) input) }

    // Usage comes only where the words have no form, and the usage line was put.
    ensures usage { result.0 ≡ Status.Usage → HasNoForm words.now
        × Appends (K.held sink.old) (K.held sink.new) usage_line }
    // Where nothing is read, the source is as it was.
    ensures untouched { (TakesInput words.now → ⊥) → source.new ≡ source.old }
    // A read fault comes only in a mode that reads, where the source's count rose or stands at its
    // last value.
    ensures read_fault { result.0 ≡ Status.ReadFault → TakesInput words.now
        × HasFault (S.faults source.old) (S.faults source.new) }
    // With a read fault nothing is written.
    ensures unwritten { result.0 ≡ Status.ReadFault → sink.new ≡ sink.old }
    // A write fault comes only where the sink's count rose or stands at its last value.
    ensures write_fault { result.0 ≡ Status.WriteFault
        → HasFault (K.faults sink.old) (K.faults sink.new) }
    // With a write fault, where what is read is told, a part of the output was put, and not all.
    ensures part { result.0 ≡ Status.WriteFault → (input : List ℕ)
        → (TakesInput words.now → S.left source.old ≡ Some input)
        → IsOutputPart words.now input (K.held sink.old) (K.held sink.new) }

    // Where the sink won't fail and has room for the output's text, and what is read is told, the
    // status is no write fault.
    ensures fits { (room : ℕ) (input text : List ℕ) (status : Status) → K.has_room sink.old room
        → (TakesInput words.now → S.left source.old ≡ Some input)
        → IsOutput words.now input status text → length text ≤ room
        → result.0 ≢ Status.WriteFault }

    // With a write fault a part of the output of these words for some input was put, and not all,
    // also where the source tells nothing.
    ensures part_cause { result.0 ≡ Status.WriteFault → (input : List ℕ)
        × IsOutputPart words.now input (K.held sink.old) (K.held sink.new) }
    // With Memory nothing is written.
    ensures memory { result.0 ≡ Status.Memory → sink.new ≡ sink.old }

    // With `--strict` in `run` or `plan`, where the input's tokens are a script and have no keyword
    // `get`, no outcome of its run has a cycle or a task that waits.
    ensures never_waits { (command : Command) (input : List ℕ) → IsCommand words.now command
        → StrictRunsNeverWait command input }

    // With `known`, where the meaning isn't full, each join that is told as known is along the fork
    // order.
    ensures known_is_along { (cells steps : ℕ) (input : List ℕ)
        → IsCommand words.now (Command.Known cells steps) → (start : Start)
        → IsStart (Command.Known cells steps) input start → KnownJoinsOfMeaningAreAlong start }

    // A port that failed is told: so no other status, want of memory among them, hides a fault.
    // The source's count of faults doesn't fall.
    ensures source_counted { S.faults source.old ≤ S.faults source.new }
    // The source's count rises only with a read fault.
    ensures source_quiet { result.0 ≢ Status.ReadFault
        → S.faults source.new ≡ S.faults source.old }
    // The sink's count of faults doesn't fall.
    ensures sink_counted { K.faults sink.old ≤ K.faults sink.new }
    // The sink's count rises only with a write fault.
    ensures sink_quiet { result.0 ≢ Status.WriteFault → K.faults sink.new ≡ K.faults sink.old }
    // A source that never fails gives no read fault, and is still such a source.
    ensures sound { S.never_fails source.old → (result.0 ≢ Status.ReadFault)
        × IsSound (S.faults source.old) (S.faults source.new) (S.never_fails source.new) }

    // Closed words are answered exactly where the status is Clean or Marked and the words are a
    // command of `run`, `gen`, `relay` or `watch`.
    ensures closed_with { IsSome result.1 ↔ (HasOutcome result.0 × HaveWorkers words.now) }

    // Where what is read is told, closed words, status and text are of one run, that of the root,
    // rule and limit which the words and the input name (in `relay`, of the body that
    // `tj_chan::ChanBody::new` makes of the relay's root), and its text was put whole. The run
    // isn't full. The text and the status are those of its outcome. The words are the end of a run of
    // a table for this root, rule and limit, from its first state; they are at rest, and are those of
    // its meaning: its cells by name, each once, TAG by each entry, and each history by phase and
    // owners. Each cycle of the outcome, and each cycle of the words, has a member that
    // has alarmed, and each task that has alarmed is on a cycle.
    ensures closed { (input : List ℕ) → (TakesInput words.now → S.left source.old ≡ Some input)
        → IfSome result.1 (IsClosedRunOf words.now input (K.held sink.old) (K.held sink.new)
        result.0) }

    // The same of these words and some input, also where the source tells nothing.
    ensures closed_cause { IfSome result.1 (λ closed. (input : List ℕ)
        × IsClosedRunOf words.now input (K.held sink.old) (K.held sink.new) result.0 closed) }
{
    one_output();
    strict_runs_never_wait();
    known_joins_are_along();
    let command = match command_of(alloc, words) {
        Ok(Some(command)) => command,
        Ok(None) => return (put_text(sink, Status::Usage, USAGE_LINE), None),
        Err(_out_of_memory) => return (Status::Memory, None),
    };
    match input_of(alloc, command, source) {
        Ok(input) => answer(rt, alloc, command, &input, sink, gate),
        Err(ReadFault::Failed) => (Status::ReadFault, None),
        Err(ReadFault::Oom) => (Status::Memory, None),
    }
}

// What a command takes of its input: all of it, or nothing.
fn input_of<S: Source>(
    alloc: Global,
    command: Command,
    source: &mut S,
) -> Result<ReadEnd, ReadFault>
    ensures read { (all : List ℕ) → S.left source.old ≡ Some all
        → IfOk result (HasRead command all) }
    ensures within { IfOk result (IsWithin most_bytes) }
    ensures taken { takes_input command ≡ true → (all : List ℕ) → S.left source.old ≡ Some all
        → OnOk result (S.left source.new ≡ Some (drop (suc most_bytes) all)) }
    ensures untouched { takes_input command ≡ false → source.new ≡ source.old }
    ensures failed { result ≡ Err ReadFault.Failed → (takes_input command ≡ true)
        × HasFault (S.faults source.old) (S.faults source.new) }
    ensures quiet { result ≢ Err ReadFault.Failed → S.faults source.new ≡ S.faults source.old }
    ensures counted { S.faults source.old ≤ S.faults source.new }
    ensures sound { S.never_fails source.old → (result ≢ Err ReadFault.Failed)
        × IsSound (S.faults source.old) (S.faults source.new) (S.never_fails source.new) }
{
    if let Command::Gen { .. } | Command::Relay { .. } = command {
        return Ok(ReadEnd::Whole(ByteList::of(Vec::new(alloc))));
    }
    read_all(alloc, source, MAX_TEXT as u32)
}

// Puts what a command gives for its input.
fn answer<K: Sink, G: Gate, R: Wait + Threads + Sync>(
    rt: &R,
    alloc: Global,
    command: Command,
    input: &ReadEnd,
    sink: &mut K,
    gate: &G,
) -> (Status, Option<Closed>)
    requires limits { HasLimits command }
    requires within { IsWithin most_bytes input.now }
    ensures output { result.0 ≢ Status.Memory → (all : List ℕ) → HasRead command all input.now
        → IsAnswerPut (K.has_room sink.old) command all (K.held sink.old) (K.held sink.new)
        (K.faults sink.old) (K.faults sink.new) result.0 }
    ensures closed_with { AreWith command result.0 result.1 }
    ensures closed { (all : List ℕ) → HasRead command all input.now
        → IfSome result.1 (IsClosedRun command all (K.held sink.old) (K.held sink.new) result.0) }
    ensures memory { result.0 ≡ Status.Memory → sink.new ≡ sink.old }
    ensures write_fault { result.0 ≡ Status.WriteFault
        → HasFault (K.faults sink.old) (K.faults sink.new) }
    ensures quiet { result.0 ≢ Status.WriteFault → K.faults sink.new ≡ K.faults sink.old }
    ensures others { (result.0 ≢ Status.Usage) × (result.0 ≢ Status.ReadFault) }
    ensures counted { K.faults sink.old ≤ K.faults sink.new }
{
    match given_by(rt, alloc, command, input, gate) {
        Ok(given) => put_given(sink, given),
        Err(_out_of_memory) => (Status::Memory, None),
    }
}

// Puts what a command gave. Its closed words are answered where its text was put whole.
fn put_given<K: Sink>(sink: &mut K, given: ClosedOutput) -> (Status, Option<Closed>)
    ensures put { IsPutWith (K.has_room sink.old) given.output.status given.output.text.items
        given.closed (K.held sink.old) (K.held sink.new) (K.faults sink.old) (K.faults sink.new)
        result.0 result.1 }
    ensures quiet { result.0 ≢ Status.WriteFault → K.faults sink.new ≡ K.faults sink.old }
    ensures counted { K.faults sink.old ≤ K.faults sink.new }
{
    let ClosedOutput { output, closed } = given;
    match put_all(sink, output.text.as_slice()) {
        Ok(()) => (output.status, closed),
        Err(_failed) => (Status::WriteFault, None),
    }
}
