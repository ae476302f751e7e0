//! The top call: from the words and the input to the text and the status.
//!
//! The words come first, then the whole input, then the text is made and put. So want of memory
//! comes only before the first byte is put.
ghost use Rattle.std.specs.Prelude.{ℕ, suc, ◌≡◌, ◌≢◌, ◌≤◌, List, Some, drop, length};
ghost use Rattle.std.specs.Io.KnownBytes.{Appends};
ghost use Rattle.tj_command.specs.Delivery.{HasText, IsAnsweredBy, IsPartOf, IsPutOf};
ghost use Rattle.tj_command.specs.Inputs.{IsReadOf};
ghost use Rattle.tj_command.specs.Limits.{AreLimits};
ghost use Rattle.tj_command.specs.declared.status.Status.{Status};
ghost use Rattle.tj_syntax.specs.ScriptTexts.{most_bytes};
ghost use Rattle.tj_ports.specs.Faults.{HasFault, HasNoFault, IsSound};
ghost use Rattle.tj_ports.specs.Reading.{IsWithin};
ghost use Rattle.tj_explain.specs.WhyLine.{HasNoForm};
ghost use Rattle.tj_explain.specs.WhyOutput.{HaveForm, IsCommandOutput, IsOutput, usage_line};

use crate::laws::one_output;
use crate::line::{WhyCommand, command_of};
use crate::told::told_of;
use crate::usage::USAGE_LINE;
use std::alloc::Global;
use tj_command::{Status, put_text};
use tj_lex::MAX_TEXT;
use tj_ports::{ReadEnd, ReadFault, Sink, Source, read_all};

/// Tells what went wrong with the script that the source has, as the words say. The status is that
/// of the script's outcome, and the text goes to the sink.
pub fn why_words<S: Source, K: Sink>(
    alloc: Global,
    words: &[String],
    source: &mut S,
    sink: &mut K,
) -> Status
    // Where what is read is told and the sink tells its bytes, and neither has a fault, the sink
    // grows by exactly the output and the status is its status, or the status is Memory and nothing
    // is written. The output of a script is what the stated text tells of the outcome of its
    // meaning, the trace and the positions; that of any other input is the line of its first fault,
    // the source line and a caret.
    ensures output { (input held : List ℕ) → (HaveForm words.now → S.left source.old ≡ Some input)
        → K.held sink.old ≡ Some held
        → (HaveForm words.now → HasNoFault (S.faults source.old) (S.faults source.new))
        → HasNoFault (K.faults sink.old) (K.faults sink.new)
        → IsAnsweredBy (IsOutput words.now input) held result (K.held sink.new) }

    // Where what is read is told, a status that belongs to a text comes only where that text is the
    // output and was put whole.
    ensures whole { (input : List ℕ) → (HaveForm words.now → S.left source.old ≡ Some input)
        → HasText result → (text : List ℕ) × IsOutput words.now input result text
        × Appends (K.held sink.old) (K.held sink.new) text }

    // Where what is read is told, and words and input have an output, a status that belongs to a
    // text is that of the output, whose text was put.
    ensures exact { (input text : List ℕ) (status : Status)
        → (HaveForm words.now → S.left source.old ≡ Some input)
        → IsOutput words.now input status text → HasText result
        → (result ≡ status) × Appends (K.held sink.old) (K.held sink.new) text }

    // With a status that belongs to a text, what was put is the text of an output of these words,
    // of this status, for some input, also where the source tells nothing.
    ensures cause { HasText result → (input : List ℕ) × (text : List ℕ)
        × IsOutput words.now input result text
        × Appends (K.held sink.old) (K.held sink.new) text }

    // With a status that belongs to a text, words with a form have taken the whole input, or one
    // byte more than a script may have.
    ensures taken { (input : List ℕ) → S.left source.old ≡ Some input → HaveForm words.now
        → HasText result
        → S.left source.new ≡ Some (drop (suc most_bytes) input) }

    // Usage comes only where the words have no form, and the usage line was put.
    ensures usage { result ≡ Status.Usage → HasNoForm words.now
        × Appends (K.held sink.old) (K.held sink.new) usage_line }
    // Where the words have no form, the source is as it was.
    ensures untouched { HasNoForm words.now → source.new ≡ source.old }
    // A read fault comes only where the words have a form and the source's count rose or stands at
    // its last value.
    ensures read_fault { result ≡ Status.ReadFault → HaveForm words.now
        × HasFault (S.faults source.old) (S.faults source.new) }
    // With a read fault, and with Memory, nothing is written.
    ensures unwritten { result ≡ Status.ReadFault → sink.new ≡ sink.old }
    // A write fault comes only where the sink's count rose or stands at its last value.
    ensures write_fault { result ≡ Status.WriteFault
        → HasFault (K.faults sink.old) (K.faults sink.new) }
    // With a write fault, where what is read is told, a part of the output was put, and not all. It
    // is a part of the output of these words for some input also where the source tells nothing.
    ensures part { result ≡ Status.WriteFault → (input : List ℕ)
        → (HaveForm words.now → S.left source.old ≡ Some input)
        → IsPartOf (IsOutput words.now input) (K.held sink.old) (K.held sink.new) }

    // Where the sink won't fail and has room for the output's text, and what is read is told, the
    // status is no write fault.
    ensures fits { (room : ℕ) (input text : List ℕ) (status : Status) → K.has_room sink.old room
        → (HaveForm words.now → S.left source.old ≡ Some input)
        → IsOutput words.now input status text → length text ≤ room
        → result ≢ Status.WriteFault }

    // The part put is one of the output of some input, also where the source tells nothing.
    ensures part_cause { result ≡ Status.WriteFault → (input : List ℕ)
        × IsPartOf (IsOutput words.now input) (K.held sink.old) (K.held sink.new) }
    ensures memory { result ≡ Status.Memory → sink.new ≡ sink.old }

    // A port that failed is told: so no other status, want of memory among them, hides a fault.
    // The counts of faults don't fall, and rise only with a read fault, or with a write fault.
    ensures source_counted { S.faults source.old ≤ S.faults source.new }
    ensures source_quiet { result ≢ Status.ReadFault
        → S.faults source.new ≡ S.faults source.old }
    ensures sink_counted { K.faults sink.old ≤ K.faults sink.new }
    ensures sink_quiet { result ≢ Status.WriteFault → K.faults sink.new ≡ K.faults sink.old }
    // A source that never fails gives no read fault, and is still such a source.
    ensures sound { S.never_fails source.old → (result ≢ Status.ReadFault)
        × IsSound (S.faults source.old) (S.faults source.new) (S.never_fails source.new) }
{
    one_output();
    let Some(command) = command_of(words) else {
        return put_text(sink, Status::Usage, USAGE_LINE);
    };
    match read_all(alloc, source, MAX_TEXT as u32) {
        Ok(input) => answer(alloc, command, &input, sink),
        Err(ReadFault::Failed) => Status::ReadFault,
        Err(ReadFault::Oom) => Status::Memory,
    }
}

// Puts what is told of an input.
fn answer<K: Sink>(alloc: Global, command: WhyCommand, input: &ReadEnd, sink: &mut K) -> Status
    requires limits { AreLimits command.limits }
    requires within { IsWithin most_bytes input.now }
    ensures output { result ≢ Status.Memory → (all : List ℕ) → IsReadOf all input.now
        → IsPutOf (IsCommandOutput command all) (K.has_room sink.old) (K.held sink.old)
        (K.held sink.new) (K.faults sink.old) (K.faults sink.new) result }
    ensures memory { result ≡ Status.Memory → sink.new ≡ sink.old }
    ensures write_fault { result ≡ Status.WriteFault
        → HasFault (K.faults sink.old) (K.faults sink.new) }
    ensures quiet { result ≢ Status.WriteFault → K.faults sink.new ≡ K.faults sink.old }
    ensures others { (result ≢ Status.Usage) × (result ≢ Status.ReadFault) }
    ensures counted { K.faults sink.old ≤ K.faults sink.new }
{
    match told_of(alloc, command, input) {
        Ok(output) => put_text(sink, output.status, output.text.as_slice()),
        Err(_out_of_memory) => Status::Memory,
    }
}
