//! The words of the command line, and the status that belongs to them.
ghost use Rattle.std.specs.Prelude.{◌≡◌, None, String};
ghost use Rattle.tj_modes.specs.Delivery.{IsPutAs};
ghost use Rattle.tj_modes.specs.Texts.{usage_line};
ghost use Rattle.tj_program.specs.TopAnswers.{IsTopAnswer};
ghost use Rattle.std.specs.declared.vec.Vec.{Vec};
ghost use Rattle.std.specs.declared.alloc.Global.{Global};

use crate::top_call::run_words;
use std::alloc::Global;
use std::sync::Wait;
use std::thread::Threads;
use tj_command::{Given, Status, put_text};
use tj_modes::USAGE_LINE;
use tj_ports::{Gate, Sink, Source};
use tj_words::Closed;

/// Does what the command line says, and answers what the top call answers. Words that aren't text
/// have no form.
pub fn run_given<S: Source, K: Sink, G: Gate, R: Wait + Threads + Sync>(
    rt: &R,
    alloc: Global,
    given: Given,
    source: &mut S,
    sink: &mut K,
    gate: &G,
) -> (Status, Option<Closed>)
    // For arguments that are words it answers and does what `tj_program::run_words` does for the
    // same words, clause by clause. So what the clauses of `run_words` say without told bytes also
    // holds of it over the system's ports, which tell nothing.
    ensures words { (words : Vec (String Global) Global) → given ≡ Given.Words words
        → IsTopAnswer words.items (S.left source.old) (S.left source.new) (S.faults source.old)
        (S.faults source.new) (source.new ≡ source.old) (S.never_fails source.old)
        (S.never_fails source.new) (K.held sink.old) (K.held sink.new) (K.faults sink.old)
        (K.faults sink.new) (K.has_room sink.old) (sink.new ≡ sink.old) result.0 result.1 }

    // Where a word isn't text, the source is as it was, no closed words are answered, and the usage
    // line is put: whole with the status Usage, or a part of it with a write fault.
    ensures not_text { given ≡ Given.NotText
        → (source.new ≡ source.old) × (result.1 ≡ None) × IsPutAs (K.has_room sink.old) Status.Usage
        usage_line (K.held sink.old) (K.held sink.new) (K.faults sink.old) (K.faults sink.new) result.0 }

    // For want of memory before any word is read the status is Memory, without closed words, and
    // both ports are as they were.
    ensures oom { given ≡ Given.Oom → (result ≡ (Status.Memory, None)) × (source.new ≡ source.old)
        × (sink.new ≡ sink.old) }
{
    match given {
        Given::Words(words) => run_words(rt, alloc, words.as_slice(), source, sink, gate),
        Given::NotText => (put_text(sink, Status::Usage, USAGE_LINE), None),
        Given::Oom => (Status::Memory, None),
    }
}
