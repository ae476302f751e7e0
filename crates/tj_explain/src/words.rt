//! The words of the command line, and the status that belongs to them.
ghost use Rattle.std.specs.Prelude.{◌≡◌, String};
ghost use Rattle.std.specs.declared.alloc.Global.{Global};
ghost use Rattle.std.specs.declared.vec.Vec.{Vec};
ghost use Rattle.tj_command.specs.Delivery.{IsPutAs};
ghost use Rattle.tj_command.specs.declared.given.Given.{Given};
ghost use Rattle.tj_command.specs.declared.status.Status.{Status};
ghost use Rattle.tj_explain.specs.WhyAnswers.{IsWhyAnswer};
ghost use Rattle.tj_explain.specs.WhyOutput.{usage_line};

use crate::top_call::why_words;
use crate::usage::USAGE_LINE;
use std::alloc::Global;
use tj_command::{Given, Status, put_text};
use tj_ports::{Sink, Source};

/// Does what the command line says, and answers what the top call answers. Words that aren't text
/// have no form.
pub fn why_given<S: Source, K: Sink>(
    alloc: Global,
    given: Given,
    source: &mut S,
    sink: &mut K,
) -> Status
    // For arguments that are words it answers and does what `tj_explain::why_words` does for the same
    // words, clause by clause.
    ensures words { (words : Vec (String Global) Global) → given ≡ Given.Words words
        → IsWhyAnswer words.items (S.left source.old) (S.left source.new) (S.faults source.old)
        (S.faults source.new) (source.new ≡ source.old) (S.never_fails source.old)
        (S.never_fails source.new) (K.held sink.old) (K.held sink.new) (K.faults sink.old)
        (K.faults sink.new) (K.has_room sink.old) (sink.new ≡ sink.old) result }

    // Where a word isn't text, the source is as it was, and the usage line is put: whole with the
    // status Usage, or a part of it with a write fault.
    ensures not_text { given ≡ Given.NotText
        → (source.new ≡ source.old) × IsPutAs (K.has_room sink.old) Status.Usage usage_line
        (K.held sink.old) (K.held sink.new) (K.faults sink.old) (K.faults sink.new) result }

    // For want of memory before any word is read the status is Memory, and both ports are as they
    // were.
    ensures oom { given ≡ Given.Oom → (result ≡ Status.Memory) × (source.new ≡ source.old)
        × (sink.new ≡ sink.old) }
{
    match given {
        Given::Words(words) => why_words(alloc, words.as_slice(), source, sink),
        Given::NotText => put_text(sink, Status::Usage, USAGE_LINE),
        Given::Oom => Status::Memory,
    }
}
