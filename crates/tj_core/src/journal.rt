//! Journals: a recorded run as text, one event a line. A line is the event's own word and then the
//! cells that it names, with one space between words.
ghost use Rattle.std.specs.Prelude.{◌≡◌, ℕ, ◌∷◌, ◌<◌, ◌≤◌, ◌==◌, not, length, IfOk, IfErr, IsErrAnd, IfSome, IfNone};
ghost use Rattle.std.specs.List.{prefix_len};
ghost use Rattle.tj_core.specs.Journals.Lines.{lines_of, words_of, AreEventLines, IsEventLine, IsFirstFault, OrMemory, HasSmallCells, Names};

use crate::line::event_of;
use std::alloc::{AllocError, Global};
use tj_events::Event;

/// The most bytes of a journal that is read.
pub const MAX_JOURNAL: usize = 1_048_576;

/// Why a text is no journal.
#[derive(Clone, Copy, Debug, PartialEq, Eq)]
pub enum JournalFault {
    /// The first line, counted from 1, that isn't one of an event.
    Line(u32),
    /// Memory could not be had.
    Oom,
}

/// The events of a journal, each on the line of its own number.
// Its error has out of memory as a variant, so that one enum tells a line's fault and that.
pub fn read_journal(alloc: Global, bytes: &[u8]) -> Result<Vec<Event>, JournalFault>
    requires { length bytes.now ≤ MAX_JOURNAL }
    // The events of `Ok` are those whose lines the journal has, one by one.
    ensures ok { IfOk result (λ events. AreEventLines (lines_of bytes.now) events.items) }
    // `Line(n)` comes only where line n is the first that is no event's.
    ensures line { IfErr result (OrMemory (IsFirstFault (lines_of bytes.now))) }

    // A journal with such a line is refused for it, or the answer is want of memory.
    ensures only_line { (n : ℕ) → IsFirstFault (lines_of bytes.now) n
        → IsErrAnd result (OrMemory (λ m. m ≡ n)) }
{
    read(alloc, bytes)
}

fn read(alloc: Global, bytes: &[u8]) -> Result<Vec<Event>, JournalFault>
    requires { length bytes.now ≤ MAX_JOURNAL }
    ensures ok { IfOk result (λ events. AreEventLines (lines_of bytes.now) events.items) }
    ensures line { IfErr result (OrMemory (IsFirstFault (lines_of bytes.now))) }
{
    let mut events = Vec::new(alloc);
    let mut rest = bytes;
    while !rest.is_empty() {
        let (line, after) = cut_line(rest);
        let Ok(found) = line_event(alloc, line) else {
            return Err(JournalFault::Oom);
        };
        let Some(event) = found else {
            return Err(JournalFault::Line(events.len() as u32 + 1));
        };
        let Ok(()) = events.push(event) else {
            return Err(JournalFault::Oom);
        };
        rest = after;
    }
    Ok(events)
}

/// The first line of a text, and what stands behind it.
fn cut_line(text: &[u8]) -> (&[u8], &[u8])
    requires { 0 < length text.now }
    ensures lines { lines_of text.now ≡ result.0.now ∷ lines_of result.1.now }
    ensures shorter { length result.1.now < length text.now }
{
    let len = line_len(text);
    if len < text.len() {
        (&text[..len], &text[len + 1..])
    } else {
        (text, &[])
    }
}

/// How many bytes stand before the first line feed, or all where there is none.
fn line_len(text: &[u8]) -> usize
    ensures len { result ≡ prefix_len (λ b. not (b == 10)) text.now }
    ensures within { result ≤ length text.now }
{
    text.iter().take_while(|byte| **byte != b'\n').count()
}

/// The event of a line.
fn line_event(alloc: Global, line: &[u8]) -> Result<Option<Event>, AllocError>
    ensures found { IfOk result (λ found. IfSome found (λ e.
        HasSmallCells e × Names (words_of line.now) e)) }
    ensures none { IfOk result (λ found. IfNone found (¬ IsEventLine line.now)) }
{
    let words: Vec<&[u8]> = line.split(|b| *b == b' ').collect(alloc)?;
    Ok(event_of(words.as_slice()))
}
