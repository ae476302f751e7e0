//! The lines of a text, in a table that is made once.
ghost use Rattle.std.specs.Prelude.{◌≡◌, ◌<◌, IfNone, IfOk, IfSome, [], ◌∷◌, length, map};
ghost use Rattle.tj_faults.specs.Carets as spec;

use crate::caret::{caret_below, line_len};
use std::alloc::Global;
use tj_base::Oom;
use tj_lex::Place;

/// The first line of a text and what stands behind its line feed, where it has one.
#[tactic(auto, using(crate::proofs::SourceLines::first_of, crate::proofs::SourceLines::last_of))]
fn first_line(text: &[u8]) -> Option<(&[u8], &[u8])>
    ensures lines { IfSome result (λ p. spec.lines_of text.now ≡ p.0.now ∷ spec.lines_of p.1.now) }
    ensures less { IfSome result (λ p. length p.1.now < length text.now) }
    ensures last { IfNone result (spec.lines_of text.now ≡ text.now ∷ []) }
{
    let count = line_len(text);
    if count < text.len() {
        Some((&text[..count], &text[count + 1..]))
    } else {
        None
    }
}

/// The lines of a text, without their line feeds.
#[tactic(auto, using(crate::proofs::SourceLines::line_added, crate::proofs::SourceLines::lines_ended))]
pub fn lines_of(alloc: Global, text: &[u8]) -> Result<Vec<&[u8]>, Oom>
    ensures { IfOk result (λ lines. map (λ l. l.now) lines.items ≡ spec.lines_of text.now) }
{
    let mut lines = Vec::new(alloc);
    let mut rest = text;
    while let Some((line, behind)) = first_line(rest) {
        lines.push(line)?;
        rest = behind;
    }
    lines.push(rest)?;
    Ok(lines)
}

/// The one of these lines that has this number.
fn line_in<'t>(lines: &[&'t [u8]], number: u32) -> &'t [u8]
    ensures { result.now ≡ spec.line_in (map (λ l. l.now) lines.now) number }
{
    match lines.get(number.saturating_sub(1) as usize) {
        Some(line) => *line,
        None => b"",
    }
}

/// The one of these lines that has a position, and a caret below that position, where there is one.
pub fn caret_in(alloc: Global, lines: &[&[u8]], at: Option<Place>) -> Result<Vec<u8>, Oom>
    ensures { IfOk result (λ told. told.items ≡ spec.caret_in (map (λ l. l.now) lines.now) at) }
{
    match at {
        Some(at) => caret_below(alloc, line_in(lines, at.line), at.column),
        None => Ok(Vec::new(alloc)),
    }
}
