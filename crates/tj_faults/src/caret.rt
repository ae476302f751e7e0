//! Where a text that is no script has its fault: the line that `tj` writes, the source line, and a
//! caret below.
ghost use Rattle.std.specs.Prelude.{◌≡◌, ◌≤◌, IfOk, length, map, take};
ghost use Rattle.std.specs.List.{prefix_len};
ghost use Rattle.tj_syntax.specs.ScriptTexts.{IsMemory};
ghost use Rattle.tj_lex.specs.Bytes.{stays_on_line};
ghost use Rattle.tj_faults.specs.Carets as spec;

use crate::texts::joined;
use std::alloc::Global;
use tj_base::Oom;
use tj_command::fault_line;
use tj_lex::Place;
use tj_syntax::NoScript;

/// A text from its next line on.
fn next_line(text: &[u8]) -> &[u8]
    ensures { result.now ≡ spec.next_line text.now }
{
    let mut rest = text;
    while let [byte, more @ ..] = rest {
        rest = more;
        if *byte == b'\n' {
            return rest;
        }
    }
    rest
}

/// A text from behind so many lines on.
#[tactic(auto, using(crate::proofs::LinesMore::one_line))]
fn behind_lines(text: &[u8], count: usize) -> &[u8]
    ensures { result.now ≡ spec.behind_lines count text.now }
{
    let mut rest = text;
    let mut left = count;
    while left > 0 {
        rest = next_line(rest);
        left -= 1;
    }
    rest
}

/// How many bytes stand in front of the first line feed.
pub fn line_len(text: &[u8]) -> usize
    ensures count { result ≡ prefix_len stays_on_line text.now }
    ensures bound { result ≤ length text.now }
{
    text.iter().take_while(|byte| **byte != b'\n').count()
}

/// The first bytes of a line, or all of them.
pub fn front(line: &[u8], count: usize) -> &[u8]
    ensures { result.now ≡ take count line.now }
{
    if count <= line.len() {
        line.split_at(count).0
    } else {
        line
    }
}

/// The line of a text that has this number.
#[tactic(auto, using(crate::proofs::SourceLines::line_is))]
pub fn line_at(text: &[u8], number: u32) -> &[u8]
    ensures { result.now ≡ spec.line_at number text.now }
{
    let rest = behind_lines(text, number.saturating_sub(1) as usize);
    front(rest, line_len(rest))
}

/// What stands below a byte in front of the caret.
fn below(byte: u8) -> u8
    ensures { result ≡ spec.below byte }
{
    if byte == b'\t' { b'\t' } else { b' ' }
}

/// What stands below these bytes.
fn blanks(alloc: Global, front: &[u8]) -> Result<Vec<u8>, Oom>
    ensures { IfOk result (λ text. text.items ≡ map spec.below front.now) }
{
    let mut text = Vec::new(alloc);
    for byte in front {
        text.push(below(*byte))?;
    }
    Ok(text)
}

/// A line, and a caret below this column.
pub fn caret_below(alloc: Global, line: &[u8], column: u32) -> Result<Vec<u8>, Oom>
    ensures { IfOk result (λ told. told.items ≡ spec.caret_below line.now column) }
{
    let blanks = blanks(alloc, front(line, column.saturating_sub(1) as usize))?;
    joined(alloc, &[line, b"\n", blanks.as_slice(), b"^\n"])
}

/// The line of a text that has a position, and a caret below that position, where there is one.
fn caret_at(alloc: Global, text: &[u8], at: Option<Place>) -> Result<Vec<u8>, Oom>
    ensures { IfOk result (λ told. told.items ≡ spec.caret_in (spec.lines_of text.now) at) }
{
    match at {
        Some(at) => caret_below(alloc, line_at(text, at.line), at.column),
        None => Ok(Vec::new(alloc)),
    }
}

/// What is told of a text with this fault. Want of memory has none.
pub fn fault_text(alloc: Global, text: &[u8], fault: NoScript) -> Result<Vec<u8>, Oom>
    ensures text { IfOk result (λ told. told.items ≡ spec.fault_text text.now fault) }
    ensures none { IfOk result (λ _. ¬ IsMemory fault) }
{
    let caret = caret_at(alloc, text, fault.position())?;
    let mut told = fault_line(alloc, fault)?;
    told.extend_from_slice(caret.as_slice())?;
    Ok(told)
}
