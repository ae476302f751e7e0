//! The lines that are written in place of a report: why an input is refused, or that it needs more
//! cells.
ghost use Rattle.std.specs.Prelude.{◌≡◌, ◌++◌, IfOk, decimal};
ghost use Rattle.tj_syntax.specs.ScriptTexts.{IsMemory};
ghost use Rattle.tj_command.specs.ScriptTexts as script_texts;
ghost use Rattle.tj_command.specs.Texts as texts;

use std::alloc::Global;
use tj_base::{Oom, add_count};
use tj_lex::{LexFault, Place};
use tj_syntax::{NoScript, ParseFault};

/// The line of a script's fault. Want of memory has none.
pub fn fault_line(alloc: Global, fault: NoScript) -> Result<Vec<u8>, Oom>
    // The line of a fault is the stated one, and there is none for want of memory.
    ensures line { IfOk result (λ line. line.items ≡ script_texts.fault_line fault) }
    ensures none { IfOk result (λ _. ¬ IsMemory fault) }
{
    match fault {
        NoScript::Long(at) => script_fault(alloc, b"T1", at),
        NoScript::Tokens(LexFault::Byte(at)) => script_fault(alloc, b"L1", at),
        NoScript::Tokens(LexFault::Number(at)) => script_fault(alloc, b"L2", at),
        NoScript::Tokens(LexFault::Long(at)) => script_fault(alloc, b"L3", at),
        NoScript::Grammar(ParseFault::Expected(at)) => script_fault(alloc, b"P1", at),
        NoScript::Grammar(ParseFault::Unknown(at)) => script_fault(alloc, b"P2", at),
        NoScript::Grammar(ParseFault::Twice(at)) => script_fault(alloc, b"P3", at),
        NoScript::Grammar(ParseFault::Count(at)) => script_fault(alloc, b"P4", at),
        NoScript::Grammar(ParseFault::NoMain(at)) => script_fault(alloc, b"P5", at),
        NoScript::Grammar(ParseFault::MainParams(at)) => script_fault(alloc, b"P6", at),
        NoScript::Grammar(ParseFault::Deep(at)) => script_fault(alloc, b"P7", at),
        NoScript::Grammar(ParseFault::Many(at)) => script_fault(alloc, b"P8", at),
        NoScript::Tokens(LexFault::Oom) | NoScript::Grammar(ParseFault::Oom) => Err(Oom),
    }
}

/// The line of a fault of a script, which has a letter and a number.
fn script_fault(alloc: Global, mark: &[u8], at: Place) -> Result<Vec<u8>, Oom>
    ensures { IfOk result (λ line. line.items ≡ texts.script_fault mark.now at) }
{
    let mut line = Vec::from_slice(alloc, b"script fault ")?;
    line.extend_from_slice(mark)?;
    add_count(&mut line, b" at ", at.line as u128)?;
    add_count(&mut line, b":", at.column as u128)?;
    line.extend_from_slice(b"\n")?;
    Ok(line)
}

/// The line of a script that needs more than these cells.
pub fn full_line(alloc: Global, cells: u32) -> Result<Vec<u8>, Oom>
    // The line of a run that needs more cells is the stated one.
    ensures { IfOk result (λ line. line.items ≡ texts.full_line cells) }
{
    count_text(alloc, b"full: more than ", cells as u128, b" cells\n")
}

/// A number between two texts.
pub fn count_text(alloc: Global, before: &[u8], count: u128, after: &[u8]) -> Result<Vec<u8>, Oom>
    // The text is the bytes in front, the number in decimal, and the bytes behind.
    ensures { IfOk result (λ text. text.items ≡ before.now ++ decimal count ++ after.now) }
{
    let mut text = Vec::new(alloc);
    add_count(&mut text, before, count)?;
    text.extend_from_slice(after)?;
    Ok(text)
}
