//! The first fault of a text that is no script, as an object of JSON.
ghost use Rattle.std.specs.Prelude.{◌≡◌, ◌++◌, IfOk};
ghost use Rattle.std.specs.List.{flat_map};
ghost use Rattle.tj_syntax.specs.ScriptTexts.{IsMemory, position_of};
ghost use Rattle.tj_faults.specs.FaultJson as spec;
ghost use Rattle.tj_faults.specs.Objects as objects;
ghost use Rattle.tj_faults.specs.Spots.{found_text};

use crate::fault_words::fault_words;
use crate::objects::{begin_object, quoted};
use crate::texts::{joined, place_text};
use std::alloc::Global;
use tj_base::Oom;
use tj_lex::{LexFault, Place, Token};
use tj_syntax::{NoScript, ParseFault};

/// A text in which a quote and a backslash stand behind a backslash.
fn escaped(alloc: Global, text: &[u8]) -> Result<Vec<u8>, Oom>
    ensures { IfOk result (λ json. json.items ≡ flat_map objects.escaped text.now) }
{
    let mut json = Vec::new(alloc);
    for byte in text {
        add_escaped(&mut json, *byte)?;
    }
    Ok(json)
}

/// One byte more.
fn add_escaped(json: &mut Vec<u8>, byte: u8) -> Result<(), Oom>
    ensures { IfOk result (λ _. json.new.items ≡ json.old.items ++ objects.escaped byte) }
{
    if byte == b'"' || byte == b'\\' {
        json.extend_from_slice(&[b'\\', byte])?;
    } else {
        json.push(byte)?;
    }
    Ok(())
}

/// The letter and the number of a fault of the tokens.
fn token_code(fault: LexFault) -> &'static [u8]
    ensures { result.now ≡ spec.token_code fault }
{
    match fault {
        LexFault::Byte(_) => b"L1",
        LexFault::Number(_) => b"L2",
        LexFault::Long(_) => b"L3",
        LexFault::Oom => b"",
    }
}

/// Those of a fault of the grammar.
fn grammar_code(fault: ParseFault) -> &'static [u8]
    ensures { result.now ≡ spec.grammar_code fault }
{
    match fault {
        ParseFault::Expected(_) => b"P1",
        ParseFault::Unknown(_) => b"P2",
        ParseFault::Twice(_) => b"P3",
        ParseFault::Count(_) => b"P4",
        ParseFault::NoMain(_) => b"P5",
        ParseFault::MainParams(_) => b"P6",
        ParseFault::Deep(_) => b"P7",
        ParseFault::Many(_) => b"P8",
        ParseFault::Oom => b"",
    }
}

/// Those of a fault.
fn fault_code(fault: NoScript) -> &'static [u8]
    ensures { result.now ≡ spec.fault_code fault }
{
    match fault {
        NoScript::Long(_) => b"T1",
        NoScript::Tokens(fault) => token_code(fault),
        NoScript::Grammar(fault) => grammar_code(fault),
    }
}

/// The position of a fault. Want of memory has none, and ends here.
fn fault_spot(alloc: Global, fault: NoScript) -> Result<Vec<u8>, Oom>
    ensures text { IfOk result (λ text. text.items ≡ found_text (position_of fault)) }
    ensures none { IfOk result (λ _. ¬ IsMemory fault) }
{
    match fault {
        NoScript::Tokens(LexFault::Oom) | NoScript::Grammar(ParseFault::Oom) => Err(Oom),
        _ => spot_there(alloc, fault.position()),
    }
}

/// A position, if there is one.
fn spot_there(alloc: Global, place: Option<Place>) -> Result<Vec<u8>, Oom>
    ensures { IfOk result (λ text. text.items ≡ found_text place) }
{
    match place {
        Some(place) => place_text(alloc, place),
        None => Ok(Vec::from_slice(alloc, b"?")?),
    }
}

/// What is told of a text with this fault and these tokens. Want of memory has none.
pub fn fault_json(
    alloc: Global,
    text: &[u8],
    tokens: &[Token],
    fault: NoScript,
) -> Result<Vec<u8>, Oom>
    // The object has the fault's letter and number, its position, and the words that `told_fault_text` has.
    ensures text { IfOk result (λ json.
        json.items ≡ spec.fault_json text.now tokens.now fault) }
    // Want of memory is no fault of the text: nothing is told of it.
    ensures none { IfOk result (λ _. ¬ IsMemory fault) }
{
    let at = fault_spot(alloc, fault)?;
    let at = quoted(alloc, at.as_slice())?;
    let begin = begin_object(alloc, b"fault")?;
    let code = quoted(alloc, fault_code(fault))?;
    let words = fault_words(alloc, text, tokens, fault)?;
    let words = escaped(alloc, words.as_slice())?;
    let words = quoted(alloc, words.as_slice())?;
    joined(
        alloc,
        &[
            begin.as_slice(),
            b",\"fault\":",
            code.as_slice(),
            b",\"at\":",
            at.as_slice(),
            b",\"words\":",
            words.as_slice(),
            b"}\n",
        ],
    )
}
