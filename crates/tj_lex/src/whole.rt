//! The tokens of a text, each with its position and the bytes of its name.
ghost use Rattle.std.specs.Prelude.{◌≡◌, ◌+◌, ◌<◌, ◌≤◌, All, List, length, IfOk, IfErr, IsErrAnd, MatchResult};
ghost use Rattle.tj_lex.specs.declared.token.LexFault.{LexFault};
ghost use Rattle.tj_lex.specs.declared.token.Token.{Token};
ghost use Rattle.tj_lex.specs.Inner.Shorts.{AreInOrder};
ghost use Rattle.tj_lex.specs.Inner.Spots.{IsSpot};
ghost use Rattle.tj_lex.specs.Shorts.{IsIn, what_of, whole_tokens};
ghost use Rattle.tj_lex.specs.Tokens.{AreTokens, IsFirstFault, OrMemory};

use crate::bytes::MAX_TEXT;
use crate::gap::Spot;
use crate::shorts::{Seen, Short, short_tokens};
use crate::token::{LexFault, Tok, Token};
use crate::word::Word;
use std::alloc::{AllocError, Global};

/// The tokens of a text in their order, and the end last, or the first fault.
pub fn tokens(alloc: Global, text: &[u8]) -> Result<Vec<Token>, LexFault>
    requires { length text.now ≤ MAX_TEXT }
    // `Ok` holds the tokens of the text, each with its position and its span, and the end last.
    ensures ok { IfOk result (λ found. AreTokens text.now found.items) }
    // A fault is the first of the text, of that kind and at that position, or the answer is want of
    // memory.
    ensures fault { IfErr result (OrMemory (IsFirstFault text.now)) }

    // A text that has tokens gives them, or the answer is want of memory.
    ensures only_tokens { (all : List Token) → AreTokens text.now all
        → MatchResult result (λ found. found.items ≡ all) (λ fault. fault ≡ LexFault.Oom) }
    // A text that has a first fault gives it, or the answer is want of memory.
    ensures only_fault { (first : LexFault) → IsFirstFault text.now first
        → IsErrAnd result (OrMemory (λ fault. fault ≡ first)) }
{
    read(alloc, text)
}

fn read(alloc: Global, text: &[u8]) -> Result<Vec<Token>, LexFault>
    requires { length text.now ≤ MAX_TEXT }
    ensures ok { IfOk result (λ found. AreTokens text.now found.items) }
    ensures fault { IfErr result (OrMemory (IsFirstFault text.now)) }
{
    let shorts = short_tokens(alloc, text)?;
    match placed(alloc, text, shorts.as_slice()) {
        Ok(found) => Ok(found),
        Err(_) => Err(LexFault::Oom),
    }
}

/// The tokens that short ones stand for, which begin in their order.
fn placed(alloc: Global, text: &[u8], shorts: &[Short]) -> Result<Vec<Token>, AllocError>
    requires short { length text.now ≤ MAX_TEXT }
    requires within { All (IsIn text.now) shorts.now }
    requires order { AreInOrder 0 shorts.now }
    ensures { IfOk result (λ found. found.items ≡ whole_tokens text.now shorts.now) }
{
    let mut found = Vec::new(alloc);
    let mut spot = Spot::start();
    for short in shorts {
        spot = spot_at(text, spot, short.from as usize);
        let what = tok_in(alloc, text, *short)?;
        found.push(Token {
            what,
            at: spot.at,
            from: short.from,
            to: short.to,
        })?;
    }
    Ok(found)
}

/// What a short token is, with a copy of the bytes of its name.
fn tok_in(alloc: Global, text: &[u8], short: Short) -> Result<Tok, AllocError>
    requires { IsIn text.now short }
    ensures { IfOk result (λ what. what ≡ what_of text.now short) }
{
    Ok(match short.seen(text) {
        Seen::Name(bytes) => Tok::Name(Word::copied(alloc, bytes)?),
        Seen::Num(value) => Tok::Num(value),
        Seen::Key(key) => Tok::Key(key),
        Seen::Mark(mark) => Tok::Mark(mark),
        Seen::End => Tok::End,
    })
}

/// The spot at an index that doesn't stand in front of a spot.
fn spot_at(text: &[u8], from: Spot, index: usize) -> Spot
    requires short { length text.now ≤ MAX_TEXT }
    requires spot { IsSpot text.now from }
    requires order { from.next ≤ index }
    requires within { index ≤ length text.now }
    ensures spot { IsSpot text.now result }
    ensures next { result.next ≡ index }
{
    let mut spot = from;
    'bytes: while spot.next < index {
        spot = behind_byte(text, spot);
    }
    spot
}

/// The spot behind one byte.
fn behind_byte(text: &[u8], spot: Spot) -> Spot
    requires short { length text.now ≤ MAX_TEXT }
    requires spot { IsSpot text.now spot }
    requires some { spot.next < length text.now }
    ensures spot { IsSpot text.now result }
    ensures next { result.next ≡ spot.next + 1 }
{
    if text[spot.next] == b'\n' {
        spot.on_next_line()
    } else {
        spot.along(1)
    }
}
