//! The tokens of a text in a short form: their names and numbers stay in the text.
ghost use Rattle.std.specs.Prelude.{◌≡◌, ◌<◌, ◌≤◌, All, List, length, drop, IfOk, IfErr, IsErrAnd, MatchResult, false, true};
ghost use Rattle.std.specs.Char.{is_ascii_digit};
ghost use Rattle.tj_lex.specs.declared.token.Token.{Token};
ghost use Rattle.tj_lex.specs.declared.token.LexFault.{LexFault};
ghost use Rattle.tj_lex.specs.Bytes.{is_name_start, is_gap_start, begins_with};
ghost use Rattle.tj_lex.specs.Inner.Shorts.{IsLexeme};
ghost use Rattle.tj_lex.specs.Inner.Spots.{IsSpot};
ghost use Rattle.tj_lex.specs.Shorts.{IsIn, token_of, tok_seen, what_of, whole_tokens};
ghost use Rattle.tj_lex.specs.Tokens.{AreTokens, IsFirstFault, IsToken, IsFaultFrom, IsFaultAt, OrMemory};

use crate::bytes::{MAX_NAME, MAX_TEXT, digits_len, is_name_start, name_len};
use crate::gap::{Spot, after_gap};
use crate::number::number;
use crate::place::Place;
use crate::spelling::{double_mark, keyword, single_mark};
use crate::token::{Key, LexFault, Mark};
use std::alloc::Global;

/// What a token is, without its name or number.
#[derive(Clone, Copy)]
pub enum Kind {
    Name,
    Num,
    Key(Key),
    Mark(Mark),
    End,
}

/// A token in 12 bytes: what it is, and the bytes of the text that it takes.
#[derive(Clone, Copy)]
pub struct Short {
    pub what: Kind,
    pub from: u32,
    pub to: u32,
}

/// What a token is, with its number or the bytes of its name.
#[derive(Clone, Copy)]
pub enum Seen<'t> {
    Name(&'t [u8]),
    Num(i64),
    Key(Key),
    Mark(Mark),
    End,
}

impl Short {
    /// What the token is, in its text.
    #[inline(always)]
    pub fn seen<'t>(self, text: &'t [u8]) -> Seen<'t>
        requires { IsIn text.now self }
        // It is what the token is, by the bytes of the text.
        ensures { tok_seen result ≡ what_of text.now self }
    {
        match self.what {
            Kind::Name => Seen::Name(&text[self.from as usize..self.to as usize]),
            Kind::Num => match number(&text[self.from as usize..self.to as usize]) {
                Some(value) => Seen::Num(value),
                None => unreachable!(),
            },
            Kind::Key(key) => Seen::Key(key),
            Kind::Mark(mark) => Seen::Mark(mark),
            Kind::End => Seen::End,
        }
    }
}

/// The tokens of a text in their order, and the end last, or the first fault.
pub fn short_tokens(alloc: Global, text: &[u8]) -> Result<Vec<Short>, LexFault>
    requires { length text.now ≤ MAX_TEXT }
    // `Ok` holds the tokens of the text in a short form, and the end last.
    ensures ok { IfOk result (λ found. AreTokens text.now (whole_tokens text.now found.items)) }
    // The text has the bytes of each.
    ensures within { IfOk result (λ found. All (IsIn text.now) found.items) }
    // A fault is the first of the text, of that kind and at that position, or the answer is want of
    // memory.
    ensures fault { IfErr result (OrMemory (IsFirstFault text.now)) }

    // A text that has tokens gives them, or the answer is want of memory.
    ensures only_tokens { (all : List Token) → AreTokens text.now all
        → MatchResult result (λ found. whole_tokens text.now found.items ≡ all)
        (λ fault. fault ≡ LexFault.Oom) }
    // A text that has a first fault gives it, or the answer is want of memory.
    ensures only_fault { (first : LexFault) → IsFirstFault text.now first
        → IsErrAnd result (OrMemory (λ fault. fault ≡ first)) }
{
    read_shorts(alloc, text)
}

fn read_shorts(alloc: Global, text: &[u8]) -> Result<Vec<Short>, LexFault>
    requires { length text.now ≤ MAX_TEXT }
    ensures ok { IfOk result (λ found. AreTokens text.now (whole_tokens text.now found.items)) }
    ensures fault { IfErr result (OrMemory (IsFirstFault text.now)) }
{
    let mut found = Vec::new(alloc);
    let mut spot = Spot::start();
    'tokens: loop {
        let here = after_gap(text, spot);
        if here.next == text.len() {
            let Ok(()) = found.push(end_at(here)) else {
                return Err(LexFault::Oom);
            };
            return Ok(found);
        }
        let token = short_at(text, here)?;
        spot = here.along((token.to - token.from) as usize);
        let Ok(()) = found.push(token) else {
            return Err(LexFault::Oom);
        };
    }
}

/// The end of a text, which is at a spot.
fn end_at(spot: Spot) -> Short
    requires { spot.next ≤ MAX_TEXT }
    ensures what { result.what ≡ Kind.End }
    ensures from { result.from ≡ spot.next }
    ensures to { result.to ≡ spot.next }
{
    Short {
        what: Kind::End,
        from: spot.next as u32,
        to: spot.next as u32,
    }
}

/// The token or the fault that stands at a spot.
fn short_at(text: &[u8], spot: Spot) -> Result<Short, LexFault>
    requires short { length text.now ≤ MAX_TEXT }
    requires spot { IsSpot text.now spot }
    requires some { spot.next < length text.now }
    requires no_gap { begins_with is_gap_start (drop spot.next text.now) ≡ false }
    ensures from { IfOk result (λ token. token.from ≡ spot.next) }
    ensures token { IfOk result (λ token. IsToken text.now spot.next (token_of text.now token)) }
    ensures fault { IfErr result (IsFaultFrom text.now spot.next spot.next) }
{
    let Lexeme { what, len } = lexeme_at(&text[spot.next..], spot.at)?;
    Ok(Short {
        what,
        from: spot.next as u32,
        to: (spot.next + len) as u32,
    })
}

/// The kind of a token with the number of its bytes.
#[derive(Clone, Copy)]
struct Lexeme {
    what: Kind,
    len: usize,
}

/// The token or the fault that a text begins with. The text's position is `at`.
fn lexeme_at(text: &[u8], at: Place) -> Result<Lexeme, LexFault>
    requires { 0 < length text.now }
    ensures token { IfOk result (IsLexeme text.now) }
    ensures fault { IfErr result (IsFaultAt at text.now) }
{
    if is_name_start(text[0]) {
        word(text, at)
    } else if text[0].is_ascii_digit() {
        digits(text, at)
    } else {
        mark(text, at)
    }
}

fn word(text: &[u8], at: Place) -> Result<Lexeme, LexFault>
    requires { begins_with is_name_start text.now ≡ true }
    ensures token { IfOk result (IsLexeme text.now) }
    ensures fault { IfErr result (IsFaultAt at text.now) }
{
    let len = name_len(text);
    if len > MAX_NAME {
        return Err(LexFault::Long(at));
    }
    let what = match keyword(&text[..len]) {
        Some(key) => Kind::Key(key),
        None => Kind::Name,
    };
    Ok(Lexeme { what, len })
}

fn digits(text: &[u8], at: Place) -> Result<Lexeme, LexFault>
    requires { begins_with is_ascii_digit text.now ≡ true }
    ensures token { IfOk result (IsLexeme text.now) }
    ensures fault { IfErr result (IsFaultAt at text.now) }
{
    let len = digits_len(text);
    match number(&text[..len]) {
        Some(_) => Ok(Lexeme {
            what: Kind::Num,
            len,
        }),
        None => Err(LexFault::Number(at)),
    }
}

fn mark(text: &[u8], at: Place) -> Result<Lexeme, LexFault>
    requires some { 0 < length text.now }
    requires no_name { begins_with is_name_start text.now ≡ false }
    requires no_number { begins_with is_ascii_digit text.now ≡ false }
    ensures token { IfOk result (IsLexeme text.now) }
    ensures fault { IfErr result (IsFaultAt at text.now) }
{
    if text.len() > 1
        && text[1] == b'='
        && let Some(mark) = double_mark(text[0])
    {
        return Ok(Lexeme {
            what: Kind::Mark(mark),
            len: 2,
        });
    }
    match single_mark(text[0]) {
        Some(mark) => Ok(Lexeme {
            what: Kind::Mark(mark),
            len: 1,
        }),
        None => Err(LexFault::Byte(at)),
    }
}
