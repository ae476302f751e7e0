//! What the tokens in front of a fault leave open: the part of a statement or of a head in which the
//! fault stands, its parentheses, and the blocks around it.
ghost use Rattle.std.specs.Prelude.{◌≡◌, ◌≤◌, ◌<◌, ◌^◌, [], IfOk, false, length, slice_get, suc};
ghost use Rattle.std.specs.Option.{option_map};
ghost use Rattle.tj_faults.specs.Fronts as spec;

use std::alloc::Global;
use tj_base::Oom;
use tj_lex::{Key, Mark, Place, Tok, Token};

/// Whether the token stands at this position.
fn stands_at(at: Place, token: &Token) -> bool
    ensures { result ≡ spec.stands_at at token.now }
{
    token.at.line == at.line && token.at.column == at.column
}

/// The token that stands there, and those behind it.
pub fn from_place(at: Place, tokens: &[Token]) -> &[Token]
    ensures value { result.now ≡ spec.from_place at tokens.now }
    ensures bound { length result.now ≤ length tokens.now }
{
    let mut rest = tokens;
    while let [token, more @ ..] = rest {
        if stands_at(at, token) {
            return rest;
        }
        rest = more;
    }
    rest
}

/// The tokens in front of a position.
pub fn front_of(at: Place, tokens: &[Token]) -> &[Token]
    ensures { result.now ≡ spec.front_of at tokens.now }
{
    let behind = from_place(at, tokens).len();
    tokens.split_at(tokens.len() - behind).0
}

/// Whether it is a `;` or a brace.
fn separates(what: &Tok) -> bool
    ensures { result ≡ spec.separates what.now }
{
    matches!(
        what,
        Tok::Mark(Mark::BraceOpen | Mark::BraceClose | Mark::Semi)
    )
}

/// The part of a statement or of a task's head with which these tokens end.
pub fn part_of(tokens: &[Token]) -> &[Token]
    ensures { result.now ≡ spec.part_of tokens.now }
{
    let mut part = tokens;
    let mut rest = tokens;
    while let [token, more @ ..] = rest {
        if separates(&token.what) {
            part = more;
        }
        rest = more;
    }
    part
}

/// The token with this number.
pub fn token_at(tokens: &[Token], number: usize) -> Option<&Token>
    ensures { option_map (λ token. token.now) result ≡ slice_get tokens.now number }
{
    tokens.get(number)
}

/// The last token.
pub fn last_of(tokens: &[Token]) -> Option<&Token>
    ensures { option_map (λ token. token.now) result ≡ spec.last_of tokens.now }
{
    token_at(tokens, tokens.len().saturating_sub(1))
}

/// The token in front of the last.
pub fn before_last(tokens: &[Token]) -> Option<&Token>
    ensures { option_map (λ token. token.now) result ≡ spec.before_last tokens.now }
{
    if tokens.len() >= 2 {
        token_at(tokens, tokens.len() - 2)
    } else {
        None
    }
}

/// Whether the token is an opening parenthesis.
fn is_open(what: &Tok) -> bool
    ensures { result ≡ spec.is_open what.now }
{
    matches!(what, Tok::Mark(Mark::ParenOpen))
}

/// Whether the token is a closing parenthesis.
fn is_close(what: &Tok) -> bool
    ensures { result ≡ spec.is_close what.now }
{
    matches!(what, Tok::Mark(Mark::ParenClose))
}

/// How many parentheses are open behind a token where so many are in front of it.
fn parens_behind(opened: usize, what: &Tok) -> usize
    requires { suc opened < 2 ^ 64 }
    ensures { result ≡ spec.parens_behind opened what.now }
{
    if is_open(what) {
        opened + 1
    } else if is_close(what) {
        opened.saturating_sub(1)
    } else {
        opened
    }
}

/// How many parentheses are open behind tokens.
pub fn parens_after(tokens: &[Token]) -> usize
    ensures { result ≡ spec.parens_after 0 tokens.now }
{
    let mut opened = 0;
    let mut rest = tokens;
    while let [token, more @ ..] = rest {
        opened = parens_behind(opened, &token.what);
        rest = more;
    }
    opened
}

/// Whether the token opens a block.
fn opens_block(what: &Tok) -> bool
    ensures { result ≡ spec.opens_block what.now }
{
    matches!(what, Tok::Mark(Mark::BraceOpen))
}

/// Whether the token closes a block.
fn closes_block(what: &Tok) -> bool
    ensures { result ≡ spec.closes_block what.now }
{
    matches!(what, Tok::Mark(Mark::BraceClose))
}

/// Where the blocks begin that are open behind a token, where these are in front of it.
fn pass(opened: &mut Vec<Place>, token: &Token) -> Result<(), Oom>
    ensures { IfOk result (λ _. opened.new.items ≡ spec.blocks_behind opened.old.items token.now) }
{
    if opens_block(&token.what) {
        opened.push(token.at)?;
    } else if closes_block(&token.what) {
        let _closed = opened.pop();
    }
    Ok(())
}

/// Where the blocks begin that are open behind tokens.
fn blocks_after(alloc: Global, tokens: &[Token]) -> Result<Vec<Place>, Oom>
    ensures { IfOk result (λ opened. opened.items ≡ spec.blocks_after [] tokens.now) }
{
    let mut opened = Vec::new(alloc);
    let mut rest = tokens;
    while let [token, more @ ..] = rest {
        pass(&mut opened, token)?;
        rest = more;
    }
    Ok(opened)
}

/// Where the innermost block begins that is open behind tokens.
pub fn open_block(alloc: Global, tokens: &[Token]) -> Result<Option<Place>, Oom>
    ensures { IfOk result (λ place. place ≡ spec.open_block tokens.now) }
{
    let opened = blocks_after(alloc, tokens)?;
    Ok(opened.last().copied())
}

/// Whether the token compares two sides.
fn is_comparison(what: &Tok) -> bool
    ensures { result ≡ spec.is_comparison what.now }
{
    matches!(
        what,
        Tok::Mark(Mark::Eq | Mark::Ne | Mark::Lt | Mark::Le | Mark::Gt | Mark::Ge)
    )
}

/// Whether the token is `(` or a comma.
fn begins_one(what: &Tok) -> bool
    ensures { result ≡ spec.begins_one what.now }
{
    matches!(what, Tok::Mark(Mark::ParenOpen | Mark::Comma))
}

/// Whether a comparison stands in an expression behind a token in it, or behind one with which another
/// expression begins.
fn compared_behind(compared: bool, what: &Tok) -> bool
    ensures { result ≡ spec.compared_behind compared what.now }
{
    is_comparison(what) || (!begins_one(what) && compared)
}

/// Whether a comparison stands in the expression with which tokens end, outside of its parentheses. So many
/// parentheses are open behind them.
pub fn compared_after(at_end: usize, tokens: &[Token]) -> bool
    ensures { result ≡ spec.compared_after at_end 0 false tokens.now }
{
    let mut opened = 0;
    let mut compared = false;
    let mut rest = tokens;
    while let [token, more @ ..] = rest {
        opened = parens_behind(opened, &token.what);
        if opened == at_end {
            compared = compared_behind(compared, &token.what);
        }
        rest = more;
    }
    compared
}

/// The tokens in front of the last.
fn but_last(tokens: &[Token]) -> &[Token]
    ensures { result.now ≡ spec.but_last tokens.now }
{
    tokens.split_at(tokens.len().saturating_sub(1)).0
}

/// Whether the token is there, and closes a block.
fn closes_at(token: Option<&Token>) -> bool
    ensures { result ≡ spec.closes_at (option_map (λ token. token.now) token.entry) }
{
    match token {
        Some(token) => closes_block(&token.what),
        None => false,
    }
}

/// Whether the token is `if`.
fn is_if(what: &Tok) -> bool
    ensures { result ≡ spec.is_if what.now }
{
    matches!(what, Tok::Key(Key::If))
}

/// Whether the token is there, and is `if`.
fn is_if_at(token: Option<&Token>) -> bool
    ensures { result ≡ spec.is_if_at (option_map (λ token. token.now) token.entry) }
{
    match token {
        Some(token) => is_if(&token.what),
        None => false,
    }
}

/// Whether the block that begins there is that of an `if`.
fn is_of_if(tokens: &[Token], block: Option<Place>) -> bool
    ensures { result ≡ spec.is_of_if tokens.now block }
{
    match block {
        Some(place) => is_if_at(token_at(part_of(front_of(place, tokens)), 0)),
        None => false,
    }
}

/// Whether the tokens end with the `}` of an `if`.
pub fn ends_if(alloc: Global, tokens: &[Token]) -> Result<bool, Oom>
    ensures { IfOk result (λ ends. ends ≡ spec.ends_if tokens.now) }
{
    let block = open_block(alloc, but_last(tokens))?;
    Ok(closes_at(last_of(tokens)) && is_of_if(tokens, block))
}
