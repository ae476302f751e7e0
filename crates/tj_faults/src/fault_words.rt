//! What is wrong with a text that is no script, in words: what stands at the fault, and what was wanted
//! there.
ghost use Rattle.std.specs.Prelude.{◌≡◌, IfOk, None, drop};
ghost use Rattle.std.specs.Option.{option_map};
ghost use Rattle.tj_syntax.specs.ScriptTexts.{IsMemory};
ghost use Rattle.tj_faults.specs.FaultWords as spec;
ghost use Rattle.tj_faults.specs.Fronts as fronts;
ghost use Rattle.tj_faults.specs.Wanted as wants;

use crate::caret::{fault_text, front, line_at};
use crate::fronts::{from_place, front_of, last_of, token_at};
use crate::texts::{joined, place_text};
use crate::wanted::{Ending, Lacking, Wanted, is_task, wanted_at};
use std::alloc::Global;
use tj_base::{Oom, add_count, add_number};
use tj_lex::{Key, LexFault, Place, Tok, Token};
use tj_syntax::{NoScript, ParseFault};

/// A text from behind so many bytes on.
fn rest_of(text: &[u8], count: usize) -> &[u8]
    ensures { result.now ≡ drop count text.now }
{
    if count <= text.len() {
        text.split_at(count).1
    } else {
        b""
    }
}

/// The bytes of a token.
fn token_bytes<'t>(text: &'t [u8], token: &Token) -> &'t [u8]
    ensures { result.now ≡ spec.token_bytes text.now token.now }
{
    let count = token.to.saturating_sub(token.from);
    front(rest_of(text, token.from as usize), count as usize)
}

/// What stands there.
fn stands_text(alloc: Global, text: &[u8], token: &Token) -> Result<Vec<u8>, Oom>
    ensures { IfOk result (λ words. words.items ≡ spec.stands_text text.now token.now token.now.what) }
{
    match token.what {
        Tok::End => Ok(Vec::from_slice(alloc, b"the text ends here")?),
        _ => joined(alloc, &[token_bytes(text, token), b" stands here"]),
    }
}

/// A mark.
fn mark_word(mark: Lacking) -> &'static [u8]
    ensures { result.now ≡ spec.mark_word mark }
{
    match mark {
        Lacking::Assign => b"=",
        Lacking::ParenOpen => b"(",
        Lacking::ParenClose => b")",
        Lacking::BraceOpen => b"{",
        Lacking::Semi => b";",
    }
}

/// The last byte of a token.
fn last_byte(alloc: Global, token: &Token) -> Result<Vec<u8>, Oom>
    ensures { IfOk result (λ words. words.items ≡ spec.last_byte token.now) }
{
    let len = token.to.saturating_sub(token.from) as u128;
    let column = (token.at.column as u128 + len).saturating_sub(1);
    let mut words = Vec::new(alloc);
    add_number(&mut words, token.at.line as u128)?;
    add_count(&mut words, b":", column)?;
    Ok(words)
}

/// Behind which byte something is missing.
fn after_text(alloc: Global, last: Option<&Token>) -> Result<Vec<u8>, Oom>
    ensures { IfOk result (λ words. words.items
        ≡ spec.after_text (option_map (λ token. token.now) last.entry)) }
{
    let Some(token) = last else {
        return Ok(Vec::new(alloc));
    };
    let at = last_byte(alloc, token)?;
    joined(alloc, &[b" after ", at.as_slice()])
}

/// An operator was wanted, or what ends what is open.
fn operator_words(ends: Ending) -> &'static [u8]
    ensures { result.now ≡ spec.operator_words ends }
{
    match ends {
        Ending::Paren => b": an operator or ) is wanted",
        Ending::Comma => b": an operator, a comma or ) is wanted",
        Ending::Brace => b": an operator or { is wanted",
        Ending::Semi => b": an operator or ; is wanted",
    }
}

/// An operator that compares nothing was wanted, or what ends what is open.
fn arithmetic_words(ends: Ending) -> &'static [u8]
    ensures { result.now ≡ spec.arithmetic_words ends }
{
    match ends {
        Ending::Paren => b": an arithmetic operator or ) is wanted",
        Ending::Comma => b": an arithmetic operator, a comma or ) is wanted",
        Ending::Brace => b": an arithmetic operator or { is wanted",
        Ending::Semi => b": an arithmetic operator or ; is wanted",
    }
}

/// What ends what is open was wanted.
fn only_words(ends: Ending) -> &'static [u8]
    ensures { result.now ≡ spec.only_words ends }
{
    match ends {
        Ending::Paren => b": ) is wanted",
        Ending::Comma => b": a comma or ) is wanted",
        Ending::Brace => b": { is wanted",
        Ending::Semi => b": ; is wanted",
    }
}

/// What was wanted, if it is no mark that is missing.
fn plain_words(wanted: Wanted) -> &'static [u8]
    ensures { result.now ≡ spec.plain_words wanted }
{
    match wanted {
        Wanted::Name => b": a name is wanted",
        Wanted::Reference => b": a name or me is wanted",
        Wanted::Expression => b": an expression is wanted",
        Wanted::Value => b": an expression or an ask is wanted",
        Wanted::Argument => b": an argument is wanted",
        Wanted::NameOrParen => b": a name or ) is wanted",
        Wanted::ArgumentOrParen => b": an argument or ) is wanted",
        Wanted::Or => b": ; or the keyword or is wanted",
        Wanted::Operator(ends) => operator_words(ends),
        Wanted::Arithmetic(ends) => arithmetic_words(ends),
        Wanted::Only(ends) => only_words(ends),
        Wanted::Statement => b": a statement or } is wanted",
        Wanted::StatementOrElse => b": else, a statement or } is wanted",
        Wanted::Task => b": a task or the end is wanted",
        Wanted::Missing(_) | Wanted::Closed(_) => b"",
    }
}

/// A mark that is missing behind the token in front.
fn missing_text(alloc: Global, last: Option<&Token>, mark: Lacking) -> Result<Vec<u8>, Oom>
    ensures { IfOk result (λ words. words.items
        ≡ spec.wanted_text (option_map (λ token. token.now) last.entry) (Wanted.Missing mark)) }
{
    let after = after_text(alloc, last)?;
    joined(
        alloc,
        &[b": ", mark_word(mark), b" is missing", after.as_slice()],
    )
}

/// The end of a block is missing.
fn closed_text(alloc: Global, at: Place) -> Result<Vec<u8>, Oom>
    ensures { IfOk result (λ words. words.items
        ≡ spec.wanted_text None (Wanted.Closed at)) }
{
    let at = place_text(alloc, at)?;
    let before = b": } is missing, for the block that begins at ";
    joined(alloc, &[before, at.as_slice()])
}

/// What was wanted, behind the token in front.
fn wanted_text(alloc: Global, last: Option<&Token>, wanted: Wanted) -> Result<Vec<u8>, Oom>
    ensures { IfOk result (λ words. words.items
        ≡ spec.wanted_text (option_map (λ token. token.now) last.entry) wanted) }
{
    match wanted {
        Wanted::Missing(mark) => missing_text(alloc, last, mark),
        Wanted::Closed(at) => closed_text(alloc, at),
        _ => Ok(Vec::from_slice(alloc, plain_words(wanted))?),
    }
}

/// A token that can't follow these.
fn cant_follow(
    alloc: Global,
    text: &[u8],
    before: &[Token],
    token: &Token,
    next: Option<&Token>,
) -> Result<Vec<u8>, Oom>
    ensures { IfOk result (λ words. words.items ≡ spec.cant_follow text.now before.now token.now
        (option_map (λ token. token.now) next.entry)) }
{
    let stands = stands_text(alloc, text, token)?;
    let wanted = wanted_at(alloc, before, token, next)?;
    let wanted = wanted_text(alloc, last_of(before), wanted)?;
    joined(alloc, &[stands.as_slice(), wanted.as_slice()])
}

/// The first of these tokens can't follow those in front.
fn expected_text(
    alloc: Global,
    text: &[u8],
    before: &[Token],
    tokens: &[Token],
) -> Result<Vec<u8>, Oom>
    ensures { IfOk result (λ words. words.items
        ≡ spec.expected_text text.now before.now tokens.now) }
{
    match tokens {
        [] => Ok(Vec::new(alloc)),
        [token, behind @ ..] => cant_follow(alloc, text, before, token, token_at(behind, 0)),
    }
}

/// Whether the last token in front of this position is `fork`.
fn is_forked(at: Place, tokens: &[Token]) -> bool
    ensures { result ≡ spec.last_is spec.is_fork (fronts.last_of (fronts.front_of at tokens.now)) }
{
    match last_of(front_of(at, tokens)) {
        Some(token) => matches!(token.what, Tok::Key(Key::Fork)),
        None => false,
    }
}

/// Whether the last token in front of this position is `task`.
fn is_declared(at: Place, tokens: &[Token]) -> bool
    ensures { result ≡ spec.last_is wants.is_task (fronts.last_of (fronts.front_of at tokens.now)) }
{
    match last_of(front_of(at, tokens)) {
        Some(token) => is_task(&token.what),
        None => false,
    }
}

/// The bytes of the token at a position.
fn name_there<'t>(text: &'t [u8], at: Place, tokens: &[Token]) -> &'t [u8]
    ensures { result.now ≡ spec.name_there text.now (fronts.from_place at tokens.now) }
{
    match from_place(at, tokens) {
        [] => b"",
        [token, ..] => token_bytes(text, token),
    }
}

/// A name that isn't known.
fn unknown_text(alloc: Global, of_task: bool, name: &[u8]) -> Result<Vec<u8>, Oom>
    ensures { IfOk result (λ words. words.items ≡ spec.unknown_text of_task name.now) }
{
    if of_task {
        joined(alloc, &[b"no task ", name, b" is declared"])
    } else {
        joined(alloc, &[b"no variable ", name, b" is declared above"])
    }
}

/// A name that is declared already.
fn twice_text(alloc: Global, of_task: bool, name: &[u8]) -> Result<Vec<u8>, Oom>
    ensures { IfOk result (λ words. words.items ≡ spec.twice_text of_task name.now) }
{
    if of_task {
        joined(alloc, &[b"a task ", name, b" is declared above"])
    } else {
        joined(
            alloc,
            &[b"a variable ", name, b" is declared above in this task"],
        )
    }
}

/// One task or one variable too many.
fn many_text(of_task: bool) -> &'static [u8]
    ensures { result.now ≡ spec.many_text of_task }
{
    if of_task {
        b"a script has at most 1024 tasks"
    } else {
        b"a task has at most 256 variables"
    }
}

/// The bytes of a text from a position on, on its line.
fn bytes_at(text: &[u8], at: Place) -> &[u8]
    ensures { result.now ≡ spec.bytes_at text.now at }
{
    rest_of(line_at(text, at.line), at.column.saturating_sub(1) as usize)
}

/// Whether the bytes begin with a byte order mark.
fn has_order_mark(bytes: &[u8]) -> bool
    ensures { result ≡ spec.has_order_mark bytes.now }
{
    match bytes {
        [first, second, third, ..] => *first == 239 && *second == 187 && *third == 191,
        _ => false,
    }
}

/// A byte: itself, if it has a sign of its own, and else its number.
fn byte_word(alloc: Global, byte: u8) -> Result<Vec<u8>, Oom>
    ensures { IfOk result (λ words. words.items ≡ spec.byte_word byte) }
{
    let mut words = Vec::new(alloc);
    if byte >= 33 && byte <= 126 {
        words.push(byte)?;
    } else {
        add_count(&mut words, b"the byte ", byte as u128)?;
    }
    Ok(words)
}

/// A byte that begins no token.
fn one_byte_text(alloc: Global, bytes: &[u8]) -> Result<Vec<u8>, Oom>
    ensures { IfOk result (λ words. words.items ≡ spec.one_byte_text bytes.now) }
{
    match bytes {
        [] => Ok(Vec::new(alloc)),
        [byte, ..] => {
            let word = byte_word(alloc, *byte)?;
            joined(
                alloc,
                &[word.as_slice(), b" stands here: no token begins with it"],
            )
        }
    }
}

/// What stands where no token begins.
fn byte_text(alloc: Global, bytes: &[u8]) -> Result<Vec<u8>, Oom>
    ensures { IfOk result (λ words. words.items ≡ spec.byte_text bytes.now) }
{
    if has_order_mark(bytes) {
        let words = b"a byte order mark stands here: a script has none";
        Ok(Vec::from_slice(alloc, words)?)
    } else {
        one_byte_text(alloc, bytes)
    }
}

/// A fault of the tokens. Want of memory has no words.
fn token_words(alloc: Global, text: &[u8], fault: LexFault) -> Result<Vec<u8>, Oom>
    ensures { IfOk result (λ words. words.items ≡ spec.token_words text.now fault) }
{
    match fault {
        LexFault::Byte(at) => byte_text(alloc, bytes_at(text, at)),
        LexFault::Number(_) => Ok(Vec::from_slice(
            alloc,
            b"a number is at most 9223372036854775807",
        )?),
        LexFault::Long(_) => Ok(Vec::from_slice(alloc, b"a name has at most 64 bytes")?),
        LexFault::Oom => Ok(Vec::new(alloc)),
    }
}

/// A fork with another number of arguments than its task has parameters.
fn count_text(alloc: Global, name: &[u8]) -> Result<Vec<u8>, Oom>
    ensures { IfOk result (λ words. words.items ≡ spec.count_text name.now) }
{
    joined(
        alloc,
        &[b"task ", name, b" has another number of parameters"],
    )
}

/// What is said of a fault of the grammar that names nothing.
fn rule_words(fault: ParseFault) -> &'static [u8]
    ensures { result.now ≡ spec.rule_words fault }
{
    match fault {
        ParseFault::NoMain(_) => b"no task main is declared",
        ParseFault::MainParams(_) => b"main may have no parameters",
        ParseFault::Deep(_) => b"at most 64 constructs may be open at once",
        _ => b"",
    }
}

/// A fault of the grammar, in a text with these tokens. Want of memory has no words.
fn grammar_words(
    alloc: Global,
    text: &[u8],
    tokens: &[Token],
    fault: ParseFault,
) -> Result<Vec<u8>, Oom>
    ensures { IfOk result (λ words. words.items ≡ spec.grammar_words text.now tokens.now fault) }
{
    match fault {
        ParseFault::Expected(at) => {
            expected_text(alloc, text, front_of(at, tokens), from_place(at, tokens))
        }
        ParseFault::Unknown(at) => {
            unknown_text(alloc, is_forked(at, tokens), name_there(text, at, tokens))
        }
        ParseFault::Twice(at) => {
            twice_text(alloc, is_declared(at, tokens), name_there(text, at, tokens))
        }
        ParseFault::Count(at) => count_text(alloc, name_there(text, at, tokens)),
        ParseFault::Many(at) => Ok(Vec::from_slice(alloc, many_text(is_declared(at, tokens)))?),
        _ => Ok(Vec::from_slice(alloc, rule_words(fault))?),
    }
}

/// The fault of a text with these tokens, in words.
pub fn fault_words(
    alloc: Global,
    text: &[u8],
    tokens: &[Token],
    fault: NoScript,
) -> Result<Vec<u8>, Oom>
    ensures { IfOk result (λ words. words.items ≡ spec.fault_words text.now tokens.now fault) }
{
    match fault {
        NoScript::Long(_) => Ok(Vec::from_slice(alloc, b"a script has at most 1048576 bytes")?),
        NoScript::Tokens(fault) => token_words(alloc, text, fault),
        NoScript::Grammar(fault) => grammar_words(alloc, text, tokens, fault),
    }
}

/// What is told of a text with this fault and these tokens. Want of memory has none.
pub fn told_fault_text(
    alloc: Global,
    text: &[u8],
    tokens: &[Token],
    fault: NoScript,
) -> Result<Vec<u8>, Oom>
    // The text has the fault's line, the source line with a caret, and the stated words for what stands there and for
    // what was wanted.
    ensures text { IfOk result (λ told.
        told.items ≡ spec.told_fault_text text.now tokens.now fault) }
    // Want of memory is no fault of the text: nothing is told of it.
    ensures none { IfOk result (λ _. ¬ IsMemory fault) }
{
    let lines = fault_text(alloc, text, fault)?;
    let words = fault_words(alloc, text, tokens, fault)?;
    joined(alloc, &[lines.as_slice(), words.as_slice(), b"\n"])
}
