//! What was wanted where a token stands that can't follow.
ghost use Rattle.std.specs.Prelude.{◌≡◌, IfOk};
ghost use Rattle.std.specs.Option.{option_map};
ghost use Rattle.tj_faults.specs.Wanted as spec;

use crate::fronts::{
    before_last, compared_after, ends_if, last_of, open_block, parens_after, part_of, token_at,
};
use std::alloc::Global;
use tj_base::Oom;
use tj_lex::{Key, Mark, Place, Tok, Token};

/// A mark that is missing.
#[derive(Clone, Copy)]
pub enum Lacking {
    Assign,
    ParenOpen,
    ParenClose,
    BraceOpen,
    Semi,
}

/// What ends what is open.
#[derive(Clone, Copy)]
pub enum Ending {
    /// `)`.
    Paren,
    /// A comma or `)`.
    Comma,
    /// `{`.
    Brace,
    /// `;`.
    Semi,
}

/// What was wanted.
#[derive(Clone, Copy)]
pub enum Wanted {
    Name,
    /// A name or `me`.
    Reference,
    Expression,
    /// An expression or an ask.
    Value,
    Argument,
    /// A name or `)`.
    NameOrParen,
    /// An argument or `)`.
    ArgumentOrParen,
    /// `;` or the keyword `or`.
    Or,
    /// An operator, or what ends what is open.
    Operator(Ending),
    /// An operator that compares nothing, or what ends what is open.
    Arithmetic(Ending),
    /// What ends what is open.
    Only(Ending),
    /// A statement, or the end of the block.
    Statement,
    /// `else`, a statement, or the end of the block.
    StatementOrElse,
    /// A task, or the end of the text.
    Task,
    /// This mark, behind the token in front.
    Missing(Lacking),
    /// The end of the block that begins here.
    Closed(Place),
}

/// Whether only a name can stand behind it.
fn names_follow(what: &Tok) -> bool
    ensures { result ≡ spec.names_follow what.now }
{
    matches!(
        what,
        Tok::Key(Key::Let | Key::Set | Key::Fork | Key::Own | Key::Task)
    )
}

/// Whether only a name or `me` can stand behind it.
fn references_follow(what: &Tok) -> bool
    ensures { result ≡ spec.references_follow what.now }
{
    matches!(what, Tok::Key(Key::Get | Key::Join))
}

/// Whether it stands in no expression, and in none of its parentheses.
fn stands_alone(what: &Tok) -> bool
    ensures { result ≡ spec.stands_alone what.now }
{
    match what {
        Tok::Key(Key::Me | Key::Own | Key::Or) => false,
        Tok::Key(_) | Tok::End => true,
        Tok::Mark(Mark::BraceOpen | Mark::BraceClose | Mark::Semi) => true,
        _ => false,
    }
}

/// Whether the token is a name.
fn is_name(what: &Tok) -> bool
    ensures { result ≡ spec.is_name what.now }
{
    matches!(what, Tok::Name(_))
}

/// Whether the token is `=`.
fn is_assign(what: &Tok) -> bool
    ensures { result ≡ spec.is_assign what.now }
{
    matches!(what, Tok::Mark(Mark::Assign))
}

/// Whether the next token is `=`.
fn assigns(next: Option<&Token>) -> bool
    ensures { result ≡ spec.assigns (option_map (λ token. token.now) next.entry) }
{
    match next {
        Some(token) => is_assign(&token.what),
        None => false,
    }
}

/// Whether a statement, a block's end or a task begins at the token.
fn begins_anew(token: &Token, next: Option<&Token>) -> bool
    ensures { result ≡ spec.begins_anew token.now (option_map (λ token. token.now) next.entry) }
{
    stands_alone(&token.what) || (is_name(&token.what) && assigns(next))
}

/// Whether the token begins a statement with a block, or a task.
fn has_block(what: &Tok) -> bool
    ensures { result ≡ spec.has_block what.now }
{
    matches!(what, Tok::Key(Key::If | Key::While | Key::Task))
}

/// Whether the token is `task`.
pub fn is_task(what: &Tok) -> bool
    ensures { result ≡ spec.is_task what.now }
{
    matches!(what, Tok::Key(Key::Task))
}

/// Whether the token is `set`.
fn is_set(what: &Tok) -> bool
    ensures { result ≡ spec.is_set what.now }
{
    matches!(what, Tok::Key(Key::Set))
}

/// Whether the token is `own`.
fn is_own(what: &Tok) -> bool
    ensures { result ≡ spec.is_own what.now }
{
    matches!(what, Tok::Key(Key::Own))
}

/// Whether the token is `fork` or `task`.
fn has_parens(what: &Tok) -> bool
    ensures { result ≡ spec.has_parens what.now }
{
    matches!(what, Tok::Key(Key::Fork | Key::Task))
}

/// Whether the token is `let` or `set`.
fn has_value(what: &Tok) -> bool
    ensures { result ≡ spec.has_value what.now }
{
    matches!(what, Tok::Key(Key::Let | Key::Set))
}

/// Whether the token is `let`.
fn is_let(what: &Tok) -> bool
    ensures { result ≡ spec.is_let what.now }
{
    matches!(what, Tok::Key(Key::Let))
}

/// Where the value begins that a statement assigns, and else where the statement begins.
fn given_from(head: &Tok) -> usize
    ensures { result ≡ spec.given_from head.now }
{
    if is_let(head) {
        3
    } else if is_name(head) {
        2
    } else {
        0
    }
}

/// Whether the token is there, and is `fork` or `task`.
fn begins_list(token: Option<&Token>) -> bool
    ensures { result ≡ spec.begins_list (option_map (λ token. token.now) token.entry) }
{
    match token {
        Some(token) => has_parens(&token.what),
        None => false,
    }
}

/// Whether what the part computes, or the part itself, is a fork or a task's head.
fn has_list(head: &Tok, part: &[Token]) -> bool
    ensures { result ≡ spec.has_list head.now part.now }
{
    begins_list(token_at(part, given_from(head)))
}

/// What ends the innermost of what is open.
fn ending_of(head: &Tok, lists: bool, opened: usize) -> Ending
    ensures { result ≡ spec.ending_of head.now lists opened }
{
    if opened == 0 {
        if has_block(head) {
            Ending::Brace
        } else {
            Ending::Semi
        }
    } else if lists && opened == 1 {
        Ending::Comma
    } else {
        Ending::Paren
    }
}

/// Whether no operator can stand there: in a task's head, and behind the list of a fork.
fn no_operator(head: &Tok, lists: bool, opened: usize) -> bool
    ensures { result ≡ spec.no_operator head.now lists opened }
{
    is_task(head) || (lists && opened == 0)
}

/// What can stand behind an operand, behind a parameter, and behind a list.
fn behind_whole(plain: bool, compared: bool, ends: Ending) -> Wanted
    ensures { result ≡ spec.behind_whole plain compared ends }
{
    if plain {
        Wanted::Only(ends)
    } else if compared {
        Wanted::Arithmetic(ends)
    } else {
        Wanted::Operator(ends)
    }
}

/// What can stand behind a name or `me` with this token in front of it.
fn behind_after(before: &Tok, ends: Ending, whole: Wanted) -> Wanted
    ensures { result ≡ spec.behind_after before.now ends whole }
{
    if has_value(before) {
        Wanted::Missing(Lacking::Assign)
    } else if has_parens(before) {
        Wanted::Missing(Lacking::ParenOpen)
    } else if references_follow(before) {
        Wanted::Or
    } else if is_own(before) {
        Wanted::Only(ends)
    } else {
        whole
    }
}

/// What can stand behind a name or `me`.
fn behind_name(before: Option<&Token>, ends: Ending, whole: Wanted) -> Wanted
    ensures { result ≡ spec.behind_name (option_map (λ token. token.now) before.entry) ends whole }
{
    match before {
        Some(token) => behind_after(&token.what, ends, whole),
        None => Wanted::Missing(Lacking::Assign),
    }
}

/// Whether the token in front is a name.
fn is_name_at(before: Option<&Token>) -> bool
    ensures { result ≡ spec.is_name_at (option_map (λ token. token.now) before.entry) }
{
    match before {
        Some(token) => is_name(&token.what),
        None => false,
    }
}

/// What can stand behind `(`, which stands behind this token.
fn behind_paren(head: &Tok, before: Option<&Token>) -> Wanted
    ensures { result ≡ spec.behind_paren head.now (option_map (λ token. token.now) before.entry) }
{
    if !is_name_at(before) {
        Wanted::Expression
    } else if is_task(head) {
        Wanted::NameOrParen
    } else {
        Wanted::ArgumentOrParen
    }
}

/// What can stand behind a mark.
fn behind_mark(head: &Tok, before: Option<&Token>, last: &Tok, whole: Wanted) -> Wanted
    ensures { result ≡ spec.behind_mark head.now (option_map (λ token. token.now) before.entry)
        last.now whole }
{
    match last {
        Tok::Mark(Mark::Assign) => {
            if is_set(head) {
                Wanted::Expression
            } else {
                Wanted::Value
            }
        }
        Tok::Mark(Mark::Comma) => {
            if is_task(head) {
                Wanted::Name
            } else {
                Wanted::Argument
            }
        }
        Tok::Mark(Mark::ParenOpen) => behind_paren(head, before),
        Tok::Mark(Mark::ParenClose) => whole,
        _ => Wanted::Expression,
    }
}

/// What can stand behind a keyword.
fn behind_key(before: Option<&Token>, last: &Tok, ends: Ending, whole: Wanted) -> Wanted
    ensures { result ≡ spec.behind_key (option_map (λ token. token.now) before.entry) last.now
        ends whole }
{
    match last {
        Tok::Key(Key::New) => Wanted::Only(ends),
        Tok::Key(Key::Me) => behind_name(before, ends, whole),
        Tok::Key(Key::Else) => Wanted::Missing(Lacking::BraceOpen),
        _ => {
            if names_follow(last) {
                Wanted::Name
            } else if references_follow(last) {
                Wanted::Reference
            } else {
                Wanted::Expression
            }
        }
    }
}

/// What can stand behind the last token of a part.
fn behind(head: &Tok, before: Option<&Token>, last: &Tok, ends: Ending, whole: Wanted) -> Wanted
    ensures { result ≡ spec.behind head.now (option_map (λ token. token.now) before.entry) last.now
        ends whole }
{
    match last {
        Tok::Name(_) => behind_name(before, ends, whole),
        Tok::Num(_) => whole,
        Tok::Key(_) => behind_key(before, last, ends, whole),
        Tok::Mark(_) => behind_mark(head, before, last, whole),
        Tok::End => Wanted::Expression,
    }
}

/// What can stand behind the last token of a part with so many parentheses open, and with a comparison in
/// the innermost.
fn behind_part(part: &[Token], head: &Tok, last: &Tok, opened: usize, compared: bool) -> Wanted
    ensures { result ≡ spec.behind_part part.now head.now last.now opened compared }
{
    let lists = has_list(head, part);
    let ends = ending_of(head, lists, opened);
    let whole = behind_whole(no_operator(head, lists, opened), compared, ends);
    behind(head, before_last(part), last, ends, whole)
}

/// The mark that ends what is open.
fn ending_mark(ends: Ending) -> Lacking
    ensures { result ≡ spec.ending_mark ends }
{
    match ends {
        Ending::Paren | Ending::Comma => Lacking::ParenClose,
        Ending::Brace => Lacking::BraceOpen,
        Ending::Semi => Lacking::Semi,
    }
}

/// What was wanted where something begins anew: where what is open can end, the mark that ends it.
fn ended(wanted: Wanted) -> Wanted
    ensures { result ≡ spec.ended wanted }
{
    match wanted {
        Wanted::Operator(ends) | Wanted::Arithmetic(ends) | Wanted::Only(ends) => {
            Wanted::Missing(ending_mark(ends))
        }
        Wanted::Or => Wanted::Missing(Lacking::Semi),
        _ => wanted,
    }
}

/// Whether the token is `task` or the end.
fn ends_tasks(what: &Tok) -> bool
    ensures { result ≡ spec.ends_tasks what.now }
{
    matches!(what, Tok::Key(Key::Task) | Tok::End)
}

/// What was wanted where a part begins: in a block that begins there or in none, behind the block of an `if`
/// or not.
fn at_start(block: Option<Place>, after_if: bool, what: &Tok) -> Wanted
    ensures { result ≡ spec.at_start block after_if what.now }
{
    let Some(place) = block else {
        return Wanted::Task;
    };
    if ends_tasks(what) {
        Wanted::Closed(place)
    } else if after_if {
        Wanted::StatementOrElse
    } else {
        Wanted::Statement
    }
}

/// What was wanted behind a part that begins with this token and ends with that one.
fn in_part_with(part: &[Token], head: &Tok, last: &Tok, anew: bool) -> Wanted
    ensures { result ≡ spec.in_part_with part.now head.now last.now anew }
{
    let opened = parens_after(part);
    let can_stand = behind_part(part, head, last, opened, compared_after(opened, part));
    if anew { ended(can_stand) } else { can_stand }
}

/// What was wanted behind the part with these tokens, and what if it has none.
fn in_part(part: &[Token], token: &Token, next: Option<&Token>, start: Wanted) -> Wanted
    ensures { result ≡ spec.in_part part.now token.now (option_map (λ token. token.now) next.entry)
        start }
{
    let (Some(head), Some(last)) = (token_at(part, 0), last_of(part)) else {
        return start;
    };
    in_part_with(part, &head.what, &last.what, begins_anew(token, next))
}

/// What was wanted behind tokens, where the first of the others can't follow.
pub fn wanted_at(
    alloc: Global,
    front: &[Token],
    token: &Token,
    next: Option<&Token>,
) -> Result<Wanted, Oom>
    ensures { IfOk result (λ wanted. wanted ≡ spec.wanted_at front.now token.now
        (option_map (λ token. token.now) next.entry)) }
{
    let block = open_block(alloc, front)?;
    let start = at_start(block, ends_if(alloc, front)?, &token.what);
    Ok(in_part(part_of(front), token, next, start))
}
