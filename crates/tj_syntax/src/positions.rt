//! Where the parts of a script stand: each task, each of its statements, each ask.
ghost use Rattle.std.specs.Prelude.{◌≡◌, ◌+◌, ◌<◌, ◌≤◌, ◌∷◌, ◌++◌, [], IfOk, OnOk, List, drop, length, map};
ghost use Rattle.std.specs.Prelude.{slice_get, true};
ghost use Rattle.std.specs.Option.{option_map};
ghost use Rattle.tj_syntax.specs.Faults.{kinds_of, tokens_of};
ghost use Rattle.tj_syntax.specs.Grammar.{IsProgram};
ghost use Rattle.tj_syntax.specs.Inner.Scan as scan;
ghost use Rattle.tj_syntax.specs.Marks.{Noted};
ghost use Rattle.tj_syntax.specs.Starts.{in_tasks, start};
ghost use Rattle.tj_syntax.specs.Trees.{Task};
ghost use Rattle.tj_syntax.specs.PlacesOf as spec;

use std::alloc::{AllocError, Global};
use tj_lex::{Key, Mark, Place, Tok, Token};

/// Where a statement begins, and where its ask does, if it has one.
#[derive(Clone, Copy)]
pub struct StatementPlace {
    pub at: Place,
    pub ask: Option<Place>,
}

/// Where a task begins, where its statements do, in the order of the text, and where its closing
/// brace stands.
#[derive(Drop)]
pub struct TaskPlaces {
    pub at: Place,
    pub statements: Vec<StatementPlace>,
    pub brace: Place,
}

/// Where the parts of each task stand.
#[derive(Drop)]
pub struct ScriptPlaces {
    pub tasks: Vec<TaskPlaces>,
}

/// Where the parts of a script stand.
pub fn places(alloc: Global, tokens: &[Token]) -> Result<ScriptPlaces, AllocError>
    // Of tokens that the grammar allows, whatever rules of names and numbers they break, it gives
    // the positions that the derivation has: of each task, of its statements in the order of the
    // text, of the ask of each that has one, and of its closing brace.
    ensures { IfOk result (λ found. (notes : List Noted) (script : List Task)
        (derived : IsProgram notes script) → kinds_of tokens.now ≡ tokens_of notes ++ Tok.End ∷ []
        → spec.view found ≡ spec.places_of tokens.now (in_tasks derived 0)) }
{
    scanned(alloc, tokens)
}

/// The parts of each task, read off the tokens.
fn scanned(alloc: Global, tokens: &[Token]) -> Result<ScriptPlaces, AllocError>
    ensures { IfOk result (λ found. spec.view found
        ≡ spec.places_of tokens.now (scan.tasks_from 0 (kinds_of tokens.now))) }
{
    let mut tasks = Vec::new(alloc);
    for at in 0..tokens.len() {
        add_task(alloc, &mut tasks, tokens, at)?;
    }
    Ok(ScriptPlaces { tasks })
}

/// Adds the task that begins at a token, if one does.
fn add_task(
    alloc: Global,
    tasks: &mut Vec<TaskPlaces>,
    tokens: &[Token],
    at: usize,
) -> Result<(), AllocError>
    requires { at < length tokens.now }
    ensures { OnOk result (map spec.view_task tasks.new.items ≡ map spec.view_task tasks.old.items
        ++ map (spec.task_place tokens.now) (scan.task_in (kinds_of (drop at tokens.now)) at)) }
{
    if begins_task(&tokens[at]) {
        let found = task_places(alloc, tokens, at)?;
        tasks.push(found)?;
    }
    Ok(())
}

/// The parts of the task that begins at a token.
fn task_places(alloc: Global, tokens: &[Token], at: usize) -> Result<TaskPlaces, AllocError>
    requires { at < length tokens.now }
    ensures { IfOk result (λ found. spec.view_task found ≡ spec.task_place tokens.now
        (scan.task_from at (kinds_of (drop (at + 1) tokens.now)))) }
{
    let mut statements = Vec::new(alloc);
    let mut brace = at;
    let mut fresh = false;
    let mut i = at + 1;
    'scan: while goes_on(tokens, i) {
        add_statement(&mut statements, tokens, i, fresh)?;
        brace = brace_at(tokens, i, brace);
        fresh = ends_part(&tokens[i]);
        i += 1;
    }
    Ok(TaskPlaces {
        at: tokens[at].at,
        statements,
        brace: tokens[brace].at,
    })
}

/// Whether a token belongs to the task of the one in front of it.
fn goes_on(tokens: &[Token], i: usize) -> bool
    ensures value { result ≡ scan.goes_on (kinds_of (drop i tokens.now)) }
    ensures within { result ≡ true → i < length tokens.now }
{
    if i < tokens.len() {
        !is_behind(&tokens[i])
    } else {
        false
    }
}

/// Adds the statement that begins at a token, if one may begin and does.
fn add_statement(
    statements: &mut Vec<StatementPlace>,
    tokens: &[Token],
    i: usize,
    fresh: bool,
) -> Result<(), AllocError>
    requires { i < length tokens.now }
    ensures { OnOk result (statements.new.items ≡ statements.old.items
        ++ map (spec.statement_place tokens.now) (scan.start_in fresh (kinds_of (drop i tokens.now)) i)) }
{
    if fresh && begins_part(&tokens[i]) {
        let found = statement_place(tokens, i);
        statements.push(found)?;
    }
    Ok(())
}

/// Where the statement that begins at a token stands.
fn statement_place(tokens: &[Token], i: usize) -> StatementPlace
    requires { i < length tokens.now }
    ensures { result ≡ spec.statement_place tokens.now
        (start i (scan.ask_of (kinds_of (drop i tokens.now)) i)) }
{
    let at = tokens[i].at;
    let offset = ask_offset(&tokens[i]);
    let ask = ask_at(tokens, i + offset);
    StatementPlace { at, ask }
}

/// The last brace so far, which is this token if it is one.
fn brace_at(tokens: &[Token], i: usize, last: usize) -> usize
    requires i { i < length tokens.now }
    requires last { last < length tokens.now }
    ensures within { result < length tokens.now }
    ensures value { result ≡ scan.last_brace (kinds_of (drop i tokens.now)) i last }
{
    if matches!(tokens[i].what, Tok::Mark(Mark::BraceClose)) {
        i
    } else {
        last
    }
}

/// How many tokens stand between a statement's first token and its ask, if it has one.
fn ask_offset(token: &Token) -> usize
    ensures value { result ≡ scan.ask_offset token.now.what }
    ensures small { result ≤ 3 }
{
    match &token.what {
        Tok::Key(Key::Let) => 3,
        Tok::Name(_) => 2,
        _ => 0,
    }
}

/// The place of a token, if an ask begins there.
fn ask_at(tokens: &[Token], n: usize) -> Option<Place>
    ensures { result ≡ option_map (spec.place_at tokens.now) (scan.ask_at (slice_get (kinds_of tokens.now) n) n) }
{
    if n < tokens.len() && begins_ask(&tokens[n]) {
        Some(tokens[n].at)
    } else {
        None
    }
}

/// Whether a task begins at a token.
fn begins_task(token: &Token) -> bool
    ensures { result ≡ scan.begins_task token.now.what }
{
    matches!(token.what, Tok::Key(Key::Task))
}

/// Whether a token stands behind a whole task.
fn is_behind(token: &Token) -> bool
    ensures { result ≡ scan.is_behind token.now.what }
{
    matches!(token.what, Tok::Key(Key::Task) | Tok::End)
}

/// Whether a statement may begin behind a token.
fn ends_part(token: &Token) -> bool
    ensures { result ≡ scan.ends_part token.now.what }
{
    matches!(
        token.what,
        Tok::Mark(Mark::BraceOpen | Mark::BraceClose | Mark::Semi)
    )
}

/// Whether a token begins a statement, where one may begin.
fn begins_part(token: &Token) -> bool
    ensures { result ≡ scan.begins_part token.now.what }
{
    !matches!(
        token.what,
        Tok::Mark(Mark::BraceClose) | Tok::Key(Key::Else)
    )
}

/// Whether a token begins an ask.
fn begins_ask(token: &Token) -> bool
    ensures { result ≡ scan.begins_ask token.now.what }
{
    matches!(
        token.what,
        Tok::Key(Key::New | Key::Fork | Key::Get | Key::Join)
    )
}
