//! Parsing a whole script: first the tokens one by one, then the forks, then the task `main`.
ghost use Rattle.std.specs.Prelude.{◌≡◌, ◌⊎◌, ◌≤◌, [], ◌∷◌, ◌++◌, All, List, IfErr, IfOk, MatchResult};
ghost use Rattle.std.specs.Prelude.{length, map};
ghost use Rattle.std.specs.List.{AllByRecursion};
ghost use Rattle.tj_lex.specs.Shorts.{IsIn, whole_tokens};
ghost use Rattle.tj_lex.specs.Tokens.{AreTokens};
ghost use Rattle.tj_syntax.specs.Faults.{EndsInEnd, IsFirstFault, IsScript, kinds_of};
ghost use Rattle.tj_syntax.specs.Listing.{CanStand, listing};
ghost use Rattle.tj_syntax.specs.Inner.Stops.{AreLeft, IsFirstStop, fault_at};
ghost use Rattle.tj_syntax.specs.Trees.{Task};
ghost use Rattle.tj_syntax.specs.View as view;

use crate::ahead::Ahead;
use crate::fault::{Breach, ParseFault, Stop};
use crate::heads::Heads;
use crate::names::Names;
use crate::parser::Parser;
use crate::script::{Decl, Script};
use crate::text_ends::position_behind;
use std::alloc::Global;
use tj_lex::{MAX_TEXT, Place, Short, Tok, Token};

/// Where a text begins.
const START: Place = Place { line: 1, column: 1 };

/// The script that the tokens are, or their first fault.
// It asks only that the last token is the end: an end before that can follow nothing.
pub fn parse(alloc: Global, text: &[u8], tokens: &[Short]) -> Result<Script, ParseFault>
    requires short { length text.now ≤ MAX_TEXT }
    requires within { All (IsIn text.now) tokens.now }
    requires end { EndsInEnd (whole_tokens text.now tokens.now) }
    // What `Ok` holds is a script that the tokens are by the grammar, within its limits, with each
    // fork of a declared task and with as many arguments as it has parameters, and a `main` without
    // parameters.
    ensures ok { IfOk result (λ script.
        IsScript (kinds_of (whole_tokens text.now tokens.now)) (view.script script)) }

    /// What is refused has this fault first, unless memory ran out.
    // An error is the first fault of the tokens, of that kind and at its position, or the answer is
    // want of memory.
    ensures fault { IfErr result (λ fault. (fault ≡ ParseFault.Oom)
        ⊎ IsFirstFault (whole_tokens text.now tokens.now) fault) }

    /// The tokens are refused only where they are no script, unless memory ran out.
    // Tokens are refused only where they are no script, or the answer is want of memory.
    ensures err { IfErr result (λ fault. (fault ≡ ParseFault.Oom)
        ⊎ ((script : List Task)
        → IsScript (kinds_of (whole_tokens text.now tokens.now)) script → ⊥)) }

    /// The tokens of a script's listing, at any length, give an equal script, unless memory ran
    /// out.
    // The tokens of the listing of a script that some tokens of a text are, at any length, give an
    // equal script, or the answer is want of memory.
    ensures listed { (script : List Task) (given : List Tok) → AllByRecursion CanStand given
        → IsScript given script → AreTokens (listing script) (whole_tokens text.now tokens.now)
        → MatchResult result (λ found. view.script found ≡ script) (λ fault. fault ≡ ParseFault.Oom) }
{
    match tasks_of(alloc, text, &tokens[..tokens.len() - 1]) {
        Ok(tasks) => Ok(Script { tasks }),
        Err(stop) => Err(fault(text, tokens, stop)),
    }
}

/// The tasks of a script without its end.
fn tasks_of(alloc: Global, text: &[u8], body: &[Short]) -> Result<Vec<Decl>, Stop>
    requires { All (IsIn text.now) body.now }
    ensures ok { IfOk result (λ tasks.
        IsScript (kinds_of (whole_tokens text.now body.now) ++ Tok.End ∷ [])
        (map view.task tasks.items)) }
    ensures fault { IfErr result (λ stop. (stop ≡ Stop.Oom)
        ⊎ ((last : Token) → last.what ≡ Tok.End
        → IsFirstStop (whole_tokens text.now body.now ++ last ∷ []) stop)) }
{
    let Ok(heads) = Heads::of(alloc, text, body) else {
        return Err(Stop::Oom);
    };
    let main = heads.get(b"main");
    let mut parser = Parser {
        alloc,
        ahead: Ahead { text, rest: body },
        vars: Names::new(alloc),
        heads,
        flaw: None,
    };
    let tasks = parser.tasks()?;
    if let Some(stop) = parser.flaw {
        return Err(stop);
    }
    match main {
        None => Err(Stop::NoMain),
        Some(head) if head.params > 0 => Err(Stop::MainParams(head.left)),
        Some(_) => Ok(tasks),
    }
}

/// The fault for which the reading of these tokens stopped. The end is the last of them.
fn fault(text: &[u8], tokens: &[Short], stop: Stop) -> ParseFault
    requires short { length text.now ≤ MAX_TEXT }
    requires within { All (IsIn text.now) tokens.now }
    ensures { (front back : List Token) (token : Token)
        → whole_tokens text.now tokens.now ≡ front ++ token ∷ back
        → AreLeft stop (length back) → result ≡ fault_at stop token.at }
{
    match stop {
        Stop::Expected(left) => ParseFault::Expected(position(text, tokens, left)),
        Stop::Broken(Breach::Unknown, left) => ParseFault::Unknown(position(text, tokens, left)),
        Stop::Broken(Breach::Twice, left) => ParseFault::Twice(position(text, tokens, left)),
        Stop::Broken(Breach::Count, left) => ParseFault::Count(position(text, tokens, left)),
        Stop::Broken(Breach::Deep, left) => ParseFault::Deep(position(text, tokens, left)),
        Stop::Broken(Breach::Many, left) => ParseFault::Many(position(text, tokens, left)),
        Stop::NoMain => ParseFault::NoMain(START),
        Stop::MainParams(left) => ParseFault::MainParams(position(text, tokens, left)),
        Stop::Oom => ParseFault::Oom,
    }
}

/// The position of the token behind which so many stand.
fn position(text: &[u8], tokens: &[Short], left: usize) -> Place
    requires short { length text.now ≤ MAX_TEXT }
    requires within { All (IsIn text.now) tokens.now }
    ensures { (front back : List Token) (token : Token)
        → whole_tokens text.now tokens.now ≡ front ++ token ∷ back
        → left ≡ length back → result ≡ token.at }
{
    if left < tokens.len() {
        position_behind(&text[..tokens[tokens.len() - 1 - left].from as usize])
    } else {
        START
    }
}
