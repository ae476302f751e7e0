//! From the bytes of a text to the script that it is, or to what is wrong with it first.
ghost use Rattle.std.specs.Prelude.{◌≡◌, ◌⊎◌, List, IfOk, IfErr};
ghost use Rattle.tj_syntax.specs.ScriptTexts.{IsFirstFault, IsMemory, IsScriptOf, IsSomeScript, position_of};
ghost use Rattle.tj_syntax.specs.Trees.{Task};
ghost use Rattle.tj_syntax.specs.View as view;

use crate::fault::ParseFault;
use crate::read_script::parse;
use crate::script::Script;
use crate::text_ends::position_behind;
use std::alloc::Global;
use tj_lex::{LexFault, MAX_TEXT, Place, short_tokens};

/// Why bytes give no script. Want of memory is one of the tokens' faults and of the grammar's.
#[derive(Clone, Copy, Debug)]
pub enum NoScript {
    /// They are too many: the position of the first byte too many.
    Long(Place),
    /// Their tokens have a fault.
    Tokens(LexFault),
    /// Their tokens are no script.
    Grammar(ParseFault),
}

impl NoScript {
    /// Where the text has its fault. Want of memory has no position.
    pub fn position(&self) -> Option<Place>
        // It is the position of the text's fault, and None for want of memory alone.
        ensures { result ≡ position_of self.now }
    {
        match self {
            NoScript::Long(at) => Some(*at),
            NoScript::Tokens(fault) => position_in_tokens(fault),
            NoScript::Grammar(fault) => position_in_grammar(fault),
        }
    }
}

fn position_in_tokens(fault: &LexFault) -> Option<Place>
    ensures { result ≡ position_of (NoScript.Tokens fault.now) }
{
    match fault {
        LexFault::Byte(at) | LexFault::Number(at) | LexFault::Long(at) => Some(*at),
        LexFault::Oom => None,
    }
}

fn position_in_grammar(fault: &ParseFault) -> Option<Place>
    ensures { result ≡ position_of (NoScript.Grammar fault.now) }
{
    match fault {
        ParseFault::Expected(at)
        | ParseFault::Unknown(at)
        | ParseFault::Twice(at)
        | ParseFault::Count(at)
        | ParseFault::NoMain(at)
        | ParseFault::MainParams(at)
        | ParseFault::Deep(at)
        | ParseFault::Many(at) => Some(*at),
        ParseFault::Oom => None,
    }
}

/// The script that a text is, which may have 1,048,576 bytes.
pub fn script_in(alloc: Global, text: &[u8]) -> Result<Script, NoScript>
    // Where there is a script, the text has at most 1,048,576 bytes, and its tokens are that
    // script.
    ensures ok { IfOk result (λ script. IsScriptOf text.now (view.script script)) }
    ensures script { IfOk result (λ script. IsSomeScript (view.script script)) }

    // A fault is want of memory, or what is wrong first with the text: its first byte too many,
    // else the first fault of its tokens, else that of the grammar, each with its place.
    ensures fault { IfErr result (λ fault. IsMemory fault ⊎ IsFirstFault text.now fault) }
    // A text that is a script is refused for want of memory alone.
    ensures refused { IfErr result (λ fault. IsMemory fault
        ⊎ ((script : List Task) → IsScriptOf text.now script → ⊥)) }
{
    if text.len() > MAX_TEXT {
        let (front, _) = text.split_at(MAX_TEXT);
        return Err(NoScript::Long(position_behind(front)));
    }
    let found = match short_tokens(alloc, text) {
        Ok(found) => found,
        Err(fault) => return Err(NoScript::Tokens(fault)),
    };
    match parse(alloc, text, found.as_slice()) {
        Ok(script) => Ok(script),
        Err(fault) => Err(NoScript::Grammar(fault)),
    }
}
