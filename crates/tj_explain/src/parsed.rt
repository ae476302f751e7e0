//! The script of a text whose tokens are known.
ghost use Rattle.std.specs.Prelude.{◌≡◌, ◌⊎◌, ◌≤◌, List, IfErr, IfOk, length};
ghost use Rattle.tj_lex.specs.Tokens.{AreTokens};
ghost use Rattle.tj_syntax.specs.Faults.{IsFirstFault, IsScript, kinds_of};
ghost use Rattle.tj_syntax.specs.View as view;

use std::alloc::Global;
use tj_lex::{MAX_TEXT, Token, short_tokens};
use tj_syntax::{ParseFault, Script, parse};

/// The script that the tokens of a text are, or their first fault.
pub(crate) fn parsed(alloc: Global, text: &[u8]) -> Result<Script, ParseFault>
    requires { length text.now ≤ MAX_TEXT }
    // The tokens of the text, if it has any, are the script.
    ensures ok { IfOk result (λ script. (tokens : List Token) → AreTokens text.now tokens
        → IsScript (kinds_of tokens) (view.script script)) }
    // The fault is want of memory, or the first of the tokens of the text, if it has any.
    ensures fault { IfErr result (λ fault. (fault ≡ ParseFault.Oom)
        ⊎ ((tokens : List Token) → AreTokens text.now tokens → IsFirstFault tokens fault)) }
{
    let Ok(shorts) = short_tokens(alloc, text) else {
        return Err(ParseFault::Oom);
    };
    parse(alloc, text, shorts.as_slice())
}
