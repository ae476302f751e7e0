//! A law of texts and scripts. It speaks of the definitions alone.
ghost use Rattle.std.specs.Prelude.{ℕ, List};
ghost use Rattle.tj_command.specs.OneScript.{IsOneScript};

use tj_lex::laws::one_answer;
use tj_syntax::laws::{one_fault, one_script, scripts_have_no_fault};

/// A text has its tokens once, is one script at most, and has one first fault at most, but none where
/// it is a script.
pub fn one_script_or_fault()
    // Law: a text has its tokens once, is one script at most, has one first fault at most, and none
    // where it is a script.
    ensures { (text : List ℕ) → IsOneScript text }
{
    one_answer();
    one_script();
    one_fault();
    scripts_have_no_fault();
}
