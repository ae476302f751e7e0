//! The test before the parse: only words that can stand in a command line come to the parser.
//!
//! It knows other forms too, as `--cells=5` and `--`.
ghost use Rattle.std.specs.Prelude.{IsTrue, ◌↔◌};
ghost use Rattle.tj_modes.specs.Inner.LineWords.{AreLineWords, IsLineWord};

use crate::mode::Mode;
use tj_command::is_short_numeral;

/// Whether the first word is a mode and each later one may stand behind it.
pub fn are_line_words(words: &[String]) -> bool
    ensures { IsTrue result ↔ AreLineWords words.now }
{
    match words {
        [first, rest @ ..] => {
            Mode::of(first.as_str()).is_some()
                && rest.iter().all(|word| is_line_word(word.as_str()))
        }
        [] => false,
    }
}

// Whether the word is an option, the flag or a number.
fn is_line_word(word: &str) -> bool
    ensures { IsTrue result ↔ IsLineWord word.now }
{
    match word {
        "--workers" | "--cells" | "--steps" | "--size" | "--strict" => true,
        _ => is_short_numeral(word.as_bytes()),
    }
}
