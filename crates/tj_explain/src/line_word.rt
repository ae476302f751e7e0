//! The words that can begin an item of the command line.
ghost use Rattle.std.specs.Prelude.{◌≡◌, ◌≢◌, MatchOption};
ghost use Rattle.tj_explain.specs.WhyLine.{greatest_of, word_text};
ghost use Rattle.tj_explain.specs.declared.line_word.LineWord.{LineWord};

use tj_command::MAX_WORD_CELLS;
use tj_eval::MAX_STEPS;

/// An option that takes a number.
#[derive(Clone, Copy)]
pub enum OptionName {
    Cells,
    Steps,
}

/// An option without a number.
#[derive(Clone, Copy)]
pub enum Flag {
    Strict,
    Short,
    All,
    Dot,
    Json,
}

/// The word of an option.
#[derive(Clone, Copy)]
pub enum LineWord {
    Numbered(OptionName),
    Alone(Flag),
}

impl LineWord {
    /// The option of this word.
    pub fn of(word: &str) -> Option<LineWord>
        ensures { MatchOption result ((option : LineWord) → word.now ≢ word_text option)
            (λ option. word.now ≡ word_text option) }
    {
        match word {
            "--cells" => Some(LineWord::Numbered(OptionName::Cells)),
            "--steps" => Some(LineWord::Numbered(OptionName::Steps)),
            "--strict" => Some(LineWord::Alone(Flag::Strict)),
            "--short" => Some(LineWord::Alone(Flag::Short)),
            "--all" => Some(LineWord::Alone(Flag::All)),
            "--dot" => Some(LineWord::Alone(Flag::Dot)),
            "--json" => Some(LineWord::Alone(Flag::Json)),
            _ => None,
        }
    }
}

impl OptionName {
    /// The greatest number that the option may have.
    pub fn greatest(self) -> u32
        ensures { result ≡ greatest_of self }
    {
        match self {
            OptionName::Cells => MAX_WORD_CELLS,
            OptionName::Steps => MAX_STEPS,
        }
    }
}
