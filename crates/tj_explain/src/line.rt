//! What the words of the command line ask for.
ghost use Rattle.std.specs.Prelude.{◌≡◌, None, MatchOption};
ghost use Rattle.tj_explain.specs.Inner.Readings.{AreRead, IsFlagTaken, IsNumberTaken};
ghost use Rattle.tj_explain.specs.WhyLine.{HasNoForm, IsCommand, asked, nothing};
ghost use Rattle.tj_explain.specs.WhyLine as spec;

use crate::line_word::{Flag, LineWord, OptionName};
use crate::telling::Telling;
use tj_command::{Limits, is_short_numeral, number_up_to};

/// What the words ask for: the limits of a run, and how what went wrong is told.
#[derive(Clone, Copy)]
pub struct WhyCommand {
    pub limits: Limits,
    pub telling: Telling,
    /// No source lines stand below failures and members of cycles.
    pub short: bool,
}

// What the words up to one of them say.
#[derive(Clone, Copy)]
struct Said {
    cells: Option<u32>,
    steps: Option<u32>,
    strict: bool,
    short: bool,
    json: bool,
    telling: Option<Telling>,
}

/// The command that the words are, or None where they have no form.
pub fn command_of(words: &[String]) -> Option<WhyCommand>
    ensures { MatchOption result (HasNoForm words.now) (IsCommand words.now) }
{
    let nothing = Said {
        cells: None,
        steps: None,
        strict: false,
        short: false,
        json: false,
        telling: None,
    };
    Some(said_by(nothing, words)?.asked())
}

// What the words say besides what was said, or None where they are not those of items that may stand.
fn said_by(said: Said, words: &[String]) -> Option<Said>
    ensures { AreRead said words.now result }
{
    let [word, behind @ ..] = words else {
        return Some(said);
    };
    match LineWord::of(word.as_str())? {
        LineWord::Numbered(name) => {
            let [digits, behind @ ..] = behind else {
                return None;
            };
            said_by(said.with_number(name, digits.as_str())?, behind)
        }
        LineWord::Alone(flag) => said_by(said.with_flag(flag)?, behind),
    }
}

impl Said {
    // With an option's number, or None where the option has one or the digits are no such number.
    fn with_number(self, name: OptionName, digits: &str) -> Option<Said>
        ensures { IsNumberTaken self name digits.now result }
    {
        if !is_short_numeral(digits.as_bytes()) {
            return None;
        }
        let number = number_up_to(name.greatest(), digits)?;
        match (name, self.cells, self.steps) {
            (OptionName::Cells, None, _) => Some(Said {
                cells: Some(number),
                ..self
            }),
            (OptionName::Steps, _, None) => Some(Said {
                steps: Some(number),
                ..self
            }),
            _ => None,
        }
    }

    // With a flag, or None where it was said, or `--dot` and one of `--all` and `--json` would be.
    fn with_flag(self, flag: Flag) -> Option<Said>
        ensures { IsFlagTaken self flag result }
    {
        match (flag, self.strict, self.short, self.json, self.telling) {
            (Flag::Strict, false, _, _, _) => Some(Said {
                strict: true,
                ..self
            }),
            (Flag::Short, _, false, _, _) => Some(Said {
                short: true,
                ..self
            }),
            (Flag::All, _, _, _, None) => Some(Said {
                telling: Some(Telling::All),
                ..self
            }),
            (Flag::Dot, _, _, false, None) => Some(Said {
                telling: Some(Telling::Dot),
                ..self
            }),
            (Flag::Json, _, _, false, None | Some(Telling::Wrong | Telling::All | Telling::Json)) =>
                Some(Said { json: true, ..self }),
            _ => None,
        }
    }

    // What is asked for, with what stands for an option that wasn't named.
    fn asked(self) -> WhyCommand
        ensures { result ≡ asked self }
    {
        WhyCommand {
            limits: Limits {
                cells: self.cells.unwrap_or(4096),
                steps: self.steps.unwrap_or(100_000),
                strict: self.strict,
            },
            telling: chosen(self.json, self.telling),
            short: self.short,
        }
    }
}

// How what went wrong is told, where this was said.
fn chosen(json: bool, telling: Option<Telling>) -> Telling
    ensures { result ≡ spec.chosen json telling }
{
    if json {
        Telling::Json
    } else {
        telling.unwrap_or(Telling::Wrong)
    }
}
