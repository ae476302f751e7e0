//! What the words of the command line ask for.
//!
//! A word that can't stand in a command line, as `--cells=5`, is refused before clap reads them,
//! and what the mode hasn't, or is past its limits, behind it.
ghost use Rattle.std.specs.Prelude.{ℕ, ◌≡◌, List, Option, IfOk, IfSome, MatchOption};
ghost use Rattle.std.specs.List.{list_any};
ghost use Rattle.clap.specs.Words.{first_value, found_of};
ghost use Rattle.tj_modes.specs.CommandLine.{HasNoForm, IsCommand, IsShortNumeral, Item, asked};
ghost use Rattle.tj_modes.specs.CommandLine.{is_flag};
ghost use Rattle.tj_modes.specs.Inner.LineWords.{AreItems};
ghost use Rattle.tj_modes.specs.Inner.LineParse.{Finds, FindsDigits};
ghost use Rattle.tj_modes.specs.Inner.LineNumbers.{AreNumbersOf};
ghost use Rattle.tj_modes.specs.Inner.LineParse.{id_of};
ghost use Rattle.tj_modes.specs.Inner.LineNumbers.{HasNumbers, IsAnswerTo, IsNumberOf};

use crate::line_parse::matches_of;
use crate::line_words::are_line_words;
use crate::mode::{Mode, OptionName};
use clap::ArgMatches;
use std::alloc::Global;
use tj_base::Oom;
use tj_command::number_up_to;

/// What the words ask for.
// Each variant has what its mode has, and no more.
#[derive(Clone, Copy)]
pub enum Command {
    Run {
        workers: u32,
        cells: u32,
        steps: u32,
        strict: bool,
    },
    Plan {
        cells: u32,
        steps: u32,
        strict: bool,
    },
    List,
    Judge {
        cells: u32,
    },
    Gen {
        size: u32,
        workers: u32,
        cells: u32,
        steps: u32,
    },
    Known {
        cells: u32,
        steps: u32,
    },
    Relay {
        size: u32,
        workers: u32,
        cells: u32,
    },
    Watch {
        workers: u32,
        cells: u32,
        steps: u32,
    },
}

// A number for each option, given or not.
#[derive(Clone, Copy)]
struct Numbers {
    workers: u32,
    cells: u32,
    steps: u32,
    size: u32,
}

/// The command that the words are, or None where they have no form.
pub fn command_of(alloc: Global, words: &[String]) -> Result<Option<Command>, Oom>
    // It is what the words ask for by the form of the command line, and None exactly where they
    // have none.
    ensures { IfOk result (λ found. MatchOption found (HasNoForm words.now) (IsCommand words.now)) }
{
    if !are_line_words(words) {
        return Ok(None);
    }
    match matches_of(alloc, words)? {
        Some(matches) => Ok(command_in(&matches)),
        None => Ok(None),
    }
}

// What the matches ask for, or None where the mode hasn't an item or a number is past its limits.
fn command_in(matches: &ArgMatches<'_>) -> Option<Command>
    ensures { (mode : Mode) (items : List Item) → AreItems items → Finds matches.now mode items
        → IsAnswerTo mode items result }
{
    let mode = Mode::of(matches.get_str("mode")?)?;
    let numbers = numbers_in(matches, mode)?;
    let strict = matches.get_flag("strict");
    if strict && !mode.has_flag() {
        return None;
    }
    Some(command_for(mode, numbers, strict))
}

// The numbers of all options, or None where one of them doesn't fit.
fn numbers_in(matches: &ArgMatches<'_>, mode: Mode) -> Option<Numbers>
    ensures { (items : List Item) → AreItems items → FindsDigits matches.now items
        → AreNumbersOf mode items result }
{
    Some(Numbers {
        workers: number_in(matches, mode, OptionName::Workers)?,
        cells: number_in(matches, mode, OptionName::Cells)?,
        steps: number_in(matches, mode, OptionName::Steps)?,
        size: number_in(matches, mode, OptionName::Size)?,
    })
}

// The option's number, or None where the mode hasn't the option or the number is past its limits.
fn number_in(matches: &ArgMatches<'_>, mode: Mode, name: OptionName) -> Option<u32>
    ensures { (digits : Option (List ℕ)) → first_value (found_of matches.now) (id_of name) ≡ digits
        → IfSome digits IsShortNumeral → IsNumberOf mode name digits result }
{
    let Some(digits) = matches.get_str(name.id()) else {
        return Some(mode.default(name));
    };
    let most = mode.greatest(name)?;
    number_up_to(most, digits)
}

// What the mode asks for with these numbers.
fn command_for(mode: Mode, numbers: Numbers, strict: bool) -> Command
    ensures { (items : List Item) → HasNumbers mode items numbers → strict ≡ list_any is_flag items
        → result ≡ asked mode items }
{
    let Numbers {
        workers,
        cells,
        steps,
        size,
    } = numbers;
    match mode {
        Mode::Run => Command::Run {
            workers,
            cells,
            steps,
            strict,
        },
        Mode::Plan => Command::Plan {
            cells,
            steps,
            strict,
        },
        Mode::List => Command::List,
        Mode::Judge => Command::Judge { cells },
        Mode::Gen => Command::Gen {
            size,
            workers,
            cells,
            steps,
        },
        Mode::Known => Command::Known { cells, steps },
        Mode::Relay => Command::Relay {
            size,
            workers,
            cells,
        },
        Mode::Watch => Command::Watch {
            workers,
            cells,
            steps,
        },
    }
}
