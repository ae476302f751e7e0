//! The modes, and the options of each: the tables of the command line.
ghost use Rattle.std.specs.Prelude.{◌≡◌, ◌≢◌, MatchOption};
ghost use Rattle.tj_modes.specs.CommandLine.{default, greatest, has_flag, mode_text};
ghost use Rattle.tj_modes.specs.Inner.LineParse.{id_of};

use tj_command::MAX_WORD_CELLS;
use tj_core::MAX_CORE_CELLS;
use tj_eval::MAX_STEPS;
use tj_gen::MAX_SIZE;

/// What the program is to do.
#[derive(Clone, Copy)]
pub enum Mode {
    Run,
    Plan,
    List,
    Judge,
    Gen,
    Known,
    Relay,
    Watch,
}

/// An option that takes a number.
#[derive(Clone, Copy)]
pub enum OptionName {
    Workers,
    Cells,
    Steps,
    Size,
}

impl Mode {
    /// The mode of this word.
    pub fn of(word: &str) -> Option<Mode>
        ensures { MatchOption result ((mode : Mode) → word.now ≢ mode_text mode)
            (λ mode. word.now ≡ mode_text mode) }
    {
        match word {
            "run" => Some(Mode::Run),
            "plan" => Some(Mode::Plan),
            "list" => Some(Mode::List),
            "judge" => Some(Mode::Judge),
            "gen" => Some(Mode::Gen),
            "known" => Some(Mode::Known),
            "relay" => Some(Mode::Relay),
            "watch" => Some(Mode::Watch),
            _ => None,
        }
    }

    /// The greatest number that the option may have, or None where the mode hasn't the option.
    pub fn greatest(self, name: OptionName) -> Option<u32>
        ensures { result ≡ greatest self name }
    {
        match (name, self) {
            (OptionName::Workers, Mode::Run | Mode::Gen | Mode::Relay | Mode::Watch) => Some(64),
            (OptionName::Cells, Mode::Judge) => Some(MAX_CORE_CELLS),
            (OptionName::Cells, Mode::Known) => Some(4096),
            (OptionName::Cells, Mode::List) => None,
            (OptionName::Cells, _) => Some(MAX_WORD_CELLS),
            (OptionName::Size, Mode::Gen | Mode::Relay) => Some(MAX_SIZE),
            (OptionName::Steps, Mode::List | Mode::Judge | Mode::Relay) => None,
            (OptionName::Steps, _) => Some(MAX_STEPS),
            _ => None,
        }
    }

    /// What stands for the option where it is absent.
    pub fn default(self, name: OptionName) -> u32
        ensures { result ≡ default self name }
    {
        match (name, self) {
            (OptionName::Workers, _) => 4,
            (OptionName::Cells, Mode::Judge) => 256,
            (OptionName::Cells, _) => 4096,
            (OptionName::Steps, _) => 100_000,
            (OptionName::Size, _) => 100,
        }
    }

    /// Whether `--strict` is a flag of the mode.
    pub fn has_flag(self) -> bool
        ensures { result ≡ has_flag self }
    {
        match self {
            Mode::Run | Mode::Plan => true,
            Mode::List | Mode::Judge | Mode::Gen | Mode::Known | Mode::Relay | Mode::Watch => false,
        }
    }
}

impl OptionName {
    /// The name without its hyphens.
    pub fn id(self) -> &'static str
        ensures { result.now ≡ id_of self }
    {
        match self {
            OptionName::Workers => "workers",
            OptionName::Cells => "cells",
            OptionName::Steps => "steps",
            OptionName::Size => "size",
        }
    }
}
