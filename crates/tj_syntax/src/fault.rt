//! Why a list of tokens is no script.
use std::alloc::{AllocError, AllocFailed};
use tj_lex::Place;

/// The first fault of a list of tokens, with its position.
#[derive(Clone, Copy, Debug)]
pub enum ParseFault {
    /// A token that can't follow.
    Expected(Place),
    /// A variable that isn't known, or a fork of a task that isn't declared.
    Unknown(Place),
    /// A name that is declared already.
    Twice(Place),
    /// A fork with another number of arguments than the task has parameters.
    Count(Place),
    /// No task `main`.
    NoMain(Place),
    /// The task `main` has parameters.
    MainParams(Place),
    /// A brace, parenthesis or sign that opens more than 64 levels.
    Deep(Place),
    /// One variable of a task, or one task, too many.
    Many(Place),
    /// Memory could not be had.
    Oom,
}

/// How a token can break a rule of names or of numbers.
#[derive(Clone, Copy)]
pub(crate) enum Breach {
    Unknown,
    Twice,
    Count,
    Deep,
    Many,
}

/// Why the reading of tokens stopped: a fault at a token, told by how many tokens are left from it
/// on, or want of memory.
#[derive(Clone, Copy)]
pub(crate) enum Stop {
    Expected(usize),
    Broken(Breach, usize),
    NoMain,
    /// At the name `main`.
    MainParams(usize),
    Oom,
}

impl From<AllocError> for Stop {
    ghost use Rattle.std.specs.Prelude.{◌≡◌};
    ghost use Rattle.tj_syntax.specs.declared.fault.Stop.TheVariants.{Oom};

    ghost from_gives = { λ _ stop. stop ≡ Oom };

    fn from(_error: AllocError) -> Stop {
        Stop::Oom
    }
}

impl<T: Drop> From<AllocFailed<T>> for Stop {
    ghost use Rattle.std.specs.Prelude.{◌≡◌};
    ghost use Rattle.tj_syntax.specs.declared.fault.Stop.TheVariants.{Oom};

    ghost from_gives = { λ _ stop. stop ≡ Oom };

    fn from(_failed: AllocFailed<T>) -> Stop {
        Stop::Oom
    }
}
