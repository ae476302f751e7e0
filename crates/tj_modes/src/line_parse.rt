//! The parse of a command line with clap, over words that passed the test before it.
ghost use Rattle.std.specs.Prelude.{◌≡◌, IfOk, MatchOption, false};
ghost use Rattle.clap.specs.Words.{app_of, rule_of};
ghost use Rattle.tj_modes.specs.Inner.LineWords.{AreLineWords, HasNoReading};
ghost use Rattle.tj_modes.specs.Inner.LineParse.{AreMatchesOf, flag_rule};
ghost use Rattle.tj_modes.specs.Inner.LineParse.{line_app, option_rule, required_rule};

use clap::error::ErrorKind;
use clap::{Arg, ArgAction, ArgMatches, Command};
use std::alloc::Global;
use tj_base::Oom;

/// The matches of the words, or None where an option has no number, or an item stands twice.
pub fn matches_of<'a>(alloc: Global, words: &'a [String]) -> Result<Option<ArgMatches<'a>>, Oom>
    requires words { AreLineWords words.now }
    ensures { IfOk result (λ found.
        MatchOption found (HasNoReading words.now) (AreMatchesOf words.now)) }
{
    match line_command(alloc)?.try_get_matches_from(words) {
        Ok(matches) => Ok(Some(matches)),
        Err(error) if error.kind() == ErrorKind::OutOfMemory => Err(Oom),
        Err(_fault) => Ok(None),
    }
}

// The mode, four options and the flag.
fn line_command<'a>(alloc: Global) -> Result<Command<'a>, Oom>
    ensures { IfOk result (λ command. app_of command ≡ line_app) }
{
    let command = Command::new(alloc, "tj")
        .no_binary_name(true)
        .disable_help_flag(true)
        .arg(required_of(alloc, "mode"))?
        .arg(option_of(alloc, "workers"))?
        .arg(option_of(alloc, "cells"))?
        .arg(option_of(alloc, "steps"))?
        .arg(option_of(alloc, "size"))?
        .arg(flag_of(alloc, "strict"))?;
    Ok(command)
}

// A word that has to be there.
fn required_of<'a>(alloc: Global, name: &'a str) -> Arg<'a>
    ensures rule { rule_of result ≡ required_rule name.entry.now }
    ensures local { result.global ≡ false }
{
    Arg::new(alloc, name).required(true)
}

// An option of one value.
fn option_of<'a>(alloc: Global, name: &'a str) -> Arg<'a>
    ensures rule { rule_of result ≡ option_rule name.entry.now }
    ensures local { result.global ≡ false }
{
    Arg::new(alloc, name).long(name)
}

// An option without a value.
fn flag_of<'a>(alloc: Global, name: &'a str) -> Arg<'a>
    ensures rule { rule_of result ≡ flag_rule name.entry.now }
    ensures local { result.global ≡ false }
{
    Arg::new(alloc, name).long(name).action(ArgAction::SetTrue)
}
