//! Laws of the output. They speak of the definitions alone.
ghost use Rattle.std.specs.Prelude.{◌≡◌, ◌<◌, ◌≤◌, ℕ, List, String};
ghost use Rattle.std.specs.declared.alloc.Global.{Global};
ghost use Rattle.tj_gen.specs.declared.script.TheConstants.{MAX_SIZE};
ghost use Rattle.tj_chan.specs.ChannelOutcomes.{IsChatOutcome};
ghost use Rattle.tj_chan.specs.ChannelRounds.{chat_meaning};
ghost use Rattle.tj_mean.specs.declared.outcome.Outcome.{Outcome};
ghost use Rattle.tj_modes.specs.CommandLine.{HasLimits};
ghost use Rattle.tj_modes.specs.RelayRuns.{relay_chats};
ghost use Rattle.tj_modes.specs.StrictRuns.{StrictRunsNeverWait};
ghost use Rattle.tj_modes.specs.KnownRuns.{KnownJoinsOfMeaningAreAlong};
ghost use Rattle.tj_modes.specs.Output.{IsOutput, IsStart};
ghost use Rattle.tj_modes.specs.Runs.{Start};
ghost use Rattle.tj_modes.specs.declared.command.Command.{Command};
ghost use Rattle.tj_command.specs.declared.status.Status.{Status};

use tj_chan::{ChanBody, Relay, channels_are_lists};
use tj_command::one_script_or_fault;
use tj_core::{one_judging, one_reading};
use tj_eval::ScriptBody;
use tj_eval::laws::{no_get, scripts_without_the_keyword};
use tj_known::known_is_along;
use tj_lex::laws::one_answer;
use tj_mean::{acts_can_be_worked_off, one_outcome, strict_outcome_has_no_wait};

/// Words and an input have one output at most: one status and one text.
pub fn one_output()
    // Law: words and an input have one output at most: one status and one text.
    ensures { (words : List (String Global)) (input : List ℕ) (a b : Status) (s t : List ℕ)
        → IsOutput words input a s → IsOutput words input b t → (a ≡ b) × (s ≡ t) }
{
    one_script_or_fault();
    one_outcome::<ScriptBody<'static>>();
    one_relay();
    one_reading();
    one_judging();
}

/// A relay has one outcome at most by channels as lists.
fn one_relay()
    ensures { (size cells : ℕ) → 0 < size → size ≤ MAX_SIZE → (a b : Outcome)
        → IsChatOutcome (chat_meaning (relay_chats size) cells) a
        → IsChatOutcome (chat_meaning (relay_chats size) cells) b → a ≡ b }
{
    channels_are_lists::<Relay>();
    one_outcome::<ChanBody<Relay>>();
}

/// No outcome of a script without the keyword `get` has a cycle or a task that waits, where it runs
/// under the strict rule.
pub fn strict_runs_never_wait()
    // Law, for each command within its limits and each input: if a script without the keyword `get`
    // runs under the strict rule, and its tasks may begin at most 1,000,000 statements each, no
    // outcome of its run has a cycle or a task that waits.
    ensures { (command : Command) (input : List ℕ) → HasLimits command
        → StrictRunsNeverWait command input }
{
    one_answer();
    no_get();
    scripts_without_the_keyword();
    strict_outcome_has_no_wait::<ScriptBody<'static>>();
}

/// Each join that `known` tells as known is along the fork order.
pub fn known_joins_are_along()
    // Law: of each command `known` within its limits and each input whose meaning isn't full: each
    // join that is told as known is along the fork order.
    ensures { (cells steps : ℕ) (input : List ℕ) → HasLimits (Command.Known cells steps)
        → (start : Start) → IsStart (Command.Known cells steps) input start
        → KnownJoinsOfMeaningAreAlong start }
{
    acts_can_be_worked_off::<ScriptBody<'static>>();
    known_is_along();
}
