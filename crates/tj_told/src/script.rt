//! A script whose deadlocks are told as they happen.
ghost use Rattle.std.specs.Prelude.{◌≡◌, List, IfErr, IfOk, Err, None, Some};
ghost use Rattle.tj_embed.specs.Limits.{AreLimits};
ghost use Rattle.tj_embed.specs.ScriptRuns.{IsOutcomeOfScript, NeedsMore, script_program};
ghost use Rattle.tj_eval.specs.Bodies.{IsMainBody};
ghost use Rattle.tj_eval.specs.Statements.{TaskState};
ghost use Rattle.tj_report.specs.NamedValues.{IsOfName};
ghost use Rattle.tj_syntax.specs.ScriptTexts.{IsSomeScript};
ghost use Rattle.tj_syntax.specs.View as shown;
ghost use Rattle.tj_told.specs.EndedNews.{IsEarlyOfScript};
ghost use Rattle.tj_told.specs.Hearing.{Hears, IsHeardUntil};
ghost use Rattle.tj_told.specs.ToldNews.{AreAnswers, AreTold};
ghost use Rattle.tj_told.specs.declared.news.News.{News};

use crate::fault::ToldFault;
use crate::listener::Listener;
use crate::looks::Looks;
use crate::run::run_told;
use crate::watch::watch_named;
use std::alloc::Global;
use std::sync::Wait;
use std::thread::Threads;
use tj_base::{Name, Oom};
use tj_embed::Options;
use tj_eval::main_body;
use tj_mean::Outcome;
use tj_report::Became;
use tj_syntax::Script;

/// Runs a script, as `tj_embed::run_script` does, answers its outcome, and tells the listener of each
/// cycle of waits and of what is broken, as `run_told` does. That the call returns isn't proved.
pub fn run_script_told<T: Listener, R: Wait + Threads + Sync>(
    rt: &R,
    alloc: Global,
    script: &Script,
    options: Options,
    looks: Looks,
    listener: T,
) -> (Result<Outcome, ToldFault>, T)
    requires limits { AreLimits options }
    requires script { IsSomeScript (shown.script script.now) }
    // The outcome is that of the meaning of the script with these options, which isn't full.
    ensures outcome { IfOk result.0 (IsOutcomeOfScript (shown.script script.now) options) }
    // With an outcome, the cycles that the listener has heard of are those of the outcome, all of
    // them, each once; each cell that it was told to be broken is so by the outcome, and was told
    // once; no value was told; and it answered On to each call.
    ensures told { IfOk result.0 (λ outcome. (told : List News) × Hears T.tells told listener
        result.1 × AreTold told outcome × AreAnswers None None told) }
    // With a fault, it answered Stop to the last call where that is Stopped, and else On to each, and
    // what was told stood, or is of the outcome, as of `run_told`, with the body of the
    // script's `main` as the root.
    ensures early { IfErr result.0 (λ fault. (told : List News)
        × IsHeardUntil T.tells fault told listener result.1
        × IsEarlyOfScript (shown.script script.now) options None fault told) }
    // Full comes only where the script needs more cells.
    ensures full { result.0 ≡ Err ToldFault.Full → NeedsMore (shown.script script.now) options }
{
    match main_body(alloc, script, options.steps) {
        Ok(root) => run_told(rt, alloc, root, options, looks, listener),
        Err(Oom) => (Err(ToldFault::Oom), listener),
    }
}

/// Runs a script and tells a listener, as `run_script_told` does, and watches the cell of that name, as
/// `watch_named` does. That the call returns isn't proved.
pub fn watch_script_named<T: Listener, R: Wait + Threads + Sync>(
    rt: &R,
    alloc: Global,
    script: &Script,
    options: Options,
    looks: Looks,
    name: &Name,
    listener: T,
) -> (Result<(Outcome, Option<Became>), ToldFault>, T)
    requires limits { AreLimits options }
    requires script { IsSomeScript (shown.script script.now) }
    // The outcome is that of the meaning of the script with these options, which isn't full.
    ensures outcome { IfOk result.0 (λ out. IsOutcomeOfScript (shown.script script.now) options
        out.0) }
    // The answer is what the meaning has for the cell with this name; None comes exactly where the
    // meaning has no such cell.
    ensures became { IfOk result.0 (λ out. (root : TaskState)
        × IsMainBody (shown.script script.now) options.steps root
        × IsOfName (script_program options.strict root) options.cells name.now out.1) }
    // With an outcome, a value that was told is of the cell with this name, is the answer, and was
    // told once. Cycles and broken cells were told as `run_script_told` tells them. The listener
    // answered On to each call.
    ensures told { IfOk result.0 (λ out. (told : List News) × Hears T.tells told listener result.1
        × AreTold told out.0 × AreAnswers (Some name.now) out.1 told) }
    // With a fault, it answered Stop to the last call where that is Stopped, and else On to each, and
    // what was told stood, or is of the outcome, as of `watch_named`, with the body of
    // the script's `main` as the root.
    ensures early { IfErr result.0 (λ fault. (told : List News)
        × IsHeardUntil T.tells fault told listener result.1
        × IsEarlyOfScript (shown.script script.now) options (Some name.now) fault told) }
    // Full comes only where the script needs more cells.
    ensures full { result.0 ≡ Err ToldFault.Full → NeedsMore (shown.script script.now) options }
{
    match main_body(alloc, script, options.steps) {
        Ok(root) => watch_named(rt, alloc, root, options, looks, name, listener),
        Err(Oom) => (Err(ToldFault::Oom), listener),
    }
}
