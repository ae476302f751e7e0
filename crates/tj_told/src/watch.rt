//! A run with a watch of a cell by its name.
ghost use Rattle.std.specs.Prelude.{◌≡◌, List, IfErr, IfOk, Err, Some};
ghost use Rattle.tj_body.specs.Asks.{IsFresh};
ghost use Rattle.tj_body.specs.Programs.{program_of};
ghost use Rattle.tj_body.specs.Rounds.{IsFull, meaning};
ghost use Rattle.tj_embed.specs.Limits.{AreLimits};
ghost use Rattle.tj_mean.specs.Outcomes.{IsOutcome};
ghost use Rattle.tj_report.specs.NamedValues.{IsOfName};
ghost use Rattle.tj_told.specs.EndedNews.{IsEarly};
ghost use Rattle.tj_told.specs.Hearing.{Hears, IsHeardUntil};
ghost use Rattle.tj_told.specs.ToldNews.{AreAnswers, AreTold};
ghost use Rattle.tj_told.specs.declared.news.News.{News};

use crate::fault::ToldFault;
use crate::listener::Listener;
use crate::looks::{Looks, Watch};
use crate::run::run_beside;
use crate::settling::tell_rest;
use crate::telling::Telling;
use std::alloc::Global;
use std::sync::Wait;
use std::thread::Threads;
use tj_base::{Name, Oom};
use tj_body::{Body, meaning_is_last};
use tj_embed::Options;
use tj_laws::every_moment;
use tj_mean::Outcome;
use tj_ports::OpenGate;
use tj_ready::NewestFirstPool;
use tj_report::{Became, outcome_of, value_named};

/// Runs a root and tells a listener, as `run_told` does, and watches the promise or the task's result
/// of that name: its value is told once the observer sees it, and that it is broken, as of any other.
/// At rest the answer is what became of it; None where no cell of that name was drawn. The listener
/// comes back. That the call returns isn't proved.
pub fn watch_named<B: Body, T: Listener, R: Wait + Threads + Sync>(
    rt: &R,
    alloc: Global,
    root: B,
    options: Options,
    looks: Looks,
    name: &Name,
    listener: T,
) -> (Result<(Outcome, Option<Became>), ToldFault>, T)
    requires limits { AreLimits options }
    requires root { IsFresh B.places B.awaits B.left 1 root }
    // The outcome is that of the meaning of the root.
    ensures outcome { let p = program_of B.places B.awaits B.left B.asks B.then options.strict root
        in IfOk result.0 (λ out. IsOutcome (meaning p options.cells) out.0) }
    // The answer is what the meaning has for the cell with this name: its value, that it is broken,
    // or that nothing has become of it; None exactly where the meaning has no such cell.
    ensures became { let p = program_of B.places B.awaits B.left B.asks B.then options.strict root
        in IfOk result.0 (λ out. IsOfName p options.cells name.now out.1) }
    // Where there is an outcome, the meaning isn't full.
    ensures fits { let p = program_of B.places B.awaits B.left B.asks B.then options.strict root
        in IfOk result.0 (λ _. ¬ IsFull p options.cells) }
    // With an outcome, a value that was told is of the cell with this name, is the answer, and was
    // told once. Cycles and broken cells were told as `run_told` tells them. The listener answered
    // On to each call.
    ensures told { IfOk result.0 (λ out. (told : List News) × Hears T.tells told listener result.1
        × AreTold told out.0 × AreAnswers (Some name.now) out.1 told) }
    // With a fault, it answered Stop to the last call where that is Stopped, and else On to each, and
    // nothing was told twice. Cycles and broken cells that were told stood, or are of the outcome, as
    // of `run_told`; a value that was told is, in some round of the meaning, that of the cell with
    // this name. That STOP was stored is said as by `run_told`.
    ensures early { IfErr result.0 (λ fault. (told : List News)
        × IsHeardUntil T.tells fault told listener result.1 × IsEarly
        (program_of B.places B.awaits B.left B.asks B.then) options.cells options.strict root
        (Some name.now) fault told) }
    // Full comes only where the meaning is full.
    ensures full { let p = program_of B.places B.awaits B.left B.asks B.then options.strict root
        in result.0 ≡ Err ToldFault.Full → IsFull p options.cells }
{
    every_moment::<B>();
    meaning_is_last::<B>();
    let wanted = match name.copy(alloc) {
        Ok(copy) => Some(copy),
        Err(Oom) => return (Err(ToldFault::Oom), listener),
    };
    let (rest, telling) = run_beside::<B, NewestFirstPool, OpenGate, T, R>(
        rt,
        alloc,
        root,
        options,
        &OpenGate,
        Watch { looks, wanted },
        Telling::new(alloc, listener),
    );
    let mut telling = telling;
    let rest = match rest {
        Ok(rest) => rest,
        Err(why) => return (Err(why), telling.listener),
    };
    let became = match value_named(alloc, &rest, name) {
        Ok(became) => became,
        Err(Oom) => return (Err(ToldFault::Oom), telling.listener),
    };
    let outcome = match outcome_of(alloc, &rest) {
        Ok(outcome) => outcome,
        Err(Oom) => return (Err(ToldFault::Oom), telling.listener),
    };
    match tell_rest(alloc, &outcome.cycles, &mut telling) {
        Ok(()) => (Ok((outcome, became)), telling.listener),
        Err(fault) => (Err(fault), telling.listener),
    }
}
