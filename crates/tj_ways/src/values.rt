//! What became of a promise, by its name, and the report of tasks straight off their table.
ghost use Rattle.tj_body.specs.Asks.{IsFresh};

use crate::scripts::FORGETS;
use std::sync::Wait;
use std::thread::Threads;
use tj_base::{Name, Shown, add_signed};
use tj_body::Body;
use tj_embed::{Became, Options, run_report, run_script, run_to_rest, script_in, value_named};
use tj_examples::{Handover, Knot};
use tj_run::RunFault;
use tj_task::{Replay, TaskBody};

/// The report of two tasks that wait for each other, and what became of their first promise, of one
/// that its task forgets, and of one that is set to 20.
pub(crate) fn values_by_name<R: Wait + Threads + Sync + AllocGlobal>(rt: &R) -> Option<Vec<u8>> {
    let alloc = rt.alloc();
    let mut text = report_of_a_knot(rt)?;
    let knot = TaskBody::new(Replay::of(alloc, Knot::Root(0)), 100);
    add_value(&first_of(rt, knot).ok()??, &mut text)?;
    add_value(&first_of_script(rt)?, &mut text)?;
    add_value(&first_of(rt, Handover::Begin(20)).ok()??, &mut text)?;
    Some(text)
}

/// The report of two tasks that wait for each other.
fn report_of_a_knot<R: Wait + Threads + Sync + AllocGlobal>(rt: &R) -> Option<Vec<u8>> {
    let root = TaskBody::new(Replay::of(rt.alloc(), Knot::Root(0)), 100);
    let report = run_report(rt, rt.alloc(), root, Options::usual()).ok()?;
    Some(report.text)
}

/// What became of the first thing that this root makes, a promise.
fn first_of<B: Body, R: Wait + Threads + Sync + AllocGlobal>(
    rt: &R,
    root: B,
) -> Result<Option<Became>, RunFault>
    requires { IsFresh B.places B.awaits B.left 1 root }
{
    let alloc = rt.alloc();
    let rest = run_to_rest(rt, alloc, root, Options::usual())?;
    let name = Name::root().child(alloc, 1)?;
    let became = value_named(alloc, &rest, &name)?;
    Ok(became)
}

/// The same of a script whose task forgets the promise.
fn first_of_script<R: Wait + Threads + Sync + AllocGlobal>(rt: &R) -> Option<Became> {
    let script = script_in(rt.alloc(), FORGETS).ok()?;
    let run = run_script(rt, rt.alloc(), &script, Options::usual()).ok()?;
    let name = Name::root().child(rt.alloc(), 1).ok()?;
    run.value(rt.alloc(), &name).ok()?
}

/// Adds what became of a cell, and the end of a line.
fn add_value(became: &Became, text: &mut Vec<u8>) -> Option<()> {
    match became {
        Became::Open => text.extend_from_slice(b"0.1 is open\n").ok()?,
        Became::Broken => text.extend_from_slice(b"0.1 is broken\n").ok()?,
        Became::Value(Shown::Num(value)) => {
            text.extend_from_slice(b"0.1 is ").ok()?;
            add_signed(text, *value).ok()?;
            text.extend_from_slice(b"\n").ok()?;
        }
        Became::Value(Shown::Ref(_)) => text.extend_from_slice(b"0.1 refers\n").ok()?,
    }
    Some(())
}
