//! Tasks of one's own: Fibonacci numbers with a task for each call, the sum of a slice by halves, and
//! two tasks that wait for each other.
ghost use Rattle.std.specs.Prelude.{◌<◌, ◌≤◌};
ghost use Rattle.tj_body.specs.Asks.{IsFresh};
ghost use Rattle.tj_embed.specs.Limits.{AreLimits};

use std::alloc::Global;
use std::sync::Wait;
use std::thread::Threads;
use tj_base::{Name, Shown, add_count, add_signed};
use tj_body::Body;
use tj_embed::{Options, line_of, run_outcome};
use tj_examples::{Fib, Knot, Part, Sum};
use tj_mean::{Ending, Outcome};
use tj_report::report_text;
use tj_task::{Replay, TaskBody};

/// The report of two tasks that wait for each other, beside a third one.
pub(crate) fn in_a_knot<R: Wait + Threads + Sync + AllocGlobal>(rt: &R) -> Option<Vec<u8>> {
    let root = TaskBody::new(Replay::of(rt.alloc(), Knot::Root(0)), 100);
    let outcome = run_outcome(rt, rt.alloc(), root, Options::usual()).ok()?;
    report_text(rt.alloc(), &outcome).ok()
}

/// The Fibonacci number 12.
pub(crate) fn fibonacci<R: Wait + Threads + Sync + AllocGlobal>(rt: &R) -> Option<Vec<u8>> {
    let root = TaskBody::new(Replay::of(rt.alloc(), Fib { n: 12 }), 100);
    result_of(rt, b"fib ", root, Options::usual())
}

/// The Fibonacci number 20 by so many workers, in a table of just the cells that its tasks take, which
/// are more than a script of `tj` may make.
pub(crate) fn large_table<R: Wait + Threads + Sync + AllocGlobal>(
    rt: &R,
    workers: u32,
) -> Option<Vec<u8>>
    requires some { 0 < workers }
    requires few { workers ≤ 64 }
{
    let root = TaskBody::new(Replay::of(rt.alloc(), Fib { n: 20 }), 100);
    let options = Options {
        workers,
        cells: 21_891,
        steps: 1,
        strict: false,
    };
    result_of(rt, b"fib ", root, options)
}

/// The sum of the numbers from 0 to 9,999.
pub(crate) fn sum<R: Wait + Threads + Sync + AllocGlobal>(rt: &R) -> Option<Vec<u8>> {
    let numbers = numbers(rt.alloc())?;
    let all = numbers.as_slice();
    let part = Part {
        all,
        from: 0,
        to: 10_000,
    };
    let root = TaskBody::new(Sum::Of(part), 100);
    result_of(rt, b"sum ", root, Options::usual())
}

/// The result of this root, if it is a number, and how many tasks there were.
fn result_of<B: Body, R: Wait + Threads + Sync + AllocGlobal>(
    rt: &R,
    what: &[u8],
    root: B,
    options: Options,
) -> Option<Vec<u8>>
    requires limits { AreLimits options }
    requires root { IsFresh B.places B.awaits B.left 1 root }
{
    let outcome = run_outcome(rt, rt.alloc(), root, options).ok()?;
    let mut text = Vec::from_slice(rt.alloc(), what).ok()?;
    add_signed(&mut text, number_in(&outcome)?).ok()?;
    let tasks = outcome.lines.items().len();
    add_count(&mut text, b", tasks: ", tasks as u128).ok()?;
    text.extend_from_slice(b"\n").ok()?;
    Some(text)
}

/// The number with which the root ends.
fn number_in(outcome: &Outcome) -> Option<i64> {
    match &line_of(outcome, &Name::root())?.ending {
        Ending::Done(Shown::Num(value)) => Some(*value),
        _ => None,
    }
}

/// The numbers from 0 to 9,999.
fn numbers(alloc: Global) -> Option<Vec<i64>> {
    let mut numbers = Vec::new(alloc);
    for k in 0..10_000u32 {
        numbers.push(i64::from(k)).ok()?;
    }
    Some(numbers)
}
