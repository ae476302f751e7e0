//! The report of a body of one's own, and of all that it forks.
ghost use Rattle.tj_body.specs.Asks.{IsFresh};

use std::sync::Wait;
use std::thread::Threads;
use tj_body::Body;
use tj_embed::{Options, run_outcome};
use tj_report::report_text;

/// The report of this root.
pub(crate) fn report_of<B: Body, R: Wait + Threads + Sync + AllocGlobal>(
    rt: &R,
    root: B,
) -> Option<Vec<u8>>
    requires { IsFresh B.places B.awaits B.left 1 root }
{
    let outcome = run_outcome(rt, rt.alloc(), root, Options::usual()).ok()?;
    report_text(rt.alloc(), &outcome).ok()
}
