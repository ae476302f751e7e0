//! A listener that stops the run at a deadlock: while the run goes on, or at rest.
use crate::scripts::CIRCLE;
use crate::stood::FILLS;
use std::sync::Wait;
use std::thread::Threads;
use tj_base::{Name, Shown};
use tj_embed::{Options, script_in};
use tj_mean::LinkList;
use tj_told::{Goes, Listener, Looks, ToldFault, run_script_told};

/// Stops the run at the first deadlock of which it is told.
#[derive(Drop)]
struct Stops;

impl Listener for Stops {
    fn cycle(&mut self, _links: &LinkList) -> Goes {
        Goes::Stop
    }

    fn broken(&mut self, _name: &Name) -> Goes {
        Goes::On
    }

    fn value(&mut self, _name: &Name, _value: &Shown) -> Goes {
        Goes::On
    }
}

/// How a run of this script ends whose listener stops it at a deadlock.
fn ending<R: Wait + Threads + Sync + AllocGlobal>(
    rt: &R,
    text: &[u8],
    looks: Looks,
) -> Option<&'static [u8]> {
    let alloc = rt.alloc();
    let script = script_in(alloc, text).ok()?;
    let (run, _stops) = run_script_told(rt, alloc, &script, Options::usual(), looks, Stops);
    match run {
        Ok(_outcome) => Some(b"not stopped\n"),
        Err(ToldFault::Full) => Some(b"full\n"),
        Err(ToldFault::Oom) => None,
        Err(ToldFault::Stopped) => Some(b"stopped\n"),
    }
}

/// Where nobody looks, such a run is stopped at rest. One that never rests is stopped since its
/// deadlock is told while a third task goes on: else it would be full in the end.
pub(crate) fn stopped<R: Wait + Threads + Sync + AllocGlobal>(rt: &R) -> Option<Vec<u8>> {
    let mut text = Vec::from_slice(rt.alloc(), b"at rest: ").ok()?;
    text.extend_from_slice(ending(rt, CIRCLE, Looks::Never)?)
        .ok()?;
    text.extend_from_slice(b"early: ").ok()?;
    text.extend_from_slice(ending(rt, FILLS, Looks::Every(0))?)
        .ok()?;
    Some(text)
}
