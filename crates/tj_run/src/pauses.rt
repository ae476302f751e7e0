//! How a worker that finds nothing to do waits before it looks again: it yields a few times, and then
//! it sleeps, each time twice as long, up to two milliseconds. Nobody has to wake it. A worker whose
//! tasks are others', and are parked at once, does the same, up to a millisecond: it only parks them
//! before their time, with long walks.
use std::sync::Wait;
use std::thread::{self, Parker};
use std::time::Duration;

// How often it yields before it sleeps.
const YIELDS: u32 = 8;

// How often its sleep is doubled.
const DOUBLINGS: u32 = 4;

// How often where the worker parks tasks of others.
const FEW_DOUBLINGS: u32 = 3;

// The first sleep, in microseconds.
const FIRST_SLEEP: u64 = 128;

/// How often in a row a worker has found nothing to do.
#[derive(Clone, Copy)]
pub(crate) struct Pauses {
    taken: u32,
}

impl Pauses {
    /// It has found something.
    pub(crate) fn none() -> Pauses {
        Pauses { taken: 0 }
    }

    /// Pauses once more.
    pub(crate) fn pause<R: Wait>(&mut self, rt: &R) {
        self.pause_up_to(rt, DOUBLINGS);
    }

    /// A task has left the worker. Where it was another's and was parked, the worker pauses once more.
    pub(crate) fn after_turn<R: Wait>(&mut self, rt: &R, stolen: bool, parked: bool) {
        if stolen && parked {
            self.pause_up_to(rt, FEW_DOUBLINGS);
        } else {
            *self = Pauses::none();
        }
    }

    // Pauses once more. The first sleep is doubled so often at most.
    fn pause_up_to<R: Wait>(&mut self, rt: &R, most: u32) {
        if self.taken < YIELDS {
            thread::yield_now();
        } else {
            let doublings = (self.taken - YIELDS).min(most).min(DOUBLINGS);
            Parker::new().park_timeout(rt, Duration::from_micros(FIRST_SLEEP << doublings));
        }
        self.taken = self.taken.saturating_add(1);
    }
}
