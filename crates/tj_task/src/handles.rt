//! What a task holds: promises and tasks, each by its place.
ghost use Rattle.std.specs.Prelude.{◌≡◌, ◌+◌, IfOk};

use std::alloc::Global;
use tj_base::{Items, Oom, PlaceList};

/// A promise that a task has made, that it was passed, or of which it was told.
#[derive(Clone, Copy, Debug, PartialEq, Eq)]
pub struct Promise {
    pub place: u32,
}

/// A task that it has forked, that it was passed, or of which it was told.
#[derive(Clone, Copy, Debug, PartialEq, Eq)]
pub struct Child {
    pub place: u32,
}

impl Promise {
    /// The promise that was passed as number k, where the first one has number 0.
    pub fn passed(k: u16) -> Promise
        // It is the promise that was passed with this number, from 0 on.
        ensures { result ≡ record { place = k + 1 } }
    {
        Promise {
            place: u32::from(k) + 1,
        }
    }
}

impl Child {
    /// The task that was passed as number k, where the first one has number 0.
    pub fn passed(k: u16) -> Child
        // It is the task that was passed with this number, from 0 on.
        ensures { result ≡ record { place = k + 1 } }
    {
        Child {
            place: u32::from(k) + 1,
        }
    }
}

/// These places, for a fork.
pub fn places(alloc: Global, list: &[u32]) -> Result<PlaceList, Oom>
    // The list has these places.
    ensures { IfOk result (λ places. places ≡ list.now) }
{
    Ok(Items::of(Vec::from_slice(alloc, list)?))
}
