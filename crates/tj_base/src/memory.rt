//! Want of memory, the one answer that a call may give at any time.
use std::alloc::{AllocError, AllocFailed};
use std::error::Error;
use std::fmt;

/// Memory could not be had. What stands after it is said at each call.
#[derive(Clone, Copy, Debug, PartialEq, Eq)]
pub struct Oom;

impl fmt::Display for Oom {
    fn fmt<W: fmt::Write>(&self, f: &mut fmt::Formatter<W>) -> fmt::Result {
        f.write_str("out of memory")
    }
}

impl Error for Oom {}

impl From<AllocError> for Oom {
    fn from(_error: AllocError) -> Oom {
        Oom
    }
}

impl<T: Drop> From<AllocFailed<T>> for Oom {
    fn from(_failed: AllocFailed<T>) -> Oom {
        Oom
    }
}
