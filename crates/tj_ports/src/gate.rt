//! The gate that each worker passes before each of its turns. A test may hold a worker there.

/// What a worker calls before each turn. No answer depends on it.
pub trait Gate: Sync {
    /// The worker counts from 1, and so do its turns; the turn stays at its greatest value.
    fn enter(&self, worker: u32, turn: u64);
}

/// A gate that stands open.
#[derive(Clone, Copy)]
pub struct OpenGate;

impl Gate for OpenGate {
    fn enter(&self, _worker: u32, _turn: u64) {}
}
