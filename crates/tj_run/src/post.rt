//! What a worker has at hand for the calls of a turn.
use std::alloc::Global;
use tj_body::Body;
use tj_words::WSeat;

/// A worker's post: its seat at the table, its own end of the pool, and what its calls run on. What
/// the worker does in a turn are methods of it.
#[derive(Drop)]
pub(crate) struct Post<'t, B: Body, P, R> {
    pub(crate) rt: &'t R,
    pub(crate) alloc: Global,
    pub(crate) seat: WSeat<B>,
    pub(crate) pool: P,
}
