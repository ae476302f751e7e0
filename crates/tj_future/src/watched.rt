//! What a watched cell has come to.
use tj_run::Why;
use tj_words::Fill;

/// What a watched cell has come to.
#[derive(Clone, Copy, PartialEq, Eq)]
pub enum Watched {
    /// It has this value.
    Value(Fill),
    /// It is broken.
    Broken,
    /// Nothing goes on any more, and the cell has no value.
    Rested,
    /// The run was stopped.
    Stopped(Why),
}
