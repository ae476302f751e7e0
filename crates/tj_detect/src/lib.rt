//! The racing detector: the way of a wait, and a walk over the other tasks' words while these
//! change.
#![tactic(auto)]

mod blocking;
mod laws;
mod tree_walk;
mod way;

pub use blocking::{Verdict, block};
pub use laws::verdicts;
pub use way::way_of;
