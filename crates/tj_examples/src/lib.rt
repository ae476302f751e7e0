//! Worked tasks, with their proofs: the patterns to copy for tasks of one's own. `Handover` is a body,
//! `Fib` and `Knot` are plans, and `Sum` is a task.
#![tactic(auto)]

mod fib;
mod handover;
mod knot;
mod sum;

pub use fib::Fib;
pub use handover::Handover;
pub use knot::Knot;
pub use sum::{Part, Sum};
