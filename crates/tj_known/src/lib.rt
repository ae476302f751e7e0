//! A monitor of joins: which of the joins of a meaning are of tasks that the joiner knew of, and
//! which of the others are along the fork order.
#![tactic(auto)]

mod joins;
mod known;
mod laws;
mod learner;
mod step;
mod text;
mod work;

pub use joins::known_joins;
pub use known::{How, KnownLine, KnownList};
pub use laws::known_is_along;
pub use text::known_text;
