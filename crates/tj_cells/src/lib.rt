//! Owners and values: what a running task makes, hands on, fills and breaks, and what it reads.
#![tactic(auto)]

mod closing;
mod making;
mod seen;

pub use closing::{break_off, fill};
pub use making::{Full, Made, birth, hand, make};
pub use seen::{Seen, value};
