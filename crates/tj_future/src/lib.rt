//! Waiting for a cell from outside: a caller that is no task looks at a cell, watches it, or polls a
//! future, while the workers run. The detector never meets it.
#![tactic(auto)]

mod beside;
mod looks;
mod polled_runs;
mod polls;
mod watched;

pub use beside::run_watched;
pub use looks::{look_at, watch};
pub use polled_runs::run_polled;
pub use polls::{CellWait, Polled, PolledPlan, PolledTask};
pub use watched::Watched;

mod look_laws;

pub use look_laws::looks_stand;
