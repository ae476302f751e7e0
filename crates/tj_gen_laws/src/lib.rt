//! The laws of runs of the generated script: what its `main` prints and ends with, how many statements
//! it makes, and how many cells the run needs.
#![tactic(auto)]

mod runs;

pub use runs::generated_runs;
