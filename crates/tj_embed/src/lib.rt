//! The doors for a program that runs tasks and reads what became of them: a script from its text, or
//! a body of the program's own, over workers or on one thread.
#![tactic(auto)]

mod body_run;
mod options;
mod outcome_lines;
mod script_run;

pub use body_run::{run_outcome, run_report, run_to_rest};
pub use options::Options;
pub use outcome_lines::{cycle_with, line_of, owing};
pub use script_run::{ScriptRun, plan_script, run_script};
pub use tj_report::{Became, RestReport, value_named};
pub use tj_syntax::{NoScript, position_behind, script_in};
