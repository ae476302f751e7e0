//! A run that tells of deadlocks as they happen: beside the workers an observer looks at the phases of
//! the cells, and tells a listener of each cycle of waits of which a task has alarmed.
#![tactic(auto)]

mod copies;
mod fault;
mod links;
mod listener;
mod looks;
mod names;
mod news;
mod observer;
mod run;
mod script;
mod settling;
mod shared_makers;
mod telling;
mod values;
mod watch;

pub use copies::{copy_of, copy_of_value};
pub use fault::ToldFault;
pub use listener::{Goes, Listener};
pub use looks::Looks;
pub use names::name_at;
pub use news::News;
pub use run::run_told;
pub use script::{run_script_told, watch_script_named};
pub use watch::watch_named;
