//! A table of `atomic_table` whose seats keep a log: each step of a seat is in its log, with the number that it found.
//!
//! Everything here is generic: the rule, the views and the plays are the caller's, and nothing here knows them. So a
//! number that stands in a log was found in its word at that step, and no step is left out.
#![tactic(auto)]

mod entry;
mod laws;
mod plays;
mod seat;
mod table;

pub use entry::{Befores, Did, Entry, Logged};
pub use laws::{fresh_is_first, logs_are_of_runs, slots_are_as_put};
pub use seat::LogSeat;
pub use table::{LogRule, LogTable, Logs};
