//! The laws of whole runs of a table by its calls, and of legal runs of the detector's events: what
//! holds at every moment, what stays, and what happens once.
#![tactic(auto)]

mod channels;
mod ended;
mod events;
mod holders;
mod joins;
mod logged;
mod meant;
mod moments;
mod new_table;
mod own_runs;
mod phases;
mod rests;

pub use channels::{receives_are_sends, sends_are_one};
pub use ended::ended_stores;
pub use events::{closes, shown_events};
pub use holders::one_holder;
pub use joins::joins_against_the_order;
pub use logged::logged_phases;
pub use meant::within_meaning;
pub use moments::{every_moment, no_other_wait_no_cycle};
pub use new_table::new_tables;
pub use own_runs::{closed_names, own_moments, own_records};
pub use phases::phase_changes;
pub use rests::rested_tables;
