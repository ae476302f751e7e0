//! The laws of the runs of a table by its calls: each call is one event of the core or none, what never
//! changes in a run, and what the logs of a table's seats say of its own run.
#![tactic(auto)]

mod alike_laws;
mod laws;

pub use alike_laws::alike_seats;
pub use laws::{
    call_runs, ended_records, ended_walks, found_chains, lasting_words, moments, one_state,
    own_runs, rested_runs, slot_steps, wakes,
};
pub use table_laws::{fresh_is_first, tables_have_runs};

mod table_laws;
