//! From the lines of a trace and the cycles of an outcome to the forest of findings, and to a picture; and the laws of
//! findings and of the forest.
#![tactic(auto)]

mod causes;
mod chains;
mod consequences;
mod dot;
mod echoes;
mod findings;
mod jumps;
mod laws;
mod lookups;
mod members;
mod owners;
mod runs;
mod searches;
mod told_parts;
mod went;

pub use laws::{
    cells_are_told_right, consequences_follow, cycle_owners_are_next, echoes_have_origins,
    echoes_name_earlier_cells, findings_tell_each_once, forests_hold_each_finding,
    groups_hold_each_finding, lets_are_told, main_stands_right, nothing_is_found_where_fine,
    promises_went_there, reasons_are_told, tasks_are_of_histories, tasks_are_told_right,
    waits_lead_to_told_cycles,
};
pub use runs::{forest_of_run, picture};
