//! Bodies of tasks, and the meaning of a task program on one thread: histories and rounds.
#![tactic(auto)]

mod ask;
mod body;
mod laws;
mod point;
mod table;
mod table_form;

pub use ask::{Answer, Ask};
pub use body::Body;
pub use laws::{
    cells_are_apart, full_exactly, full_where_names, history_is_determined, history_is_monotone,
    history_stops, joins_in_order_never_wait, meaning_is_last, names_and_cells, names_are_apart,
    owners_are_apart, point_asks_on, point_counts_in_round, point_counts_made, point_is_kept,
    point_reads_on, points_are_good, points_in_rounds, rest_is_meaning, round_settles_by_size,
    round_settles_where_same, rounds_grow, seen_alike, strict_without_get_never_waits,
    waits_lead_to_a_cycle,
};
pub use point::{
    Close, Entry, EntryList, Point, PointStage, Reference, ReferenceList, Task, TaskList, Value,
};
pub use table::{Row, RowList, TableBody, copy_places, new_places};
pub use table_form::is_table;
