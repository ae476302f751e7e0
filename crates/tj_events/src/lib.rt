//! The core states of the detector and its events: where each is allowed and what it leaves, the
//! wait graph, and the laws of legal runs.
#![tactic(auto)]

mod event;
mod event_laws;
mod graph_laws;
mod laws;
mod walk;
mod walk_laws;
mod walker_law;

pub use event::Event;
pub use event_laws::{
    event_keeps_alarms, event_keeps_cycles, event_keeps_watches, event_leaves_others,
};
pub use graph_laws::{cycles_are_one, cycles_return, returns_are_cycles};
pub use laws::{
    alarms_are_on_cycles, cycles_are_watched, cycles_stand, event_keeps_facts,
    legal_alarms_are_on_cycles, legal_cycles_are_watched, legal_cycles_stand,
    legal_loads_are_bounded, legal_runs_meet_facts, legal_settles_are_off_cycles,
    loads_are_bounded, on_course_is_open, settles_off_cycles, start_meets_facts,
};
pub use walk::{LastRead, TrailLink, Walker, Way};
pub use walk_laws::{
    others_are_few, owners_are_there, present_cells_are_there, read_owners_are_there,
    settlers_are_not_alone,
};
pub use walker_law::walkers_have_one_event;
