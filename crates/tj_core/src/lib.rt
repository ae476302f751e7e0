//! The plain core: a pure state machine in which every atomic action that matters is one event.
#![tactic(auto)]

mod births;
mod changes;
mod cycle;
mod journal;
mod journal_laws;
mod judge;
mod line;
mod machine;
mod owners;
mod plain_core;
mod slot;
mod slot_stage;
mod stage;
mod step;
mod task_events;
mod walk_reads;
mod walk_step;

pub use births::MAX_CORE_CELLS;
pub use journal::{JournalFault, MAX_JOURNAL, read_journal};
pub use journal_laws::{one_judging, one_reading};
pub use judge::{Judged, judge_text};
pub use plain_core::Core;
pub use stage::{Illegal, Stage};
pub use tj_events::{
    Event, LastRead, TrailLink, Walker, Way, alarms_are_on_cycles, cycles_are_one,
    cycles_are_watched, cycles_return, cycles_stand, event_keeps_alarms, event_keeps_cycles,
    event_keeps_facts, event_keeps_watches, event_leaves_others, legal_alarms_are_on_cycles,
    legal_cycles_are_watched, legal_cycles_stand, legal_loads_are_bounded, legal_runs_meet_facts,
    legal_settles_are_off_cycles, loads_are_bounded, on_course_is_open, others_are_few,
    owners_are_there, present_cells_are_there, read_owners_are_there, returns_are_cycles,
    settlers_are_not_alone, settles_off_cycles, start_meets_facts, walkers_have_one_event,
};
