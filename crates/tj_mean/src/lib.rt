//! The meaning of a task program, computed on one thread, and its outcome.
#![tactic(auto)]

mod act;
mod act_lines;
mod act_steps;
mod agenda;
mod ask_steps;
mod handed_on;
mod held_names;
mod history_steps;
mod laws;
mod least_indexes;
mod name_map;
mod outcome;
mod owners;
mod round;
mod rounds;
mod stopped;
mod told;
mod unanswered;
mod wait_graph;
mod waves;

pub use act::{Act, ActLine, ActLines, ActList};
pub use act_lines::acts;
pub use history_steps::history;
pub use laws::{
    acts_can_be_worked_off, meaning_is_apart, one_outcome, order_is_free,
    outcome_has_cycle_where_waits, outcome_is_seen, strict_outcome_has_no_wait,
};
pub use name_map::NameMap;
pub use outcome::{
    CycleList, Ending, LineList, Link, LinkList, Outcome, PlanFault, TaskLine, marked,
};
pub use round::{Pending, push_children, root_task};
pub use rounds::{bodies, plan};
pub use stopped::{Stopped, StoppedBody};
pub use told::outcome_of;
pub use wait_graph::{IndexCycles, IndexList, cycles_by};
pub use waves::{FullRound, first_full};
