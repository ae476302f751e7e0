//! Workers: threads that take tasks from a pool, claim them and run them ask by ask on the shared
//! words, until nothing goes on any more. A worker has no task between its turns. Within a turn it
//! has one, with the task's record, and the record tells a point of the task's history at each step.
#![tactic(auto)]

mod answers;
mod crew;
mod forks;
mod next;
mod pauses;
mod pieces;
mod post;
mod pure;
mod tasks;
mod turns;
mod waits;
mod why;
mod writes;

pub use crew::{run_all, work_all};
pub use turns::worker;
pub use why::{Left, RunFault, Why};

mod beginning;

pub use beginning::begun;
