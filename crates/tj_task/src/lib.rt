//! Tasks of one's own that owe no proof of the laws of one ask: each ask is tested as it is given,
//! and one that breaks a law is the task's own failure. A task is a step from one state to the next,
//! a `Task`, or straight code that is run again from its start for each ask, a `Plan`.
#![tactic(auto)]

mod body;
mod handles;
mod laws;
mod macros;
mod numbers;
mod plan;
mod replay;
mod seen;
mod task;
mod turn;

pub use body::{Due, TaskBody};
pub use handles::{Child, Promise, places};
pub use laws::asks_are_tested;
pub use numbers::{minus, number, plus, times};
pub use plan::{Do, Plan, fork_with};
pub use replay::Replay;
pub use seen::{
    Seen, child_at, child_told_at, done_at, num_at, num_or_at, promise_at, promise_told_at,
    value_at,
};
pub use task::Task;
pub use tj_base::{Oom, Pay, Trouble};
pub use turn::{Told, Turn};
