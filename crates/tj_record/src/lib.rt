//! What the workers hand to each other of a task: its record between two of its asks.
#![tactic(auto)]

mod changes;
mod reads;
mod record;

pub use record::{Fill, Finish, Held, Hurt, Rec};
