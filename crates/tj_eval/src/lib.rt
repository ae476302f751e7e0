//! The bodies of a script's tasks: what each asks is the meaning of its statements.
#![tactic(auto)]

mod ask;
mod body;
mod expression;
mod fork;
mod halt;
pub mod laws;
mod numbers;
mod placed;
mod quick;
mod sizes;
mod state;
mod statement;

pub use body::{MAX_STEPS, main_body};
pub use placed::{PlacedBody, placed_main};
pub use sizes::Sizes;
pub use state::ScriptBody;
