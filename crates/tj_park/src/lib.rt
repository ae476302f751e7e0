//! How a worker lets a task go and gets one: a child becomes ready, a ready task is claimed, one
//! that waits is parked and one that has alarmed is shelved.
#![tactic(auto)]

mod children;
mod claims;
mod finishes;
mod join;
mod parking;
mod shelves;
mod wakes;

pub use children::release;
pub use claims::claim;
pub use finishes::finish;
pub use parking::{Parked, park};
pub use shelves::shelve;
pub use wakes::wake;
