//! The workers' ready tasks: one queue behind a lock, or a deque for each worker, from which the
//! others steal. The workers are written once, over any pool.
#![tactic(auto)]

pub mod laws;
mod locked;
mod pool;
mod rule;
mod start;
mod stealing;
mod steals;

pub use laws::LockedQueue;
pub use locked::LockedPool;
pub use pool::Pool;
pub use rule::{Bounded, NewestFirst, PoolRule, QueueRule};
pub use stealing::{NewestFirstPool, RuledStealPool, StealPool};
