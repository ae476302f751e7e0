//! What is told of joins: for each how its task came to it.
use tj_base::{Items, Name};

/// How a join stands to what its task knew, and to the fork order.
#[derive(Clone, Copy)]
pub enum How {
    /// The task knew the joined one.
    Known,
    /// It didn't, but it is before the joined one.
    Along,
    /// Neither.
    Against,
}

/// A join: the task that asked for it, the joined task, and how it stands.
#[derive(Drop)]
pub struct KnownLine {
    pub by: Name,
    pub of: Name,
    pub how: How,
}

/// Joins.
pub type KnownList = Items<KnownLine>;
