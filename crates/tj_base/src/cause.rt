//! Why a task fails.
use crate::name::Name;

/// A fault that a body finds by itself.
#[derive(Clone, Copy, Debug, PartialEq, Eq)]
pub enum Trouble {
    /// A result of arithmetic leaves `i64`, or a divisor is 0.
    Arith,
    /// A reference stands where a number is needed, or the other way round, or a cell is of the wrong sort.
    Kind,
    /// A statement is to begin and the task's limit of statements is spent.
    Steps,
}

/// Why a task failed. `Kind` also comes where a task stands in place of a promise, or a promise
/// in place of a task.
#[derive(Debug, PartialEq, Eq, Drop)]
pub enum Cause {
    Arith,
    Kind,
    Steps,
    /// It set or handed this promise without owning it.
    Owner(Name),
    /// It asked for the value of this cell, which is broken.
    Broken(Name),
    /// Under the strict rule it joined this task, which it isn't before in the fork order.
    Order(Name),
}
