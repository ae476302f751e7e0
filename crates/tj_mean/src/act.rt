//! What the tasks of a meaning do with one another: their forks, and their joins of results.
use tj_base::{Items, Name};

/// What a task does with another.
#[derive(Drop)]
pub enum Act {
    /// It forks the task with this name.
    Fork(Name),
    /// It joins the task with this name. The truth value: the join was answered.
    Join(Name, bool),
}

/// Acts of one task, in order.
pub type ActList = Items<Act>;

/// A task with all its acts.
#[derive(Drop)]
pub struct ActLine {
    pub name: Name,
    pub acts: ActList,
}

/// Tasks with their acts.
pub type ActLines = Items<ActLine>;
