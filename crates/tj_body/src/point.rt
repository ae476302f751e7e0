//! Points of histories as values: what stands after some of a task's asks.
use crate::ask::Answer;
use tj_base::{Cause, Items, Name, NameList, NumList, Sort};

/// A reference to a cell: its name, with its sort.
#[derive(Drop)]
pub struct Reference {
    pub sort: Sort,
    pub name: Name,
}

/// References, in the order of their places.
pub type ReferenceList = Items<Reference>;

/// A value that a cell can have.
#[derive(Drop)]
pub enum Value {
    Num(i64),
    Ref(Reference),
}

/// What became of a cell.
#[derive(Drop)]
pub enum Entry {
    Broken,
    Value(Value),
}

/// Cells with what became of each.
pub type EntryList = Items<(Name, Entry)>;

/// How a task ended.
#[derive(Drop)]
pub enum Close {
    Done(Value),
    Failed(Cause),
}

/// Where a task stands between two of its asks.
#[derive(Drop)]
pub enum PointStage {
    /// The body is to be given this answer.
    Answered(Answer),
    /// The task waits for the cell. Where `spare` is true a broken cell is answered by `Lost`.
    Waits { cell: Name, spare: bool },
    /// The task has ended.
    Closed(Close),
}

/// A task as its fork made it.
#[derive(Drop)]
pub struct Task<B> {
    pub name: Name,
    pub body: B,
    /// The references that it was passed.
    pub passed: ReferenceList,
    /// The promises that it was handed.
    pub handed: NameList,
}

/// Tasks, in the order of their forks.
pub type TaskList<B> = Items<Task<B>>;

/// What stands after some of a task's asks.
#[derive(Drop)]
pub struct Point<B> {
    pub name: Name,
    pub body: B,
    pub stage: PointStage,
    /// The task itself, what it was passed, and what came to it since.
    pub references: ReferenceList,
    /// The promises that it owns. Until it ends it also owns its result.
    pub holds: NameList,
    /// How many tasks and promises it has made.
    pub made: u32,
    /// The promises that it has made.
    pub promises: NameList,
    /// The tasks that it has forked.
    pub children: TaskList<B>,
    /// The cells that it has set or broken, its result among them once it has ended.
    pub writes: EntryList,
    pub prints: NumList,
    /// The promises that it still owned when it ended, in name order.
    pub owed: NameList,
}
