//! What is told of a task whose history has stopped, with where in the script it stands.
use tj_base::{Items, Name, NameList, Sort};
use tj_body::Value;
use tj_mean::TaskLine;

/// The statement that made a thing.
#[derive(Clone, Copy)]
pub struct Maker {
    /// What it made: a `new` makes a promise, a `fork` a task.
    pub sort: Sort,
    /// The declaration that it is part of.
    pub decl: usize,
    /// Its number there.
    pub at: usize,
}

/// What made the first thing of a task, its second, and so on.
pub type MakerList = Items<Maker>;

/// A promise that a task set, and at which statement of its declaration.
#[derive(Drop)]
pub struct SetNote {
    pub promise: Name,
    pub at: usize,
}

/// What a task set, one after the other.
pub type SetList = Items<SetNote>;

/// A promise that a task handed on. The task to which it handed it is its thing with this number,
/// of which the first has number 1.
#[derive(Drop)]
pub struct HandNote {
    pub promise: Name,
    pub thing: usize,
}

/// What a task handed on, one after the other.
pub type HandList = Items<HandNote>;

/// Values, as variables hold them.
pub type ValueList = Items<Value>;

/// What is told of a task.
#[derive(Drop)]
pub struct TraceLine {
    /// What its outcome tells of it: its name, what it printed, what became of it, what it owed.
    pub line: TaskLine,
    /// The promises that it holds where it waits.
    pub holds: NameList,
    /// The declaration that it runs.
    pub decl: usize,
    /// The number of the statement at which it waits, failed or ended. The closing brace has the
    /// number behind the last.
    pub at: usize,
    /// What made each of its things: the thing whose name ends in k is made by the k-th.
    pub makers: MakerList,
    /// The promises that it set.
    pub sets: SetList,
    /// The promises that it handed to tasks that it forked.
    pub hands: HandList,
    /// What its variables held at first: its arguments, and then a 0 for each other variable.
    pub began: ValueList,
    /// What its variables held where it failed by `arith` or `kind`. Of any other task nothing.
    pub held: ValueList,
}

/// The tasks, in name order.
pub type TraceLines = Items<TraceLine>;
