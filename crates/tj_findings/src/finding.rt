//! What an explanation of a run says: a list of findings, each of them one thing that went wrong. A
//! text shows the list, and adds nothing to it.
use tj_base::{Cause, Items, Name};
use tj_trace::{Maker, ValueList};

/// How a task stopped.
#[derive(Clone, Copy)]
pub enum Stop {
    Ended,
    Failed,
    Waits,
}

/// A task, as a finding tells it.
#[derive(Drop)]
pub struct ToldTask {
    pub name: Name,
    /// The declaration that it runs.
    pub decl: usize,
    /// The statement that forked it. Nobody forked the root.
    pub fork: Option<Maker>,
    /// How it stopped.
    pub stop: Stop,
    /// The number of the statement at which it stopped. The closing brace has the number behind the
    /// last.
    pub at: usize,
    /// What its variables held at first: its arguments, and then a 0 for each other variable.
    pub began: ValueList,
    /// Where the promise went for which it failed.
    pub went: Went,
    /// What its variables held where it failed by `arith` or `kind`. Of any other task nothing.
    pub held: ValueList,
}

/// Where a promise went that a task had no right to set or to hand on.
#[derive(Drop)]
pub enum Went {
    /// The task didn't fail so.
    Nowhere,
    /// The task itself had set it, at this statement of its declaration.
    SetHere(usize),
    /// The task itself, which has this name, had handed it to its thing with this number, at this
    /// statement of its declaration.
    HandedHere { by: Name, thing: usize, at: usize },
    /// The task owned it, and handed it twice by the statement at which it failed.
    TwiceHere,
    /// This task set it, at this statement of this declaration.
    SetBy { task: Name, decl: usize, at: usize },
    /// This task owned it where it stopped.
    OwnedBy(Name),
}

/// A cell, with the statement that made it.
#[derive(Drop)]
pub struct ToldCell {
    pub name: Name,
    pub maker: Option<Maker>,
}

/// A task that waits for a cell, and the name of the task that owns it.
#[derive(Drop)]
pub struct Wait {
    pub task: ToldTask,
    pub cell: ToldCell,
    pub owner: Option<Name>,
}

/// Waits.
pub type WaitList = Items<Wait>;

/// One thing that went wrong.
#[derive(Drop)]
pub enum Finding {
    /// Tasks that wait for each other, from the least name on.
    Cycle(WaitList),
    /// A task that waits and is in no cycle. What it waits for leads to one.
    Behind(Wait),
    /// A task that failed, not for a broken cell, and the statement that made the cell which the
    /// cause names.
    Failed {
        task: ToldTask,
        cause: Cause,
        about: Option<Maker>,
    },
    /// A promise that was never set, and the task that owned it where it stopped.
    Owed {
        promise: ToldCell,
        owner: ToldTask,
    },
    /// A task that failed for this cell, which is broken, and the task where that began.
    Echo {
        task: ToldTask,
        cell: ToldCell,
        origin: Option<ToldTask>,
    },
}
