//! What a body asks of the runtime, and what it is answered. A body names cells by places in its
//! task's list of references: place 0 is the task itself, then come the passed references in
//! order, and each answer `Local` or `RefAt` names a place that is added at the end.
use tj_base::{Pay, PlaceList, Trouble};

/// What a body is answered.
#[derive(Clone, Copy)]
pub enum Answer {
    /// It has asked nothing yet.
    Start,
    /// The promise or the task is made, and its reference has this place.
    Local(u32),
    /// It is done.
    Done,
    /// The cell's value is this number.
    Num(i64),
    /// The cell's value is a reference, which has this place.
    RefAt(u32),
    /// The cell is broken.
    Lost,
}

/// What a body asks.
#[derive(Drop)]
pub enum Ask<B> {
    /// Makes a promise, which the task owns.
    New,
    /// Starts a task that is passed these places and handed the promises at those.
    Fork {
        body: B,
        pass: PlaceList,
        hand: PlaceList,
    },
    /// Sets a promise that the task owns.
    Set {
        p: u32,
        v: Pay,
    },
    /// Waits for a promise.
    Get {
        p: u32,
    },
    /// Waits for a task's result.
    Join {
        t: u32,
    },
    /// Waits for a promise, and is answered `Lost` where it is broken.
    GetOr {
        p: u32,
    },
    /// Waits for a task's result, and is answered `Lost` where it is broken.
    JoinOr {
        t: u32,
    },
    /// Prints a number.
    Emit(i64),
    /// Ends well, with this result.
    End(Pay),
    /// Fails.
    Fail(Trouble),
}
