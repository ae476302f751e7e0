//! What a task is told, and what it does then.
use crate::handles::{Child, Promise};
use tj_base::{Pay, PlaceList, Trouble};

/// What a task is told.
#[derive(Clone, Copy, Debug, PartialEq, Eq)]
pub enum Told {
    /// It has asked nothing yet.
    Start,
    /// The promise is made.
    Made(Promise),
    /// The child is forked.
    Forked(Child),
    /// It is done.
    Done,
    /// The cell's value is this number.
    Num(i64),
    /// The cell's value is a reference, which has this place.
    Ref(u32),
    /// The cell is broken.
    Lost,
}

/// What a task asks, with what it is from then on.
#[derive(Drop)]
pub enum Turn<T> {
    /// Makes a promise, which the task owns.
    New(T),
    /// Starts a child that is passed nothing; the child comes first.
    Fork(T, T),
    /// Starts a child that is passed these places and handed the promises at those.
    ForkWith {
        child: T,
        pass: PlaceList,
        hand: PlaceList,
        then: T,
    },
    /// Sets a promise that the task owns.
    Set(Promise, Pay, T),
    /// Waits for a promise.
    Get(Promise, T),
    /// Waits for a task's result.
    Join(Child, T),
    /// Waits for a promise, and is told `Lost` where it is broken.
    GetOr(Promise, T),
    /// Waits for a task's result, and is told `Lost` where it is broken.
    JoinOr(Child, T),
    /// Prints a number.
    Emit(i64, T),
    /// Ends well, with this result.
    End(Pay),
    /// Fails.
    Fail(Trouble),
}
