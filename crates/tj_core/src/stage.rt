//! What the core answers.

/// The stage of a task.
#[derive(Clone, Copy, PartialEq, Eq)]
pub enum Stage {
    /// It had no event yet.
    Fresh,
    Running,
    /// It has raised OTHERS and publishes an other wait next.
    Raised,
    /// It waits, and its walk goes on.
    Walking,
    /// It waits, and its walk ended without an alarm.
    Parked,
    /// It waits on a cycle of waits.
    Alarmed,
    Ended,
}

/// The event isn't allowed.
#[derive(Clone, Copy)]
pub struct Illegal;
