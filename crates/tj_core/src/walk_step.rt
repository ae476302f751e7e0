//! One step of a walk, with what it reads: an event of a walker.

/// A step of a walk.
#[derive(Clone, Copy)]
pub(crate) enum WalkStep {
    /// It reads OTHERS.
    Others(u64),
    /// It reads the number of cells.
    Count(u32),
    /// It reads the owner of the present cell.
    Owner(Option<u32>),
    /// It reads what the owner that it has just read waits for.
    Wait(Option<u32>),
    /// It reads the owner of the present cell again.
    Again(Option<u32>),
    /// The walker alarms.
    Alarm,
    /// It ends without an alarm.
    Settle,
}
