//! What the checker keeps of what a cell is. The trail, the bound and the loads of a walk stand
//! beside it in the slot.
use tj_events::{LastRead, Way};

/// What a task that waits does.
#[derive(Clone, Copy)]
pub(crate) enum Progress {
    Walking(LastRead),
    Parked,
    Alarmed,
}

/// What a cell is, and what its task does. A cell that isn't there is a promise.
#[derive(Clone, Copy)]
pub(crate) enum SlotStage {
    Promise,
    Fresh,
    Running,
    Raised,
    Waiting(u32, Way, Progress),
    Ended,
}
