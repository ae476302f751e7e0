//! The events of the core. The first cell of an event is the task that acts.
use tj_base::CellId;

/// One atomic action.
#[derive(Clone, Copy)]
pub enum Event {
    /// The task makes a promise, which it owns.
    Make(CellId),
    /// The task forks a child.
    Fork(CellId),
    /// The task hands the second cell, a promise, to the third, its child.
    Hand(CellId, CellId, CellId),
    /// The task closes the second cell, which nobody owns from then on.
    Close(CellId, CellId),
    /// The task raises OTHERS, to publish an other wait next.
    Raise(CellId),
    /// The task publishes its wait for the second cell.
    Publish(CellId, CellId),
    /// The walker reads OTHERS.
    LoadOthers(CellId),
    /// The walker reads the number of cells, which bounds its walk.
    LoadCount(CellId),
    /// The walker reads the owner of the present cell.
    ReadOwner(CellId),
    /// The walker reads what that owner waits for.
    ReadWait(CellId),
    /// The walker reads the owner of the present cell again.
    ReadOwnerAgain(CellId),
    /// The walker alarms.
    Alarm(CellId),
    /// The walker ends its walk without an alarm.
    Settle(CellId),
    /// The task's wait is cleared.
    Unwait(CellId),
    /// OTHERS is lowered for a wait that was cleared.
    Lower,
}
