//! Cells: the tasks and promises of a run.

/// The most cells of a run.
pub const MAX_CELLS: u32 = 1_048_576;

/// The number of a cell, in the order in which a run draws them. The root task is cell 0.
#[derive(Clone, Copy, Debug, PartialEq, Eq)]
pub struct CellId(pub u32);

/// What a cell is. A task's cell is also its result.
#[derive(Clone, Copy, Debug, PartialEq, Eq)]
pub enum Sort {
    Task,
    Promise,
}
