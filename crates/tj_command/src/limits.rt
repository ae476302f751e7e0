//! What bounds a run of a script.

/// The most cells that the words of a program may ask for.
pub const MAX_WORD_CELLS: u32 = 16_384;

/// The most cells that the tasks of a run may make, the most statements that each may begin, and
/// whether a join against the order fails.
#[derive(Clone, Copy)]
pub struct Limits {
    pub cells: u32,
    pub steps: u32,
    pub strict: bool,
}
