//! What a text of a run looks things up in, and where it is made.
use std::alloc::Global;
use tj_syntax::{Script, ScriptPlaces, Stmt};

/// A script, the statements of each declaration by their numbers, where its parts stand, and the lines
/// of its text; whether none of these is told; and the allocator of what is told.
#[derive(Clone, Copy)]
pub struct Scene<'s> {
    pub alloc: Global,
    pub script: &'s Script,
    pub statements: &'s [Vec<&'s Stmt>],
    pub places: &'s ScriptPlaces,
    pub lines: &'s [&'s [u8]],
    pub short: bool,
}
