//! What a record says of its task. None of these calls takes memory.
ghost use Rattle.std.specs.Prelude.{◌≡◌, ◌≢◌, ◌<◌, ◌^◌, ◌∷◌, [], drop, length, slice_get};
ghost use Rattle.tj_record.specs.TaskRecords.{held_at, own};

use crate::record::{Finish, Held, Rec};
use tj_base::{CellId, Sort};
use tj_body::Answer;

impl<B> Rec<B> {
    /// The task.
    #[inline(always)]
    pub fn cell(&self) -> CellId
        // The task is the record's, and so is what its body is to be given, whether a broken cell
        // is answered in the wait, how it ended, how many things it has made, what it has printed,
        // and what it owes.
        ensures { result ≡ self.now.cell }
    {
        self.parts.cell
    }

    /// What the body is to be given. In a task that waits it is the place of the cell.
    #[inline(always)]
    pub fn answer(&self) -> Answer
        ensures { result ≡ self.now.answer }
    {
        self.parts.answer
    }

    /// How many cells it holds, itself the first of them.
    #[inline(always)]
    pub fn places(&self) -> u32
        requires few { length self.now.held < 2 ^ 32 }
        // How many cells it holds, itself among them, is what the record says.
        ensures { result ≡ length self.now.held }
    {
        self.parts.others.len() as u32 + 1
    }

    /// The cell that it holds at a place.
    #[inline(always)]
    pub fn at(&self, place: u32) -> Held
        requires { place < length self.now.held }
        // The cell at a place is the record's.
        ensures { result ≡ held_at self.now.held place }
    {
        if place == 0 {
            return Held {
                cell: self.parts.cell,
                sort: Sort::Task,
            };
        }
        self.parts.others[place as usize - 1]
    }

    /// The cell that it holds at a place, if it holds so many.
    #[inline(always)]
    pub fn find(&self, place: u32) -> Option<Held>
        ensures { result ≡ slice_get self.now.held place }
    {
        if place == 0 {
            return Some(Held {
                cell: self.parts.cell,
                sort: Sort::Task,
            });
        }
        self.parts.others.get(place as usize - 1).copied()
    }

    /// What it owns beside its result, which it owns first, until it has ended.
    #[inline(always)]
    pub fn promises(&self) -> &[CellId]
        // What it owns beside its result is all that it owns but the first.
        ensures promises { result.now ≡ drop 1 self.now.owned }
        // Where it owns something, its result is the first.
        ensures first { self.now.owned ≢ [] → self.now.owned ≡ self.now.cell ∷ result.now }
    {
        if self.parts.owes {
            return &[];
        }
        self.parts.promises.as_slice()
    }

    /// The promises that it still owned when it ended.
    #[inline(always)]
    pub fn owed(&self) -> &[CellId]
        ensures { result.now ≡ self.now.owed }
    {
        if self.parts.owes {
            return self.parts.promises.as_slice();
        }
        &[]
    }

    /// How many tasks and promises it has made.
    #[inline(always)]
    pub fn made(&self) -> u32
        ensures { result ≡ self.now.made }
    {
        self.parts.made
    }

    /// What it has printed.
    #[inline(always)]
    pub fn prints(&self) -> &[i64]
        ensures { result.now ≡ self.now.prints }
    {
        self.parts.prints.as_slice()
    }

    /// How it ended.
    #[inline(always)]
    pub fn finish(&self) -> Option<Finish>
        ensures { result ≡ self.now.finish }
    {
        self.parts.finish
    }

    /// Whether a broken cell is answered by `Lost` in the wait.
    #[inline(always)]
    pub fn spare(&self) -> bool
        ensures { result ≡ self.now.spare }
    {
        self.parts.spare
    }
}
