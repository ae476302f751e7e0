//! Who owns each cell, and how many cells each task owns, so that a task's last cell is known at
//! once.
ghost use Rattle.std.specs.Prelude.{◌≡◌, ℕ, ◌+◌, ◌≤◌, ◌<◌, length, slice_index_or};
ghost use Rattle.tj_core.specs.declared.births.TheConstants.{MAX_CORE_CELLS};
ghost use Rattle.tj_core.specs.Inner.Owners.{AreCounts, AreOwnersInside, IsInside, one_if};

use crate::births::MAX_CORE_CELLS;
use std::alloc::{AllocError, Global};

/// The owners of a given number of cells.
#[derive(Drop)]
pub(crate) struct Owners {
    pub(crate) owners: Vec<Option<u32>>,
    counts: Vec<u32>,
    ghost counted: { AreCounts owners.items counts.items },
    ghost inside: { AreOwnersInside owners.items (length owners.items) },
    ghost same: { length counts.items ≡ length owners.items },
    ghost small: { length owners.items ≤ MAX_CORE_CELLS },
}

impl Owners {
    ghost use Rattle.std.specs.Prelude.{◌≡◌, ℕ, ◌<◌, ◌≤◌, ◌↔◌, IsTrue, Some, None, IfOk, length, slice_set, replicate};
    ghost use Rattle.tj_core.specs.Inner.Owners.{owner_in, IsInside};

    /// So many cells that nobody owns.
    pub(crate) fn new(alloc: Global, cells: u32) -> Result<Owners, AllocError>
        requires { cells ≤ MAX_CORE_CELLS }
        ensures { IfOk result (λ new. new.owners.items ≡ replicate cells None) }
    {
        let owners = Vec::from_elem(alloc, None, cells as usize)?;
        let counts = Vec::from_elem(alloc, 0, cells as usize)?;
        Ok(Owners { owners, counts })
    }

    /// Who owns a cell.
    pub(crate) fn of(&self, c: u32) -> Option<u32>
        ensures { result ≡ owner_in self.now.owners.items c }
    {
        if (c as usize) < self.owners.len() {
            self.owners[c as usize]
        } else {
            None
        }
    }

    /// The owner of a cell is `now` from here on.
    pub(crate) fn set(&mut self, c: u32, now: Option<u32>)
        requires cell { c < length self.old.owners.items }
        requires owner { IsInside now (length self.old.owners.items) }
        ensures { self.new.owners.items ≡ slice_set self.old.owners.items c now }
    {
        let was = self.owners[c as usize];
        count_down(&mut self.counts, was);
        count_up(&mut self.counts, now);
        self.owners[c as usize] = now;
    }

    /// Whether task t, which owns its result, owns nothing else.
    pub(crate) fn owns_result_alone(&self, t: u32) -> bool
        requires { owner_in self.now.owners.items t ≡ Some t }
        ensures { IsTrue result ↔ ((c : ℕ) → owner_in self.now.owners.items c ≡ Some t → c ≡ t) }
    {
        self.counts[t as usize] == 1
    }
}

/// A cell more is `owner`'s.
fn count_up(counts: &mut Vec<u32>, owner: Option<u32>)
    requires owner { IsInside owner (length counts.old.items) }
    requires room { (t : ℕ) → t < length counts.old.items
        → slice_index_or counts.old.items t 0 ≤ MAX_CORE_CELLS }
    ensures length { length counts.new.items ≡ length counts.old.items }
    ensures counts { (t : ℕ) → t < length counts.old.items
        → slice_index_or counts.new.items t 0 ≡ slice_index_or counts.old.items t 0 + one_if owner t }
{
    if let Some(u) = owner {
        counts[u as usize] += 1;
    }
}

/// A cell less is `owner`'s.
fn count_down(counts: &mut Vec<u32>, owner: Option<u32>)
    requires owner { IsInside owner (length counts.old.items) }
    requires some { (t : ℕ) → t < length counts.old.items
        → one_if owner t ≤ slice_index_or counts.old.items t 0 }
    ensures length { length counts.new.items ≡ length counts.old.items }
    ensures counts { (t : ℕ) → t < length counts.old.items
        → slice_index_or counts.new.items t 0 + one_if owner t ≡ slice_index_or counts.old.items t 0 }
{
    if let Some(u) = owner {
        counts[u as usize] -= 1;
    }
}
