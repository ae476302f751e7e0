//! What the words of a table show of its cells, once the table is closed.
ghost use Rattle.std.specs.Prelude.{◌≡◌, ◌<◌, ◌≤◌, length};

use crate::phase::Phase;
use std::marker::Model;
use tj_base::CellId;

/// What closed words show of a cell: its owner, its phase, TAG, its maker and its number.
#[derive(Clone, Copy)]
pub struct RestCell {
    pub own: Option<CellId>,
    pub phase: Phase,
    pub tag: u64,
    /// Cell 0 for the root.
    pub parent: CellId,
    pub kid: u32,
}

/// What closed words show of the cells that were drawn, in the order of their numbers.
// It has no type of bodies, which the top call would have to name, and no list of names.
#[derive(Drop)]
pub struct Closed {
    pub(crate) cells: Vec<RestCell>,
}

impl Model for Closed {
    ghost use Rattle.std.specs.Prelude.{List, ◌≤◌, length};
    ghost use Rattle.tj_base.specs.declared.cell.TheConstants.{MAX_CELLS};
    ghost use Rattle.tj_words.specs.declared.closed.RestCell.{RestCell};

    ghost Value = { List RestCell };

    ghost view = { λ closed. closed.cells.items };

    ghost invariant = { λ closed. length closed.cells.items ≤ MAX_CELLS };
}

impl Closed {
    ghost use Rattle.tj_base.specs.declared.cell.TheConstants.{MAX_CELLS};
    ghost use Rattle.tj_words.specs.AtRest.ClosedCells.{IsShown};

    /// How many cells were drawn: no more than any table has.
    pub fn drawn(&self) -> u32
        // It tells how many cells were drawn.
        ensures all { result ≡ length self.now }
        // They are no more than the most cells of any table.
        ensures few { result ≤ MAX_CELLS }
    {
        self.cells.len() as u32
    }

    /// What the words show of a cell.
    pub fn cell(&self, c: CellId) -> RestCell
        requires { c.0 < length self.now }
        // It tells what the words show of a cell.
        ensures { IsShown self.now c.0 result }
    {
        self.cells[c.0 as usize]
    }
}
