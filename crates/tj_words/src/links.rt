//! The words PARENT and JUMP of a cell: each names a cell, or none.
ghost use Rattle.std.specs.Prelude.{◌≡◌, ◌+◌, ◌-◌, ◌≤◌, ◌^◌};

use tj_base::CellId;

/// The word PARENT or JUMP that names this cell.
#[inline(always)]
pub fn link_word(cell: CellId) -> u64
    // PARENT or JUMP that names a cell is its number and one more.
    ensures { result ≡ cell.0 + 1 }
{
    cell.0 as u64 + 1
}

/// The cell that PARENT or JUMP names, and cell 0 where it names none, as PARENT of the root.
#[inline(always)]
pub fn link_cell(word: u64) -> CellId
    requires { word ≤ 2 ^ 32 }
    // The cell that PARENT or JUMP names is one less, and cell 0 where it is 0.
    ensures { result.0 ≡ word - 1 }
{
    CellId(word.saturating_sub(1) as u32)
}
