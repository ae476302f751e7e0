//! Which word is which. The table has four words of its own, and then ten for each cell.
ghost use Rattle.std.specs.Prelude.{◌≡◌, ◌<◌, ◌^◌};
ghost use Rattle.tj_words.specs.Inner.IndexWords.{cell_at};
ghost use Rattle.tj_words.specs.Words.Offsets as offsets;

use tj_base::CellId;

/// The words of a cell that are written once.
#[derive(Clone, Copy)]
pub enum Once {
    Tag,
    Bits,
    Parent,
    Kid,
    Depth,
    Jump,
}

/// The indexes of the words of the table itself: the number of draws, LIVE, OTHERS and STOP.
pub(crate) const COUNT: usize = 0;

pub(crate) const LIVE: usize = 1;

pub(crate) const OTHERS: usize = 2;

pub(crate) const STOP: usize = 3;

/// The number of words of the table itself.
pub(crate) const TABLE_WORDS: usize = 4;

/// The number of words of each cell.
pub(crate) const CELL_WORDS: usize = 10;

/// The index of the word OWN, the first of those of a cell.
pub(crate) fn own_at(cell: CellId) -> usize
    ensures word { result ≡ offsets.own_at cell.0 }
    ensures cell { cell_at result ≡ cell.0 }
{
    TABLE_WORDS + CELL_WORDS * cell.0 as usize
}

/// The index of the word PHASE.
pub(crate) fn phase_at(cell: CellId) -> usize
    ensures word { result ≡ offsets.phase_at cell.0 }
    ensures cell { cell_at result ≡ cell.0 }
{
    own_at(cell) + 1
}

/// The index of a word that is written once.
pub(crate) fn once_at(cell: CellId, word: Once) -> usize
    ensures word { result ≡ offsets.once_at cell.0 word }
    ensures cell { cell_at result ≡ cell.0 }
{
    let offset = match word {
        Once::Tag => 2,
        Once::Bits => 3,
        Once::Parent => 4,
        Once::Kid => 5,
        Once::Depth => 6,
        Once::Jump => 7,
    };
    own_at(cell) + offset
}

/// The index of the word HEAD.
pub(crate) fn head_at(cell: CellId) -> usize
    ensures word { result ≡ offsets.head_at cell.0 }
    ensures cell { cell_at result ≡ cell.0 }
{
    own_at(cell) + 8
}

/// The index of the word NEXT.
pub(crate) fn next_at(cell: CellId) -> usize
    ensures word { result ≡ offsets.next_at cell.0 }
    ensures cell { cell_at result ≡ cell.0 }
{
    own_at(cell) + 9
}
