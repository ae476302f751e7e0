//! What the stores of an owner, and of what becomes of a cell, tell.
ghost use Rattle.tj_words.specs.Calls.EntryViews.{tag_store};
ghost use Rattle.tj_words.specs.Calls.OwnerViews.{owner_put};
ghost use Rattle.tj_words.specs.Inner.CellTold.{of_its_cell};

use crate::view::View;
use atomic_table::Play;
use tj_body::Body;
use tj_record::Rec;

/// A store of OWN.
pub(crate) struct OwnerPut;

impl<B: Body> Play<Option<Rec<B>>, View<B>> for OwnerPut {
    ghost then = { of_its_cell (λ cells. owner_put) };
}

/// A store of BITS.
pub(crate) struct BitsPut;

impl<B: Body> Play<Option<Rec<B>>, View<B>> for BitsPut {
    ghost use Rattle.tj_body.specs.Programs.{program_of};
    ghost use Rattle.tj_words.specs.Calls.EntryViews.{bits_store};

    ghost then = { of_its_cell (λ cells. bits_store
        (program_of B.places B.awaits B.left B.asks B.then)) };
}

/// A store of TAG.
pub(crate) struct TagPut;

impl<B: Body> Play<Option<Rec<B>>, View<B>> for TagPut {
    ghost then = { of_its_cell (λ cells. tag_store) };
}
