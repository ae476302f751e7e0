//! What the steps tell that draw a cell and write its words.
ghost use Rattle.tj_words.specs.Calls.DrawViews.{mark_store, word_store};
ghost use Rattle.tj_words.specs.Inner.CellTold.{of_its_cell};
ghost use Rattle.tj_words.specs.Inner.IndexWords.{once_of};

use crate::plays::Naming;
use crate::view::View;
use atomic_table::Play;
use std::marker::PhantomData;
use tj_body::Body;
use tj_record::Rec;

/// A draw.
pub(crate) struct Draw<M> {
    naming: PhantomData<M>,
}

impl<B: Body, M: Naming> Play<Option<Rec<B>>, View<B>> for Draw<M> {
    ghost use Rattle.tj_body.specs.Programs.{program_of};
    ghost use Rattle.tj_words.specs.Calls.DrawViews.{draw_step};

    ghost then = { of_its_cell (λ cells c. draw_step
        (program_of B.places B.awaits B.left B.asks B.then) cells M.task M.sort) };
}

/// A store of a word of the tree.
pub(crate) struct WordStore;

impl<B: Body> Play<Option<Rec<B>>, View<B>> for WordStore {
    ghost then = { λ st. of_its_cell (λ cells c. word_store c (once_of st.word)) st };
}

/// A store of PHASE that marks a promise.
pub(crate) struct MarkStore;

impl<B: Body> Play<Option<Rec<B>>, View<B>> for MarkStore {
    ghost then = { mark_store };
}
