//! What the stores of a wait into PHASE tell their caller.
ghost use Rattle.tj_words.specs.Calls.WaitViews.{wait_store};
ghost use Rattle.tj_words.specs.Inner.CellTold.{of_its_cell};

use crate::view::View;
use atomic_table::Play;
use tj_body::Body;
use tj_record::Rec;

/// A store of a wait into PHASE.
pub(crate) struct WaitStore;

impl<B: Body> Play<Option<Rec<B>>, View<B>> for WaitStore {
    ghost then = { of_its_cell (λ cells. wait_store) };
}
