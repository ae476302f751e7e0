//! What the steps on LIVE and STOP, and the stores of Ready and of Ended, tell their caller.
ghost use Rattle.tj_words.specs.Calls.LiveViews.{ended_store, live_add, live_sub, ready_store};
ghost use Rattle.tj_words.specs.Calls.LiveViews.{stop_store};
ghost use Rattle.tj_words.specs.Inner.CellTold.{of_its_cell};

use crate::view::View;
use atomic_table::Play;
use tj_body::Body;
use tj_record::Rec;

/// The add to LIVE.
pub(crate) struct LiveAdd;

impl<B: Body> Play<Option<Rec<B>>, View<B>> for LiveAdd {
    ghost then = { live_add };
}

/// The subtraction from LIVE.
pub(crate) struct LiveSub;

impl<B: Body> Play<Option<Rec<B>>, View<B>> for LiveSub {
    ghost then = { live_sub };
}

/// A store of STOP.
pub(crate) struct StopStore;

impl<B: Body> Play<Option<Rec<B>>, View<B>> for StopStore {
    ghost then = { stop_store };
}

/// A store of Ready into PHASE.
pub(crate) struct ReadyStore;

impl<B: Body> Play<Option<Rec<B>>, View<B>> for ReadyStore {
    ghost then = { of_its_cell (λ cells. ready_store) };
}

/// A store of Ended into PHASE.
pub(crate) struct EndedStore;

impl<B: Body> Play<Option<Rec<B>>, View<B>> for EndedStore {
    ghost then = { of_its_cell (λ cells. ended_store) };
}
