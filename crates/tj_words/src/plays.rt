//! What the loads that are no event tell their caller, and the steps on HEAD and NEXT.
ghost use Rattle.std.specs.Prelude.{ℕ};
ghost use Rattle.tj_words.specs.Calls.ChainSteps.{next_store, push_exchange, shut_swap};
ghost use Rattle.tj_words.specs.Calls.MetCells.{owner_load, phase_load};
ghost use Rattle.tj_words.specs.SeatViews.SeenWords.{head_load, next_load, once_load};
ghost use Rattle.tj_base.specs.declared.cell.Sort.{Sort};
ghost use Rattle.tj_words.specs.Inner.IndexWords.{once_of};
ghost use Rattle.tj_words.specs.SeatViews.SeatSteps.{IsCount, live_load, plain_load};
ghost use Rattle.tj_words.specs.Inner.CellTold.{of_its_cell};
ghost use Rattle.tj_words.specs.declared.view.Noted.TheVariants as note;

use crate::view::View;
use atomic_table::Play;
use std::marker::Brand;
use tj_base::Sort;
use tj_body::Body;
use tj_record::Rec;

/// What a step is about that its word doesn't say, for the proof alone: a step sees words and views,
/// and no arguments.
pub(crate) trait Naming {
    /// The task that walks, raises OTHERS or draws.
    ghost task: { ℕ };

    /// The sort of a new cell.
    ghost sort: { Sort };
}

impl Naming for Brand {
    ghost task = { 0 };

    ghost sort = { Sort.Promise };
}

/// A load of COUNT that is no event.
pub(crate) struct CountLoad;

impl<B: Body> Play<Option<Rec<B>>, View<B>> for CountLoad {
    ghost then = { of_its_cell (λ cells c. plain_load note.Count (IsCount cells)) };
}

/// A load of OWN that is no event.
pub(crate) struct OwnerLoad;

impl<B: Body> Play<Option<Rec<B>>, View<B>> for OwnerLoad {
    ghost then = { of_its_cell owner_load };
}

/// A load of PHASE that is no event.
pub(crate) struct PhaseLoad;

impl<B: Body> Play<Option<Rec<B>>, View<B>> for PhaseLoad {
    ghost then = { of_its_cell phase_load };
}

/// A load of LIVE.
pub(crate) struct LiveLoad;

impl<B: Body> Play<Option<Rec<B>>, View<B>> for LiveLoad {
    ghost then = { live_load };
}

/// A load of STOP.
pub(crate) struct StopLoad;

impl<B: Body> Play<Option<Rec<B>>, View<B>> for StopLoad {
    ghost use Rattle.tj_body.specs.Programs.{program_of};
    ghost use Rattle.tj_words.specs.SeatViews.FullMeaning.{stop_load};

    ghost then = { stop_load (program_of B.places B.awaits B.left B.asks B.then) };
}

/// A load of HEAD.
pub(crate) struct HeadLoad;

impl<B: Body> Play<Option<Rec<B>>, View<B>> for HeadLoad {
    ghost use Rattle.tj_body.specs.Programs.{program_of};

    ghost then = { of_its_cell (head_load (program_of B.places B.awaits B.left B.asks B.then)) };
}

/// A load of NEXT.
pub(crate) struct NextLoad;

impl<B: Body> Play<Option<Rec<B>>, View<B>> for NextLoad {
    ghost then = { of_its_cell next_load };
}

/// A load of a word that is written once.
pub(crate) struct OnceLoad;

impl<B: Body> Play<Option<Rec<B>>, View<B>> for OnceLoad {
    ghost use Rattle.tj_body.specs.Programs.{program_of};

    ghost then = { λ st. of_its_cell (λ cells. once_load
        (program_of B.places B.awaits B.left B.asks B.then) cells (once_of st.word)) st };
}

/// A store of NEXT.
pub(crate) struct NextStore;

impl<B: Body> Play<Option<Rec<B>>, View<B>> for NextStore {
    ghost then = { of_its_cell (λ cells. next_store) };
}

/// An exchange of HEAD that adds a task to the chain.
pub(crate) struct PushExchange;

impl<B: Body> Play<Option<Rec<B>>, View<B>> for PushExchange {
    ghost use Rattle.tj_body.specs.Programs.{program_of};

    ghost then = { of_its_cell (push_exchange (program_of B.places B.awaits B.left B.asks B.then)) };
}

/// A swap of HEAD that shuts it.
pub(crate) struct ShutSwap;

impl<B: Body> Play<Option<Rec<B>>, View<B>> for ShutSwap {
    ghost then = { of_its_cell shut_swap };
}
