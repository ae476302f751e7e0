//! What the loads of a walker and the steps on OTHERS tell their caller.
ghost use Rattle.std.specs.Prelude.{◌<◌, ◌≤◌, ◌^◌, min};
ghost use Rattle.tj_events.specs.Events.{count_read, others_read, wait_found};
ghost use Rattle.tj_words.specs.Words.Codes.{IsPhaseWord};
ghost use Rattle.tj_words.specs.Words.Owners.{owner_in};
ghost use Rattle.tj_words.specs.Words.Phases.{phase_in};
ghost use Rattle.tj_words.specs.SeatViews.SeatSteps.{IsCount};
ghost use Rattle.tj_words.specs.Inner.CellTold.{of_its_cell};
ghost use Rattle.tj_words.specs.Steps.StepEvents.{wait_in};
ghost use Rattle.tj_words.specs.Calls.WalkViews.{others_add, others_subtraction, owner_seen};
ghost use Rattle.tj_words.specs.Calls.WalkViews.{walk_load};

use crate::plays::Naming;
use crate::view::View;
use atomic_table::Play;
use std::marker::PhantomData;
use tj_body::Body;
use tj_record::Rec;

/// A load of COUNT by a walker.
pub(crate) struct WalkerCount<M> {
    naming: PhantomData<M>,
}

impl<B: Body, M: Naming> Play<Option<Rec<B>>, View<B>> for WalkerCount<M> {
    ghost then = { of_its_cell (λ cells c. walk_load M.task
        (λ n. count_read (min n cells)) (IsCount cells)) };
}

/// A load of OWN by a walker.
pub(crate) struct WalkerOwner<M> {
    naming: PhantomData<M>,
}

impl<B: Body, M: Naming> Play<Option<Rec<B>>, View<B>> for WalkerOwner<M> {
    ghost then = { of_its_cell (λ cells c. walk_load M.task
        (λ n w. owner_seen (owner_in n) w w.last) (λ n. n ≤ cells)) };
}

/// A load of PHASE by a walker.
pub(crate) struct WalkerWait<M> {
    naming: PhantomData<M>,
}

impl<B: Body, M: Naming> Play<Option<Rec<B>>, View<B>> for WalkerWait<M> {
    ghost then = { of_its_cell (λ cells c. walk_load M.task
        (λ n. wait_found c (wait_in (phase_in n))) (IsPhaseWord cells)) };
}

/// A load of OTHERS.
pub(crate) struct WalkerOthers<M> {
    naming: PhantomData<M>,
}

impl<B: Body, M: Naming> Play<Option<Rec<B>>, View<B>> for WalkerOthers<M> {
    ghost then = { walk_load M.task others_read (λ n. n < 2 ^ 32) };
}

/// An add to OTHERS.
pub(crate) struct OthersAdd<M> {
    naming: PhantomData<M>,
}

impl<B: Body, M: Naming> Play<Option<Rec<B>>, View<B>> for OthersAdd<M> {
    ghost then = { others_add M.task };
}

/// A subtraction from OTHERS.
pub(crate) struct OthersSubtraction;

impl<B: Body> Play<Option<Rec<B>>, View<B>> for OthersSubtraction {
    ghost then = { others_subtraction };
}
