//! The law of a walker: in a state that meets the facts its next event is determined.
ghost use Rattle.tj_events.specs.Laws.{WalkersHaveOneEvent};

/// In a state that meets the facts a walking task has exactly one allowed event.
#[tactic(auto, using(crate::proofs::Events::NextEvents::walkers_have_one_event))]
pub fn walkers_have_one_event()
    // Law: in a state that meets the facts a walking task has exactly one allowed event of its own.
    ensures { WalkersHaveOneEvent }
{}
