//! What one allowed event leaves as it is, in each state that meets the facts. Whoever shows that a
//! step is such an event may rest on it for all that take no part in the step.
ghost use Rattle.tj_events.specs.EventLaws.{EventKeepsCycles, EventLeavesOthers, EventKeepsAlarms, EventKeepsWatches};

/// A standing cycle stands after the event, with the same tasks.
#[tactic(auto, using(crate::proofs::Events::EventEffects::event_keeps_cycles))]
pub fn event_keeps_cycles()
    // Law: a standing cycle of a state that meets the facts stands after each allowed event, with
    // the same tasks.
    ensures { EventKeepsCycles }
{}

/// The event of one task leaves every other task at its stage.
#[tactic(auto, using(crate::proofs::Events::EventEffects::event_leaves_others))]
pub fn event_leaves_others()
    // Law: each allowed event of one task leaves every other task that is there at its stage, in
    // such a state.
    ensures { EventLeavesOthers }
{}

/// A task that has alarmed stays alarmed, on the same cell.
#[tactic(auto, using(crate::proofs::Events::EventEffects::event_keeps_alarms))]
pub fn event_keeps_alarms()
    // Law: a task that has alarmed in such a state stays alarmed after each allowed event, on the
    // same cell.
    ensures { EventKeepsAlarms }
{}

/// A task on a cycle that has alarmed or is on course stays on it, and has alarmed or is on course,
/// whoever acts.
pub fn event_keeps_watches()
    // Law: a task that is on a cycle of n tasks in such a state, and has alarmed or is on course,
    // is so after each allowed event, whoever acts.
    ensures { EventKeepsWatches }
{}
