//! The laws of the core. They stand over the definitions alone, so the functions do nothing: who
//! calls one may rest on its clause. The facts are kept by each event; from that follow the laws of
//! the detector over legal runs, which are lists of events from the state with the root alone, each
//! allowed where it stands.
ghost use Rattle.tj_events.specs.Laws.{EventKeepsFacts, StartMeetsFacts, LegalRunsMeetFacts};
ghost use Rattle.tj_events.specs.Laws.{OnCourseIsOpen, SettlesOffCycles, CyclesStand};
ghost use Rattle.tj_events.specs.StateLaws.{AlarmsAreOnCycles, CyclesAreWatched, LoadsAreBounded};
ghost use Rattle.tj_events.specs.RunLaws.{LegalSettlesAreOffCycles, LegalCyclesStand};
ghost use Rattle.tj_events.specs.RunLaws.{LegalAlarmsAreOnCycles, LegalCyclesAreWatched};
ghost use Rattle.tj_events.specs.RunLaws.{LegalLoadsAreBounded};

/// One allowed event keeps the facts, for every limit.
#[tactic(auto, using(crate::proofs::Events::EachEvent::facts_after_event))]
pub fn event_keeps_facts()
    // Law: for every limit, one allowed event keeps the facts.
    ensures { EventKeepsFacts }
{}

/// The state with the root alone meets the facts.
pub fn start_meets_facts()
    // Law: the root alone meets the facts.
    ensures { StartMeetsFacts }
{}

/// A legal run ends in a state that meets the facts.
#[tactic(auto, using(crate::proofs::Events::LegalRuns::legal_facts))]
pub fn legal_runs_meet_facts()
    // Law: a legal run ends in a state that meets the facts.
    ensures { LegalRunsMeetFacts }
{}

/// In a state that meets the facts a task that has alarmed is the first of a standing cycle.
#[tactic(auto, using(crate::proofs::Graph::WatchedCycles::alarms_on_cycles))]
pub fn alarms_are_on_cycles()
    // Law: in a state that meets the facts a task that has alarmed is the first of a standing
    // cycle.
    ensures { AlarmsAreOnCycles }
{}

/// In a state that meets the facts each standing cycle has a member that has alarmed or has an open
/// walk.
#[tactic(auto, using(crate::proofs::Graph::WatchedCycles::cycles_watched))]
pub fn cycles_are_watched()
    // Law: in such a state each standing cycle has a member that has alarmed or has an open walk.
    ensures { CyclesAreWatched }
{}

/// In a state that meets the facts a walk with bound n has made at most 3n loads.
#[tactic(auto, using(crate::proofs::Graph::WatchedCycles::loads_bounded))]
pub fn loads_are_bounded()
    // Law: in such a state a walk with bound n has made at most 3n loads.
    ensures { LoadsAreBounded }
{}

/// A walk that is on course is open.
#[tactic(auto, using(crate::proofs::Events::LegalRuns::on_course_open))]
pub fn on_course_is_open()
    // Law: a walk that is on course is open: its next event can't be to settle.
    ensures { OnCourseIsOpen }
{}

/// From a state that meets the facts on, a task settles only where no cycle through it stood just
/// after it had published.
#[tactic(auto, using(crate::proofs::Events::LegalRuns::settles_off_cycles))]
pub fn settles_off_cycles()
    // Law: from such a state on a task settles only where no cycle through it stood just after any
    // of its publishes before that.
    ensures { SettlesOffCycles }
{}

/// From a state that meets the facts on, a standing cycle stands for good.
pub fn cycles_stand()
    // Law: from such a state on a task of a standing cycle stays on one of as many tasks.
    ensures { CyclesStand }
{}

/// In every legal run a task settles only where no cycle through it stood just after it had
/// published.
#[tactic(auto, using(crate::proofs::Events::LegalCycles::legal_settles))]
pub fn legal_settles_are_off_cycles()
    // Law: in every legal run a task settles only where no cycle through it stood just after any of
    // its publishes before that.
    ensures { LegalSettlesAreOffCycles }
{}

/// In every legal run a standing cycle stands ever after, with the same tasks.
#[tactic(auto, using(crate::proofs::Events::LegalCycles::legal_cycles_stand))]
pub fn legal_cycles_stand()
    // Law: in every legal run a standing cycle stands ever after, with the same tasks.
    ensures { LegalCyclesStand }
{}

/// In every legal run a task that has alarmed is on a standing cycle, then and ever after.
pub fn legal_alarms_are_on_cycles()
    // Law: in every legal run a task that has alarmed is the first of a standing cycle, then and
    // ever after.
    ensures { LegalAlarmsAreOnCycles }
{}

/// In every legal run each standing cycle has a member that has alarmed or has an open walk.
#[tactic(auto, using(crate::proofs::Events::LegalCycles::legal_watched))]
pub fn legal_cycles_are_watched()
    // Law: in every legal run each standing cycle has a member that has alarmed or has an open
    // walk.
    ensures { LegalCyclesAreWatched }
{}

/// In every legal run a walk with bound n has made at most 3n loads.
#[tactic(auto, using(crate::proofs::Events::LegalCycles::legal_loads))]
pub fn legal_loads_are_bounded()
    // Law: in every legal run a walk with bound n has made at most 3n loads.
    ensures { LegalLoadsAreBounded }
{}
