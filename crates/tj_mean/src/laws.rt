//! The laws of outcomes. Code whose proof needs one calls its function, which does nothing, and the
//! proof cites what the call ensures.
ghost use Rattle.std.specs.Prelude.{List};
ghost use Rattle.tj_body.specs.Laws.{HoldsOfPrograms};
ghost use Rattle.tj_body.specs.declared.point.Point.{Point};
ghost use Rattle.tj_mean.specs.ActLaws.{ActsCanBeWorkedOff};
ghost use Rattle.tj_mean.specs.OutcomeLaws.{HasOneOutcome, MeaningIsApart, OrderIsFree};
ghost use Rattle.tj_mean.specs.OutcomeLaws.{OutcomeHasCycleWhereWaits, StrictOutcomeHasNoWait};
ghost use Rattle.tj_mean.specs.OutcomeLaws.{OutcomeIsSeen};

use tj_body::Body;

/// Histories have at most one outcome.
pub fn one_outcome<B: Body>()
    // Law: histories have one outcome at most.
    ensures { (ps : List (Point B)) → HasOneOutcome ps }
{}

/// The outcome of histories doesn't depend on their order.
pub fn order_is_free<B: Body>()
    // Law: the outcome of histories is that of them in any other order.
    ensures { OrderIsFree B }
{}

/// What is told of the histories of a meaning, in any order, has an outcome.
pub fn meaning_is_apart<B: Body>()
    // Law: what is told of the histories of a meaning, in any order, meets the condition of
    // `outcome_of`.
    ensures { HoldsOfPrograms B.places B.awaits B.left B.asks B.then MeaningIsApart }
{}

/// Where a task of a meaning that isn't full waits, its outcome has a cycle.
pub fn outcome_has_cycle_where_waits<B: Body>()
    // Law: where a task of the outcome of a meaning that isn't full waits, a cycle stands.
    ensures { HoldsOfPrograms B.places B.awaits B.left B.asks B.then OutcomeHasCycleWhereWaits }
{}

/// Under the strict rule the outcome of a program without gets has no cycle, and no task waits.
pub fn strict_outcome_has_no_wait<B: Body>()
    // Law: under the strict rule, where the root's body passes a test as above
    // (`tj_body::strict_without_get_never_waits`), the outcome of a meaning that isn't full has no
    // cycle and no task that waits.
    ensures { HoldsOfPrograms B.places B.awaits B.left B.asks B.then StrictOutcomeHasNoWait }
{}

/// In a meaning without the strict rule that isn't full there is an order in which all acts can be
/// worked off.
pub fn acts_can_be_worked_off<B: Body>()
    // Law: this holds of the lines of each meaning without the strict rule that isn't full.
    ensures { HoldsOfPrograms B.places B.awaits B.left B.asks B.then ActsCanBeWorkedOff }
{}

/// Histories of bodies that are seen as others have the outcome of those.
pub fn outcome_is_seen<B: Body, C: Body>()
    // Law: histories whose bodies are seen as others have the same outcomes.
    ensures { OutcomeIsSeen B C }
{}
