//! The laws of moments and of later ones, by the words of a table. They stand over the definitions
//! alone, so the functions do nothing: who calls one may rest on its clauses.
ghost use Rattle.tj_laws.specs.TableWaits.{EveryMoment, NoOtherWaitNoCycle};

use tj_runs::call_runs;

/// At every moment a task whose PHASE is Alarmed is on a cycle of waits that stands, by the words
/// themselves, and each cycle of waits that stands has a member that has alarmed or whose walk isn't
/// at its end. Ever after the task has alarmed, and the cycle stands with the same members and cells.
pub fn every_moment<B>()
    // At every moment a task whose PHASE is Alarmed is on a cycle of waits that stands: each
    // member's PHASE waits for a cell whose OWN is the next one. Each cycle of waits that stands
    // has a member that has alarmed, or that walks and isn't at its walk's end. Ever after the task
    // has alarmed, and the cycle stands, with the same members, each of which waits for the same
    // cell.
    ensures { EveryMoment B }
{
    call_runs::<B>();
}

/// At every moment at which OTHERS is 0 no cycle of waits stands.
pub fn no_other_wait_no_cycle<B>()
    // At every moment at which OTHERS is 0 no cycle of waits stands.
    ensures { NoOtherWaitNoCycle B }
{}
