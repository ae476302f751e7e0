//! That the runs of which the laws speak begin.
ghost use Rattle.tj_laws.specs.EndedRoots.{RootsEnd};
ghost use Rattle.tj_laws.specs.NewTables.{EndersAreTagged, JoinersRest, NewTablesGoOn};
ghost use Rattle.tj_laws.specs.NewTables.{RootsAlarm, RootsAreClaimed, WaitersAreClaimedAgain};

use tj_body::{Body, full_where_names, points_in_rounds};
use tj_events::{event_keeps_facts, others_are_few, start_meets_facts};
use tj_runs::ended_records;

/// A new table of a root that has asked nothing yet is under its rule, and a step may be made from
/// there on: so may the claim of the root.
pub fn new_tables<B: Body>()
    // A new table of a root that has asked nothing yet is under its rule, LIVE is 1 and the root is
    // ready; a step may be made from there on.
    ensures goes_on { NewTablesGoOn B.places B.awaits B.left B.asks B.then }
    // And its seat may claim the root: the next moment is under the rule, PHASE of the root is
    // Running there, and the seat holds it.
    ensures claimed { RootsAreClaimed B.places B.awaits B.left B.asks B.then }
    // And some run from there on comes to a moment at which PHASE of the root is Alarmed.
    ensures alarms { RootsAlarm B.places B.awaits B.left B.asks B.then }
    // And without the strict rule, where the root first asks to join itself, some run comes to a
    // moment at which LIVE is 0 and the root has alarmed.
    ensures rests { JoinersRest B.places B.awaits B.left B.asks B.then }
    // And where the root first asks to end with 0, some run comes to a moment at which TAG of the
    // root is 1: its result is a number. Its meaning isn't full.
    ensures tagged { EndersAreTagged B.places B.awaits B.left B.asks B.then }
    // And where the root first asks for a promise, sets it to 0 and waits for it, in a table of two
    // cells or more some run claims the root and comes, without another claim of it, to a moment at
    // which PHASE of the root is Ready again; and the next step may claim it again.
    ensures claimed_again { WaitersAreClaimedAgain B.places B.awaits B.left B.asks B.then }
    // And where by its meaning the root ends at its first ask (with a number of 64 bits, if with
    // one), its table has a run (`tj_runs::tables_have_runs`) in which the root ends like that: a
    // step of it stored Ended for the root, and at its end the view of a seat says that the seat's
    // steps put a record with that finish home. By what stands then PHASE of the root is Ended, no
    // seat holds it, this record lies at home, and LIVE is 0.
    ensures ends { RootsEnd B.places B.awaits B.left B.asks B.then }
{
    others_are_few();
    start_meets_facts();
    event_keeps_facts();
    points_in_rounds::<B>();
    full_where_names::<B>();
    ended_records::<B>();
}
