//! The laws of the run that a table has, from its first state to what stands, and to closed words.
ghost use Rattle.tj_laws.specs.ClosedNames.{KnownNamesAreClosed};
ghost use Rattle.tj_laws.specs.OwnMoments.{OwnMomentsStand, AlarmsAreClosed};
ghost use Rattle.tj_laws.specs.OwnMoments.{ClosedCyclesAreMeant};
ghost use Rattle.tj_laws.specs.SlotsInHand.{HandsAreApart, RecordsStayHome};

use tj_runs::{alike_seats, call_runs, lasting_words, own_runs};

/// Each moment of a table's own run is as the laws of moments say, and what has alarmed, stands, has
/// ended, was stopped or has come to rest then is so still of what stands. So what has alarmed at
/// some moment has alarmed by the closed words, and its cycle is theirs. Each cycle of closed words is
/// one of the meaning, by names.
pub fn own_moments<B>()
    // At each moment of the run that a table has (`tj_runs::tables_have_runs`), each task that has
    // alarmed is on a cycle of waits, and each cycle has a member that has alarmed or an open walk.
    // Of what stands in the table now: what has alarmed at that moment has alarmed, a cycle that
    // stood stands with its members and cells, Ended, Alarmed and Promise stand, STOP that wasn't 0
    // isn't, and once LIVE was 0 all stands still as `rested_tables` `stay` says.
    ensures stand { OwnMomentsStand B }
    // What has alarmed at some moment of the run of a closed table (`tj_words::Laid::rest` `run`)
    // has alarmed by its closed words, and a cycle of waits that stood then is one of them.
    ensures closed { AlarmsAreClosed B }
    // A cycle of waits by closed words of a meaning is a cycle of the meaning's waits, by the names
    // of its tasks: so it is one of the outcome's, and of the report's.
    ensures meant { ClosedCyclesAreMeant B }
{
    call_runs::<B>();
    lasting_words::<B>();
    own_runs::<B>();
}

/// In the run that a table has, what a seat has in hand isn't at home, and a record at home stays as
/// it is until it is taken, whether a seat holds its task or not.
pub fn own_records<B>()
    // At each moment of the run that a table has (`tj_runs::tables_have_runs`), a slot that a seat
    // has in hand isn't at home, no other seat has it in hand, and the seat has it once.
    ensures hands { HandsAreApart B }
    // At each step of that run what lies at home in a slot stays there as it is, or that step takes
    // it: so no record is laid for a task whose record lies at home.
    ensures stay { RecordsStayHome B }
{}

/// What a seat of a table says of the name of a cell stays so: the closed words say it, too.
pub fn closed_names<B>()
    // Where LIVE is 0 at the end of the run of a closed table (`tj_words::Laid::rest` `run`): a cell
    // that a seat's view names at some moment of that run has this name by the closed words, and so
    // in the meaning to which they belong.
    ensures { KnownNamesAreClosed B }
{
    alike_seats::<B>();
    own_runs::<B>();
}
