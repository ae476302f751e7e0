//! The laws of whole runs of events: what happens once, in legal runs and in what the calls of a
//! table show. They stand over the definitions alone, so the functions do nothing.
ghost use Rattle.tj_laws.specs.Closes.{ClosersOwn, ClosesAreOnce, UnwaitsHaveSettled, AlarmsAreLast};
ghost use Rattle.tj_laws.specs.TableEvents.{EventsAreOnce};

use tj_runs::call_runs;

/// In every legal run each cell is closed at most once, by its owner at that moment; a wait that is
/// cleared has settled before; and a task that has alarmed makes no event after it.
pub fn closes()
    // In every legal run of events, who closes a cell owns it then.
    ensures owner { ClosersOwn }
    // In every legal run a cell is closed at most once, whoever closes it.
    ensures once { ClosesAreOnce }
    // In every legal run a wait that is cleared is parked; the last event of its task before that
    // is the Settle of this very wait.
    ensures settled { UnwaitsHaveSettled }
    // In every legal run a task makes no event after its alarm: so it alarms at most once.
    ensures alarms { AlarmsAreLast }
{}

/// So it is of the events that the calls of a run from a new table show.
pub fn shown_events<B>()
    // Of the events that the calls of a run from a new table show, in their order: no cell is
    // closed twice; a wait that is cleared has settled before, by the last event of its task; and
    // no task makes an event after its alarm.
    ensures { EventsAreOnce B }
{
    call_runs::<B>();
}
