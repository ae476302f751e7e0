//! The law of the step by which a task ends.
ghost use Rattle.tj_laws.specs.EndedStores.{EndedStoresLie};

use tj_runs::{call_runs, lasting_words, own_runs};

/// A step that stored Ended put the record of its task home, where it lies for good.
pub fn ended_stores<B>()
    // Where a step of the run that a table has (`tj_runs::tables_have_runs`) stored Ended for a task,
    // the view of its seat has a record in front then of those that its steps put home; by what stands
    // PHASE of the task is Ended, no seat holds it, and this record lies at home. The entry of such a
    // step in a seat's log is one of that run (`tj_log::logs_are_of_runs`).
    ensures { EndedStoresLie B }
{
    call_runs::<B>();
    lasting_words::<B>();
    own_runs::<B>();
}
