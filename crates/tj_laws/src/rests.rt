//! The laws of a table at rest and of LIVE and STOP.
ghost use Rattle.tj_laws.specs.RestedTables.{RestedTablesStay, NoneInHandAtRest, StopsStay};
ghost use Rattle.tj_laws.specs.RestedTables.{LiveIsSomebodys};

use tj_runs::lasting_words;

/// Once LIVE is 0 it stays 0, no cell is drawn any more, and TAG, OWN, PHASE and the records at home
/// stay; in a run from a new table no cell is in hand then. STOP never returns to 0. Where LIVE isn't
/// 0, a task is ready, or a seat has a live task or a token: no claim on progress follows.
pub fn rested_tables<B>()
    // Once LIVE is 0 it stays 0, no cell is drawn any more, and TAG and the records at home stay,
    // and so do OWN and PHASE of each cell that isn't in hand.
    ensures stay { RestedTablesStay B }
    // In each run from a new table on no cell is in hand where LIVE is 0.
    ensures no_hand { NoneInHandAtRest B }
    // STOP never returns to 0.
    ensures stop { StopsStay B }
    // Where LIVE isn't 0, a task is ready, or a seat has a token, or holds a task that runs or
    // walks.
    ensures live { LiveIsSomebodys B }
{
    lasting_words::<B>();
}
