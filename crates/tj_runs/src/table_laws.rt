//! What stands in a table came from what stands at first by step calls, splits and merges alone. What is so of
//! such runs is said beside.
//!
//! The laws stand over the definitions alone, so the functions do nothing: who calls one may rest on
//! its clauses.
ghost use Rattle.tj_runs.specs.FreshTables as fresh;
ghost use Rattle.tj_words.specs.CallLaws.LoggedRuns as logged;

/// The words and the slots of a table are the first ones as long as a seat is fresh, as that of `Laid::new` is.
pub fn fresh_is_first<B>()
    // Law: where a seat of a table is fresh, the words and the slots are those of a new table: the
    // root is drawn and ready, with its record at its start.
    ensures { fresh.FreshIsFirst B }
{}

/// What stands in a table came from what stands at first by step calls, splits and merges alone.
pub fn tables_have_runs<B>()
    // Law: what stands in a table came from the first state by step calls, each of a seat of which
    // what it asks is so, by splits, and by merges of idle seats. These are the steps that the logs
    // of its seats have: the entries of each log are steps of one seat, in the order of the run, and
    // so are those of each log that a seat has taken in. The view that stands beside an entry is the
    // one that the seat had before this step of the run. So the laws of runs speak of the table's
    // own run.
    ensures { logged.TablesHaveRuns B }
{}
