//! What the rule of a table with logs says of it, under any rule of a caller's.
ghost use Rattle.tj_log.specs.Laws.{AreAsPut, FreshIsFirst, LogsAreOfRuns};
ghost use Rattle.tj_log.specs.Runs.{terms_of};

use crate::table::LogRule;

/// Where a seat of a table is fresh, the words and the slots are the first ones.
pub fn fresh_is_first<S, V, K, P: LogRule<S, V, K>>()
    // Law: where a seat of a table is fresh, the words and the slots are those of an opening.
    ensures first { (key : K) → FreshIsFirst (terms_of (P.holds key) (P.tells key) P.left P.right
        P.both P.spent (P.opens key) (P.first key) P.may_join) }
{}

/// What a step takes from a slot is what was put there last.
pub fn slots_are_as_put<S, V, K, P: LogRule<S, V, K>>()
    // Law: what a step takes from a slot is what the last step on that slot put there, or what lay there at first where
    // none was made on it; and so is what lies at home.
    ensures slots { (key : K) → AreAsPut (terms_of (P.holds key) (P.tells key) P.left P.right
        P.both P.spent (P.opens key) (P.first key) P.may_join) }
{}

/// What is logged is of the run.
pub fn logs_are_of_runs<S, V, K, P: LogRule<S, V, K>>()
    // Law: each entry of a seat's log is a step that the seat made in the run, after those that are older in its log, and
    // the view that the seat had then is the one that it has kept for this step; each log that a seat has taken in was
    // that of a seat in the run, with the views that are kept for it; and what stands at a moment of a run came by a run.
    ensures logs { (key : K) → LogsAreOfRuns (terms_of (P.holds key) (P.tells key) P.left P.right
        P.both P.spent (P.opens key) (P.first key) P.may_join) }
{}
