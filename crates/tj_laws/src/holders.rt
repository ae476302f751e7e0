//! The laws of who holds a task, from a claim to the step by which it leaves.
ghost use Rattle.tj_laws.specs.Holders.{OneSeatHolds, HeldThroughout, LaidThroughout};
ghost use Rattle.tj_laws.specs.Holders.{LoneSeatsHold, ReadiedOncePerClaim};
ghost use Rattle.tj_runs.specs.TaskHolders.{HoldersLast};

use tj_runs::{call_runs, lasting_words};

/// One seat at most holds a task. At each step that seat holds it still, or nobody does and its
/// record lies at home; and the record at home of a task that nobody holds stays as it is until a
/// seat takes the task. So from a claim to the step by which it leaves one seat holds it, and else its
/// record stays. Between a claim and the next one PHASE changes to Ready exactly once.
pub fn one_holder<B>()
    // One seat at most holds a task.
    ensures one { OneSeatHolds B }
    // At each step a seat that holds a task holds it still, or no seat does and its record lies at
    // home; the record of a task that no seat holds stays as it is, or a seat has taken the task.
    ensures steps { HoldersLast B }
    // As long as a task is held, the same seat holds it.
    ensures held { HeldThroughout B }
    // As long as no seat holds a task, its record at home stays as it is.
    ensures laid { LaidThroughout B }
    // Between a change of PHASE from Ready to Running and the next such change of that task lies
    // one change to Ready, and no more.
    ensures claims { ReadiedOncePerClaim B }
    // A seat with all lots holds each task whose PHASE is Running or Walking.
    ensures lone { LoneSeatsHold B }
{
    call_runs::<B>();
    lasting_words::<B>();
}
