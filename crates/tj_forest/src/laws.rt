//! Laws of findings and of their forest. They speak of the definitions alone.
ghost use Rattle.std.specs.Prelude.{Bool};
ghost use Rattle.tj_eval.specs.Stands.{PlacedState};
ghost use Rattle.tj_forest.specs.CellsTold.{CellsAreToldRight};
ghost use Rattle.tj_forest.specs.Consequences.{ConsequencesFollow, ForestsHoldEachFinding};
ghost use Rattle.tj_forest.specs.Consequences.{GroupsHoldEachFinding};
ghost use Rattle.tj_forest.specs.Explanations.{CycleOwnersAreNext, FindingsTellEachOnce};
ghost use Rattle.tj_forest.specs.Explanations.{NothingIsFoundWhereFine, WaitsLeadToToldCycles};
ghost use Rattle.tj_forest.specs.LetLaws.{LetsAreTold};
ghost use Rattle.tj_forest.specs.Origins.{EchoesHaveOrigins, EchoesNameEarlierCells};
ghost use Rattle.tj_forest.specs.Positions.{MainStandsRight, TasksAreToldRight};
ghost use Rattle.tj_forest.specs.ReasonsTold.{ReasonsAreTold};
ghost use Rattle.tj_forest.specs.TasksTold.{TasksAreOfHistories};
ghost use Rattle.tj_forest.specs.WentLaws.{PromisesWentThere};

use tj_body::waits_lead_to_a_cycle;
use tj_eval::ScriptBody;

/// The findings tell each wait, each failure and each promise owed of a meaning, and no other; each
/// task that waits or failed once, and each promise once.
pub fn findings_tell_each_once()
    // Law: the findings that a text tells are of the meaning. Each task that waits is told with its
    // cell, in a cycle or behind one, and each task that failed with its cause; each promise that a
    // task owed is told with that task. No other wait, failure or promise is told. No task is told
    // to wait, or to fail, twice, and no promise is told twice.
    ensures { (strict : Bool) (root : PlacedState) → FindingsTellEachOnce strict root }
{}

/// Nothing is found exactly where no task failed, owes or waits.
pub fn nothing_is_found_where_fine()
    // Law: nothing is found exactly where no task failed, owes or waits.
    ensures { (strict : Bool) (root : PlacedState) → NothingIsFoundWhereFine strict root }
{}

/// A cycle is told from its least name on, and the owner of the cell for which a task waits is the next task.
pub fn cycle_owners_are_next()
    // Law: each cycle that is told has a first task, before whose name none of its others comes. The
    // owner of the cell for which a task waits is there, and is the next task of the cycle; for the
    // last task it is the first.
    ensures { (strict : Bool) (root : PlacedState) → CycleOwnersAreNext strict root }
{}

/// What a task that is told to wait waits for has an owner, and leads to a cycle that is told.
pub fn waits_lead_to_told_cycles()
    // Law: in a run that isn't full, waits lead from a task that is told to wait to a member of a
    // cycle that is told. The owner that is told owns the cell for which the task waits.
    ensures { (strict : Bool) (root : PlacedState) → WaitsLeadToToldCycles strict root }
{
    waits_lead_to_a_cycle::<ScriptBody>();
}

/// Each task that a finding tells has its declaration, and positions of the statements at which it
/// stopped and was forked.
pub fn tasks_are_told_right()
    // Law: in a run from the body of `main` on, each task that a finding tells has its declaration,
    // a statement there at which a task can stop as its history did, and a fork of this declaration if
    // it isn't the root. The root is told without one. Each of these statements has a position.
    ensures { TasksAreToldRight }
{}

/// Each echo that is told has an origin, which echoes nothing.
pub fn echoes_have_origins()
    // Law: in a run of at most 2 ^ 20 cells each echo that is told has an origin. That is told as a
    // failure for no broken cell, or it ended and is told to owe a promise. Steps back lead to it, each
    // of them from a task that failed for a broken cell to the task whose end broke that.
    ensures { (strict : Bool) (root : PlacedState) → EchoesHaveOrigins strict root }
{}

/// A failure for a broken cell names one that was broken in the round before.
pub fn echoes_name_earlier_cells()
    // Law: a task that has failed for a broken cell in the history of some round names one that was
    // broken in the round before.
    ensures { (strict : Bool) (root : PlacedState) → EchoesNameEarlierCells strict root }
{}

/// Each task that a finding tells is told to have stopped as it did, where it stood then.
pub fn tasks_are_of_histories()
    // Law: each task that a finding tells is told to have ended, failed or waited as its history
    // did, and at the statement to which the history of the body that knows its stand has come in
    // the end; there is such a history. The values that its variables are told to have held at first,
    // and where it failed by `arith` or `kind` in the end, are those of that history.
    ensures { (strict : Bool) (root : PlacedState) → TasksAreOfHistories strict root }
{}

/// Each cell that a finding tells is told with the statement that made it.
pub fn cells_are_told_right()
    // Law: in a run from the body of `main` on that isn't full, each cell that a finding tells, the
    // tasks among them, but the root's result, is told with a `new` of the script, or a `fork`, which
    // has a position. There is a task that made the cell, and it is the statement at which its history
    // stood as it made it. The root's result is told without a statement that made it.
    ensures { CellsAreToldRight }
{}

/// The forest of findings holds those of the list, each as often as the list does.
pub fn forests_hold_each_finding()
    // Law: the forest of findings holds those of the list, each as often as that does.
    ensures { ForestsHoldEachFinding }
{}

/// Groups of causes hold the findings of the forest, each as often as that does.
pub fn groups_hold_each_finding()
    // Law: the groups of causes that are told on one line hold the causes and what follows from them,
    // each finding as often as these do.
    ensures { GroupsHoldEachFinding }
{}

/// Each consequence stands below the cause from which it follows.
pub fn consequences_follow()
    // Law: the forest of a run of at most 2 ^ 20 cells that isn't full has cycles, failures for no broken
    // cell, and promises owed by ended tasks as causes, and each other finding stands below a cause from
    // which it follows. Waits lead from a task that is told behind a cycle to a member of that cycle.
    // Below a failure stand promises that the task owed as it failed, and echoes, with what their tasks
    // owed, from which steps back lead to this task. Below a promise stand echoes, with what their tasks
    // owed, from which steps back lead to a failure for this promise. The origin that an echo tells is the
    // task which its cause tells: the one that failed, or that owed the promise. Among the causes only
    // promises owed by ended tasks stand behind such a promise. No cycle stands before the failure of a
    // task that had no right to a promise, at a statement without an ask, if a task of this cycle waits
    // for this promise: so a set that was refused stands before each cycle that waits for it. A failure
    // stands before a cycle only if it is such a set, and a task of this cycle waits for its promise, or
    // of one that stands before this cycle.
    ensures { (strict : Bool) (root : PlacedState) → ConsequencesFollow strict root }
{
    waits_lead_to_a_cycle::<ScriptBody>();
}

/// Where a promise went that a task had no right to is told as the histories did it, and of no other task.
pub fn promises_went_there()
    // Law: in a run from the body of `main` on that isn't full, it is told where a promise went of each
    // task that is told and failed for this promise, to which it had no right; and it went there. Either
    // the task itself owed it, and its history ended in a fork to which it handed it twice; or, if it
    // didn't owe it, its history set it, where it stood at the statement told; or it never set it and
    // handed it on, to the child that is told, which its history made at the statement told. Only if it
    // did none of these another task is told: one of the run whose history set it, where it stood at the
    // statement told; or, if no task set it, one that owned it where it stopped. One of these is always
    // told. Each statement that is told has a position. Of a task that ended, waits or failed for another
    // cause nothing is told of where a promise went.
    ensures { PromisesWentThere }
{}

/// Each failure by `arith` or `kind` is told with a reason.
pub fn reasons_are_told()
    // Law: in a run from the body of `main` on of each task that is told to have failed by `arith`
    // or `kind` a reason is found, and it tells of this fault: by the statement where the task stopped
    // and what its variables held, it is that of the statement's first part, as the language tests them,
    // that fails or isn't what is wanted there. The statement and the values are those of the finding, and these are those of the
    // task's history, by the law `tasks_are_of_histories`.
    ensures { ReasonsAreTold }
{}

/// A promise is told with the variable of the `let` that made it, and without one where none did.
pub fn lets_are_told()
    // Law: over the statements of a script what is told in front of `made at` of a promise is a name
    // exactly where the statement told is a `let` that gives the variable with this name a new promise.
    // Each such `let` of the script has a variable with a name, and is told with it. It is the script's
    // own statement of which this speaks, by its number in its declaration.
    ensures { LetsAreTold }
{}

/// The body of `main` stands right.
pub fn main_stands_right()
    // Law: the body of `main` of a script stands right at its beginning, and is that of this script. So
    // the laws of tj_trace that ask it of a root hold of a run from there on.
    ensures { MainStandsRight }
{}
