//! Laws of traces. They speak of the definitions alone.
ghost use Rattle.std.specs.Prelude.{Bool};
ghost use Rattle.tj_eval.specs.Stands.{PlacedState};
ghost use Rattle.tj_trace.specs.HandLaws.{HandsAreWhole};
ghost use Rattle.tj_trace.specs.MadeAt.{LinesAreOfStands};
ghost use Rattle.tj_trace.specs.MostLaws.{MostHasAPlace};
ghost use Rattle.tj_trace.specs.NoteLaws.{NotesAreWhole};
ghost use Rattle.tj_trace.specs.OneOwners.{OwnersAreOne};
ghost use Rattle.tj_trace.specs.RightLines.{LinesAreForked, LinesAreRight};
ghost use Rattle.tj_trace.specs.SpotLaws.{LinesHavePlaces, SpotsAreThere};
ghost use Rattle.tj_trace.specs.TraceLaws.{IsFullAlike, IsOfOutcome};

/// The trace of a program is of the outcome of the program without stands, line by line.
pub fn traces_are_of_the_outcome()
    // Law: without what they tell of places, the lines of a trace are those of the outcome of the
    // script's task, line by line.
    ensures { (strict : Bool) (root : PlacedState) → IsOfOutcome strict root }
{}

/// With stands a program needs more cells than the limit exactly where it does without them.
pub fn full_alike()
    // Law: a meaning with notes needs more cells than the limit exactly where the meaning without
    // them does.
    ensures { (strict : Bool) (root : PlacedState) → IsFullAlike strict root }
{}

/// The notes of a task tell each promise and each task that it made.
pub fn notes_are_whole()
    // Law: what a line tells as made is each promise and each child that the task's history made,
    // in the order in which it made them.
    ensures { (strict : Bool) (root : PlacedState) → NotesAreWhole strict root }
{}

/// A line tells statements of the declaration that its task runs: where it stands, what made each
/// thing, and what set each promise.
pub fn lines_are_right()
    // Law: if the root stands right, each line tells the script's statements: it waits at a `get`
    // or a `join`; it ended at a `return`, or with 0 at the closing brace; it failed at a statement
    // that can fail so; what made a promise is a `new` of the declaration that the task runs, what
    // made a task a `fork` there; and what set a promise is a `set` there.
    ensures { (strict : Bool) (root : PlacedState) → LinesAreRight strict root }
{}

/// Each task runs the declaration which the statement forks that is told as its maker.
pub fn lines_are_forked()
    // Law: if the root stands right, what `maker_of` finds for the name of a line is a `fork` of
    // the declaration that the line tells; and the root's line tells the root's declaration.
    ensures { (strict : Bool) (root : PlacedState) → LinesAreForked strict root }
{}

/// The position of each statement of a script is that of its first token, and of its ask likewise.
pub fn spots_are_there()
    // Law: for each number of a statement of a script `spot` gives the position of the first token
    // of this statement, and `ask_spot` that of its ask, if it has one; for the number behind the
    // last, `spot` gives the position of the closing brace and `ask_spot` none.
    ensures { SpotsAreThere }
{}

/// A line tells where its task's history stands in the end, where it stood as it made each thing
/// and set each promise, and what its variables held.
pub fn lines_are_of_stands()
    // Law: a line tells where the history of the body that knows where it stands has come to in the
    // end; for each step of this history that made a thing, the sort of the thing and where the
    // body stood after the step; for each step that set a promise, the promise and where the body
    // stood; what the body's variables held at first; and, if the history ended in a failure by
    // `arith` or `kind`, what they held then.
    ensures { (strict : Bool) (root : PlacedState) → LinesAreOfStands strict root }
{}

/// Each number that a line tells has a position in the script.
pub fn lines_have_places()
    // Law: if the root stands right, each number that a line tells has a position among those of
    // the same script.
    ensures { (strict : Bool) (root : PlacedState) → LinesHavePlaces strict root }
{}

/// No two lines tell of tasks that owned one cell where they stopped.
pub fn owners_are_one()
    // Law: two lines of a trace that tell of an owner of one cell are one line.
    ensures { (strict : Bool) (root : PlacedState) → OwnersAreOne strict root }
{}

/// A task handed on what its line tells, and to the tasks that it tells.
pub fn hands_are_whole()
    // Law: what a line tells as handed on, and to which of the things that its task made, is each
    // promise that each child of the task's history was handed, in the order of the forks.
    ensures { (strict : Bool) (root : PlacedState) → HandsAreWhole strict root }
{}

/// The statement that `most_made` tells has a position in the script.
pub fn most_has_a_place()
    // Law: if the root stands right, the statement that made most has a position among those of
    // the same script.
    ensures { (strict : Bool) (root : PlacedState) → MostHasAPlace strict root }
{}
