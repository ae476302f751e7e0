//! Laws of reasons. They speak of the definitions alone.
ghost use Rattle.std.specs.Prelude.{Bool};
ghost use Rattle.tj_eval.specs.Stands.{PlacedState};
ghost use Rattle.tj_reasons.specs.FailureLaws.{FailuresHaveReasons};
ghost use Rattle.tj_reasons.specs.ReasonLaws.{ReasonsAreRight};

/// Why an expression came to nothing, and why a statement failed as it began, is told rightly.
pub fn reasons_are_right()
    // Law: of what the variables of a task held, an expression has a reason exactly where it has no
    // value, and the reason tells of the fault for which it has none; and so does that of a
    // statement that fails as it begins, if what it forks is declared with as many parameters.
    ensures { ReasonsAreRight }
{}

/// Each task that failed by `arith` or `kind` stands at a statement that has a reason for it.
pub fn failures_have_reasons()
    // Law: each task of each round whose history failed by `arith` or `kind` stands in the end at a
    // statement of its declaration which has a reason, by what the task's variables hold then, and
    // the reason tells of this fault; also where the rules refused what the statement asked. The
    // root has to stand right, and each fork to be of a declaration with as many parameters.
    ensures { (strict : Bool) (root : PlacedState) → FailuresHaveReasons strict root }
{}
