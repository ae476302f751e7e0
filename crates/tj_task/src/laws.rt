//! What becomes of a task's asks, as laws: each is a function that does nothing and ensures it.
ghost use Rattle.tj_task.specs.TaskAsks.{HoldsOfTurns, GivesLawful, FailsUnlawful, FailsBeyond};

use crate::task::Task;

/// Each ask of a task is tested.
#[tactic(auto, using(crate::proofs::Tested::lawful, crate::proofs::Tested::unlawful, crate::proofs::Tested::beyond))]
pub fn asks_are_tested<T: Task>()
    // Law: a lawful ask within the bound is given unchanged, and the task is from then on what its
    // turn says.
    ensures lawful { HoldsOfTurns T.turn (GivesLawful T.turn) }

    // Law: where an ask within the bound isn't lawful, the task fails with Kind.
    ensures unlawful { HoldsOfTurns T.turn (FailsUnlawful T.turn) }
    // Law: where a task asks beyond its bound, it fails with Steps.
    ensures beyond { HoldsOfTurns T.turn (FailsBeyond T.turn) }
{}
