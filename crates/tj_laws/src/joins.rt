//! The law of joins under the strict rule.
ghost use Rattle.tj_body.specs.Laws.{HoldsOfTasks};
ghost use Rattle.tj_laws.specs.StrictJoins.{FailsAgainstOrder};

use tj_body::Body;

/// Under the strict rule a join of a task that the joiner isn't before in the fork order fails at
/// once, with the cause `order` and that task's name.
pub fn joins_against_the_order<B: Body>()
    // Under the strict rule, under every assignment: where a task asks to join a task that it isn't
    // before in the fork order, with `or` or without, its very next point is closed with the cause
    // Order and the name of that task, whatever the assignment has for it, and its history is that
    // point.
    ensures { HoldsOfTasks B.places B.awaits B.left B.asks B.then FailsAgainstOrder }
{}
