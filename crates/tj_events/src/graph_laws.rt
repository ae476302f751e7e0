//! The laws of the wait graph: a standing cycle, as a list of distinct tasks, is the same as a task
//! that is reached from itself by the number of these tasks and by no fewer steps.
ghost use Rattle.tj_events.specs.Laws.{CyclesReturn, ReturnsAreCycles, CyclesAreOne};

/// Each task of a standing cycle is reached from itself by as many steps as it has tasks, no fewer.
pub fn cycles_return()
    // Law: each task of a standing cycle is reached from itself by as many steps as the cycle has
    // tasks, and no fewer.
    ensures { CyclesReturn }
{}

/// A task that is reached from itself by n steps, no fewer, is the first of a cycle of n tasks.
#[tactic(auto, using(crate::proofs::Graph::CycleLists::returns_are_cycles))]
pub fn returns_are_cycles()
    // Law: a task reached so by n steps is the first of a standing cycle of n tasks.
    ensures { ReturnsAreCycles }
{}

/// The tasks of the standing cycle through a task, from it on, are one list.
#[tactic(auto, using(crate::proofs::Graph::CycleLists::cycle_one))]
pub fn cycles_are_one()
    // Law: the tasks of the standing cycle through a task, from it on, are one list.
    ensures { CyclesAreOne }
{}
