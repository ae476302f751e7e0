//! What is told of a meaning: a line for each task, and the cycles of tasks that wait for each
//! other. A cycle is written as links, each a task with the cell that it waits for.
ghost use Rattle.std.specs.Prelude.{◌≡◌};
ghost use Rattle.std.specs.List.{list_any};
ghost use Rattle.tj_mean.specs.Outcomes.{is_marked, is_troubled};
ghost use Rattle.tj_mean.specs.declared.outcome.PlanFault.TheVariants as fault;

use std::error::Error;
use std::fmt;
use tj_base::{Cause, Items, Name, NameList, NumList, Oom, Shown};

/// What became of a task.
#[derive(Debug, PartialEq, Eq, Drop)]
pub enum Ending {
    Done(Shown),
    Failed(Cause),
    /// It waits for this cell.
    Waits(Name),
}

/// What is told of a task.
#[derive(Debug, PartialEq, Eq, Drop)]
pub struct TaskLine {
    pub name: Name,
    pub prints: NumList,
    pub ending: Ending,
    /// The promises that it still owned when it ended, in name order.
    pub owes: NameList,
}

/// One part of a cycle: the task waits for the cell, which the next part's task owns.
#[derive(Debug, PartialEq, Eq, Drop)]
pub struct Link {
    pub task: Name,
    pub cell: Name,
}

/// Lines of tasks.
pub type LineList = Items<TaskLine>;

/// A cycle, from one of its tasks on.
pub type LinkList = Items<Link>;

/// Cycles.
pub type CycleList = Items<LinkList>;

/// The lines of all tasks, in name order, and all cycles, each from its least name on, in the
/// order of these names.
#[derive(Debug, PartialEq, Eq, Drop)]
pub struct Outcome {
    pub lines: LineList,
    pub cycles: CycleList,
}

/// Why there is no outcome.
#[derive(Clone, Copy, Debug, PartialEq, Eq)]
pub enum PlanFault {
    /// The meaning needs more cells than the limit.
    Full,
    Oom,
}

impl fmt::Display for PlanFault {
    fn fmt<W: fmt::Write>(&self, f: &mut fmt::Formatter<W>) -> fmt::Result {
        match self {
            PlanFault::Full => f.write_str("more cells are needed than the limit"),
            PlanFault::Oom => f.write_str("out of memory"),
        }
    }
}

impl Error for PlanFault {}

impl From<Oom> for PlanFault {
    ghost from_gives = { λ _ f. f ≡ fault.Oom };

    fn from(_oom: Oom) -> PlanFault {
        PlanFault::Oom
    }
}

/// Whether a task failed, owes or waits, or a cycle stands.
pub fn marked(o: &Outcome) -> bool
    // True comes exactly where a task failed, owes or waits, or a cycle stands.
    ensures { result ≡ is_marked o.now }
{
    !o.cycles.items().is_empty() || has_troubled(o.lines.items())
}

/// Whether one of the tasks failed, owes or waits.
fn has_troubled(lines: &[TaskLine]) -> bool
    ensures { result ≡ list_any is_troubled lines.now }
{
    lines.iter().any(is_troubled)
}

/// Whether the task failed, owes or waits.
fn is_troubled(line: &TaskLine) -> bool
    ensures { result ≡ is_troubled line.now }
{
    match line.ending {
        Ending::Done(_) => !line.owes.items().is_empty(),
        _ => true,
    }
}
