//! What is told of a task that has stopped: enough for its line and for the wait graph.
ghost use Rattle.std.specs.Prelude.{◌≡◌, Some, IfOk, IsSome, map};
ghost use Rattle.tj_body.specs.Points.{IsIn};
ghost use Rattle.tj_mean.specs.Outcomes as outcomes;
ghost use Rattle.tj_mean.specs.Outcomes.{AreTold};

use crate::outcome::{Ending, TaskLine};
use std::alloc::Global;
use tj_base::{NameList, Oom, Shown};
use tj_body::{Body, Close, Point, PointStage, ReferenceList, Value};

/// A task whose history has stopped.
#[derive(Drop)]
pub struct Stopped {
    pub line: TaskLine,
    /// The promises that it holds where it waits.
    pub holds: NameList,
}

/// A task whose history has stopped, with what its body is then.
#[derive(Drop)]
pub struct StoppedBody<B> {
    pub told: Stopped,
    pub body: B,
    /// What its places refer to.
    pub references: ReferenceList,
}

/// What is told of tasks that have stopped at these points, with their bodies.
pub fn bodies_of<B: Body>(
    alloc: Global,
    mut points: Vec<Point<B>>,
) -> Result<Vec<StoppedBody<B>>, Oom>
    requires stopped { (p : Point B) → IsIn p points.items → IsSome (outcomes.ending_of p.stage) }
    ensures { IfOk result (λ tasks. map outcomes.body_of points.items ≡ map Some tasks.items) }
{
    let mut tasks = Vec::new(alloc);
    while let Some(point) = points.pop() {
        tasks.push(body_of(point))?;
    }
    tasks.reverse();
    Ok(tasks)
}

/// What is told of a task that has stopped at this point, with its body.
fn body_of<B: Body>(point: Point<B>) -> StoppedBody<B>
    requires { IsSome (outcomes.ending_of point.stage) }
    ensures { outcomes.body_of point ≡ Some result }
{
    StoppedBody {
        told: Stopped {
            line: TaskLine {
                name: point.name,
                prints: point.prints,
                ending: ending_of(point.stage),
                owes: point.owed,
            },
            holds: point.holds,
        },
        body: point.body,
        references: point.references,
    }
}

/// What is told of tasks that have stopped at these points.
pub fn told_of<B: Body>(alloc: Global, mut points: Vec<Point<B>>) -> Result<Vec<Stopped>, Oom>
    requires stopped { (p : Point B) → IsIn p points.items → IsSome (outcomes.ending_of p.stage) }
    ensures { IfOk result (λ tasks. AreTold points.items tasks.items) }
{
    let mut tasks = Vec::new(alloc);
    while let Some(point) = points.pop() {
        tasks.push(body_of(point).told)?;
    }
    tasks.reverse();
    Ok(tasks)
}

/// What became of a task whose history stops at this stage.
fn ending_of(stage: PointStage) -> Ending
    requires { IsSome (outcomes.ending_of stage) }
    ensures { outcomes.ending_of stage ≡ Some result }
{
    match stage {
        PointStage::Closed(Close::Done(value)) => Ending::Done(shown_of(value)),
        PointStage::Closed(Close::Failed(cause)) => Ending::Failed(cause),
        PointStage::Waits { cell, spare: _ } => Ending::Waits(cell),
        PointStage::Answered(_) => unreachable!(),
    }
}

/// The value as a report shows it.
fn shown_of(value: Value) -> Shown
    ensures { result ≡ outcomes.shown_of value }
{
    match value {
        Value::Num(number) => Shown::Num(number),
        Value::Ref(reference) => Shown::Ref(reference.name),
    }
}
