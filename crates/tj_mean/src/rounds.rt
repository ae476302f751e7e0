//! The outcome of a program's meaning. Each task is kept at the point that it has come to, and is
//! taken up where it can go on: when it was forked, and when the cell that it waits for has got an
//! entry. Points and entries are those of rounds all the time, though no round is computed, and
//! where no task can go on, what the tasks have come to is the meaning.
ghost use Rattle.std.specs.Prelude.{◌≡◌, ◌<◌, ◌≤◌, ◌∷◌, [], IfOk, IfErr, IsSome};
ghost use Rattle.tj_base.specs.declared.cell.TheConstants.{MAX_CELLS};
ghost use Rattle.tj_body.specs.Asks.{IsFresh};
ghost use Rattle.tj_body.specs.History as history;
ghost use Rattle.tj_body.specs.Programs as programs;
ghost use Rattle.tj_body.specs.Programs.{program_of};
ghost use Rattle.tj_body.specs.Rounds as rounds;
ghost use Rattle.tj_mean.specs.OutcomeLaws.{HasCycleWhereWaits};
ghost use Rattle.tj_body.specs.Points.{IsIn};
ghost use Rattle.tj_mean.specs.Inner.Assignments.{assignment_in};
ghost use Rattle.tj_mean.specs.Inner.ToldOrder.{AreRestOf, AreEntriesOf};
ghost use Rattle.tj_mean.specs.Outcomes.{AreBodiesOf, IsOutcome, ending_of};

use crate::agenda::Agenda;
use crate::handed_on::{enter_all, hand_on, start_all};
use crate::history_steps::{go_on, start};
use crate::laws::{meaning_is_apart, order_is_free, outcome_has_cycle_where_waits};
use crate::name_map::NameMap;
use crate::outcome::{Outcome, PlanFault};
use crate::round::root_task;
use crate::stopped::{StoppedBody, bodies_of, told_of};
use crate::told::outcome_of;
use crate::unanswered::is_full_early;
use std::alloc::Global;
use tj_base::Oom;
use tj_body::{Body, Entry, Point};

/// The outcome of the meaning of this root's program.
// It answers Full in the middle of a history, which may be long.
pub fn plan<B: Body>(
    alloc: Global,
    root: &B,
    cells: u32,
    strict: bool,
) -> Result<Outcome, PlanFault>
    requires root { IsFresh B.places B.awaits B.left 1 root.now }
    requires cells { (0 < cells) × (cells ≤ MAX_CELLS) }

    // An outcome comes only where the meaning fits in `cells` cells.
    ensures fits { let p = program_of B.places B.awaits B.left B.asks B.then strict root.now in
        IfOk result (λ _. ¬ rounds.IsFull p cells) }
    // `Full` comes only where it doesn't fit.
    ensures full { let p = program_of B.places B.awaits B.left B.asks B.then strict root.now in
        IfErr result (λ e. e ≡ PlanFault.Full → rounds.IsFull p cells) }
    // The outcome is that of the meaning: a line for each history, in name order, and exactly the
    // cycles of its wait graph, each once, from its least name on, in the order of these names.
    ensures outcome { let p = program_of B.places B.awaits B.left B.asks B.then strict root.now in
        IfOk result (IsOutcome (rounds.meaning p cells)) }

    // Where a task of the outcome waits, a cycle stands.
    ensures waits { IfOk result HasCycleWhereWaits }
{
    meaning_is_apart::<B>();
    order_is_free::<B>();
    outcome_has_cycle_where_waits::<B>();
    let rest = at_rest(alloc, root, cells, strict)?;
    let tasks = told_of(alloc, rest.points)?;
    Ok(outcome_of(alloc, tasks)?)
}

/// What is told of the tasks of this root's program, each with what its body is where it stopped.
pub fn bodies<B: Body>(
    alloc: Global,
    root: &B,
    cells: u32,
    strict: bool,
) -> Result<Vec<StoppedBody<B>>, PlanFault>
    requires root { IsFresh B.places B.awaits B.left 1 root.now }
    requires cells { (0 < cells) × (cells ≤ MAX_CELLS) }

    // It comes only where the meaning fits in `cells` cells.
    ensures fits { let p = program_of B.places B.awaits B.left B.asks B.then strict root.now in
        IfOk result (λ _. ¬ rounds.IsFull p cells) }
    // `Full` comes only where it doesn't fit.
    ensures full { let p = program_of B.places B.awaits B.left B.asks B.then strict root.now in
        IfErr result (λ e. e ≡ PlanFault.Full → rounds.IsFull p cells) }
    // What is told of the tasks with their bodies is told of the meaning's histories, in some
    // order: of each its line, the promises that it holds and what its body is where it stopped.
    ensures told { let p = program_of B.places B.awaits B.left B.asks B.then strict root.now in
        IfOk result (λ tasks. AreBodiesOf (rounds.meaning p cells) tasks.items) }
{
    let rest = at_rest(alloc, root, cells, strict)?;
    Ok(bodies_of(alloc, rest.points)?)
}

/// Where no task can go on.
#[derive(Drop)]
pub struct AtRest<B> {
    pub given: NameMap<Entry>,
    pub points: Vec<Point<B>>,
}

/// The points that the tasks come to, and all entries.
pub fn at_rest<B: Body>(
    alloc: Global,
    root: &B,
    cells: u32,
    strict: bool,
) -> Result<AtRest<B>, PlanFault>
    requires root { IsFresh B.places B.awaits B.left 1 root.now }
    requires cells { (0 < cells) × (cells ≤ MAX_CELLS) }
    ensures fits { let p = program_of B.places B.awaits B.left B.asks B.then strict root.now in
        IfOk result (λ _. ¬ rounds.IsFull p cells) }
    ensures full { let p = program_of B.places B.awaits B.left B.asks B.then strict root.now in
        IfErr result (λ e. e ≡ PlanFault.Full → rounds.IsFull p cells) }
    ensures stopped { IfOk result (λ rest.
        (p : Point B) → IsIn p rest.points.items → IsSome (ending_of p.stage)) }
    ensures rest { let p = program_of B.places B.awaits B.left B.asks B.then strict root.now in
        IfOk result (λ rest. AreRestOf (rounds.meaning p cells) rest.points.items) }
    ensures entries { let p = program_of B.places B.awaits B.left B.asks B.then strict root.now in
        IfOk result (λ rest. AreEntriesOf p cells (assignment_in rest.given)) }
{
    let mut points = first_points(alloc, root)?;
    let mut given = NameMap::new(alloc);
    let mut left = cells - 1;
    let mut agenda = Agenda::new(alloc);
    let mut looked = false;
    while let Some(at) = agenda.next(points.as_slice(), &given) {
        if is_full_early(
            alloc,
            root,
            cells,
            strict,
            points.as_slice(),
            at,
            &mut looked,
        )? {
            return Err(PlanFault::Full);
        }
        let most = points[at].made + left;
        go_on(alloc, &mut points[at], &given, strict, most)?;
        left = most - points[at].made;
        agenda.stop(alloc, at, &points[at].stage)?;
        let handed = hand_on(alloc, &mut points[at]);
        agenda.wake(handed.writes.as_slice())?;
        enter_all(&mut given, handed.writes)?;
        start_all(alloc, &mut points, handed.children)?;
    }
    Ok(AtRest { given, points })
}

/// The point at which the root task begins.
pub fn first_points<B: Body>(alloc: Global, root: &B) -> Result<Vec<Point<B>>, Oom>
    ensures { IfOk result (λ points.
        points.items ≡ history.start (programs.root_task root.now) ∷ []) }
{
    let mut points = Vec::new(alloc);
    points.push(start(alloc, root_task(alloc, root)?)?)?;
    Ok(points)
}
