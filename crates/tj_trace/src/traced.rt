//! The trace of the meaning of a script's task.
ghost use Rattle.std.specs.Prelude.{◌≡◌, ◌<◌, ◌≤◌, map, IfOk, IfErr};
ghost use Rattle.std.specs.List.Sorted.{IsPermutation};
ghost use Rattle.tj_base.specs.declared.cell.TheConstants.{MAX_CELLS};
ghost use Rattle.tj_body.specs.Asks.{IsFresh};
ghost use Rattle.tj_body.specs.Laws.{AreDistinct};
ghost use Rattle.tj_body.specs.Rounds as rounds;
ghost use Rattle.tj_eval.specs.Stands.{placed_places, placed_awaits, placed_left};
ghost use Rattle.tj_mean.specs.Outcomes.{Ascend};
ghost use Rattle.tj_trace.specs.Logs.{logged_program};
ghost use Rattle.tj_trace.specs.Traces.{AreTraced, line_with, names_of};

use crate::line::{TraceLine, TraceLines};
use crate::logged::LoggedBody;
use crate::parts::parts_of;
use std::alloc::Global;
use tj_base::{Items, Oom, name_cmp};
use tj_body::Body;
use tj_eval::PlacedBody;
use tj_mean::{PlanFault, StoppedBody, bodies};

/// The trace of each task of the meaning of this root's program.
pub fn trace(
    alloc: Global,
    root: &PlacedBody,
    cells: u32,
    strict: bool,
) -> Result<TraceLines, PlanFault>
    requires root { IsFresh placed_places placed_awaits placed_left 1 root.now }
    requires cells { (0 < cells) × (cells ≤ MAX_CELLS) }

    // Lines come only where the meaning fits in `cells` cells.
    ensures fits { IfOk result (λ _. ¬ rounds.IsFull (logged_program strict root.now) cells) }
    // `Full` comes only where it doesn't fit.
    ensures full { IfErr result (λ e.
        e ≡ PlanFault.Full → rounds.IsFull (logged_program strict root.now) cells) }
    // The lines are those of the meaning: one for each task, in name order, with what its outcome
    // tells of it, the promises that it holds where it waits, the declaration that it runs, the
    // statement at which it waits, failed or ended, the statement that made each of its things,
    // what it set and handed on, its arguments, and, if it failed by `arith` or `kind`, what its
    // variables held.
    ensures traced { IfOk result (AreTraced (logged_program strict root.now) cells) }
{
    let noting = LoggedBody::of(alloc, root.twin(alloc)?)?;
    let tasks = bodies(alloc, &noting, cells, strict)?;
    let lines = lines_of(alloc, tasks)?;
    Ok(Items::of(in_name_order(lines)?))
}

/// The lines of the tasks.
fn lines_of(alloc: Global, tasks: Vec<StoppedBody<LoggedBody>>) -> Result<Vec<TraceLine>, Oom>
    ensures { IfOk result (λ lines. lines.items
        ≡ map line_with tasks.entry.items) }
{
    let mut lines = Vec::new(alloc);
    for task in tasks {
        lines.push(line_of(alloc, task)?)?;
    }
    Ok(lines)
}

/// The line of a task.
fn line_of(alloc: Global, task: StoppedBody<LoggedBody>) -> Result<TraceLine, Oom>
    ensures { IfOk result (λ line. line ≡ line_with task.entry) }
{
    let parts = parts_of(alloc, &task)?;
    Ok(TraceLine {
        line: task.told.line,
        holds: task.told.holds,
        decl: task.body.placed.decl(),
        at: task.body.placed.at(),
        makers: Items::of(task.body.makers),
        sets: parts.sets,
        hands: parts.hands,
        began: parts.began,
        held: parts.held,
    })
}

/// The lines in name order.
fn in_name_order(mut lines: Vec<TraceLine>) -> Result<Vec<TraceLine>, Oom>
    requires { AreDistinct (names_of lines.items) }
    ensures same { IfOk result (λ sorted. IsPermutation lines.items sorted.items) }
    ensures ascend { IfOk result (λ sorted. Ascend (names_of sorted.items)) }
{
    lines.sort_by(|a, b| name_cmp(&a.line.name, &b.line.name))?;
    Ok(lines)
}
