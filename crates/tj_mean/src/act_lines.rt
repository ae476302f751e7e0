//! The acts of a program's meaning: for each task its forks, and its joins of results, in order.
//! The tasks go on until none can. Then each of them is taken once more from its start, under all
//! entries that were written, and its acts are noted.
ghost use Rattle.std.specs.Prelude.{◌≡◌, ◌<◌, ◌≤◌, ◌^◌, suc, false, map, IfOk, IfErr};
ghost use Rattle.std.specs.List.Sorted.{IsPermutation};
ghost use Rattle.tj_base.specs.declared.cell.TheConstants.{MAX_CELLS};
ghost use Rattle.tj_body.specs.Asks.{IsFresh};
ghost use Rattle.tj_body.specs.Laws.{AreDistinct};
ghost use Rattle.tj_body.specs.Programs.{program_of};
ghost use Rattle.tj_body.specs.Rounds as rounds;
ghost use Rattle.tj_mean.specs.Acts.{AreActsOf, line_of};
ghost use Rattle.tj_mean.specs.ActLines.{AreActLines, names_of};
ghost use Rattle.tj_mean.specs.Inner.Assignments.{assignment_in};
ghost use Rattle.tj_mean.specs.Outcomes.{Ascend};

use crate::act::{ActLine, ActLines};
use crate::act_steps::line_of;
use crate::laws::acts_can_be_worked_off;
use crate::name_map::NameMap;
use crate::outcome::PlanFault;
use crate::round::{Pending, push_children, root_task};
use crate::rounds::at_rest;
use std::alloc::Global;
use tj_base::{Items, Name, Oom, name_cmp};
use tj_body::{Body, Entry};

/// The acts of the tasks of the meaning of this root's program, without the strict rule, in name
/// order.
pub fn acts<B: Body>(alloc: Global, root: &B, cells: u32) -> Result<ActLines, PlanFault>
    requires root { IsFresh B.places B.awaits B.left 1 root.now }
    requires cells { (0 < cells) × (cells ≤ MAX_CELLS) }

    // Such lines come only where the meaning fits in `cells` cells.
    ensures fits { let p = program_of B.places B.awaits B.left B.asks B.then false root.now in
        IfOk result (λ _. ¬ rounds.IsFull p cells) }
    // `Full` comes only where it doesn't fit.
    ensures full { let p = program_of B.places B.awaits B.left B.asks B.then false root.now in
        IfErr result (λ e. e ≡ PlanFault.Full → rounds.IsFull p cells) }
    // The lines are those of the meaning without the strict rule: one for each of its tasks, in
    // name order, with the task's forks, and its joins that are of a task, in the order in which it
    // does them; a join is told as answered exactly where the joined task's result was set or
    // broken.
    ensures acts { let p = program_of B.places B.awaits B.left B.asks B.then false root.now in
        IfOk result (AreActsOf p cells) }

    // A task forks its own children, each with a greater number than those before; what is forked
    // or joined has a line; and there is an order in which all acts can be worked off: a child's
    // after its fork, and an answered join after all acts of the joined task.
    ensures lines { IfOk result AreActLines }
{
    acts_can_be_worked_off::<B>();
    let rest = at_rest(alloc, root, cells, false)?;
    drop(rest.points);
    let lines = lines_of(alloc, root, &rest.given, 2 * cells)?;
    Ok(Items::of(in_name_order(lines)?))
}

/// The tasks of the round after round `n`, whose assignment is given, with their acts.
fn lines_of<B: Body>(
    alloc: Global,
    root: &B,
    given: &NameMap<Entry>,
    n: u32,
) -> Result<Vec<ActLine>, Oom>
    requires root { IsFresh B.places B.awaits B.left 1 root.now }
    requires round { let p = program_of B.places B.awaits B.left B.asks B.then false root.now in
        assignment_in given.now ≡ rounds.given p n }
    requires n { n < 2 ^ 22 }
    ensures { let p = program_of B.places B.awaits B.left B.asks B.then false root.now in
        IfOk result (λ lines.
        lines.items ≡ map (line_of p.rules (rounds.given p n)) (rounds.tasks p (suc n))) }
{
    let mut lines = Vec::new(alloc);
    let mut pending = Vec::new(alloc);
    pending.push(Pending {
        task: root_task(alloc, root)?,
        depth: n + 1,
    })?;
    while let Some(Pending { task, depth }) = pending.pop() {
        let (line, children) = line_of(alloc, task, given)?;
        lines.push(line)?;
        push_children(&mut pending, children, depth)?;
    }
    Ok(lines)
}

/// The lines in name order.
fn in_name_order(mut lines: Vec<ActLine>) -> Result<Vec<ActLine>, Oom>
    requires { AreDistinct (names_of lines.items) }
    ensures same { IfOk result (λ sorted. IsPermutation lines.items sorted.items) }
    ensures ascend { IfOk result (λ sorted. Ascend (names_of sorted.items)) }
{
    lines.sort_by(|a, b| name_cmp(&a.name, &b.name))?;
    Ok(lines)
}
