//! Acts by indexes: a task goes by its index among the lines, so that what is known is a row of
//! truth values.
ghost use Rattle.std.specs.Prelude.{IfOk, IsTrue};
ghost use Rattle.tj_body.specs.Points.{IsIn};
ghost use Rattle.tj_mean.specs.ActLines.{names_of};
ghost use Rattle.tj_known.specs.Inner.Steps.{AreSteps, AreThere, HasName, IsStep, IsThere};
ghost use Rattle.tj_mean.specs.Outcomes.{Ascend};

use std::alloc::Global;
use tj_base::{Name, Oom, name_cmp};
use tj_mean::{Act, ActLine};

/// An act, with the index of the other task.
#[derive(Clone, Copy)]
pub enum Step {
    Fork(usize),
    /// The truth value: the join was answered.
    Join(usize, bool),
}

impl Step {
    /// The index of the other task.
    fn other(&self) -> usize {
        match self {
            Step::Fork(child) => *child,
            Step::Join(joined, _) => *joined,
        }
    }
}

/// Whether the task with this index has this name.
fn has_name(lines: &[ActLine], index: usize, name: &Name) -> bool
    ensures { IsTrue result → HasName lines.now index name.now }
{
    match lines.get(index) {
        Some(line) => line.name == *name,
        None => false,
    }
}

/// The index of the task with this name. It is looked for first at the index near which it may be,
/// and behind that: a search compares long names more often.
fn index_of(lines: &[ActLine], near: usize, name: &Name) -> usize
    requires in_order { Ascend (names_of lines.now) }
    requires there { IsIn name.now (names_of lines.now) }
    ensures { HasName lines.now result name.now }
{
    if has_name(lines, near, name) {
        return near;
    }
    let next = near.saturating_add(1);
    if has_name(lines, next, name) {
        return next;
    }
    match lines.binary_search_by(|line| name_cmp(&line.name, name)) {
        Ok(index) => index,
        Err(_) => unreachable!(),
    }
}

/// The act by indexes.
fn step_of(lines: &[ActLine], near: usize, act: &Act) -> Step
    requires in_order { Ascend (names_of lines.now) }
    requires there { IsThere lines.now act.now }
    ensures { IsStep lines.now act.now result }
{
    match act {
        Act::Fork(child) => Step::Fork(index_of(lines, near, child)),
        Act::Join(joined, answered) => Step::Join(index_of(lines, near, joined), *answered),
    }
}

/// The acts of the task with this index, by indexes.
// A first child stands behind its maker, a leaf behind the one before it, and a join often comes
// after its fork.
pub fn steps_of(
    alloc: Global,
    lines: &[ActLine],
    index: usize,
    acts: &[Act],
) -> Result<Vec<Step>, Oom>
    requires in_order { Ascend (names_of lines.now) }
    requires there { AreThere lines.now acts.now }
    ensures { IfOk result (λ steps. AreSteps lines.now acts.now steps.items) }
{
    let mut steps = Vec::new(alloc);
    let mut near = index;
    for act in acts {
        let step = step_of(lines, near, act);
        near = step.other();
        steps.push(step)?;
    }
    Ok(steps)
}
