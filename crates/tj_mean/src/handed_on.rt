//! What a task has forked and written where it stops, which goes on to the others.
ghost use Rattle.std.specs.Prelude.{◌≡◌, ◌++◌, map, IfOk};
ghost use Rattle.tj_body.specs.History as history;
ghost use Rattle.tj_mean.specs.Inner.Assignments.{assignment_in};
ghost use Rattle.tj_mean.specs.Inner.Reached.{Enters, emptied};

use crate::history_steps::start;
use crate::name_map::NameMap;
use std::alloc::Global;
use std::mem::replace;
use tj_base::{Items, Name, Oom};
use tj_body::{Body, Entry, Point, Task};

/// What a task has forked and written.
#[derive(Drop)]
pub struct HandedOn<B> {
    pub children: Vec<Task<B>>,
    pub writes: Vec<(Name, Entry)>,
}

/// Takes out of the point what the task has forked and written.
pub fn hand_on<B: Body>(alloc: Global, p: &mut Point<B>) -> HandedOn<B>
    ensures children { result.children.items ≡ p.old.children }
    ensures writes { result.writes.items ≡ p.old.writes }
    ensures emptied { p.new ≡ emptied p.old }
{
    let children = replace(&mut p.children, Items::of(Vec::new(alloc))).into_vec();
    let writes = replace(&mut p.writes, Items::of(Vec::new(alloc))).into_vec();
    HandedOn { children, writes }
}

/// The children begin.
pub fn start_all<B: Body>(
    alloc: Global,
    points: &mut Vec<Point<B>>,
    children: Vec<Task<B>>,
) -> Result<(), Oom>
    ensures { IfOk result (λ _.
        points.new.items ≡ points.old.items ++ map history.start children.items) }
{
    for task in children {
        points.push(start(alloc, task)?)?;
    }
    Ok(())
}

/// The cells have these entries.
pub fn enter_all(given: &mut NameMap<Entry>, writes: Vec<(Name, Entry)>) -> Result<(), Oom>
    ensures { IfOk result (λ _.
        Enters writes.items (assignment_in given.old) (assignment_in given.new)) }
{
    for (cell, became) in writes {
        given.put(cell, became)?;
    }
    Ok(())
}
