//! Whether the limit is passed by what tasks do before they wait. Each task goes on to where it
//! ends or first waits, and then only its children are kept: however long the names are, few of
//! them stand at a time.
ghost use Rattle.std.specs.Prelude.{◌≡◌, ◌<◌, ◌≤◌, ◌∷◌, [], ◌++◌, IfOk, IsTrue};
ghost use Rattle.tj_base.specs.declared.cell.TheConstants.{MAX_CELLS};
ghost use Rattle.tj_body.specs.Asks.{IsFresh};
ghost use Rattle.tj_body.specs.Programs as programs;
ghost use Rattle.tj_body.specs.Programs.{program_of};
ghost use Rattle.tj_body.specs.Rounds as rounds;

use crate::history_steps::{go_on, start};
use crate::name_map::NameMap;
use crate::outcome::PlanFault;
use crate::round::root_task;
use std::alloc::Global;
use std::collections::VecDeque;
use std::mem::replace;
use tj_base::{Items, Oom};
use tj_body::{Body, Point, Task};

/// How many numbers a long name has.
const LONG: usize = 1_000;

/// Whether more cells than the limit are needed, as far as tasks show it before they wait. This is
/// looked at once, where the first task with a long name is taken up.
pub fn is_full_early<B: Body>(
    alloc: Global,
    root: &B,
    cells: u32,
    strict: bool,
    points: &[Point<B>],
    at: usize,
    looked: &mut bool,
) -> Result<bool, Oom>
    requires root { IsFresh B.places B.awaits B.left 1 root.now }
    requires cells { (0 < cells) × (cells ≤ MAX_CELLS) }
    ensures { let p = program_of B.places B.awaits B.left B.asks B.then strict root.now in
        IfOk result (λ found. IsTrue found → rounds.IsFull p cells) }
{
    if *looked || !is_long(points, at) {
        return Ok(false);
    }
    *looked = true;
    is_full_unanswered(alloc, root, cells, strict)
}

/// Whether the task with this index has a long name.
fn is_long<B: Body>(points: &[Point<B>], at: usize) -> bool {
    match points.get(at) {
        Some(point) => point.name.depth() >= LONG,
        None => false,
    }
}

/// Whether the tasks need more cells than the limit though no wait is answered.
fn is_full_unanswered<B: Body>(
    alloc: Global,
    root: &B,
    cells: u32,
    strict: bool,
) -> Result<bool, Oom>
    requires root { IsFresh B.places B.awaits B.left 1 root.now }
    requires cells { (0 < cells) × (cells ≤ MAX_CELLS) }
    ensures { let p = program_of B.places B.awaits B.left B.asks B.then strict root.now in
        IfOk result (λ found. IsTrue found → rounds.IsFull p cells) }
{
    let none = NameMap::new(alloc);
    let mut tasks = first_tasks(alloc, root)?;
    let mut left = cells - 1;
    while let Some(task) = tasks.pop_front() {
        let mut p = start(alloc, task)?;
        match go_on(alloc, &mut p, &none, strict, left) {
            Ok(()) => {}
            Err(PlanFault::Full) => {
                drop(p);
                return Ok(true);
            }
            Err(PlanFault::Oom) => {
                drop(p);
                return Err(Oom);
            }
        }
        left -= p.made;
        let children = children_of(alloc, p);
        add_all(&mut tasks, children)?;
    }
    Ok(false)
}

/// The children of a task at this point.
fn children_of<B: Body>(alloc: Global, p: Point<B>) -> Vec<Task<B>>
    ensures { result.items ≡ p.children }
{
    let mut p = p;
    let children = replace(&mut p.children, Items::of(Vec::new(alloc))).into_vec();
    drop(p);
    children
}

/// The root task alone.
fn first_tasks<B: Body>(alloc: Global, root: &B) -> Result<VecDeque<Task<B>>, Oom>
    ensures { IfOk result (λ tasks. tasks.items ≡ programs.root_task root.now ∷ []) }
{
    let mut tasks = VecDeque::new(alloc);
    tasks.push_back(root_task(alloc, root)?)?;
    Ok(tasks)
}

/// Adds the children at the end.
fn add_all<B: Body>(tasks: &mut VecDeque<Task<B>>, children: Vec<Task<B>>) -> Result<(), Oom>
    ensures { IfOk result (λ _. tasks.new.items ≡ tasks.old.items ++ children.items) }
{
    for task in children {
        tasks.push_back(task)?;
    }
    Ok(())
}
