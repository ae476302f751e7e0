//! The first round that has more cells than a limit, where no task of it waits. Then each task does
//! the same in each round, and the tasks are gone through depth by depth: no more of them are kept
//! than are of one depth.
ghost use Rattle.std.specs.Prelude.{◌≡◌, ◌<◌, ◌≤◌, length, IfOk, IfSome, IsTrue};
ghost use Rattle.tj_base.specs.declared.cell.TheConstants.{MAX_CELLS};
ghost use Rattle.tj_body.specs.Asks.{IsFresh};
ghost use Rattle.tj_body.specs.Points.{HasEnded, IsIn, IsProper};
ghost use Rattle.tj_body.specs.Programs.{program_of, rules_of};
ghost use Rattle.tj_trace.specs.Inner.TaskDepths.{IsDepthTaken, IsFullDepth};

use std::alloc::Global;
use std::mem::replace;
use tj_base::{Items, Oom};
use tj_body::{Body, Point, PointStage, Task};
use tj_mean::{NameMap, history, root_task};

/// The number of the first round that has more than `cells` cells, where it is seen without an
/// entry: none of its tasks waits, and no depth before it has more tasks than the limit, or the root
/// alone forks more.
pub fn full_depth<B: Body>(
    alloc: Global,
    root: &B,
    cells: u32,
    strict: bool,
) -> Result<Option<u32>, Oom>
    requires root { IsFresh B.places B.awaits B.left 1 root.now }
    requires cells { (0 < cells) × (cells ≤ MAX_CELLS) }
    ensures { let p = program_of B.places B.awaits B.left B.asks B.then strict root.now in
        IfOk result (λ found. IfSome found (IsFullDepth p cells)) }
{
    let none = NameMap::new(alloc);
    let first = history(alloc, root_task(alloc, root)?, &none, strict)?;
    if has_many(first, cells) {
        return Ok(Some(1));
    }
    let mut tasks = Vec::new(alloc);
    tasks.push(root_task(alloc, root)?)?;
    let mut room = cells as usize + 1;
    let mut depth = 0;
    while tasks.len() > 0 {
        let found = take_depth(alloc, tasks, cells, strict, room)?;
        let Some(below) = found else {
            return Ok(None);
        };
        if below.room == 0 {
            if depth == 0 {
                return Ok(Some(1));
            }
            return Ok(Some(depth));
        }
        tasks = below.tasks;
        room = below.room;
        depth += 1;
    }
    Ok(None)
}

/// Whether the task at this point has forked more tasks than so many.
fn has_many<B: Body>(p: Point<B>, cells: u32) -> bool
    ensures { IsTrue result → cells < length p.children }
{
    let many = p.children.items().len() > cells as usize;
    drop(p);
    many
}

/// What is below the tasks of a depth.
#[derive(Drop)]
pub struct Below<B> {
    /// How many cells more fit.
    pub room: usize,
    /// The children of the tasks, if any cell more fits.
    pub tasks: Vec<Task<B>>,
}

/// What is below the tasks of a depth. None: one of them waits, or they fork more tasks than the
/// limit.
fn take_depth<B: Body>(
    alloc: Global,
    tasks: Vec<Task<B>>,
    cells: u32,
    strict: bool,
    room: usize,
) -> Result<Option<Below<B>>, Oom>
    requires proper { let rules = rules_of B.places B.awaits B.left B.asks B.then strict in
        (t : Task B) → IsIn t tasks.items → IsProper rules t }
    ensures { let rules = rules_of B.places B.awaits B.left B.asks B.then strict in
        IfOk result (λ found. IfSome found (λ below.
        IsDepthTaken rules tasks.items room below.room below.tasks.items)) }
{
    let none = NameMap::new(alloc);
    let mut children = Vec::new(alloc);
    let mut left = room;
    for task in tasks {
        let found = made_by(alloc, history(alloc, task, &none, strict)?);
        let Some(mut made) = found else {
            return Ok(None);
        };
        left = left.saturating_sub(1).saturating_sub(made.promises);
        if left > 0 {
            children.append(&mut made.children)?;
            if children.len() > cells as usize {
                return Ok(None);
            }
        }
    }
    Ok(Some(Below {
        room: left,
        tasks: children,
    }))
}

/// What a task has made.
#[derive(Drop)]
pub struct Made<B> {
    /// How many promises.
    pub promises: usize,
    pub children: Vec<Task<B>>,
}

/// What the task at this point has made, if it has ended.
fn made_by<B: Body>(alloc: Global, p: Point<B>) -> Option<Made<B>>
    ensures { IfSome result (λ made. HasEnded p × (made.promises ≡ length p.promises)
        × (made.children.items ≡ p.children)) }
{
    let mut p = p;
    let closed = match &p.stage {
        PointStage::Closed(_) => true,
        _ => false,
    };
    if !closed {
        return None;
    }
    let promises = p.promises.items().len();
    let children = replace(&mut p.children, Items::of(Vec::new(alloc))).into_vec();
    drop(p);
    Some(Made { promises, children })
}
