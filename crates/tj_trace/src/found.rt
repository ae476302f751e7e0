//! Tasks of a round that are still to be taken, each with the statement that forked it.
ghost use Rattle.std.specs.Prelude.{ℕ, ◌≡◌, ◌⊎◌, ◌++◌, suc, List, IfOk, filter, length};
ghost use Rattle.tj_base.specs.declared.cell.Sort.TheVariants as sort;
ghost use Rattle.tj_body.specs.Points.{IsIn};
ghost use Rattle.tj_trace.specs.Inner.RoundMakers.{forked_makers, is_of, still_makers};

use crate::line::Maker;
use std::alloc::Global;
use tj_base::{Oom, Sort};
use tj_body::{Body, Task};

/// A task that is still to be taken.
#[derive(Drop)]
pub struct Found<B> {
    pub task: Task<B>,
    /// What forked it.
    pub maker: Maker,
    /// How many forks after one another the round follows from it.
    pub depth: u32,
}

/// What made the promises of a task that was taken is noted, and its children are to be taken next.
pub fn follow<B: Body>(
    alloc: Global,
    noted: Vec<Maker>,
    children: Vec<Task<B>>,
    depth: u32,
    pending: &mut Vec<Found<B>>,
    makers: &mut Vec<Maker>,
) -> Result<(), Oom>
    requires as_many { length (filter (is_of sort.Task) noted.items) ≡ length children.items }
    ensures noted { IfOk result (λ _. makers.new.items
        ≡ makers.old.items ++ filter (is_of sort.Promise) noted.items) }
    ensures still { IfOk result (λ _. (below : ℕ → Task B → List Maker) →
        still_makers below pending.new.items
        ≡ forked_makers below depth (filter (is_of sort.Task) noted.items) children.items
        ++ still_makers below pending.old.items) }
    ensures from { IfOk result (λ _. (w : Found B) → IsIn w pending.new.items
        → IsIn w pending.old.items ⊎ ((suc w.depth ≡ depth) × IsIn w.task children.items)) }
{
    note_all(makers, noted.as_slice(), Sort::Promise)?;
    let mut forks = Vec::new(alloc);
    note_all(&mut forks, noted.as_slice(), Sort::Task)?;
    push_forked(pending, forks, children, depth)
}

/// The children are to be taken next, the first of them first, if so many forks are followed that
/// they are reached.
pub fn push_forked<B: Body>(
    pending: &mut Vec<Found<B>>,
    mut makers: Vec<Maker>,
    mut children: Vec<Task<B>>,
    depth: u32,
) -> Result<(), Oom>
    requires as_many { length makers.items ≡ length children.items }
    ensures makers { IfOk result (λ _. (below : ℕ → Task B → List Maker) →
        still_makers below pending.new.items
        ≡ forked_makers below depth makers.items children.items ++ still_makers below pending.old.items) }
    ensures from { IfOk result (λ _. (w : Found B) → IsIn w pending.new.items
        → IsIn w pending.old.items ⊎ ((suc w.depth ≡ depth) × IsIn w.task children.items)) }
{
    if depth == 0 {
        return Ok(());
    }
    while let Some(task) = children.pop() {
        let Some(maker) = makers.pop() else {
            break;
        };
        pending.push(Found {
            task,
            maker,
            depth: depth - 1,
        })?;
    }
    Ok(())
}

/// Notes those makers that made a thing of this sort.
pub fn note_all(makers: &mut Vec<Maker>, made: &[Maker], sort: Sort) -> Result<(), Oom>
    ensures { IfOk result (λ _. makers.new.items ≡ makers.old.items ++ filter (is_of sort) made.now) }
{
    for maker in made {
        if sort == maker.sort {
            makers.push(*maker)?;
        }
    }
    Ok(())
}
