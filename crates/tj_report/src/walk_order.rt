//! What is told of tasks, in the order of a walk over the fork tree. That is the order of their names:
//! who then sorts it by name compares each with the next one alone.
ghost use Rattle.std.specs.Prelude.{◌≡◌, List, length, map, IfOk};
ghost use Rattle.std.specs.List.Sorted.{IsPermutation};
ghost use Rattle.tj_body.specs.declared.point.Reference.{Reference};
ghost use Rattle.tj_words.specs.AtRest.ClosedCells.{AreNamed};

use crate::fork_walk::{kin_of, next_task};
use std::alloc::Global;
use tj_base::{CellId, Oom};
use tj_body::Body;
use tj_mean::Stopped;
use tj_words::RestWords;

/// What is told of a task, with the place of the task on the walk.
#[derive(Drop)]
struct Placed {
    place: u32,
    task: Stopped,
}

/// The same tasks in the order of the walk, where they are told in the order of their cells.
// No clause speaks of the order: `outcome_of` of tj_mean sorts what it is given.
pub fn in_walk_order<B: Body>(
    alloc: Global,
    rest: &RestWords<B>,
    tasks: Vec<Stopped>,
) -> Result<Vec<Stopped>, Oom>
    requires { (born : List Reference) × AreNamed rest.now.cells born }
    ensures { IfOk result (λ ordered. IsPermutation tasks.items ordered.items) }
{
    let places = places_of(alloc, rest)?;
    let mut placed = with_places(alloc, tasks, places.as_slice())?;
    placed.sort_by_key(|p| p.place)?;
    without_places(alloc, placed)
}

/// The places of all tasks on the walk, in the order of their cells.
fn places_of<B: Body>(alloc: Global, rest: &RestWords<B>) -> Result<Vec<u32>, Oom>
    requires { (born : List Reference) × AreNamed rest.now.cells born }
{
    let all = walked(alloc, rest)?;
    let mut places = Vec::new(alloc);
    for c in 0..rest.drawn() {
        if rest.rec(CellId(c)).is_some() {
            places.push(all[c as usize])?;
        }
    }
    Ok(places)
}

/// The place of each cell on the walk, as far as it goes.
fn walked<B: Body>(alloc: Global, rest: &RestWords<B>) -> Result<Vec<u32>, Oom>
    requires { (born : List Reference) × AreNamed rest.now.cells born }
    ensures { IfOk result (λ places. length places.items ≡ length rest.now.cells) }
{
    let kin = kin_of(alloc, rest)?;
    let mut places = Vec::from_elem(alloc, 0u32, rest.drawn() as usize)?;
    let mut name = Vec::from_slice(alloc, b"0")?;
    let mut at = 0;
    for step in 0..rest.drawn() {
        places[at as usize] = step;
        match next_task(rest, kin.as_slice(), at, &mut name)? {
            Some(next) => at = next,
            None => return Ok(places),
        }
    }
    Ok(places)
}

/// The tasks with their places.
fn with_places(alloc: Global, tasks: Vec<Stopped>, places: &[u32]) -> Result<Vec<Placed>, Oom>
    ensures { IfOk result (λ placed. map (λ p. p.task) placed.items ≡ tasks.items) }
{
    let mut placed = Vec::new(alloc);
    for task in tasks {
        let place = places.get(placed.len()).copied().unwrap_or(0);
        placed.push(Placed { place, task })?;
    }
    Ok(placed)
}

/// The tasks without their places.
fn without_places(alloc: Global, placed: Vec<Placed>) -> Result<Vec<Stopped>, Oom>
    ensures { IfOk result (λ tasks. tasks.items ≡ map (λ p. p.task) placed.items) }
{
    let mut tasks = Vec::new(alloc);
    for one in placed {
        tasks.push(one.task)?;
    }
    Ok(tasks)
}
