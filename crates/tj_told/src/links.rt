//! The cycle of waits that a task is on, by loads of PHASE and OWN in turn.
ghost use Rattle.std.specs.Prelude.{◌≡◌, ◌<◌, ◌++◌, [], ◌∷◌, List, IfOk, IfSome};
ghost use Rattle.tj_base.specs.ForkOrder as fork;
ghost use Rattle.tj_mean.specs.declared.outcome.Link.{Link};
ghost use Rattle.tj_words.specs.SeatViews.SeatSteps.{IsCellOf};
ghost use Rattle.tj_told.specs.Observers.{LooksOn, Observes};
ghost use Rattle.tj_told.specs.ToldLinks.{FindsTurn, IsFromLeast, IsSeenRound};
ghost use Rattle.tj_told.specs.ToldLoads.{HasSeenAlarm};

use crate::names::name_beside;
use std::alloc::Global;
use tj_base::{CellId, Items, MAX_CELLS, Name, Oom, name_cmp};
use tj_body::Body;
use tj_mean::{Link, LinkList};
use tj_words::{Laid, Phase, WSeat};

/// The cycle of waits that the task is on, from its least name on, where it is on one.
pub(crate) fn cycle_of<B: Body>(
    alloc: Global,
    laid: &Laid<B>,
    seat: &mut WSeat<B>,
    t: CellId,
) -> Result<Option<LinkList>, Oom>
    requires seat { Observes laid.now seat.old }
    requires cell { IsCellOf laid.now t.0 }
    requires alarmed { HasSeenAlarm t.0 seat.old.log }
    ensures seat { LooksOn seat.old seat.new }
    ensures round { IfOk result (λ found. IfSome found (λ links. IsSeenRound seat.new.log
        seat.new.me.0.seen links)) }
{
    let mut links = Vec::new(alloc);
    let mut task = t;
    for _i in 0..MAX_CELLS {
        let other = last_task(links.as_slice());
        let Some(found) = link_of(alloc, laid, seat, task, other)? else {
            return Ok(None);
        };
        let (link, owner) = found;
        links.push(link)?;
        if owner.0 == t.0 {
            return Ok(Some(from_least(links)));
        }
        task = owner;
    }
    Ok(None)
}

/// The task of the last link.
fn last_task(links: &[Link]) -> Option<&Name>
    ensures { IfSome result (λ name. (before : List Link) × (cell : fork.Name)
        × (links.now ≡ before ++ record { task = name.now; cell = cell } ∷ [])) }
{
    match links.last() {
        Some(link) => Some(&link.task),
        None => None,
    }
}

/// The task with the cell that it waits for, by names, which share makers with the other name, and the
/// owner of that cell.
fn link_of<B: Body>(
    alloc: Global,
    laid: &Laid<B>,
    seat: &mut WSeat<B>,
    t: CellId,
    other: Option<&Name>,
) -> Result<Option<(Link, CellId)>, Oom>
    requires seat { Observes laid.now seat.old }
    requires cell { IsCellOf laid.now t.0 }
    ensures seat { LooksOn seat.old seat.new }
    ensures owner { IfOk result (λ found. IfSome found (λ out. IsCellOf laid.now out.1.0)) }
    ensures turn { IfOk result (λ found. IfSome found (λ out. FindsTurn t.0 out.0 out.1.0
        seat.old.log seat.new.log seat.new.me.0.seen)) }
{
    let Phase::Waiting(cell, _, _) = laid.see_phase(seat, t, None) else {
        return Ok(None);
    };
    let Some(owner) = laid.see_owner(seat, cell, None) else {
        return Ok(None);
    };
    let task = name_beside(alloc, laid, seat, t, other)?;
    let cell = name_beside(alloc, laid, seat, cell, Some(&task))?;
    Ok(Some((Link { task, cell }, owner)))
}

/// The links from the one on whose task has the least name.
fn from_least(mut links: Vec<Link>) -> LinkList
    ensures { IsFromLeast links.items result }
{
    let mut least = 0;
    for i in 0..links.len() {
        if name_cmp(&links[i].task, &links[least].task).is_lt() {
            least = i;
        }
    }
    links.rotate_left(least);
    Items::of(links)
}
