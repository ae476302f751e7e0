//! Which task is taken up next: one whose cell has got an entry, or one that was just forked, in the
//! order of forks. `next` takes the lists only for where to look first: that no task can go on is
//! looked at, task by task. `next_index` takes no other: who isn't on the lists has stopped, as long
//! as each task that waits is noted where it stops.
ghost use Rattle.std.specs.Prelude.{ℕ, ◌≡◌, ◌⊎◌, ◌+◌, ◌-◌, ◌<◌, ◌≤◌, List, length, map};
ghost use Rattle.std.specs.Prelude.{IfNone, IfOk, IfSome, IsFalse, IsTrue};
ghost use Rattle.tj_body.specs.Points.{HasStopped, IsIn};
ghost use Rattle.tj_body.specs.declared.point.Point.{Point};
ghost use Rattle.tj_mean.specs.Inner.Agendas.{IsAhead, IsNoted, IsNotedAt};
ghost use Rattle.tj_mean.specs.Inner.Assignments.{assignment_in};
ghost use Rattle.tj_mean.specs.Inner.Reached.{CanGoOn};

use crate::name_map::NameMap;
use std::alloc::Global;
use tj_base::{Name, Oom};
use tj_body::{Body, Entry, Point, PointStage};

/// Indexes of tasks.
#[derive(Drop)]
pub struct Agenda {
    /// Those that were woken.
    pub woken: Vec<usize>,
    /// Those that wait, by the cells that they wait for.
    pub waiting: NameMap<Vec<usize>>,
    /// From this index on tasks were not taken up yet.
    pub fresh: usize,
}

impl Agenda {
    /// Nobody was taken up yet.
    pub fn new(alloc: Global) -> Agenda
        ensures { result.fresh ≡ 0 }
    {
        Agenda {
            woken: Vec::new(alloc),
            waiting: NameMap::new(alloc),
            fresh: 0,
        }
    }

    /// The task with this index has stopped at this stage.
    pub fn stop(&mut self, alloc: Global, at: usize, stage: &PointStage) -> Result<(), Oom>
        ensures noted { IfOk result (λ _. IsNoted self.new.waiting at stage.now) }
        ensures keeps { IfOk result (λ _. (q : List ℕ) (i : ℕ)
            → IsNotedAt self.old.waiting q i → IsNotedAt self.new.waiting q i) }
        ensures ahead { IfOk result (λ _. (self.new.woken ≡ self.old.woken)
            × (self.new.fresh ≡ self.old.fresh)) }
    {
        let PointStage::Waits { cell, spare: _ } = stage else {
            return Ok(());
        };
        let mut indexes = match self.waiting.take(cell) {
            Some(indexes) => indexes,
            None => Vec::new(alloc),
        };
        indexes.push(at)?;
        self.waiting.put(cell.copy(alloc)?, indexes)?;
        Ok(())
    }

    /// These cells have entries, and those that wait for them can go on.
    pub fn wake(&mut self, writes: &[(Name, Entry)]) -> Result<(), Oom>
        ensures woken { IfOk result (λ _. (q : List ℕ) (i : ℕ) → IsNotedAt self.old.waiting q i
            → IsIn i self.new.woken.items ⊎ IsNotedAt self.new.waiting q i) }
        ensures gone { IfOk result (λ _. (q : List ℕ) (i : ℕ)
            → IsIn q (map (λ w. w.0) writes.now) → ¬ IsNotedAt self.new.waiting q i) }
        ensures fresh { IfOk result (λ _. self.new.fresh ≡ self.old.fresh) }
    {
        for (cell, _became) in writes {
            if let Some(mut indexes) = self.waiting.take(cell) {
                self.woken.append(&mut indexes)?;
            }
        }
        Ok(())
    }

    /// The next index below this count that is ahead, which then isn't any more.
    pub fn next_index(&mut self, count: usize) -> Option<usize>
        ensures some { IfSome result (λ at. (at < count) × ((i : ℕ) → i < count
            → IsAhead self.old i → (i ≡ at) ⊎ IsAhead self.new i)) }
        ensures none { IfNone result ((i : ℕ) → i < count
            → (¬ IsAhead self.old i) × (¬ IsAhead self.new i)) }
        ensures falls { IfSome result (λ _. (n : ℕ) → count ≤ n
            → length self.new.woken.items + (n - self.new.fresh)
            < length self.old.woken.items + (n - self.old.fresh)) }
        ensures within { self.old.fresh ≤ count → self.new.fresh ≤ count }
        ensures waiting { self.new.waiting ≡ self.old.waiting }
    {
        while let Some(at) = self.woken.pop() {
            if at < count {
                return Some(at);
            }
        }
        if self.fresh < count {
            let at = self.fresh;
            self.fresh += 1;
            return Some(at);
        }
        None
    }

    /// The index of a task that can go on, if there is one.
    pub fn next<B: Body>(&mut self, points: &[Point<B>], given: &NameMap<Entry>) -> Option<usize>
        ensures some { IfSome result (CanGoOn (assignment_in given.now) points.now) }
        ensures none { IfNone result ((p : Point B) → IsIn p points.now
            → HasStopped (assignment_in given.now) p) }
    {
        while let Some(at) = self.woken.pop() {
            if is_ready(points, at, given) {
                return Some(at);
            }
        }
        while self.fresh < points.len() {
            let at = self.fresh;
            self.fresh += 1;
            if is_ready(points, at, given) {
                return Some(at);
            }
        }
        first_of(points, given)
    }
}

/// Whether this is the index of a task that can go on.
fn is_ready<B: Body>(points: &[Point<B>], at: usize, given: &NameMap<Entry>) -> bool
    ensures { IsTrue result → CanGoOn (assignment_in given.now) points.now at }
{
    if at >= points.len() {
        return false;
    }
    goes_on(&points[at], given)
}

/// The index of the first task that can go on.
fn first_of<B: Body>(points: &[Point<B>], given: &NameMap<Entry>) -> Option<usize>
    ensures some { IfSome result (CanGoOn (assignment_in given.now) points.now) }
    ensures none { IfNone result ((p : Point B) → IsIn p points.now
        → HasStopped (assignment_in given.now) p) }
{
    for (at, point) in points.iter().enumerate() {
        if goes_on(point, given) {
            return Some(at);
        }
    }
    None
}

/// Whether the task can go on.
fn goes_on<B: Body>(point: &Point<B>, given: &NameMap<Entry>) -> bool
    ensures goes { IsTrue result → ¬ HasStopped (assignment_in given.now) point.now }
    ensures stopped { IsFalse result → HasStopped (assignment_in given.now) point.now }
{
    match &point.stage {
        PointStage::Closed(_) => false,
        PointStage::Answered(_) => true,
        PointStage::Waits { cell, spare: _ } => given.get(cell).is_some(),
    }
}
