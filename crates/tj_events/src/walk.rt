//! The walk of a task that waits. It starts at the cell that the task waits for, its first present
//! cell. It reads the present cell's owner, what that owner waits for, and the owner again; where
//! that is unchanged the owner is passed, and the present cell is the one that it waits for.
//! Cells stand here by their numbers, which clauses compare.

/// The way of a wait.
// A type of the code, with cells as numbers, since the views of workers hold it.
#[derive(Clone, Copy, Debug, PartialEq, Eq)]
pub enum Way {
    /// A join of a task that the waiter is before in the fork order.
    Along,
    /// Every other join, and every wait for a promise.
    Other,
}

/// What the last event of a walker did.
#[derive(Clone, Copy, PartialEq, Eq)]
pub enum LastRead {
    /// It published the wait.
    Published,
    /// It read OTHERS.
    SawOthers(u64),
    /// It read the number of cells, the bound of the walk.
    Counted,
    /// It read the owner of the present cell.
    SawOwner(Option<u32>),
    /// It read what that owner, the first number, waits for.
    SawWait(u32, Option<u32>),
    /// It read the owner again, unchanged: the owner is passed.
    Passed,
    /// It read the owner again, and it had changed.
    Changed,
}

/// An owner that a walk has passed, and the cell that this owner waited for.
#[derive(Clone, Copy)]
pub struct TrailLink {
    pub owner: u32,
    pub next: u32,
}

/// A walk as contracts see it. No value is made: a clause reads the array as a list of any length.
#[derive(Drop)]
pub struct Walker {
    /// The owners that the walk has passed, the newest first.
    pub trail: [TrailLink; 0],
    /// After so many passed owners the walk ends.
    pub bound: u32,
    /// How many reads of owners and of their waits the walk has made.
    pub loads: u32,
    pub last: LastRead,
}

impl LastRead {
    ghost use Rattle.std.specs.Prelude.{◌≡◌, ◌≢◌, ◌⊎◌, ◌↔◌, ℕ, ◌<◌, IsTrue, Some};
    ghost use Rattle.tj_events.specs.Events.{EndsWalk};

    /// Whether the number of cells is read next, on a wait of this way.
    pub fn before_count(self, way: Way) -> bool
        // A walk reads the number of cells next exactly where it has just published an other wait,
        // or has read OTHERS, and not as 0.
        ensures { IsTrue result ↔ (((way ≡ Way.Other) × (self ≡ LastRead.Published))
            ⊎ ((n : ℕ) × (self ≡ LastRead.SawOthers n) × (0 < n))) }
    {
        match self {
            LastRead::Published => way == Way::Other,
            LastRead::SawOthers(others) => others > 0,
            _ => false,
        }
    }

    /// Whether an owner is read next, after so many passed owners under this bound.
    pub fn before_owner(self, passed: usize, bound: u32) -> bool
        // It reads an owner next exactly where it has just read the number of cells, or has passed
        // an owner, and fewer than its bound.
        ensures { IsTrue result
            ↔ ((self ≡ LastRead.Counted) ⊎ ((self ≡ LastRead.Passed) × (passed < bound))) }
    {
        match self {
            LastRead::Counted => true,
            LastRead::Passed => passed < bound as usize,
            _ => false,
        }
    }

    /// Whether it is read next what the owner waits for, on a walk of task t.
    pub fn before_wait(self, t: u32) -> bool
        // It reads what the owner waits for next exactly where it has just read an owner other than
        // its own task.
        ensures { IsTrue result ↔ ((u : ℕ) × (self ≡ LastRead.SawOwner (Some u)) × (u ≢ t)) }
    {
        match self {
            LastRead::SawOwner(Some(owner)) => owner != t,
            _ => false,
        }
    }

    /// Whether the walk ends after so many passed owners under this bound.
    pub fn ends_walk(self, passed: usize, bound: u32) -> bool
        // It ends next exactly where the rules let it settle.
        ensures { IsTrue result ↔ EndsWalk passed bound self }
    {
        match self {
            LastRead::Published | LastRead::Counted => false,
            LastRead::SawOthers(others) => others == 0,
            LastRead::SawOwner(owner) => owner.is_none(),
            LastRead::SawWait(_, wait) => wait.is_none(),
            LastRead::Passed => passed == bound as usize,
            LastRead::Changed => true,
        }
    }
}
