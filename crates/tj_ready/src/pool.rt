//! What a worker sees of the ready tasks.
ghost use Rattle.std.specs.Prelude.{ℕ, ◌≡◌, ◌<◌, ◌≤◌, ◌^◌, ⊤, List, All, length, IfOk, IfSome, OnOk, OnErr, MatchOption};
ghost use Rattle.tj_base.specs.declared.cell.CellId.{CellId};

use std::alloc::Global;
use std::sync::Wait;
use tj_base::{CellId, Oom};

/// One worker's end of a pool of ready tasks. No call yields or sleeps: the worker decides how to
/// idle.
pub trait Pool: Sized + Send + Drop {
    /// For how many cells its pool was made.
    ghost limit: { Self → ℕ };

    /// Each of these ends can take from the queue into which another one puts.
    ghost meet: { List Self → Type 0 } = { λ _. ⊤ };

    /// It has just been made, and its queues are empty.
    ghost is_new: { Self → Type 0 } = { λ _. ⊤ };

    /// The end is as it was.
    ghost same: { Self → Self → Type 0 } = { λ _ _. ⊤ };

    /// The cell joined one queue at a step, as far as the end can tell.
    ghost puts: { Self → CellId → Self → Type 0 } = { λ _ _ _. ⊤ };

    /// The cell left one queue at a step, as far as the end can tell.
    ghost takes: { Self → CellId → Self → Type 0 } = { λ _ _ _. ⊤ };

    /// Each queue that the end can take from was empty at a step, or, newest first, another's had one cell at
    /// most, as far as the end can tell.
    ghost finds_none: { Self → Self → Type 0 } = { λ _ _. ⊤ };

    /// An end for each worker, all empty.
    fn make<R: Wait>(rt: &R, alloc: Global, workers: u32, cells: u32) -> Result<Vec<Self>, Oom>
        requires workers { (0 < workers) × (workers ≤ 64) }
        requires cells { (0 < cells) × (cells ≤ 2 ^ 20) }
        // There are as many ends as workers.
        ensures workers { IfOk result (λ ends. length ends.items ≡ workers) }
        // The limit of each end is the given number of cells.
        ensures limit { IfOk result (λ ends. All (λ end. Self.limit end ≡ cells) ends.items) }
        // Stealing ends can each take from each other's deque.
        ensures meet { IfOk result (λ ends. meet ends.items) }
        // Each stealing end knows what the rule says before the first put and take, and its spare
        // list is empty.
        ensures new { IfOk result (λ ends. All is_new ends.items) };

    /// Adds a cell to one queue. After `Oom` the pool is as before. `puts` and `same` have what of this
    /// the end can tell.
    fn put<R: Wait>(&mut self, rt: &R, alloc: Global, t: CellId) -> Result<(), Oom>
        requires below { t.0 < Self.limit self.old }
        // The limit stays.
        ensures limit { Self.limit self.new ≡ Self.limit self.old }
        // After `Ok` the cell has joined one queue of a stealing end: its own deque, by one step
        // that tells what the rule says of a put, or the back of its spare list.
        ensures ok { OnOk result (puts self.old t self.new) }
        // After an error a stealing end knows what it knew, and its spare list is as before.
        ensures err { OnErr result (same self.old self.new) };

    /// Takes a cell out of one queue. `None` comes only where each queue that this end can take
    /// from was empty at a step of this call, or, newest first, where another's had one cell at most.
    /// It takes no memory. `takes` and `finds_none` have what of this the end can tell.
    fn take<R: Wait>(&mut self, rt: &R) -> Option<CellId>
        // The limit stays.
        ensures limit { Self.limit self.new ≡ Self.limit self.old }
        // A cell that is taken is below the limit.
        ensures below { IfSome result (λ t. t.0 < Self.limit self.old) }
        // A cell that a stealing end takes left its own deque or one other, by one step that tells
        // what the rule says of a take, or was the front of its spare list. None comes only where
        // the spare list is empty, its own deque told what the rule says of an empty one, and each
        // other deque the same, or, newest first, what the rule says of one with one cell at most;
        // then it knows what it knew.
        ensures taken { MatchOption result (finds_none self.old self.new)
            (λ t. takes self.old t self.new) };

    /// Whether the cell that this end took last was another's. A worker that is told so may pause where it can do
    /// nothing with it but wait; no clause rests on it.
    fn has_stolen(&self) -> bool {
        false
    }
}
