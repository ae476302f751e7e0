//! The rule over the queues of a stealing pool: what is true of a queue's cells and of what each
//! end knows, between any two steps. A pool is proved to keep each rule that its steps can keep.
ghost use Rattle.std.specs.Prelude.{ℕ, ◌≡◌, List, Bool};
ghost use Rattle.tj_base.specs.declared.cell.CellId.{CellId};
ghost use Rattle.tj_ready.specs.Rules.{IsPoolRule};

use crossbeam_deque::protocol::{Outcome, Protocol, Split};
use std::marker::PhantomData;
use tj_base::CellId;

/// What is true of a queue between two steps, where `V` is what an end knows of it. No value of `V`
/// is made.
pub trait QueueRule<V> {
    /// Of the cells in a queue, the front first, and of what each end knows of it.
    ghost holds: { List CellId → List V → Type 0 };

    /// What the worker of a queue knows before it is told for how many cells the pool is.
    ghost first: { V };
}

/// A rule that the steps of a pool keep, and the order in which its workers take from their own queues.
pub trait PoolRule<V>: QueueRule<V> {
    /// Whether a worker takes the newest cell of its own queue, and not the oldest. Others take its oldest in either case.
    ghost newest: { Bool };

    /// What the worker of a queue knows before its first put and take.
    ghost own: { ℕ → V };

    /// What another end knows of the queue before its first take.
    ghost other: { ℕ → V };

    /// For how many cells the pool is.
    ghost limit: { V → ℕ };

    /// What a put tells: what was known, the cell, and what is known then.
    ghost puts: { V → List CellId → V → Type 0 };

    /// What a take tells.
    ghost takes: { V → List CellId → V → Type 0 };

    /// What follows from a queue's being empty at a moment.
    ghost empty: { V → Type 0 };

    /// What follows from a queue's having one cell at most at a moment.
    ghost few: { V → Type 0 };

    /// Whether a worker takes the newest cell of its own queue, and not the oldest.
    fn is_newest_first() -> bool
        // Whether the workers of a rule take their own newest cell first is what the rule says.
        ensures { result ≡ Self.newest };

    ghost kept: { IsPoolRule Self.holds Self.first own other limit puts takes empty few };
}

/// The rule that each cell is below the number for which the pool was made.
#[derive(Drop)]
pub struct Bounded;

impl QueueRule<u32> for Bounded {
    ghost use Rattle.tj_ready.specs.Queues.{IsBounded};

    ghost holds = { IsBounded };

    ghost first = { 0 };
}

impl PoolRule<u32> for Bounded {
    ghost use Rattle.std.specs.Prelude.{⊤, All, false};
    ghost use Rattle.tj_ready.specs.Queues.{IsBelow};
    ghost use Rattle.tj_ready.specs.Inner.BoundedLaws.{kept};

    ghost newest = { false };

    ghost own = { λ n. n };

    ghost other = { λ n. n };

    ghost limit = { λ v. v };

    ghost puts = { λ v ts w. w ≡ v };

    ghost takes = { λ v ts w. (w ≡ v) × All (IsBelow v) ts };

    ghost empty = { λ _. ⊤ };

    ghost few = { λ _. ⊤ };

    ghost kept = { kept };

    fn is_newest_first() -> bool {
        false
    }
}

/// A rule whose workers take the newest cell of their own queues first.
#[derive(Drop)]
pub struct NewestFirst<K> {
    rule: PhantomData<K>,
}

impl<V, K: QueueRule<V>> QueueRule<V> for NewestFirst<K> {
    ghost holds = { K.holds };

    ghost first = { K.first };
}

impl<V, K: PoolRule<V>> PoolRule<V> for NewestFirst<K> {
    ghost use Rattle.std.specs.Prelude.{true};

    ghost newest = { true };

    ghost own = { K.own };

    ghost other = { K.other };

    ghost limit = { K.limit };

    ghost puts = { K.puts };

    ghost takes = { K.takes };

    ghost empty = { K.empty };

    ghost few = { K.few };

    ghost kept = { K.kept };

    fn is_newest_first() -> bool {
        true
    }
}

/// The rule as the deque wants it.
pub struct Ruled<K> {
    rule: PhantomData<K>,
}

impl<V, K: QueueRule<V>> Protocol<CellId, V> for Ruled<K> {
    ghost holds = { K.holds };

    ghost first = { K.first };

    ghost guest = { K.first };
}

/// What a put on the own deque tells.
pub struct Putting<K> {
    rule: PhantomData<K>,
}

impl<V, K: PoolRule<V>> Outcome<CellId, V> for Putting<K> {
    ghost then = { K.puts };
}

/// What a take from the own deque tells.
pub struct Taking<K> {
    rule: PhantomData<K>,
}

impl<V, K: PoolRule<V>> Outcome<CellId, V> for Taking<K> {
    ghost then = { K.takes };

    ghost empty = { K.empty };
}

/// What a take from another's deque tells.
pub struct Stealing<K> {
    rule: PhantomData<K>,
}

impl<V, K: PoolRule<V>> Outcome<CellId, V> for Stealing<K> {
    ghost use Rattle.tj_ready.specs.Orders.{left_there};

    ghost then = { K.takes };

    ghost empty = { left_there K.newest K.empty K.few };
}
