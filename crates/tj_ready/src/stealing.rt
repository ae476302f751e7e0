//! A deque for each worker, in which it puts and takes without a lock.
//!
//! A worker takes from its own deque in the order of the pool, the oldest cell or the newest one first, and others
//! take its oldest. A take looks into the own deque first, then into the spare list, which has what the own deque
//! had no room for, and then into the deques of all ends in the order of their numbers. The ends share one list of
//! these. No other end takes from a spare list.
ghost use Rattle.std.specs.Prelude.{◌≡◌, ◌<◌, All, length, map};
ghost use Rattle.crossbeam_deque.specs.Handles.{worker_flavor, worker_view, stealer_deque, stealer_flavor};
ghost use Rattle.tj_ready.specs.Orders.{flavor_of};
ghost use Rattle.tj_ready.specs.Seats.{AreSeats, known_in};

use crate::pool::Pool;
use crate::rule::{Bounded, NewestFirst, PoolRule, Putting, Taking};
use crate::start::{Owner, deques_of, owners, seats_of};
use crate::steals::{Deque, steal_first};
use crossbeam_deque::Pass;
use std::alloc::Global;
use std::collections::VecDeque;
use std::marker::Brand;
use std::sync::{Arc, Wait};
use tj_base::{CellId, Oom};

/// An end of a stealing pool whose user keeps a rule of its own.
#[derive(Drop)]
pub struct RuledStealPool<V, K: PoolRule<V>> {
    cells: u32,
    own: Owner<V, K>,
    // What the own deque handed back.
    spare: VecDeque<CellId>,
    // The deques of all ends, its own among them, and its seat in the rule of each.
    deques: Arc<Vec<Deque<V, K>>, Global>,
    seats: Vec<Pass<CellId, V>>,
    // Whether it was another's cell that it took last.
    stole: bool,
    ghost flavor: { worker_flavor own ≡ flavor_of K.newest },
    ghost own_cells: { K.limit (worker_view own) ≡ cells },
    ghost spare_cells: { All (λ t. t.0 < cells) spare.items },
    ghost other_cells: { All (λ v. K.limit v ≡ cells) (known_in seats.items) },
    ghost flavors: { All (λ deque. stealer_flavor deque ≡ flavor_of K.newest) deques.value.items },
    ghost count: { length seats.items ≡ length deques.value.items },
    ghost seated: { AreSeats (map stealer_deque deques.value.items) seats.items },
}

/// An end of a stealing pool whose worker takes its oldest cell first.
pub type StealPool = RuledStealPool<u32, Bounded>;

/// An end of a stealing pool whose worker takes its newest cell first.
pub type NewestFirstPool = RuledStealPool<u32, NewestFirst<Bounded>>;

impl<V, K: PoolRule<V>> RuledStealPool<V, K> {
    ghost use Rattle.std.specs.Prelude.{IfOk};
    ghost use Rattle.crossbeam_deque.specs.Handles.{worker_deque};
    ghost use Rattle.tj_ready.specs.Seats.{IsHand, IsNewOwner};
    ghost use Rattle.tj_ready.specs.Stealing.{AreEnds};

    // The ends of these deques, each with the seats that were dealt to it.
    fn ends(
        alloc: Global,
        owners: Vec<Owner<V, K>>,
        mut hands: Vec<Vec<Pass<CellId, V>>>,
        deques: &Arc<Vec<Deque<V, K>>, Global>,
        cells: u32,
    ) -> Result<Vec<Self>, Oom>
        requires new { All (IsNewOwner (flavor_of K.newest) (K.own cells)) owners.items }
        requires deques { map stealer_deque deques.now.value.items ≡ map worker_deque owners.items }
        requires flavors { All (λ deque. stealer_flavor deque ≡ flavor_of K.newest)
            deques.now.value.items }
        requires hands { (length hands.items ≡ length owners.items)
            × All (λ seats. IsHand (map worker_deque owners.items) (K.other cells) seats.items)
            hands.items }
        ensures { IfOk result (λ ends. AreEnds cells (map worker_deque owners.items) ends.items) }
    {
        let mut ends = Vec::with_capacity(alloc, owners.len())?;
        for own in owners {
            let Some(seats) = hands.pop() else {
                unreachable!()
            };
            ends.push(RuledStealPool {
                cells,
                own,
                spare: VecDeque::new(alloc),
                deques: Arc::try_clone(deques)?,
                seats,
                stole: false,
            })?;
        }
        Ok(ends)
    }
}

impl<V, K: PoolRule<V>> RuledStealPool<V, K> {
    ghost use Rattle.std.specs.Prelude.{[], ◌∷◌, MatchOption, IfSome};
    ghost use Rattle.tj_ready.specs.Ends.{StepsOwn, StepsOther, ChangesSpare};
    ghost use Rattle.tj_ready.specs.Orders.{left_there};
    ghost use Rattle.tj_ready.specs.Stealing.{known};

    // The oldest or the newest cell of its own deque, by the order.
    fn take_own(&mut self) -> Option<CellId>
        ensures cells { self.new.cells ≡ self.old.cells }
        ensures below { IfSome result (λ t. t.0 < self.old.cells) }
        ensures taken { MatchOption result
            ((known self.new ≡ known self.old) × K.empty (known self.old).own)
            (λ t. StepsOwn K.takes (known self.old) t (known self.new)) }
    {
        self.own.pop_as::<Taking<K>>()
    }

    // The front of its spare list.
    fn take_spare(&mut self) -> Option<CellId>
        ensures cells { self.new.cells ≡ self.old.cells }
        ensures below { IfSome result (λ t. t.0 < self.old.cells) }
        ensures taken { MatchOption result
            ((known self.new ≡ known self.old) × ((known self.old).spare ≡ []))
            (λ t. ChangesSpare (known self.old) (t ∷ (known self.new).spare) (known self.new).spare
            (known self.new)) }
    {
        self.spare.pop_front()
    }

    // The front of the first of the deques, by their numbers, that has one to give.
    fn steal<R: Wait>(&mut self, rt: &R) -> Option<CellId>
        ensures cells { self.new.cells ≡ self.old.cells }
        ensures below { IfSome result (λ t. t.0 < self.old.cells) }
        ensures taken { MatchOption result
            ((known self.new ≡ known self.old)
            × All (left_there K.newest K.empty K.few) (known self.old).others)
            (λ t. StepsOther K.takes (known self.old) t (known self.new)) }
    {
        steal_first::<V, K, R>(&self.deques, &mut self.seats, rt)
    }
}

impl<V, K: PoolRule<V>> Pool for RuledStealPool<V, K> {
    ghost use Rattle.tj_ready.specs.Ends.{PutsCell, TakesCell, FindsNone};
    ghost use Rattle.tj_ready.specs.Orders.{left_there};
    ghost use Rattle.tj_ready.specs.Stealing.{known, IsNewEnd, EndsMeet};

    ghost limit = { λ end. end.cells };

    ghost meet = { EndsMeet };

    ghost is_new = { λ end. IsNewEnd end.cells end };

    ghost same = { λ old new. known new ≡ known old };

    ghost puts = { λ old t new. PutsCell K.puts (known old) t (known new) };

    ghost takes = { λ old t new. TakesCell K.takes (known old) t (known new) };

    ghost finds_none = { λ old new.
        FindsNone K.empty (left_there K.newest K.empty K.few) (known old) (known new) };

    fn make<R: Wait>(_rt: &R, alloc: Global, workers: u32, cells: u32) -> Result<Vec<Self>, Oom> {
        let mut owners = owners::<V, K, Brand>(alloc, workers, cells)?;
        let deques = Arc::new(alloc, deques_of::<V, K>(alloc, &owners, cells)?)?;
        let mut hands = Vec::with_capacity(alloc, workers as usize)?;
        for _i in 0..workers {
            hands.push(seats_of::<V, K>(alloc, &mut owners, cells)?)?;
        }
        let ends = Self::ends(alloc, owners, hands, &deques, cells)?;
        Ok(ends)
    }

    fn put<R: Wait>(&mut self, _rt: &R, _alloc: Global, t: CellId) -> Result<(), Oom> {
        if let Err(t) = self.own.push_as::<Putting<K>>(t) {
            self.spare.push_back(t)?;
        }
        Ok(())
    }

    fn take<R: Wait>(&mut self, rt: &R) -> Option<CellId> {
        self.stole = false;
        if let Some(t) = self.take_own() {
            return Some(t);
        }
        if let Some(t) = self.take_spare() {
            return Some(t);
        }
        self.stole = true;
        self.steal(rt)
    }

    fn has_stolen(&self) -> bool {
        self.stole
    }
}
