//! Taking from the deques of a pool, which all ends share in one list.
ghost use Rattle.std.specs.Prelude.{◌≡◌, ◌≤◌, [], ◌∷◌, All, MatchOption, length, map};
ghost use Rattle.crossbeam_deque.specs.Handles.{view, IsPassOf, stealer_deque, stealer_flavor};
ghost use Rattle.tj_ready.specs.Ends.{StepsOne};
ghost use Rattle.tj_ready.specs.Orders.{flavor_of, left_there};
ghost use Rattle.tj_ready.specs.Seats.{AreSeats, known_in};

use crate::rule::{PoolRule, Ruled, Stealing};
use crossbeam_deque::{Pass, Steal, Stealer};
use std::alloc::Global;
use std::sync::Wait;
use tj_base::CellId;

/// A deque from which any end may take, by a seat in its rule.
pub type Deque<V, K> = Stealer<CellId, Global, V, Ruled<K>>;

// Takes the front cell of one deque. Where another end was faster it tries again.
fn steal_from<V, K: PoolRule<V>, R: Wait>(
    deque: &Deque<V, K>,
    seat: &mut Pass<CellId, V>,
    rt: &R,
) -> Option<CellId>
    requires flavor { stealer_flavor deque.now ≡ flavor_of K.newest }
    requires seated { IsPassOf (stealer_deque deque.now) seat.old }
    ensures seated { IsPassOf (stealer_deque deque.now) seat.new }
    ensures taken { MatchOption result
        ((view seat.new ≡ view seat.old) × left_there K.newest K.empty K.few (view seat.old))
        (λ t. K.takes (view seat.old) (t ∷ []) (view seat.new)) }
{
    for _i in rt.forever() {
        match deque.steal_as::<Stealing<K>>(seat) {
            Steal::Success(t) => return Some(t),
            Steal::Empty => return None,
            Steal::Retry => {}
        }
    }
    unreachable!()
}

/// Takes the front cell of the first of these deques that has one to give.
pub fn steal_first<V, K: PoolRule<V>, R: Wait>(
    deques: &Vec<Deque<V, K>>,
    seats: &mut Vec<Pass<CellId, V>>,
    rt: &R,
) -> Option<CellId>
    requires flavor { All (λ deque. stealer_flavor deque ≡ flavor_of K.newest) deques.now.items }
    requires count { length seats.old.items ≤ length deques.now.items }
    requires seated { AreSeats (map stealer_deque deques.now.items) seats.old.items }
    ensures count { length seats.new.items ≡ length seats.old.items }
    ensures seated { AreSeats (map stealer_deque deques.now.items) seats.new.items }
    ensures taken { MatchOption result
        ((known_in seats.new.items ≡ known_in seats.old.items)
        × All (left_there K.newest K.empty K.few) (known_in seats.old.items))
        (λ t. StepsOne K.takes (known_in seats.old.items) t (known_in seats.new.items)) }
{
    for at in 0..seats.len() {
        if let Some(t) = steal_from::<V, K, R>(&deques[at], &mut seats[at], rt) {
            return Some(t);
        }
    }
    None
}
