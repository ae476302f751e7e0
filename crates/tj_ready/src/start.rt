//! The deques of a stealing pool before the first put, and the seats of the ends in the rule of each.
//!
//! A rule has to know for how many cells the pool is. A proof picks this number where a deque is
//! made, and each seat of the deque is then told it.
ghost use Rattle.std.specs.Prelude.{ℕ, ◌≡◌, ◌<◌, All, IfOk, length, map};
ghost use Rattle.tj_ready.specs.Orders.{flavor_of};
ghost use Rattle.tj_ready.specs.Seats.{IsHand, IsNewOwner};
ghost use Rattle.crossbeam_deque.specs.Handles.{IsPassOf, view, worker_view, worker_flavor, worker_deque, stealer_deque, stealer_flavor};

use crate::rule::{PoolRule, Ruled};
use crate::steals::Deque;
use crossbeam_deque::protocol::Split;
use crossbeam_deque::{Pass, Worker};
use std::alloc::Global;
use std::marker::{Brand, PhantomData};
use tj_base::{CellId, Oom};

/// The deque of an end, for its own puts.
pub type Owner<V, K> = Worker<CellId, Global, V, Ruled<K>>;

/// For how many cells a pool is.
pub trait Size {
    ghost cells: { ℕ };
}

impl Size for Brand {
    ghost cells = { 0 };
}

// The worker of a deque is told the number of cells.
struct Telling<K, S> {
    rule: PhantomData<K>,
    size: PhantomData<S>,
}

impl<V, K: PoolRule<V>, S: Size> Split<V> for Telling<K, S> {
    ghost left = { λ _. K.own S.cells };

    ghost right = { λ _. K.other S.cells };
}

// Another end gets a seat.
struct Joining<K> {
    rule: PhantomData<K>,
}

impl<V, K: PoolRule<V>> Split<V> for Joining<K> {
    ghost left = { λ v. v };

    ghost right = { λ v. K.other (K.limit v) };
}

// How many cells a deque has room for at first.
const ROOM: usize = 16;

// A deque whose worker knows nothing yet.
fn bare<V, K: PoolRule<V>>(alloc: Global) -> Result<Owner<V, K>, Oom>
    ensures { IfOk result
        (λ own. (worker_flavor own ≡ flavor_of K.newest) × (worker_view own ≡ K.first)) }
{
    if K::is_newest_first() {
        return Ok(Owner::<V, K>::lifo_as(alloc, ROOM)?);
    }
    Ok(Owner::<V, K>::fifo_as(alloc, ROOM)?)
}

/// An empty deque.
pub fn owner<V, K: PoolRule<V>, S: Size>(alloc: Global, cells: u32) -> Result<Owner<V, K>, Oom>
    requires { (S.cells ≡ cells) × (0 < cells) }
    ensures { IfOk result
        (λ own. (worker_flavor own ≡ flavor_of K.newest) × (worker_view own ≡ K.own cells)) }
{
    let mut own = bare::<V, K>(alloc)?;
    own.another::<Telling<K, S>>();
    Ok(own)
}

/// Deques for so many ends, all empty.
pub fn owners<V, K: PoolRule<V>, S: Size>(
    alloc: Global,
    workers: u32,
    cells: u32,
) -> Result<Vec<Owner<V, K>>, Oom>
    requires { (S.cells ≡ cells) × (0 < cells) }
    ensures { IfOk result (λ owners. (length owners.items ≡ workers)
        × All (IsNewOwner (flavor_of K.newest) (K.own cells)) owners.items) }
{
    let mut owners = Vec::with_capacity(alloc, workers as usize)?;
    for _i in 0..workers {
        owners.push(owner::<V, K, S>(alloc, cells)?)?;
    }
    Ok(owners)
}

/// The deques of these, for all ends to take from.
pub fn deques_of<V, K: PoolRule<V>>(
    alloc: Global,
    owners: &Vec<Owner<V, K>>,
    cells: u32,
) -> Result<Vec<Deque<V, K>>, Oom>
    requires { All (IsNewOwner (flavor_of K.newest) (K.own cells)) owners.now.items }
    ensures { IfOk result (λ deques.
        (map stealer_deque deques.items ≡ map worker_deque owners.now.items)
        × All (λ deque. stealer_flavor deque ≡ flavor_of K.newest) deques.items) }
{
    let mut deques = Vec::with_capacity(alloc, owners.len())?;
    for at in 0..owners.len() {
        deques.push(owners[at].stealer()?)?;
    }
    Ok(deques)
}

// A seat of one more end in the rule of this deque.
fn seat_in<V, K: PoolRule<V>>(own: &mut Owner<V, K>, cells: u32) -> Pass<CellId, V>
    requires some { 0 < cells }
    requires new { IsNewOwner (flavor_of K.newest) (K.own cells) own.old }
    ensures new { IsNewOwner (flavor_of K.newest) (K.own cells) own.new }
    ensures deque { worker_deque own.new ≡ worker_deque own.old }
    ensures seat { IsPassOf (worker_deque own.old) result × (view result ≡ K.other cells) }
{
    own.another::<Joining<K>>()
}

/// A seat of one end in the rule of each of these deques. No end has put or taken anything yet.
pub fn seats_of<V, K: PoolRule<V>>(
    alloc: Global,
    owners: &mut Vec<Owner<V, K>>,
    cells: u32,
) -> Result<Vec<Pass<CellId, V>>, Oom>
    requires some { 0 < cells }
    requires new { All (IsNewOwner (flavor_of K.newest) (K.own cells)) owners.old.items }
    ensures { IfOk result (λ seats.
        All (IsNewOwner (flavor_of K.newest) (K.own cells)) owners.new.items
        × (map worker_deque owners.new.items ≡ map worker_deque owners.old.items)
        × IsHand (map worker_deque owners.old.items) (K.other cells) seats.items) }
{
    let mut seats = Vec::with_capacity(alloc, owners.len())?;
    for at in 0..owners.len() {
        seats.push(seat_in::<V, K>(&mut owners[at], cells))?;
    }
    Ok(seats)
}
