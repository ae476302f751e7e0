//! The least indexes of all cycles, each index being looked at a few times. From each index the way
//! is walked as far as no index of it was met before. Where it comes back to itself, there is a cycle
//! that no earlier walk has met, and it is walked once more for its least index.
ghost use Rattle.std.specs.Prelude.{◌≡◌, ◌⊎◌, ℕ, ◌<◌, ◌≤◌, length, slice_index_or, List, Some, true, false, IfOk};
ghost use Rattle.tj_body.specs.Points.{IsIn};
ghost use Rattle.tj_mean.specs.Inner.Indexes.{IsLeastCycle};
ghost use Rattle.tj_mean.specs.WaitIndexes.{Next};
ghost use Rattle.tj_mean.specs.Inner.MetIndexes.{AreLeastTold, IsMet, IsMetOn};

use std::alloc::Global;
use tj_base::Oom;

/// Whether each index may be the least one of a cycle. For each that is it says so.
pub fn least_indexes(alloc: Global, next: &[Option<usize>]) -> Result<Vec<bool>, Oom>
    requires { (i j : ℕ) → Next next.now i j → j < length next.now }
    ensures length { IfOk result (λ least. length least.items ≡ length next.now) }
    ensures told { IfOk result (λ least. AreLeastTold next.now least.items) }
{
    let mut least = Vec::from_elem(alloc, false, next.len())?;
    let mut met = Vec::from_elem(alloc, None, next.len())?;
    for first in 0..next.len() {
        let found = walk(next, first, &mut met);
        tell(next, found, &mut least);
    }
    Ok(least)
}

/// Tells the least index of the cycle that this one is on, if there is one.
fn tell(next: &[Option<usize>], found: Option<usize>, least: &mut Vec<bool>)
    requires within { (at : ℕ) → found ≡ Some at → at < length next.now }
    requires length { length least.old.items ≡ length next.now }
    requires indexes { (i j : ℕ) → Next next.now i j → j < length next.now }
    ensures length { length least.new.items ≡ length least.old.items }
    ensures kept { (first : ℕ) → slice_index_or least.old.items first false ≡ true
        → slice_index_or least.new.items first false ≡ true }
    ensures told { (first : ℕ) (indexes : List ℕ) (at : ℕ) → IsLeastCycle next.now first indexes
        → found ≡ Some at → IsIn at indexes → slice_index_or least.new.items first false ≡ true }
{
    if let Some(at) = found {
        let first = least_from(next, at);
        least[first] = true;
    }
}

/// Walks on from an index, and says of each index in which walk it was met. The answer is an index
/// of each cycle that this walk was the first to meet.
fn walk(next: &[Option<usize>], first: usize, met: &mut Vec<Option<usize>>) -> Option<usize>
    requires first { first < length next.now }
    requires length { length met.old.items ≡ length next.now }
    requires indexes { (i j : ℕ) → Next next.now i j → j < length next.now }
    ensures length { length met.new.items ≡ length next.now }
    ensures first { IsMet met.new.items first }
    ensures kept { (i : ℕ) → IsMet met.old.items i → IsMet met.new.items i }
    ensures within { (at : ℕ) → result ≡ Some at → at < length next.now }
    ensures cycles { (least : ℕ) (indexes : List ℕ) → IsLeastCycle next.now least indexes
        → IsMetOn met.new.items indexes
        → IsMetOn met.old.items indexes ⊎ ((at : ℕ) × (result ≡ Some at) × IsIn at indexes) }
{
    let mut at = first;
    for step in 0..next.len() {
        match met[at] {
            Some(round) if round == first => return Some(at),
            Some(_) => return None,
            None => met[at] = Some(first),
        }
        match next[at] {
            Some(owner) => at = owner,
            None => return None,
        }
    }
    Some(at)
}

/// The least index of the cycle that this one is on.
fn least_from(next: &[Option<usize>], from: usize) -> usize
    requires from { from < length next.now }
    requires indexes { (i j : ℕ) → Next next.now i j → j < length next.now }
    ensures within { result < length next.now }
    ensures least { (least : ℕ) (indexes : List ℕ) → IsLeastCycle next.now least indexes
        → IsIn from indexes → result ≡ least }
{
    let mut least = from;
    let mut at = from;
    for step in 0..next.len() {
        let Some(owner) = next[at] else {
            return least;
        };
        if owner == from {
            return least;
        }
        at = owner;
        least = smaller(least, owner);
    }
    least
}

/// The smaller one.
fn smaller(a: usize, b: usize) -> usize
    ensures first { result ≤ a }
    ensures second { result ≤ b }
    ensures one { (result ≡ a) ⊎ (result ≡ b) }
{
    if b < a { b } else { a }
}
