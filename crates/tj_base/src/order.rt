//! The two orders of names: that of lists, in which reports are written, and the fork order.
ghost use Rattle.std.specs.Prelude.{ℕ, ◌≡◌, ◌↔◌, IsTrue};
ghost use Rattle.std.specs.Cmp.Lexicographic.{slice_cmp};
ghost use Rattle.std.specs.Ordering.{nat_cmp};
ghost use Rattle.tj_base.specs.ForkOrder.{before, IsBefore};

use crate::climbs::first_difference;
use crate::name::Name;
use std::cmp::Ordering;

/// The name order: a name before all that begin with it, else the lower number first.
pub fn name_cmp(a: &Name, b: &Name) -> Ordering
    // The answer is the order of the names as lists: a prefix first, else the lower number first.
    ensures { result ≡ slice_cmp nat_cmp a.now b.now }
{
    match first_difference(a, b) {
        Some((x, y)) => x.cmp(&y),
        None => a.depth().cmp(&b.depth()),
    }
}

/// Whether task `a` is before task `b` in the fork order, in which each fork puts the child
/// directly after its parent: a parent is before its descendants, and what it forked later is
/// before what it forked earlier.
pub fn path_before(a: &Name, b: &Name) -> bool
    // The answer is what the definition `before` computes.
    ensures computed { result ≡ before a.now b.now }
    // True comes exactly where task a is before task b in the fork order: it is an ancestor, or
    // stands in a branch that was forked later.
    ensures order { IsTrue result ↔ IsBefore a.now b.now }
{
    match first_difference(a, b) {
        Some((x, y)) => y < x,
        None => a.depth() < b.depth(),
    }
}
