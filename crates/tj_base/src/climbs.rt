//! Climbs along names towards the root: leaps, and where two names differ.
ghost use Rattle.std.specs.Prelude.{◌≡◌, [], ◌∷◌, ◌++◌, ◌+◌, ◌<◌, ◌≤◌, drop, length, IfOk, IfSome, nat_eq};
ghost use Rattle.std.specs.Cmp.Lexicographic.{pointwise};
ghost use Rattle.tj_base.specs.Differences as spec;
ghost use Rattle.tj_base.specs.ForkOrder.{IsAncestor};
ghost use Rattle.tj_base.specs.Leaps.{IsLeap};
ghost use Rattle.tj_base.specs.MapOrder.{map_order};

use crate::memory::Oom;
use crate::name::{Leap, Name};
use std::alloc::Global;
use std::cmp::Ordering;

/// How many numbers a leap has.
pub const LEAP: usize = 64;

/// The leap over the last numbers of the name of the k-th thing that this task makes, if it has as
/// many.
pub fn leap_to(maker: &Name, alloc: Global, k: u32) -> Result<Option<Box<Leap>>, Oom>
    ensures { IfOk result (λ found. IfSome found (λ leap.
        IsLeap (maker.now ++ k ∷ []) leap.value.before leap.value.numbers.items)) }
{
    let mut numbers = Vec::with_capacity(alloc, LEAP)?;
    numbers.push(k)?;
    let mut at = maker;
    while numbers.len() < LEAP {
        let Some(made) = &at.made else {
            return Ok(None);
        };
        numbers.push(made.number)?;
        at = &made.maker;
    }
    numbers.reverse();
    let leap = Leap {
        before: at.copy(alloc)?,
        numbers,
    };
    Ok(Some(Box::new(alloc, leap)?))
}

/// Whether the names are the same. Their last numbers are looked at first: names of one length that
/// aren't the same mostly differ there.
pub fn is_same(a: &Name, b: &Name) -> bool
    ensures { result ≡ pointwise nat_eq a.now b.now }
{
    if a.depth() != b.depth() {
        return false;
    }
    let mut p = a;
    let mut q = b;
    loop {
        let (Some(x), Some(y)) = (&p.made, &q.made) else {
            return true;
        };
        if x.number != y.number {
            return false;
        }
        match (&x.leap, &y.leap) {
            (Some(r), Some(s)) => {
                if r.numbers.as_slice() != s.numbers.as_slice() {
                    return false;
                }
                p = &r.before;
                q = &s.before;
            }
            _ => {
                p = &x.maker;
                q = &y.maker;
            }
        }
    }
}

/// The order of the names as keys of a map.
pub fn map_order(a: &Name, b: &Name) -> Ordering
    ensures { result ≡ map_order a.now b.now }
{
    if a.depth() != b.depth() {
        return a.depth().cmp(&b.depth());
    }
    let mut p = a;
    let mut q = b;
    loop {
        let (Some(x), Some(y)) = (&p.made, &q.made) else {
            return Ordering::Equal;
        };
        if x.number != y.number {
            return x.number.cmp(&y.number);
        }
        match (&x.leap, &y.leap) {
            (Some(r), Some(s)) if r.numbers.as_slice() == s.numbers.as_slice() => {
                p = &r.before;
                q = &s.before;
            }
            _ => {
                p = &x.maker;
                q = &y.maker;
            }
        }
    }
}

/// The numbers of both at the first place at which the names differ, if there is one before either
/// ends.
pub fn first_difference(a: &Name, b: &Name) -> Option<(u32, u32)>
    ensures { result ≡ spec.first_difference a.now b.now }
{
    let mut p = a;
    let mut q = b;
    let mut found = None;
    loop {
        let (Some(x), Some(y)) = (&p.made, &q.made) else {
            return found;
        };
        if p.depth() > q.depth() {
            p = above(p, q.depth());
        } else if p.depth() < q.depth() {
            q = above(q, p.depth());
        } else if let (Some(r), Some(s)) = (&x.leap, &y.leap) {
            found = row_difference(r.numbers.as_slice(), s.numbers.as_slice()).or(found);
            p = &r.before;
            q = &s.before;
        } else {
            if x.number != y.number {
                found = Some((x.number, y.number));
            }
            p = &x.maker;
            q = &y.maker;
        }
    }
}

/// The same of rows of numbers.
fn row_difference(mut a: &[u32], mut b: &[u32]) -> Option<(u32, u32)>
    ensures { result ≡ spec.first_difference a.entry.now b.entry.now }
{
    if a == b {
        return None;
    }
    loop {
        let [x, a_rest @ ..] = a else {
            return None;
        };
        let [y, b_rest @ ..] = b else {
            return None;
        };
        if x != y {
            return Some((*x, *y));
        }
        a = a_rest;
        b = b_rest;
    }
}

/// The name that a leap of this name leads to, or else a step, not above that depth.
fn above(name: &Name, depth: usize) -> &Name
    requires { depth < length name.now }
    ensures ancestor { IsAncestor result.now name.now }
    ensures deep { depth ≤ length result.now }
{
    let Some(made) = &name.made else {
        return name;
    };
    if let Some(leap) = &made.leap {
        if leap.before.depth() >= depth {
            return &leap.before;
        }
    }
    &made.maker
}

/// Puts a row of numbers there.
pub fn put_row(numbers: &mut [u32], at: usize, row: &[u32])
    requires { at + length row.now ≤ length numbers.old }
    ensures len { length numbers.new ≡ length numbers.old }
    ensures from { drop at numbers.new ≡ row.now ++ drop (at + length row.now) numbers.old }
{
    numbers[at..at + row.len()].copy_from_slice(row);
}
