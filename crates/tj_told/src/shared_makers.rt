//! Names that share the names of makers.
ghost use Rattle.std.specs.Prelude.{◌≡◌, ◌≤◌, take, length, IfOk};

use std::alloc::Global;
use tj_base::{Name, Oom};

/// The name with these numbers. It shares with the other name those of the makers that both have.
pub(crate) fn with_numbers(
    alloc: Global,
    numbers: &[u32],
    other: Option<&Name>,
) -> Result<Name, Oom>
    ensures { IfOk result (λ name. name ≡ numbers.now) }
{
    match other {
        Some(name) => beside(alloc, numbers, name),
        None => Name::root().descendant(alloc, numbers),
    }
}

/// The same beside a name.
fn beside(alloc: Global, numbers: &[u32], other: &Name) -> Result<Name, Oom>
    ensures { IfOk result (λ name. name ≡ numbers.now) }
{
    let others = other.numbers(alloc)?;
    let same = same_first(numbers, others.as_slice());
    first_makers(other, same).descendant(alloc, &numbers[same..])
}

/// How many numbers both begin with.
fn same_first(a: &[u32], b: &[u32]) -> usize
    ensures in_a { result ≤ length a.now }
    ensures in_b { result ≤ length b.now }
    ensures same { take result a.now ≡ take result b.now }
{
    let mut n = 0;
    while n < a.len() && n < b.len() && a[n] == b[n] {
        n += 1;
    }
    n
}

/// The name of so many of the first numbers of this one.
fn first_makers(name: &Name, count: usize) -> &Name
    requires { count ≤ length name.now }
    ensures { result.now ≡ take count name.now }
{
    let mut at = name;
    while let Some((_, maker)) = at.split_last() {
        if maker.depth() < count {
            return at;
        }
        at = maker;
    }
    at
}
