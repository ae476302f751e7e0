//! Printed names and the two orders on names, by hand.
use crate::shown::{holds, reads};
use std::alloc::Global;
use std::cmp::Ordering;
use std::process::Abort;
use std::test::Fail;
use tj_base::{Name, Oom, name_cmp, path_before};

/// Numbers, and the name that is printed for them.
const NAMES: &[(&[u32], &[u8])] = &[
    (&[], b"> 0"),
    (&[3], b"> 0.3"),
    (&[3, 1], b"> 0.3.1"),
    (&[4294967295], b"> 0.4294967295"),
];

/// What a row shows, two names, whether the first stands before the second in the fork order and the
/// second before the first, and how they compare.
type Pair<'n> = (&'n str, &'n [u32], &'n [u32], (bool, bool), Ordering);

const PAIRS: &[Pair<'static>] = &[
    (
        "the later fork is before the earlier one",
        &[2],
        &[1],
        (true, false),
        Ordering::Greater,
    ),
    (
        "a task is before its child, and has the lesser name",
        &[2],
        &[2, 1],
        (true, false),
        Ordering::Less,
    ),
    (
        "a later branch is before an earlier one",
        &[2, 1],
        &[1],
        (true, false),
        Ordering::Greater,
    ),
    (
        "a task isn't before itself",
        &[2],
        &[2],
        (false, false),
        Ordering::Equal,
    ),
    (
        "the root is before all",
        &[],
        &[7, 7],
        (true, false),
        Ordering::Less,
    ),
    (
        "numbers are compared, and not their digits",
        &[10],
        &[2],
        (true, false),
        Ordering::Greater,
    ),
    (
        "the first number that differs decides",
        &[1, 9],
        &[2],
        (false, true),
        Ordering::Less,
    ),
    (
        "the same name twice",
        &[5, 1],
        &[5, 1],
        (false, false),
        Ordering::Equal,
    ),
];

/// How many numbers long names have. Those of 64 and of 128 have a leap over the last 64, and those
/// of 65 and of 129 are made of them.
const LENGTHS: &[usize] = &[64, 65, 128, 129];

pub(crate) fn name(rt: &impl Abort, alloc: Global, numbers: &[u32]) -> Name {
    let Ok(name) = Name::root().descendant(alloc, numbers) else {
        panic!(rt; "no memory");
    };
    name
}

/// Whether the name has these numbers.
pub(crate) fn is_name(name: &Name, numbers: &[u32]) -> bool {
    let mut left = name;
    for number in numbers.iter().rev() {
        match left.split_last() {
            Some((last, before)) if last == *number => left = before,
            _ => return false,
        }
    }
    left.depth() == 0
}

/// Asserts that the name of these numbers is printed so, behind what stands there.
fn is_printed(rt: &impl Abort, alloc: Global, numbers: &[u32], text: &[u8]) {
    let Ok(mut found) = Vec::from_slice(alloc, b"> ") else {
        panic!(rt; "no memory");
    };
    if name(rt, alloc, numbers)
        .text_into(alloc, &mut found)
        .is_err()
    {
        panic!(rt; "no memory");
    }
    reads(rt, "a name", found.as_slice(), text);
}

/// Asserts what the two orders say of a pair. The second name is compared as a copy.
fn is_ordered(rt: &impl Abort, alloc: Global, pair: &Pair<'_>) {
    let first = name(rt, alloc, pair.1);
    let second = name(rt, alloc, pair.2);
    let Ok(copy) = second.copy(alloc) else {
        panic!(rt; "no memory");
    };
    let before = (path_before(&first, &second), path_before(&second, &first));
    holds(
        rt,
        pair.0,
        before == pair.3 && name_cmp(&first, &copy) == pair.4,
    );
}

#[test]
fn names_are_printed_and_ordered(rt: HostRuntime) {
    for (numbers, text) in NAMES {
        is_printed(&rt, rt.alloc(), numbers, text);
    }
    for pair in PAIRS {
        is_ordered(&rt, rt.alloc(), pair);
    }
}

/// So many sevens, but a 2 at this place; and what is printed for the name of these numbers.
fn sevens(alloc: Global, length: usize, place: usize) -> Result<(Vec<u32>, Vec<u8>), Oom> {
    let mut numbers = Vec::new(alloc);
    let mut text = Vec::from_slice(alloc, b"> 0")?;
    for at in 0..length {
        let two = at == place;
        numbers.push(if two { 2 } else { 7 })?;
        text.extend_from_slice(if two { b".2" } else { b".7" })?;
    }
    Ok((numbers, text))
}

/// Asserts what is told of a long name that has a 2 at this place: its text, its numbers, and how it
/// stands beside itself, its maker and the name of sevens alone.
fn is_long(rt: &impl Abort, alloc: Global, length: usize, place: usize) -> Result<(), Oom> {
    let (own, text) = sevens(alloc, length, place)?;
    let (maker, _) = sevens(alloc, length.saturating_sub(1), place)?;
    let (other, _) = sevens(alloc, length, length)?;
    let (own, maker, other) = (own.as_slice(), maker.as_slice(), other.as_slice());
    is_printed(rt, alloc, own, text.as_slice());
    let named = name(rt, alloc, own);
    holds(rt, "its parts", is_name(&named, own));
    holds(rt, "its numbers", named.numbers(alloc)?.as_slice() == own);
    holds(rt, "another", named != name(rt, alloc, other));
    let same = (false, false);
    is_ordered(rt, alloc, &("itself", own, own, same, Ordering::Equal));
    let later = (false, true);
    is_ordered(rt, alloc, &("sevens", own, other, later, Ordering::Less));
    is_ordered(
        rt,
        alloc,
        &("its maker", own, maker, later, Ordering::Greater),
    );
    Ok(())
}

#[test]
fn long_names_are_told_and_ordered(rt: HostRuntime) -> Result<(), Fail> {
    for length in LENGTHS {
        for place in [0, 63, length.saturating_sub(1)] {
            is_long(&rt, rt.alloc(), *length, place)?;
        }
    }
    Ok(())
}
