//! The pools by their one trait: what two ends take in turn, and four threads at once.
ghost use Rattle.std.specs.Prelude.{◌≡◌, ◌<◌};

use crate::shown::holds;
use std::alloc::Global;
use std::process::Abort;
use std::sync::Wait;
use std::thread;
use std::thread::Threads;
use tj_base::{CellId, Oom};
use tj_ready::{LockedPool, NewestFirstPool, Pool, StealPool};

// Puts three cells by one end.
fn put_three<P: Pool, R: Wait>(rt: &R, alloc: Global, end: &mut P) -> Result<(), Oom>
    requires { 7 < P.limit end.old }
{
    end.put(rt, alloc, CellId(5))?;
    end.put(rt, alloc, CellId(6))?;
    end.put(rt, alloc, CellId(7))
}

// Asserts what two ends take. The first one puts 5, 6 and 7 and takes one of them, the other one takes the next two,
// and then nothing is left.
fn take_in_turn<P: Pool, R: Wait + Abort>(rt: &R, alloc: Global, own: u32, next: u32, last: u32) {
    let Ok(mut ends) = P::make(rt, alloc, 2, 8) else {
        panic!(rt; "no memory");
    };
    let (first, second) = ends.as_mut_slice().split_at_mut(1);
    let (first, second) = (&mut first[0], &mut second[0]);
    if put_three(rt, alloc, first).is_err() {
        panic!(rt; "no memory");
    }
    holds(rt, "by itself", first.take(rt) == Some(CellId(own)));
    holds(
        rt,
        "the next by the other",
        second.take(rt) == Some(CellId(next)),
    );
    holds(rt, "and the last", second.take(rt) == Some(CellId(last)));
    holds(
        rt,
        "no more",
        second.take(rt).is_none() && first.take(rt).is_none(),
    );
}

#[test]
fn the_oldest_first_but_for_ones_own_newest(rt: HostRuntime) {
    take_in_turn::<LockedPool, HostRuntime>(&rt, rt.alloc(), 5, 6, 7);
    take_in_turn::<StealPool, HostRuntime>(&rt, rt.alloc(), 5, 6, 7);
    take_in_turn::<NewestFirstPool, HostRuntime>(&rt, rt.alloc(), 7, 5, 6);
}

// So many numbers, each put so often by each end.
const NUMBERS: u32 = 12_500;

const OFTEN: u32 = 2;

// Puts each number, and takes after each other put. Then it takes what is left. Nobody puts into
// its queue any more, so the last look finds that empty, whatever the others do.
fn put_and_take<P: Pool, R: Wait>(rt: &R, alloc: Global, mut end: P) -> Result<Vec<CellId>, Oom>
    requires { P.limit end ≡ 12500 }
{
    let mut taken = Vec::new(alloc);
    for _i in 0..OFTEN {
        for number in 0..NUMBERS {
            end.put(rt, alloc, CellId(number))?;
            if number % 2 == 0 {
                if let Some(t) = end.take(rt) {
                    taken.push(t)?;
                }
            }
        }
    }
    for _i in rt.forever() {
        match end.take(rt) {
            Some(t) => taken.push(t)?,
            None => break,
        }
    }
    Ok(taken)
}

// How often each number was taken by four threads, in order.
fn counts<P: Pool, R: Wait + Threads + Sync + Abort>(rt: &R, alloc: Global) -> Vec<u32> {
    let Ok(ends) = P::make(rt, alloc, 4, NUMBERS) else {
        panic!(rt; "no memory");
    };
    let Ok(lists) = thread::map_vec(
        rt,
        ends,
        &|end| -> Result<Vec<CellId>, Oom>
            requires { P.limit end ≡ 12500 }
        { put_and_take(rt, alloc, end) },
    ) else {
        panic!(rt; "no threads");
    };
    let Ok(mut counts) = Vec::from_elem(alloc, 0u32, NUMBERS as usize) else {
        panic!(rt; "no memory");
    };
    for list in lists {
        let Ok(list) = list else {
            panic!(rt; "no memory");
        };
        for t in list {
            if let Some(count) = counts.get_mut(t.0 as usize) {
                *count = count.saturating_add(1);
            }
        }
    }
    counts
}

// Asserts that each number is taken as often as it was put.
fn are_taken<P: Pool, R: Wait + Threads + Sync + Abort>(rt: &R, alloc: Global) {
    let counts = counts::<P, R>(rt, alloc);
    holds(rt, "so many numbers", counts.len() == NUMBERS as usize);
    for count in counts.iter() {
        holds(rt, "as often as it was put", *count == 4 * OFTEN);
    }
}

#[test]
fn each_cell_is_taken_once_by_four_threads(rt: HostRuntime) {
    are_taken::<LockedPool, HostRuntime>(&rt, rt.alloc());
    are_taken::<StealPool, HostRuntime>(&rt, rt.alloc());
    are_taken::<NewestFirstPool, HostRuntime>(&rt, rt.alloc());
}
