//! What straight code sees of each of its asks, in the list of what its task has been told.
ghost use Rattle.std.specs.Prelude.{◌≡◌};
ghost use Rattle.tj_task.specs.Seens as seen;

use crate::handles::{Child, Promise};
use crate::turn::Told;

/// What is seen of an ask.
#[derive(Clone, Copy)]
pub enum Seen<V> {
    /// It hasn't been asked yet.
    Ask,
    /// It was answered so.
    Told(V),
    /// It was answered by something else.
    Other,
}

/// The promise that ask number k made.
pub fn promise_at(log: &[Told], k: usize) -> Seen<Promise>
    // It is what is seen of an ask: nothing yet, what its answer told, or another answer.
    ensures { result ≡ seen.promise_at log.now k }
{
    match log.get(k) {
        Some(told) => promise_in(*told),
        None => Seen::Ask,
    }
}

/// The same of what was told.
fn promise_in(told: Told) -> Seen<Promise>
    ensures { result ≡ seen.promise_in told }
{
    match told {
        Told::Made(promise) => Seen::Told(promise),
        Told::Start | Told::Forked(_) | Told::Done | Told::Num(_) | Told::Ref(_) | Told::Lost =>
            Seen::Other,
    }
}

/// The child that ask number k started.
pub fn child_at(log: &[Told], k: usize) -> Seen<Child>
    ensures { result ≡ seen.child_at log.now k }
{
    match log.get(k) {
        Some(told) => child_in(*told),
        None => Seen::Ask,
    }
}

/// The same of what was told.
fn child_in(told: Told) -> Seen<Child>
    ensures { result ≡ seen.child_in told }
{
    match told {
        Told::Forked(child) => Seen::Told(child),
        Told::Start | Told::Made(_) | Told::Done | Told::Num(_) | Told::Ref(_) | Told::Lost =>
            Seen::Other,
    }
}

/// That ask number k is done.
pub fn done_at(log: &[Told], k: usize) -> Seen<()>
    ensures { result ≡ seen.done_at log.now k }
{
    match log.get(k) {
        Some(told) => done_in(*told),
        None => Seen::Ask,
    }
}

/// The same of what was told.
fn done_in(told: Told) -> Seen<()>
    ensures { result ≡ seen.done_in told }
{
    match told {
        Told::Done => Seen::Told(()),
        Told::Start | Told::Made(_) | Told::Forked(_) | Told::Num(_) | Told::Ref(_) | Told::Lost =>
            Seen::Other,
    }
}

/// The number that ask number k was told.
pub fn num_at(log: &[Told], k: usize) -> Seen<i64>
    ensures { result ≡ seen.num_at log.now k }
{
    match log.get(k) {
        Some(told) => num_in(*told),
        None => Seen::Ask,
    }
}

/// The same of what was told.
fn num_in(told: Told) -> Seen<i64>
    ensures { result ≡ seen.num_in told }
{
    match told {
        Told::Num(value) => Seen::Told(value),
        Told::Start | Told::Made(_) | Told::Forked(_) | Told::Done | Told::Ref(_) | Told::Lost =>
            Seen::Other,
    }
}

/// The promise that ask number k was told of.
pub fn promise_told_at(log: &[Told], k: usize) -> Seen<Promise>
    ensures { result ≡ seen.promise_told_at log.now k }
{
    match log.get(k) {
        Some(told) => promise_told_in(*told),
        None => Seen::Ask,
    }
}

/// The same of what was told.
fn promise_told_in(told: Told) -> Seen<Promise>
    ensures { result ≡ seen.promise_told_in told }
{
    match told {
        Told::Ref(place) => Seen::Told(Promise { place }),
        Told::Start | Told::Made(_) | Told::Forked(_) | Told::Done | Told::Num(_) | Told::Lost =>
            Seen::Other,
    }
}

/// The task that ask number k was told of.
pub fn child_told_at(log: &[Told], k: usize) -> Seen<Child>
    ensures { result ≡ seen.child_told_at log.now k }
{
    match log.get(k) {
        Some(told) => child_told_in(*told),
        None => Seen::Ask,
    }
}

/// The same of what was told.
fn child_told_in(told: Told) -> Seen<Child>
    ensures { result ≡ seen.child_told_in told }
{
    match told {
        Told::Ref(place) => Seen::Told(Child { place }),
        Told::Start | Told::Made(_) | Told::Forked(_) | Told::Done | Told::Num(_) | Told::Lost =>
            Seen::Other,
    }
}

/// That ask number k was told a value.
pub fn value_at(log: &[Told], k: usize) -> Seen<()>
    ensures { result ≡ seen.value_at log.now k }
{
    match log.get(k) {
        Some(told) => value_in(*told),
        None => Seen::Ask,
    }
}

/// The same of what was told.
fn value_in(told: Told) -> Seen<()>
    ensures { result ≡ seen.value_in told }
{
    match told {
        Told::Num(_) | Told::Ref(_) => Seen::Told(()),
        Told::Start | Told::Made(_) | Told::Forked(_) | Told::Done | Told::Lost => Seen::Other,
    }
}

/// The number that ask number k was told, and this one where the cell is broken.
pub fn num_or_at(log: &[Told], k: usize, other: i64) -> Seen<i64>
    // It is the number of the answer, and the other one where the cell is broken.
    ensures { result ≡ seen.num_or_at log.now k other }
{
    match log.get(k) {
        Some(told) => num_or_in(*told, other),
        None => Seen::Ask,
    }
}

/// The same of what was told.
fn num_or_in(told: Told, other: i64) -> Seen<i64>
    ensures { result ≡ seen.num_or_in other told }
{
    match told {
        Told::Num(value) => Seen::Told(value),
        Told::Lost => Seen::Told(other),
        Told::Start | Told::Made(_) | Told::Forked(_) | Told::Done | Told::Ref(_) => Seen::Other,
    }
}
