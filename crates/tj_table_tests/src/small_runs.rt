//! Small programs on many workers, over either pool.
ghost use Rattle.std.specs.Prelude.{◌<◌, ◌≤◌};

use crate::written::{Says, lists_of, root_of};
use std::alloc::Global;
use std::process::Abort;
use std::sync::Wait;
use std::thread::Threads;
use tj_base::CellId;
use tj_body::{Body, TableBody};
use tj_ports::OpenGate;
use tj_ready::{LockedPool, Pool, StealPool};
use tj_run::{RunFault, run_all};
use tj_words::{Fill, Finish, RestWords};

/// One task, which makes a promise, sets it, gets it, prints and ends with the promise.
const SMALL: &[&[Says]] = &[&[
    Says::New,
    Says::Set(1, 5),
    Says::Get(1),
    Says::Emit(8),
    Says::Tells(1),
]];

/// Whether words at rest have the root, which has printed 8 and ended with the promise.
fn tells<B: Body>(rest: &RestWords<B>) -> bool {
    if rest.drawn() < 1 {
        return false;
    }
    match rest.rec(CellId(0)) {
        Some(rec) => {
            rec.prints() == &[8i64][..]
                && matches!(rec.finish(), Some(Finish::Done(Fill::Promise(CellId(1)))))
        }
        None => false,
    }
}

/// Runs it with so many cells by so many workers. Tells whether the root's record is as it should be.
fn runs_small<P: Pool, R: Wait + Threads + Abort + Sync>(
    rt: &R,
    alloc: Global,
    cells: u32,
    workers: u32,
) -> Result<bool, RunFault>
    requires cells { (0 < cells) × (cells ≤ 2) }
    requires workers { (0 < workers) × (workers ≤ 64) }
{
    let lists = lists_of(rt, alloc, SMALL);
    let root = root_of(rt, &lists);
    let gate = OpenGate;
    match run_all::<TableBody<'_>, P, OpenGate, R>(rt, alloc, root, cells, workers, &gate, false) {
        Ok(rest) => Ok(tells(&rest)),
        Err(fault) => Err(fault),
    }
}

/// Whether it runs well by so many workers.
fn runs_well<P: Pool, R: Wait + Threads + Abort + Sync>(rt: &R, alloc: Global, workers: u32) -> bool
    requires workers { (0 < workers) × (workers ≤ 64) }
{
    matches!(runs_small::<P, R>(rt, alloc, 2, workers), Ok(true))
}

#[test]
fn the_small_body_by_many_workers(rt: HostRuntime) {
    let a = rt.alloc();
    assert!(rt; runs_well::<LockedPool, HostRuntime>(&rt, a, 1));
    assert!(rt; runs_well::<LockedPool, HostRuntime>(&rt, a, 2));
    assert!(rt; runs_well::<LockedPool, HostRuntime>(&rt, a, 8));
    assert!(rt; runs_well::<StealPool, HostRuntime>(&rt, a, 1));
    assert!(rt; runs_well::<StealPool, HostRuntime>(&rt, a, 64));
}

#[test]
fn one_cell_is_too_few(rt: HostRuntime) {
    let one = runs_small::<LockedPool, HostRuntime>(&rt, rt.alloc(), 1, 1);
    assert!(rt; matches!(one, Err(RunFault::Full)));
    let eight = runs_small::<StealPool, HostRuntime>(&rt, rt.alloc(), 1, 8);
    assert!(rt; matches!(eight, Err(RunFault::Full)));
}
