//! What tasks that wait come to, in runs by one worker: an alarm on an own promise, an alarm along the order
//! beside a task that is parked, a join that is woken, a task that is woken, and a promise that is broken.
use crate::written::{Says, TO_A_READER, lists_of, root_of};
use std::alloc::Global;
use std::process::Abort;
use std::sync::Wait;
use std::thread::Threads;
use tj_base::CellId;
use tj_body::{Body, TableBody};
use tj_ports::OpenGate;
use tj_ready::LockedPool;
use tj_run::{RunFault, run_all};
use tj_words::{Phase, RestWords, Walk, Way};

// TAG of a cell of which nothing has become, that has a number, and that is broken.
const EMPTY: u64 = 0;

const NUMBER: u64 = 1;

const BROKEN: u64 = 4;

/// What each run shows, the lists of its table, so many cells, and PHASE and TAG of each cell at rest.
const ROWS: &[(&str, &[&[Says]], u32, &[(Phase, u64)])] = &[
    (
        "the root waits for its own promise, alarms and is shelved",
        &[&[Says::New, Says::Get(1)]],
        2,
        &[
            (Phase::Waiting(CellId(1), Way::Other, Walk::Alarmed), EMPTY),
            (Phase::Promise, EMPTY),
        ],
    ),
    // The child waits for a promise of the root, so OTHERS isn't 0 as the root joins the child.
    (
        "a wait along the order is walked, and closes the cycle of the two",
        &[
            &[
                Says::New,
                Says::New,
                Says::Fork(1, &[1, 2], &[2]),
                Says::Get(2),
                Says::Join(3),
            ],
            &[Says::Set(2, 5), Says::Get(1)],
        ],
        4,
        &[
            (Phase::Waiting(CellId(3), Way::Along, Walk::Alarmed), EMPTY),
            (Phase::Promise, EMPTY),
            (Phase::Promise, NUMBER),
            (Phase::Waiting(CellId(1), Way::Other, Walk::Parked), EMPTY),
        ],
    ),
    (
        "the root joins its child, is parked, and goes on as the child ends",
        &[&[Says::Fork(1, &[], &[]), Says::Join(1)], &[Says::Emit(8)]],
        2,
        &[(Phase::Ended, NUMBER), (Phase::Ended, NUMBER)],
    ),
    (
        "a task is parked on a promise, woken as another sets it, and given by the pool again",
        &[TO_A_READER, &[Says::Get(1)], &[Says::Set(1, 5)]],
        4,
        &[
            (Phase::Ended, NUMBER),
            (Phase::Promise, NUMBER),
            (Phase::Ended, NUMBER),
            (Phase::Ended, NUMBER),
        ],
    ),
    (
        "a task ends that owes a promise, and who waits for it is woken and fails",
        &[TO_A_READER, &[Says::Get(1)], &[Says::Emit(8)]],
        4,
        &[
            (Phase::Ended, NUMBER),
            (Phase::Promise, BROKEN),
            (Phase::Ended, BROKEN),
            (Phase::Ended, NUMBER),
        ],
    ),
];

/// Whether these are PHASE and TAG of the cells that were drawn.
fn has_cells<B: Body>(rest: &RestWords<B>, wanted: &[(Phase, u64)]) -> bool {
    if rest.drawn() as usize != wanted.len() {
        return false;
    }
    for c in 0..rest.drawn() {
        let cell = rest.cell(CellId(c));
        let (phase, tag) = wanted[c as usize];
        if cell.phase.word() != phase.word() || cell.tag != tag {
            return false;
        }
    }
    true
}

/// Whether a run of the table's program by one worker rests so.
fn rests<R: Wait + Threads + Abort + Sync>(
    rt: &R,
    alloc: Global,
    written: &[&[Says]],
    cells: u32,
    wanted: &[(Phase, u64)],
) -> Result<bool, RunFault> {
    if cells == 0 || cells > 16 {
        panic!(rt; "another number of cells");
    }
    let lists = lists_of(rt, alloc, written);
    let root = root_of(rt, &lists);
    match run_all::<TableBody<'_>, LockedPool, OpenGate, R>(
        rt, alloc, root, cells, 1, &OpenGate, false,
    ) {
        Ok(rest) => Ok(has_cells(&rest, wanted)),
        Err(fault) => Err(fault),
    }
}

#[test]
fn tasks_that_wait(rt: HostRuntime) {
    for (shows, lists, cells, wanted) in ROWS {
        let rested = rests(&rt, rt.alloc(), lists, *cells, wanted);
        assert!(rt; matches!(rested, Ok(true)), "{shows}");
    }
}
