//! Each answer of a look, of a watch and of a poll, on small tables.
ghost use Rattle.std.specs.Prelude.{◌≡◌, ◌<◌, ◌≤◌, [], length, IfOk, IsTrue};
ghost use Rattle.tj_base.specs.declared.cell.TheConstants.{MAX_CELLS};
ghost use Rattle.tj_body.specs.Programs.{program_of};
ghost use Rattle.tj_body.specs.Table.{is_table, table_asks, table_awaits, table_left, table_places, table_then};
ghost use Rattle.tj_words.specs.Law.{IsRooted};
ghost use Rattle.tj_words.specs.SeatViews.SeatSteps.{IsSeatOf};
ghost use Rattle.tj_words.specs.SeatViews.Views.{IsIdle};
ghost use Rattle.tj_run.specs.Workers.{IsFree, table_program};

use crate::written::{self, Says, TO_A_READER, lists_of};
use futures::Future;
use futures::task::{Doorbell, Poll, Solo};
use futures::test::MockTask;
use std::alloc::Global;
use std::process::Abort;
use std::sync::Wait;
use std::test::Fail;
use tj_base::{CellId, Items, Oom, Pay};
use tj_body::{Row, RowList, TableBody, is_table};
use tj_future::{CellWait, Watched, look_at, watch};
use tj_ports::OpenGate;
use tj_ready::{LockedPool, Pool};
use tj_run::{Why, worker};
use tj_words::{Fill, Laid, WSeat};

/// The lists of a table of so many cells, and what a look at a cell is answered once a worker has left that
/// ran it, and a watch then.
const LOOKS: &[(&str, &[&[Says]], u32, CellId, Watched)] = &[
    (
        "a promise that was set has its value",
        &[&[Says::New, Says::Set(1, 5), Says::End(7)]],
        2,
        CellId(1),
        Watched::Value(Fill::Num(5)),
    ),
    (
        "a root that has ended has its value",
        &[&[Says::New, Says::Set(1, 5), Says::End(7)]],
        2,
        CellId(0),
        Watched::Value(Fill::Num(7)),
    ),
    (
        "a promise that is owed is broken",
        &[&[Says::New, Says::End(7)]],
        2,
        CellId(1),
        Watched::Broken,
    ),
    (
        "a promise that its owner waits for stays empty",
        &[&[Says::New, Says::Get(1)]],
        2,
        CellId(1),
        Watched::Rested,
    ),
    (
        "a run that needs more cells is stopped",
        &[&[Says::New, Says::New]],
        2,
        CellId(0),
        Watched::Stopped(Why::Full),
    ),
    (
        "a promise that a child sets, for which another child waits, has its value",
        READ,
        4,
        CellId(1),
        Watched::Value(Fill::Num(5)),
    ),
    (
        "a child that has waited has its value",
        READ,
        4,
        CellId(2),
        Watched::Value(Fill::Num(0)),
    ),
    (
        "a child that waits for a promise that is owed is broken",
        &[TO_A_READER, &[Says::Get(1)], &[Says::End(7)]],
        4,
        CellId(2),
        Watched::Broken,
    ),
];

/// The root forks a child that gets its promise, and one that sets it.
const READ: &[&[Says]] = &[TO_A_READER, &[Says::Get(1)], &[Says::Set(1, 5)]];

/// The table of one task, which makes a promise, sets it to 5, and ends with 7.
fn one_promise(alloc: Global) -> Result<[RowList; 1], Oom>
    ensures { IfOk result (λ lists. IsTrue (is_table lists) × (0 < length lists)) }
{
    let set = Row::Set {
        p: 1,
        v: Pay::Num(5),
    };
    let rows = vec![in alloc; Row::New, set, Row::End(Pay::Num(7))]?;
    Ok([Items::of(rows)])
}

/// The one end of a pool for a table of so many cells, with the root in it.
fn one_end<P: Pool, R: Wait + Abort>(rt: &R, alloc: Global, cells: u32) -> P
    requires cells { (0 < cells) × (cells ≤ MAX_CELLS) }
    ensures limit { P.limit result ≡ cells }
{
    let mut end = written::one_end::<P, R>(rt, alloc, cells);
    let Ok(()) = end.put(rt, alloc, CellId(0)) else {
        panic!(rt; "no memory");
    };
    end
}

/// A table of so many cells for the program, a seat for a worker, and one to wait with.
fn table_of<'s, R: Abort>(
    rt: &R,
    alloc: Global,
    lists: &'s [RowList],
    cells: u32,
) -> (
    Laid<TableBody<'s>>,
    WSeat<TableBody<'s>>,
    WSeat<TableBody<'s>>,
)
    requires lists { IsTrue (is_table lists.now) × (0 < length lists.now) }
    requires cells { (0 < cells) × (cells ≤ MAX_CELLS) }
    ensures cells { result.0.cells ≡ cells }
    ensures table { IsSeatOf result.0 result.1 }
    ensures free { IsFree result.0 result.1.me }
    ensures rooted { IsRooted (table_program
        (program_of table_places table_awaits table_left table_asks table_then) result.0) }
    ensures other_table { IsSeatOf result.0 result.2 }
    ensures idle { IsIdle result.2.me.0 }
    ensures slots { result.2.me.1 ≡ [] }
{
    let Ok((laid, seat)) = Laid::new(alloc, cells, TableBody::new(lists, 0), false) else {
        panic!(rt; "no memory");
    };
    let (first, second) = laid.split(seat);
    (laid, first, second)
}

/// What a look at a cell is answered once a worker has left that ran the table's program, and a watch then.
fn looked_in<R: Abort + Wait>(
    rt: &R,
    alloc: Global,
    lists: &[RowList],
    cells: u32,
    p: CellId,
) -> (Option<Watched>, Watched) {
    if lists.is_empty() || !is_table(lists) {
        panic!(rt; "no table");
    }
    if p.0 >= cells || cells > 16 {
        panic!(rt; "no cell");
    }
    let end = one_end::<LockedPool, R>(rt, alloc, cells);
    let (laid, first, mut second) = table_of(rt, alloc, lists, cells);
    let (_first, _left) = worker(rt, alloc, &laid, first, end, &OpenGate, 1);
    let looked = look_at(&laid, &mut second, p);
    let (watched, _second) = watch(rt, &laid, second, p);
    (looked, watched)
}

#[test]
fn looks_after_a_worker_has_left(rt: HostRuntime) {
    for (shows, written, cells, p, wanted) in LOOKS {
        let lists = lists_of(&rt, rt.alloc(), written);
        let (looked, watched) = looked_in(&rt, rt.alloc(), &lists, *cells, *p);
        assert!(rt; looked == Some(*wanted) && watched == *wanted, "{shows}");
    }
}

#[test]
fn a_run_that_lacks_memory_is_stopped(rt: HostRuntime) -> Result<(), Fail> {
    let lists = one_promise(rt.alloc())?;
    let (laid, _first, mut second) = table_of(&rt, rt.alloc(), &lists, 2);
    laid.stop(&mut second, 2);
    let seen = look_at(&laid, &mut second, CellId(0));
    assert!(rt; seen == Some(Watched::Stopped(Why::Memory)), "the root");
    Ok(())
}

#[test]
fn a_poll_is_pending_first_and_then_ready(rt: HostRuntime) -> Result<(), Fail> {
    let a = rt.alloc();
    let lists = one_promise(a)?;
    let task = MockTask::new(&rt)?;
    let end = one_end::<LockedPool, HostRuntime>(&rt, a, 2);
    let (laid, first, second) = table_of(&rt, a, &lists, 2);
    let mut wait = CellWait::new(&laid, second, CellId(1));
    let Poll::Pending = task.poll(&mut wait) else {
        panic!(rt; "no worker has begun");
    };
    assert!(rt; task.is_woken(), "the poll has yielded");
    let (_first, _left) = worker(&rt, a, &laid, first, end, &OpenGate, 1);
    let Poll::Ready((told, _seat)) = task.poll(&mut wait) else {
        panic!(rt; "the worker has left");
    };
    assert!(rt; told == Watched::Value(Fill::Num(5)), "the promise");
    Ok(())
}

#[test]
fn a_wait_gives_its_seat_back_before_it_is_ready(rt: HostRuntime) -> Result<(), Fail> {
    let a = rt.alloc();
    let lists = one_promise(a)?;
    let solo = Solo::new(&rt, Doorbell::spinning())?;
    let (laid, _first, second) = table_of(&rt, a, &lists, 2);
    let mut cx = solo.begin();
    let mut wait = CellWait::new(&laid, second, CellId(1));
    let Poll::Pending = wait.poll(&mut cx) else {
        cx.cancel();
        panic!(rt; "no worker has begun");
    };
    cx.park();
    let mut second = wait.into_seat();
    let seen = look_at(&laid, &mut second, CellId(1));
    assert!(rt; seen.is_none(), "it looks again");
    Ok(())
}
