//! A fresh table of two cells: its first seat makes a promise and fills it, and a future of a second seat
//! gives it.
use crate::written::{Says, lists_of, table_of};
use futures::executor::block_on;
use tj_base::CellId;
use tj_cells::fill;
use tj_future::{CellWait, Watched, look_at};
use tj_ready::LockedPool;
use tj_words::Fill;

/// The root makes a promise and sets it.
const SET: &[&[Says]] = &[&[Says::New, Says::Set(1, 5)]];

#[test]
fn a_future_gives_a_promise_that_another_seat_fills(rt: HostRuntime) {
    let lists = lists_of(&rt, rt.alloc(), SET);
    let (rig, mut seat, _pool) = table_of::<LockedPool, HostRuntime>(&rt, &lists, 2);
    let None = look_at(&rig.laid, &mut seat, CellId(0)) else {
        panic!(rt; "nothing has become of the root");
    };
    let (mut first, second) = rig.laid.split(seat);
    let root = rig.begin(&mut first, CellId(0));
    assert!(rt; root.made() == 0, "it has made nothing yet");
    let rec = rig.to_promise(&mut first, root);
    let told = rig.to_set(&first, rec);
    let (mine, promise, given) = told;
    assert!(rt; promise == CellId(1), "the next cell");
    fill(&rig.laid, &mut first, mine.cell(), promise, given);
    let waited = block_on(&rt, CellWait::new(&rig.laid, second, CellId(1)));
    assert!(rt;
        matches!(waited, Ok((Watched::Value(Fill::Num(5)), _))),
        "the promise"
    );
}
