//! Tasks that are given as rows: the root makes a promise and hands it to a child, which sets it.
//! Each prints a number.
use crate::told::report_of;
use std::alloc::Global;
use std::sync::Wait;
use std::thread::Threads;
use tj_base::{Items, Pay, PlaceList};
use tj_body::{Row, RowList, TableBody};

/// A list of one place.
fn one_place(alloc: Global, place: u32) -> Option<PlaceList> {
    Some(Items::of(Vec::from_array(alloc, [place]).ok()?))
}

/// The rows of the root, and those of its child.
fn lists(alloc: Global) -> Option<[RowList; 2]> {
    let root = [
        Row::New,
        Row::Fork {
            list: 1,
            pass: one_place(alloc, 1)?,
            hand: one_place(alloc, 1)?,
        },
        Row::Get { p: 1 },
        Row::Emit(2),
    ];
    let child = [
        Row::Emit(1),
        Row::Set {
            p: 1,
            v: Pay::Num(20),
        },
    ];
    Some([
        Items::of(Vec::from_array(alloc, root).ok()?),
        Items::of(Vec::from_array(alloc, child).ok()?),
    ])
}

/// The report of these tasks.
pub(crate) fn handed_to_a_child<R: Wait + Threads + Sync + AllocGlobal>(rt: &R) -> Option<Vec<u8>> {
    let lists = lists(rt.alloc())?;
    report_of(rt, TableBody::checked(&lists, 0)?)
}
