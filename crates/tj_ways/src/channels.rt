//! Tasks that speak by channels, given as rows: the root sends two items, and two children
//! receive them.
use crate::told::report_of;
use std::alloc::Global;
use std::sync::Wait;
use std::thread::Threads;
use tj_base::{Items, PlaceList};
use tj_chan::{ChanBody, ChatRow, ChatRowList, TableChat};

/// A row that spawns a task by the list with number 1, which is passed the first channel.
fn spawn(alloc: Global) -> Option<ChatRow> {
    let pass: PlaceList = Items::of(Vec::from_array(alloc, [0]).ok()?);
    Some(ChatRow::Spawn {
        list: 1,
        pass,
        give: Items::of(Vec::new(alloc)),
    })
}

/// The rows of the root, and those of each receiver.
fn lists(alloc: Global) -> Option<[ChatRowList; 2]> {
    let root = [
        ChatRow::Open(2),
        spawn(alloc)?,
        spawn(alloc)?,
        ChatRow::Send { c: 0, v: 7 },
        ChatRow::Send { c: 0, v: 8 },
    ];
    let receiver = [
        ChatRow::Recv { c: 0 },
        ChatRow::Recv { c: 0 },
        ChatRow::Emit(1),
    ];
    Some([
        Items::of(Vec::from_array(alloc, root).ok()?),
        Items::of(Vec::from_array(alloc, receiver).ok()?),
    ])
}

/// The report of these tasks.
pub(crate) fn two_receivers<R: Wait + Threads + Sync + AllocGlobal>(rt: &R) -> Option<Vec<u8>> {
    let lists = lists(rt.alloc())?;
    let root = ChanBody::new(rt.alloc(), TableChat::checked(&lists, 0)?).ok()?;
    report_of(rt, root)
}
