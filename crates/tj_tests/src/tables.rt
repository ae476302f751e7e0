//! Lists of rows as tests write them, and the tables that bodies take.
use std::alloc::Global;
use std::process::Abort;
use tj_base::{Items, Pay, PlaceList, Trouble};
use tj_body::{Row, RowList};
use tj_chan::{ChatRow, ChatRowList};

/// A row of a task.
#[derive(Clone, Copy)]
pub(crate) enum Says {
    New,
    /// The list of the child, the places that are passed, and those that are handed.
    Fork(u32, &'static [u32], &'static [u32]),
    Set(u32, Pay),
    Get(u32),
    Join(u32),
    GetOr(u32),
    JoinOr(u32),
    Emit(i64),
    End(Pay),
    Fail(Trouble),
}

/// A row of a task with channels.
#[derive(Clone, Copy)]
pub(crate) enum Chats {
    Open(u32),
    /// The list of the child, the channels that are passed, and those whose ends are given.
    Spawn(u32, &'static [u32], &'static [u32]),
    Send(u32, i64),
    Recv(u32),
    Emit(i64),
    Fail(Trouble),
}

fn places(rt: &impl Abort, alloc: Global, list: &[u32]) -> PlaceList {
    let Ok(places) = Vec::from_slice(alloc, list) else {
        panic!(rt; "no memory");
    };
    Items::of(places)
}

fn row(rt: &impl Abort, alloc: Global, says: Says) -> Row {
    match says {
        Says::New => Row::New,
        Says::Fork(list, pass, hand) => Row::Fork {
            list,
            pass: places(rt, alloc, pass),
            hand: places(rt, alloc, hand),
        },
        Says::Set(p, v) => Row::Set { p, v },
        Says::Get(p) => Row::Get { p },
        Says::Join(t) => Row::Join { t },
        Says::GetOr(p) => Row::GetOr { p },
        Says::JoinOr(t) => Row::JoinOr { t },
        Says::Emit(i) => Row::Emit(i),
        Says::End(v) => Row::End(v),
        Says::Fail(trouble) => Row::Fail(trouble),
    }
}

/// The lists of these rows.
pub(crate) fn lists(rt: &impl Abort, alloc: Global, written: &[&[Says]]) -> Vec<RowList> {
    let mut lists = Vec::new(alloc);
    for list in written {
        let mut rows = Vec::new(alloc);
        for says in *list {
            if rows.push(row(rt, alloc, *says)).is_err() {
                panic!(rt; "no memory");
            }
        }
        if lists.push(Items::of(rows)).is_err() {
            panic!(rt; "no memory");
        }
    }
    lists
}

fn chat_row(rt: &impl Abort, alloc: Global, says: Chats) -> ChatRow {
    match says {
        Chats::Open(items) => ChatRow::Open(items),
        Chats::Spawn(list, pass, give) => ChatRow::Spawn {
            list,
            pass: places(rt, alloc, pass),
            give: places(rt, alloc, give),
        },
        Chats::Send(c, v) => ChatRow::Send { c, v },
        Chats::Recv(c) => ChatRow::Recv { c },
        Chats::Emit(i) => ChatRow::Emit(i),
        Chats::Fail(trouble) => ChatRow::Fail(trouble),
    }
}

/// The lists of these rows.
pub(crate) fn chat_lists(rt: &impl Abort, alloc: Global, written: &[&[Chats]]) -> Vec<ChatRowList> {
    let mut lists = Vec::new(alloc);
    for list in written {
        let mut rows = Vec::new(alloc);
        for says in *list {
            if rows.push(chat_row(rt, alloc, *says)).is_err() {
                panic!(rt; "no memory");
            }
        }
        if lists.push(Items::of(rows)).is_err() {
            panic!(rt; "no memory");
        }
    }
    lists
}
