//! Outcomes of small programs over channels, by hand.
use crate::shown::reads;
use crate::tables::Chats::{Emit, Fail, Open, Recv, Send, Spawn};
use crate::tables::{Chats, chat_lists};
use std::alloc::Global;
use std::process::Abort;
use tj_base::Trouble;
use tj_chan::{ChanBody, TableChat, is_chat_table};
use tj_mean::plan;
use tj_report::report_text;

/// What a row shows, the lists of a program, and what is told of the root with the first of them.
type Row = (&'static str, &'static [&'static [Chats]], &'static str);

const ROWS: &[Row] = &[
    (
        "a sender ends early",
        &[
            &[Open(2), Spawn(1, &[0], &[0]), Recv(0), Emit(5), Recv(0)],
            &[Send(0, 5)],
        ],
        "0 prints 5\n0 failed broken 0.2\n0.3 done 0\n0.3 owes 0.2\nmarked\n",
    ),
    (
        "two receivers get the same items",
        &[
            &[Open(2), Spawn(1, &[0], &[]), Send(0, 7), Send(0, 8)],
            &[Recv(0), Recv(0)],
        ],
        "0 done 0\n0.3 done 0\nclean\n",
    ),
    (
        "receivers that wait for each other are a cycle",
        &[
            &[
                Open(1),
                Open(1),
                Spawn(1, &[0, 1], &[1]),
                Recv(1),
                Send(0, 1),
            ],
            &[Recv(0), Send(1, 1)],
        ],
        "0 waits for 0.2\n0.3 waits for 0.1\nalarm 0 waits for 0.2, 0.3 waits for 0.1\n\
            marked\n",
    ),
    (
        "one channel at two places is one",
        &[
            &[Open(2), Spawn(1, &[0, 0], &[0]), Recv(0), Recv(0)],
            &[Send(1, 7), Send(0, 8), Recv(0), Recv(1)],
        ],
        "0 done 0\n0.3 done 0\nclean\n",
    ),
    (
        "a sender that fails cuts its channel",
        &[
            &[Open(1), Spawn(1, &[0], &[0]), Recv(0)],
            &[Fail(Trouble::Arith)],
        ],
        "0 failed broken 0.1\n0.2 failed arith\n0.2 owes 0.1\nmarked\n",
    ),
    (
        "a child opens a channel behind a passed one",
        &[
            &[Open(1), Spawn(1, &[0], &[0]), Recv(0)],
            &[Open(1), Recv(1)],
        ],
        "0 waits for 0.1\n0.2 waits for 0.2.1\nalarm 0.2 waits for 0.2.1\nmarked\n",
    ),
    (
        "a receive after all items fails for kind",
        &[
            &[Open(1), Spawn(1, &[0], &[0]), Recv(0), Recv(0)],
            &[Send(0, 5)],
        ],
        "0 failed kind\n0.2 done 0\nmarked\n",
    ),
    (
        "one end by two places is given once",
        &[
            &[Open(1), Spawn(1, &[0, 0], &[0])],
            &[Spawn(2, &[0, 1], &[0, 1])],
            &[],
        ],
        "0 done 0\n0.2 failed kind\n0.2 owes 0.1\nmarked\n",
    ),
    (
        "a send without the end",
        &[&[Open(1), Spawn(1, &[0], &[0]), Send(0, 5)], &[]],
        "0 failed kind\n0.2 done 0\n0.2 owes 0.1\nmarked\n",
    ),
    (
        "a send after all items",
        &[&[Open(1), Send(0, 5), Send(0, 6)]],
        "0 failed kind\nmarked\n",
    ),
    (
        "a receive after all items",
        &[&[Open(1), Send(0, 5), Recv(0), Recv(0)]],
        "0 failed kind\nmarked\n",
    ),
    (
        "a receive from no channel",
        &[&[Recv(0)]],
        "0 failed kind\nmarked\n",
    ),
    (
        "a send by no channel",
        &[&[Send(0, 5)]],
        "0 failed kind\nmarked\n",
    ),
    (
        "a passed place that isn't there",
        &[&[Spawn(1, &[0], &[])], &[]],
        "0 failed kind\nmarked\n",
    ),
    (
        "a given channel that isn't passed",
        &[&[Open(1), Spawn(1, &[], &[0])], &[]],
        "0 failed kind\n0 owes 0.1\nmarked\n",
    ),
    (
        "a given place that isn't there",
        &[&[Open(1), Spawn(1, &[0, 1], &[1])], &[]],
        "0 failed kind\n0 owes 0.1\nmarked\n",
    ),
    (
        "an end without unsent items given twice",
        &[
            &[
                Open(1),
                Send(0, 5),
                Spawn(1, &[0], &[0]),
                Spawn(1, &[0], &[0]),
            ],
            &[],
        ],
        "0 failed kind\n0.2 done 0\nmarked\n",
    ),
    (
        "an end given twice",
        &[&[Open(1), Spawn(1, &[0], &[0, 0])], &[]],
        "0 failed kind\n0 owes 0.1\nmarked\n",
    ),
    (
        "an end given that isn't held",
        &[&[Open(1), Spawn(1, &[0], &[0]), Spawn(1, &[0], &[0])], &[]],
        "0 failed kind\n0.2 done 0\n0.2 owes 0.1\nmarked\n",
    ),
    (
        "an open, a fault, and the unsent items",
        &[&[Open(2), Fail(Trouble::Arith)]],
        "0 failed arith\n0 owes 0.1, 0.2\nmarked\n",
    ),
];

/// Asserts that the program ends as its row says.
fn ends_as_told(rt: &impl Abort, alloc: Global, shows: &str, written: &[&[Chats]], told: &str) {
    let lists = chat_lists(rt, alloc, written);
    if lists.is_empty() || !is_chat_table(&lists) {
        panic!(rt; "no table");
    }
    let Ok(body) = ChanBody::new(alloc, TableChat::new(&lists, 0)) else {
        panic!(rt; "no memory");
    };
    let Ok(outcome) = plan(alloc, &body, 16, false) else {
        panic!(rt; "no outcome");
    };
    let Ok(text) = report_text(alloc, &outcome) else {
        panic!(rt; "no memory");
    };
    reads(rt, shows, text.as_slice(), told.as_bytes());
}

#[test]
fn programs_end_as_told(rt: HostRuntime) {
    for (shows, lists, told) in ROWS {
        ends_as_told(&rt, rt.alloc(), shows, lists, told);
    }
}
