//! Channels over workers: a sender that ends early.
ghost use Rattle.std.specs.Prelude.{◌≡◌, ◌<◌, ◌≤◌, length, IfOk, IsTrue};
ghost use Rattle.tj_chan.specs.ChatTables.{is_chat_table};

use crate::worker_runs::ended_at_rest;
use std::alloc::Global;
use std::sync::Wait;
use std::test::Fail;
use std::thread::Threads;
use tj_base::{Items, Oom};
use tj_chan::{ChanBody, ChatRow, ChatRowList, TableChat};
use tj_mean::{PlanFault, plan};
use tj_modes::Told;
use tj_ports::OpenGate;
use tj_ready::LockedPool;
use tj_report::report_text;
use tj_run::{RunFault, run_all};

const SENT_EARLY: &str = "0 prints 5\n0 failed broken 0.2\n0.3 done 0\n0.3 owes 0.2\nmarked\n";

/// The lists of a root that receives two items of a child that sends one.
fn early_sender(alloc: Global) -> Result<[ChatRowList; 2], Oom>
    ensures { IfOk result (λ lists. IsTrue (is_chat_table lists) × (0 < length lists)) }
{
    let pass = Items::of(Vec::from_array(alloc, [0])?);
    let give = Items::of(Vec::from_array(alloc, [0])?);
    let root = [
        ChatRow::Open(2),
        ChatRow::Spawn {
            list: 1,
            pass,
            give,
        },
        ChatRow::Recv { c: 0 },
        ChatRow::Emit(5),
        ChatRow::Recv { c: 0 },
    ];
    let root = Vec::from_array(alloc, root)?;
    let child = Vec::from_array(alloc, [ChatRow::Send { c: 0, v: 5 }])?;
    Ok([Items::of(root), Items::of(child)])
}

/// The report of the early sender's root by `plan`.
fn planned(alloc: Global) -> Result<Vec<u8>, Fail> {
    let lists = early_sender(alloc)?;
    let root = ChanBody::new(alloc, TableChat::new(&lists, 0))?;
    match plan(alloc, &root, 4, false) {
        Ok(outcome) => Ok(report_text(alloc, &outcome)?),
        Err(PlanFault::Full) => Err(Fail::new("full")),
        Err(PlanFault::Oom) => Err(Fail::from(Oom)),
    }
}

/// The same by so many workers.
fn worked<R: Wait + Threads + Sync>(rt: &R, alloc: Global, workers: u32) -> Result<Vec<u8>, Fail>
    requires { (0 < workers) × (workers ≤ 64) }
{
    let lists = early_sender(alloc)?;
    let root = ChanBody::new(alloc, TableChat::new(&lists, 0))?;
    match run_all::<ChanBody<TableChat<'_>>, LockedPool, OpenGate, R>(
        rt, alloc, root, 4, workers, &OpenGate, false,
    ) {
        Ok(rest) => Ok(ended_at_rest(alloc, rest, Told::Report)?.output.text),
        Err(RunFault::Full) => Err(Fail::new("full")),
        Err(RunFault::Oom) => Err(Fail::from(Oom)),
    }
}

/// Whether it is the same by so many workers.
fn is_sent_early<R: Wait + Threads + Sync>(
    rt: &R,
    alloc: Global,
    workers: u32,
) -> Result<bool, Fail>
    requires { (0 < workers) × (workers ≤ 64) }
{
    let text = worked(rt, alloc, workers)?;
    Ok(text.as_slice() == SENT_EARLY.as_bytes())
}

#[test]
fn a_sender_ends_early(rt: HostRuntime) -> Result<(), Fail> {
    let a = rt.alloc();
    assert_eq!(rt; planned(a)?.as_slice(), SENT_EARLY.as_bytes());
    for workers in [1, 2, 8] {
        assert!(rt; is_sent_early(&rt, a, workers)?, "{workers}");
    }
    Ok(())
}
