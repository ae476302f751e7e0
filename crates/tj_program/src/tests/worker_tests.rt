//! What tests alone show of the workers: that two of them enter the gate beside each other, that a
//! third and a fourth one start where tasks wait for one, and which closed words a run has.
use super::row_tests::{FIB_OF_3, FIB_OF_3_REPORT, JOIN_EACH_OTHER, answered, words_of, written};
use std::process::Abort;
use std::sync::Wait;
use std::sync::atomic::{AtomicBool, AtomicU32, Ordering};
use std::test::Fail;
use std::thread::Threads;
use tj_base::CellId;
use tj_command::Status;
use tj_ports::{Gate, OpenGate};
use tj_words::{Closed, Phase, Walk};

// How often a worker looks for the other one before it gives up.
const LOOKS: u32 = 1_000_000_000;

/// A gate that holds one of two workers in its first turn until the other one has entered.
#[derive(Drop)]
struct MeetingGate {
    held: u32,
    held_entered: AtomicBool,
    other_entered: AtomicBool,
    gave_up: AtomicBool,
}

impl MeetingGate {
    fn holding(worker: u32) -> MeetingGate {
        MeetingGate {
            held: worker,
            held_entered: AtomicBool::new(false),
            other_entered: AtomicBool::new(false),
            gave_up: AtomicBool::new(false),
        }
    }
}

impl Gate for MeetingGate {
    fn enter(&self, worker: u32, turn: u64) {
        if worker != self.held {
            self.other_entered.store(true, Ordering::SeqCst);
        } else if turn == 1 {
            self.held_entered.store(true, Ordering::SeqCst);
            for _look in 0..LOOKS {
                if self.other_entered.load(Ordering::SeqCst) {
                    return;
                }
            }
            self.gave_up.store(true, Ordering::SeqCst);
        }
    }
}

/// Whether two workers of which this one is held write the report, and the gate saw both of them.
fn meet(rt: &(impl AllocGlobal + Wait + Threads + Sync), worker: u32) -> Result<bool, Fail> {
    let gate = MeetingGate::holding(worker);
    let found = written(rt, "run --workers 2", FIB_OF_3, &gate)?;
    Ok(
        found.status == Status::Clean
            && found.text.as_slice() == FIB_OF_3_REPORT.as_bytes()
            && gate.held_entered.load(Ordering::SeqCst)
            && gate.other_entered.load(Ordering::SeqCst)
            && !gate.gave_up.load(Ordering::SeqCst),
    )
}

#[test]
fn two_workers_enter_beside_each_other(rt: HostRuntime) -> Result<(), Fail> {
    for worker in 1..=2 {
        assert!(rt; meet(&rt, worker)?, "{worker}");
    }
    Ok(())
}

/// A root that forks eight tasks and ends.
const EIGHT: &str = "task main() { let i = 0; while i < 8 { fork one(); i = i + 1; } return i; } \
    task one() { return 1; }";

/// A gate that holds each worker before its second turn until so many have entered for their first.
#[derive(Drop)]
struct CrowdGate {
    workers: u32,
    entered: AtomicU32,
    gave_up: AtomicBool,
}

impl Gate for CrowdGate {
    fn enter(&self, _worker: u32, turn: u64) {
        if turn == 1 {
            self.entered.fetch_add(1, Ordering::SeqCst);
            return;
        }
        for _look in 0..LOOKS {
            if self.entered.load(Ordering::SeqCst) >= self.workers {
                return;
            }
        }
        self.gave_up.store(true, Ordering::SeqCst);
    }
}

#[test]
fn four_workers_enter_beside_each_other(rt: HostRuntime) -> Result<(), Fail> {
    let gate = CrowdGate {
        workers: 4,
        entered: AtomicU32::new(0),
        gave_up: AtomicBool::new(false),
    };
    let meant = written(&rt, "plan", EIGHT, &OpenGate)?;
    let found = written(&rt, "run --workers 4", EIGHT, &gate)?;
    assert!(rt; found.status == meant.status);
    assert!(rt; found.text.as_slice() == meant.text.as_slice());
    assert!(rt; !gate.gave_up.load(Ordering::SeqCst));
    Ok(())
}

/// Whether a task has alarmed.
fn has_alarm(closed: &Closed) -> bool {
    for c in 0..closed.drawn() {
        if let Phase::Waiting(_, _, Walk::Alarmed) = closed.cell(CellId(c)).phase {
            return true;
        }
    }
    false
}

/// How many cells the closed words have that a command line answers for a cycle of two, and whether
/// a task of theirs has alarmed.
fn closed_words(
    rt: &(impl AllocGlobal + Wait + Threads + Sync),
    line: &str,
) -> Result<Option<(u32, bool)>, Fail> {
    let words = words_of(rt.alloc(), line)?;
    let mut text = Vec::new(rt.alloc());
    match answered(rt, words.as_slice(), JOIN_EACH_OTHER, &mut text, &OpenGate) {
        (_status, Some(closed)) => Ok(Some((closed.drawn(), has_alarm(&closed)))),
        (_status, None) => Ok(None),
    }
}

/// Command lines, and what is asked of their closed words.
const LINES: &[(&str, Option<(u32, bool)>)] = &[
    ("run --workers 1", Some((2, true))),
    ("run --workers 2", Some((2, true))),
    ("run --workers 8", Some((2, true))),
    ("plan", None),
    ("list", None),
    ("judge", None),
    ("run --cells 1", None),
    ("go", None),
];

#[test]
fn a_cycle_of_two_has_alarmed(rt: HostRuntime) -> Result<(), Fail> {
    for (line, wanted) in LINES {
        assert!(rt; closed_words(&rt, line)? == *wanted, "{line}");
    }
    Ok(())
}
