//! Storms: worked scripts by workers that spin or yield before some of their turns, as a seed draws it, and the same
//! with a body that yields at each ask. Each time what is written is what `plan` writes. More seeds are tried by hand
//! where `SEEDS` is set higher.
ghost use Rattle.std.specs.Prelude.{◌≡◌, ◌<◌, ◌≤◌};

use super::row_tests::{AGAINST_THE_ORDER, FIB_OF_3, JOIN_EACH_OTHER, TWO_WAIT, written};
use super::shy_tests::ShyBody;
use crate::worker_runs::ended_at_rest;
use std::alloc::Global;
use std::hint;
use std::sync::Wait;
use std::test::Fail;
use std::thread::{self, Threads};
use tj_eval::{ScriptBody, main_body};
use tj_modes::Told;
use tj_ports::{Gate, OpenGate};
use tj_ready::NewestFirstPool;
use tj_run::run_all;
use tj_syntax::script_in;

// So many schedules are drawn for each script.
const SEEDS: u64 = 200;

const LOOP_OF_FORKS: &str = "task main() { let a = new; let p = a; let q = 0; let i = 0; while i \
    < 12 { q = new; fork node(i, p, own q); p = q; i = i + 1; } set a = 0; let v = get p; \
    print v; return v; } task node(i, p, q) { let v = get p; set q = v + i; return i; }";

const TAKERS: &str = "task main() { let p = new; let a = fork taker(p); fork giver(own p); let b \
    = fork taker(p); let x = join a; let y = join b; return x + y; } task taker(p) { let v = get \
    p; return v + 1; } task giver(p) { set p = 4; return 0; }";

const CYCLE_WITH_TAILS: &str = "task main() { let a = new; let p = a; let q = 0; let i = 0; while \
    i < 4 { q = new; fork node(p, own q); fork tail(q); p = q; i = i + 1; } fork node(p, own a); \
    return 0; } task node(p, q) { let v = get p; set q = v; return v; } task tail(p) { let k = \
    fork end(p); let v = join k; return v; } task end(p) { let v = get p; return v; }";

const BROKEN: &str = "task main() { let p = new; let k = fork kid(own p); let v = get p or 9; let \
    w = join k or 8; return v + w; } task kid(p) { fork grand(p); return 1 / 0; } task grand(p) \
    { let v = get p; return v; }";

const WORKED: [&str; 8] = [
    FIB_OF_3,
    TWO_WAIT,
    JOIN_EACH_OTHER,
    AGAINST_THE_ORDER,
    LOOP_OF_FORKS,
    TAKERS,
    CYCLE_WITH_TAILS,
    BROKEN,
];

const SHORT: [&str; 4] = [TWO_WAIT, JOIN_EACH_OTHER, TAKERS, BROKEN];

/// A gate at which a worker passes at once, spins or yields, as the seed draws it for this turn.
#[derive(Drop)]
struct DrawnGate {
    seed: u64,
}

/// A number drawn by a seed for a worker's turn.
fn drawn(seed: u64, worker: u32, turn: u64) -> u64 {
    let place = turn.wrapping_mul(64).wrapping_add(u64::from(worker));
    let mut mixed = place.wrapping_mul(0x9E37_79B9_7F4A_7C15).wrapping_add(seed);
    mixed = (mixed ^ (mixed >> 30)).wrapping_mul(0xBF58_476D_1CE4_E5B9);
    mixed = (mixed ^ (mixed >> 27)).wrapping_mul(0x94D0_49BB_1331_11EB);
    mixed ^ (mixed >> 31)
}

impl Gate for DrawnGate {
    fn enter(&self, worker: u32, turn: u64) {
        let number = drawn(self.seed, worker, turn);
        let times = number / 8 % 16;
        match number % 8 {
            0 | 1 | 2 | 3 => {}
            4 | 5 => {
                for _spin in 0..times * 16 {
                    hint::spin_loop();
                }
            }
            _ => {
                for _pass in 0..times {
                    thread::yield_now();
                }
            }
        }
    }
}

/// The report of a script whose tasks yield, over workers at a drawn gate.
fn yielding_report<R: Wait + Threads + Sync>(
    rt: &R,
    alloc: Global,
    text: &str,
    workers: u32,
    seed: u64,
) -> Result<Vec<u8>, Fail>
    requires { (0 < workers) × (workers ≤ 64) }
{
    if text.len() > 1000 {
        return Err(Fail::new("a worked script is short"));
    }
    let Ok(script) = script_in(alloc, text.as_bytes()) else {
        return Err(Fail::new("no script"));
    };
    let root = ShyBody {
        body: main_body(alloc, &script, 100_000)?,
        asks: 0,
    };
    let gate = DrawnGate { seed };
    match run_all::<ShyBody<ScriptBody<'_>>, NewestFirstPool, DrawnGate, R>(
        rt, alloc, root, 4096, workers, &gate, false,
    ) {
        Ok(rest) => Ok(ended_at_rest(alloc, rest, Told::Report)?.output.text),
        Err(_fault) => Err(Fail::new("no rest")),
    }
}

/// The words of a run by 2, 3, 8 or 16 workers.
fn run_line(seed: u64) -> &'static str {
    match seed % 4 {
        0 => "run --workers 2",
        1 => "run --workers 3",
        2 => "run --workers 8",
        _ => "run --workers 16",
    }
}

#[test]
fn workers_at_a_drawn_gate(rt: HostRuntime) -> Result<(), Fail> {
    for input in WORKED {
        let meant = written(&rt, "plan", input, &OpenGate)?;
        for seed in 0..SEEDS {
            let found = written(&rt, run_line(seed), input, &DrawnGate { seed })?;
            assert!(rt; found.status == meant.status, "{seed}");
            assert!(rt; found.text.as_slice() == meant.text.as_slice(), "{seed}");
        }
    }
    Ok(())
}

#[test]
fn tasks_that_yield_at_each_ask(rt: HostRuntime) -> Result<(), Fail> {
    let alloc = rt.alloc();
    for input in SHORT {
        let meant = written(&rt, "plan", input, &OpenGate)?;
        for seed in 0..SEEDS {
            let found = if seed % 2 == 0 {
                yielding_report(&rt, alloc, input, 2, seed)?
            } else {
                yielding_report(&rt, alloc, input, 8, seed)?
            };
            assert!(rt; found.as_slice() == meant.text.as_slice(), "{seed}");
        }
    }
    Ok(())
}
