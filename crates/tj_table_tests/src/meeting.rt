//! Two tasks that see each other run: a run whose tasks run one after another fails here.
ghost use Rattle.tj_table_tests.specs.MeetingAsks.{asks_at, awaits_at, places_at, few_asks, task_ends, root_ends};

use std::alloc::Global;
use std::sync::Wait;
use std::sync::atomic::{AtomicBool, Ordering};
use std::test::Fail;
use std::thread::Threads;
use tj_base::{Items, Oom, Pay};
use tj_body::{Answer, Ask, Body};
use tj_ports::OpenGate;
use tj_ready::{LockedPool, NewestFirstPool, Pool, StealPool};
use tj_run::run_all;

/// How often a task looks for the other one before it gives up.
const LOOKS: u32 = 1_000_000_000;

/// What the two tasks raise, and what a task raises that has looked in vain.
#[derive(Drop)]
struct Flags {
    first: AtomicBool,
    second: AtomicBool,
    gave_up: AtomicBool,
}

impl Flags {
    fn new() -> Flags {
        Flags {
            first: AtomicBool::new(false),
            second: AtomicBool::new(false),
            gave_up: AtomicBool::new(false),
        }
    }

    /// Raises the one flag, and looks for the other.
    fn meet(&self, who: u32) {
        let (mine, other) = if who == 1 {
            (&self.first, &self.second)
        } else {
            (&self.second, &self.first)
        };
        mine.store(true, Ordering::SeqCst);
        for _look in 0..LOOKS {
            if other.load(Ordering::SeqCst) {
                return;
            }
        }
        self.gave_up.store(true, Ordering::SeqCst);
    }
}

/// The root forks two tasks, each of which meets the other as it starts.
#[derive(Drop)]
struct Meeting<'a> {
    flags: &'a Flags,
    /// 0 for the root, and 1 and 2 for the tasks.
    who: u32,
    /// How many asks it has given.
    step: u32,
}

impl<'a> Body for Meeting<'a> {
    ghost use Rattle.std.specs.Prelude.{suc, ◌-◌};
    ghost use Rattle.std.proofs.Common.{refl};
    ghost use Rattle.tj_table_tests.specs.MeetingAsks.{asks_at, awaits_at, obeys_at, places_at};

    ghost places = { λ b. places_at b.step };

    ghost awaits = { λ b. awaits_at b.who b.step };

    ghost left = { λ b. 3 - b.step };

    ghost asks = { λ b a. asks_at (λ n. record b { who = n; step = 0 }) b.who b.step };

    ghost then = { λ b a. record b { step = suc b.step } };

    fn next(&mut self, alloc: Global, _a: Answer) -> Result<Ask<Self>, Oom> {
        let who = self.who;
        let step = self.step;
        self.step = step + 1;
        if who != 0 {
            self.flags.meet(who);
            return Ok(Ask::End(Pay::Num(0)));
        }
        if step > 1 {
            return Ok(Ask::End(Pay::Num(0)));
        }
        let body = Meeting {
            flags: self.flags,
            who: step + 1,
            step: 0,
        };
        Ok(Ask::Fork {
            body,
            pass: Items::of(Vec::new(alloc)),
            hand: Items::of(Vec::new(alloc)),
        })
    }

    fn twin(&self, _alloc: Global) -> Result<Self, Oom> {
        Err(Oom)
    }

    ghost obeys = { obeys_at (λ b. b.who) (λ b. b.step) (λ b n. record b { who = n; step = 0 })
        (λ b a. record b { step = suc b.step }) (λ b a. refl) (λ b a. refl) (λ b n. refl) };
}

/// Whether the two met, in a run by two workers.
fn meets<P: Pool, R: Wait + Threads + Sync>(rt: &R, alloc: Global) -> bool {
    let flags = Flags::new();
    let root = Meeting {
        flags: &flags,
        who: 0,
        step: 0,
    };
    let ran = run_all::<Meeting<'_>, P, OpenGate, R>(rt, alloc, root, 3, 2, &OpenGate, false);
    let ok = ran.is_ok();
    drop(ran);
    ok && !flags.gave_up.load(Ordering::SeqCst)
}

#[test]
fn two_tasks_meet_over_the_locked_pool(rt: HostRuntime) -> Result<(), Fail> {
    assert!(rt; meets::<LockedPool, HostRuntime>(&rt, rt.alloc()));
    Ok(())
}

#[test]
fn two_tasks_meet_over_the_stealing_pools(rt: HostRuntime) -> Result<(), Fail> {
    assert!(rt; meets::<StealPool, HostRuntime>(&rt, rt.alloc()));
    assert!(rt; meets::<NewestFirstPool, HostRuntime>(&rt, rt.alloc()));
    Ok(())
}
