//! A pool that is refused memory at a put that a test names, and a body that is at such an ask: a
//! run over them has no memory, or the outcome that it has with ample memory.
//!
//! The body also lets other threads run at each ask.
ghost use Rattle.std.specs.Prelude.{◌≡◌, ◌<◌, length, IfOk, IsTrue};
ghost use Rattle.tj_body.specs.Table.{is_table};
ghost use Rattle.tj_body.specs.SeenAs.{ask_as};

use crate::output::ClosedOutput;
use crate::worker_runs::ended_at_rest;
use std::alloc::Global;
use std::sync::Wait;
use std::test::Fail;
use std::thread::{self, Threads};
use tj_base::{CellId, Items, Oom, Pay};
use tj_body::{Answer, Ask, Body, Row, RowList, TableBody};
use tj_eval::{ScriptBody, main_body};
use tj_mean::{PlanFault, plan};
use tj_modes::Told;
use tj_ports::OpenGate;
use tj_ready::{LockedPool, Pool};
use tj_run::{RunFault, run_all};
use tj_syntax::script_in;

const TAKERS: &str = "task main() { let p = new; let a = fork taker(p); fork giver(own p); \
    let b = fork taker(p); let x = join a; let y = join b; return x + y; } task taker(p) { let \
    v = get p; return v + 1; } task giver(p) { set p = 4; return 0; }";

const TAKERS_REPORT: &str = "0 done 10\n0.2 done 5\n0.3 done 0\n0.4 done 5\nclean\n";

/// An end of a locked pool that is refused its put with the number `K`.
#[derive(Drop)]
struct ShyPool<const K: u32> {
    end: LockedPool,
    /// How many puts until it is refused one, 0 where it isn't any more.
    puts: u32,
}

impl<const K: u32> Pool for ShyPool<K> {
    ghost limit = { λ shy. shy.end.cells };

    fn make<R: Wait>(rt: &R, alloc: Global, workers: u32, cells: u32) -> Result<Vec<Self>, Oom> {
        let mut made = LockedPool::make(rt, alloc, workers, cells)?;
        let mut ends = Vec::new(alloc);
        while let Some(end) = made.pop() {
            ends.push(ShyPool { end, puts: K })?;
        }
        Ok(ends)
    }

    fn put<R: Wait>(&mut self, rt: &R, alloc: Global, t: CellId) -> Result<(), Oom> {
        let puts = self.puts;
        self.puts = puts.saturating_sub(1);
        if puts == 1 {
            return Err(Oom);
        }
        self.end.put(rt, alloc, t)
    }

    fn take<R: Wait>(&mut self, rt: &R) -> Option<CellId> {
        self.end.take(rt)
    }
}

/// A body that lets other threads run at each ask, and that is refused memory at one.
#[derive(Drop)]
pub(crate) struct ShyBody<B> {
    pub(crate) body: B,
    /// How many asks until then, 0 where it isn't refused any.
    pub(crate) asks: u32,
}

impl<B: Body> Body for ShyBody<B> {
    ghost use Rattle.std.specs.Prelude.{◌-◌};
    ghost use Rattle.std.proofs.Common.{refl};
    ghost use Rattle.tj_body.specs.SeenAs.{ask_as};
    ghost use Rattle.tj_program.specs.TestBodies.ShyAsks.{obeys_of};

    ghost places = { λ b. B.places b.body };

    ghost awaits = { λ b. B.awaits b.body };

    ghost left = { λ b. B.left b.body };

    ghost asks = { λ b a. ask_as (λ c. record { body = c; asks = 0 }) (B.asks b.body a) };

    ghost then = { λ b a. record { body = B.then b.body a; asks = b.asks - 1 } };

    fn next(&mut self, alloc: Global, a: Answer) -> Result<Ask<Self>, Oom> {
        thread::yield_now();
        let asks = self.asks;
        self.asks = asks.saturating_sub(1);
        if asks == 1 {
            return Err(Oom);
        }
        Ok(bold(self.body.next(alloc, a)?))
    }

    fn twin(&self, alloc: Global) -> Result<Self, Oom> {
        Ok(ShyBody {
            body: self.body.twin(alloc)?,
            asks: self.asks,
        })
    }

    ghost obeys = { obeys_of (λ c. record { body = c; asks = 0 }) (λ b. b.body) (λ b. refl) B.places B.awaits B.left
        B.asks B.then (λ b a. record { body = B.then b.body a; asks = b.asks - 1 }) (λ b a. refl) B.obeys };
}

/// The same ask, whose forks aren't refused memory.
fn bold<B>(ask: Ask<B>) -> Ask<ShyBody<B>>
    ensures { result ≡ ask_as (λ c. record { body = c; asks = 0 }) ask }
{
    match ask {
        Ask::New => Ask::New,
        Ask::Fork { body, pass, hand } => Ask::Fork {
            body: ShyBody { body, asks: 0 },
            pass,
            hand,
        },
        Ask::Set { p, v } => Ask::Set { p, v },
        Ask::Get { p } => Ask::Get { p },
        Ask::Join { t } => Ask::Join { t },
        Ask::GetOr { p } => Ask::GetOr { p },
        Ask::JoinOr { t } => Ask::JoinOr { t },
        Ask::Emit(i) => Ask::Emit(i),
        Ask::End(v) => Ask::End(v),
        Ask::Fail(trouble) => Ask::Fail(trouble),
    }
}

/// Whether this is the report that the script has with ample memory.
fn is_report(given: Result<ClosedOutput, Oom>) -> bool {
    match given {
        Ok(given) => given.output.text.as_slice() == TAKERS_REPORT.as_bytes(),
        Err(_out_of_memory) => false,
    }
}

/// Whether a run of the script by one worker, which is refused a put, has no memory, or where that
/// isn't `due` the report that it has with ample memory.
fn is_refused<const K: u32, R: Wait + Threads + Sync>(rt: &R, alloc: Global, due: bool) -> bool {
    let Ok(script) = script_in(alloc, TAKERS.as_bytes()) else {
        return false;
    };
    let Ok(root) = main_body(alloc, &script, 100_000) else {
        return false;
    };
    match run_all::<ScriptBody<'_>, ShyPool<K>, OpenGate, R>(
        rt, alloc, root, 4096, 1, &OpenGate, false,
    ) {
        Ok(rest) => !due && is_report(ended_at_rest(alloc, rest, Told::Report)),
        Err(RunFault::Oom) => true,
        Err(RunFault::Full) => false,
    }
}

/// Whether a run that is refused one of these puts has no memory, or the report of ample memory.
fn are_refused<const I: u32, const J: u32, const K: u32, R: Wait + Threads + Sync>(
    rt: &R,
    a: Global,
) -> bool {
    is_refused::<I, R>(rt, a, false)
        && is_refused::<J, R>(rt, a, false)
        && is_refused::<K, R>(rt, a, false)
}

#[test]
fn a_put_is_refused(rt: HostRuntime) {
    let a = rt.alloc();
    assert!(rt; is_refused::<1, HostRuntime>(&rt, a, true));
    assert!(rt; are_refused::<2, 3, 4, HostRuntime>(&rt, a));
    assert!(rt; are_refused::<5, 6, 7, HostRuntime>(&rt, a));
    assert!(rt; are_refused::<8, 9, 10, HostRuntime>(&rt, a));
    assert!(rt; are_refused::<11, 12, 13, HostRuntime>(&rt, a));
}

/// The table of one task, which makes a promise, sets it, gets it, prints and ends with the promise.
fn small(alloc: Global) -> Result<[RowList; 1], Oom>
    ensures { IfOk result (λ lists. IsTrue (is_table lists) × (0 < length lists)) }
{
    let rows = [
        Row::New,
        Row::Set {
            p: 1,
            v: Pay::Num(5),
        },
        Row::Get { p: 1 },
        Row::Emit(8),
        Row::End(Pay::Ref(1)),
    ];
    let rows = Vec::from_array(alloc, rows)?;
    Ok([Items::of(rows)])
}

#[test]
fn an_ask_is_refused(rt: HostRuntime) -> Result<(), Fail> {
    let a = rt.alloc();
    let lists = small(a)?;
    for asks in 1..=5 {
        let root = ShyBody {
            body: TableBody::new(&lists, 0),
            asks,
        };
        assert_eq!(rt;
            plan(a, &root, 2, false).err(),
            Some(PlanFault::Oom),
            "{asks}"
        );
        let ran = run_all::<ShyBody<TableBody<'_>>, LockedPool, OpenGate, HostRuntime>(
            &rt, a, root, 2, 1, &OpenGate, false,
        );
        assert_eq!(rt; ran.err(), Some(RunFault::Oom), "{asks}");
    }
    Ok(())
}
