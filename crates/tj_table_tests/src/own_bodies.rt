//! A program of one's own: a body, a run of it, and a run with a watch of the root beside.
ghost use Rattle.tj_table_tests.specs.Greetings.{greets_at, greeting_awaits};

use std::alloc::Global;
use std::sync::Wait;
use std::test::Fail;
use std::thread::Threads;
use tj_base::{CellId, Oom, Pay};
use tj_body::{Answer, Ask, Body};
use tj_future::{Polled, Watched, look_at, run_watched};
use tj_ports::OpenGate;
use tj_ready::NewestFirstPool;
use tj_run::run_all;
use tj_words::{Fill, Laid, RestWords, WSeat};

/// A task that prints a number and ends with it.
#[derive(Drop)]
struct Greeting {
    number: i64,
    /// How many asks it has given.
    step: u32,
}

impl Body for Greeting {
    ghost use Rattle.std.specs.Prelude.{suc, ◌-◌};
    ghost use Rattle.tj_table_tests.specs.Greetings.{greets_at, greeting_awaits, greeting_obeys};

    ghost places = { λ b. 1 };

    ghost awaits = { λ b. greeting_awaits b.step };

    ghost left = { λ b. 2 - b.step };

    ghost asks = { λ b a. greets_at b.number b.step };

    ghost then = { λ b a. record b { step = suc b.step } };

    fn next(&mut self, _alloc: Global, _a: Answer) -> Result<Ask<Self>, Oom> {
        let step = self.step;
        self.step = step + 1;
        if step == 0 {
            return Ok(Ask::Emit(self.number));
        }
        Ok(Ask::End(Pay::Num(self.number)))
    }

    fn twin(&self, _alloc: Global) -> Result<Self, Oom> {
        Ok(Greeting {
            number: self.number,
            step: self.step,
        })
    }

    ghost obeys = { λ b a f. let h = greeting_obeys (λ _. 1) (λ c. greeting_awaits c.step)
        (λ c. 2 - c.step) b.number b.step a f in record {
          falls = h.falls;
          awaits_answer = h.awaits_answer;
          adds_places = h.adds_places;
          placed = h.placed;
        } };
}

impl Polled for Greeting {
    fn look(laid: &Laid<Self>, seat: &mut WSeat<Self>, p: CellId) -> Option<Watched> {
        look_at(laid, seat, p)
    }
}

/// Whether the root has printed 8 alone.
fn has_printed<B: Body>(rest: &RestWords<B>) -> bool {
    if rest.drawn() < 1 {
        return false;
    }
    match rest.rec(CellId(0)) {
        Some(rec) => rec.prints() == &[8i64][..],
        None => false,
    }
}

/// Whether the root of a run by four workers has printed so.
fn printed<R: Wait + Threads + Sync>(rt: &R, alloc: Global) -> bool {
    let root = Greeting { number: 8, step: 0 };
    match run_all::<Greeting, NewestFirstPool, OpenGate, R>(
        rt, alloc, root, 16, 4, &OpenGate, false,
    ) {
        Ok(rest) => has_printed(&rest),
        Err(_) => false,
    }
}

#[test]
fn a_body_of_ones_own_is_run(rt: HostRuntime) -> Result<(), Fail> {
    assert!(rt; printed(&rt, rt.alloc()));
    Ok(())
}

#[test]
fn a_body_of_ones_own_is_watched(rt: HostRuntime) -> Result<(), Fail> {
    let root = Greeting { number: 8, step: 0 };
    let ran = run_watched::<Greeting, NewestFirstPool, OpenGate, HostRuntime>(
        &rt,
        rt.alloc(),
        root,
        16,
        4,
        &OpenGate,
    );
    assert!(rt; matches!(ran, Ok((Watched::Value(Fill::Num(8)), _))));
    Ok(())
}
