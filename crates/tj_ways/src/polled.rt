//! A promise of tasks of one's own, for which a future waits while they run.
use std::alloc::Global;
use std::random::RandomSource;
use std::sync::Wait;
use std::thread::Threads;
use tj_base::{CellId, add_signed};
use tj_future::{PolledPlan, Watched, look_at, run_polled};
use tj_ports::OpenGate;
use tj_ready::NewestFirstPool;
use tj_task::{Do, Oom, Plan, Replay, TaskBody, Told, steps};
use tj_words::{Fill, Laid, WSeat};

/// A root, and a task that sets the root's promise.
#[derive(Clone, Copy)]
pub(crate) enum Gives {
    Root,
    Giver,
}

impl Plan for Gives {
    // Written by launch/mirror from `next`, which the check holds against it.
    ghost use Rattle.std.specs.Prelude.{[], pos, ◌∷◌};
    ghost use Rattle.tj_task.specs.Words as words;
    ghost use Rattle.tj_ways.specs.declared.polled.Gives.TheVariants as plan;

    ghost asks = { λ t log.
        elim t [
          | plan.Root ↦
              words.news log 0 (λ p.
              words.forks_with log 1 plan.Giver (p.place ∷ []) (p.place ∷ []) (λ c.
              words.gets log 2 p (λ n.
              words.ends (words.num n))))
          | plan.Giver ↦
              let given = words.passed_promise 0 in
              words.sets log 0 given (words.num (pos 20)) (
              words.ends (words.num (pos 3)))
        ] };

    fn next(&self, alloc: Global, log: &[Told]) -> Result<Do<Gives>, Oom> {
        match *self {
            Gives::Root => steps! { alloc, log;
                let p = new;
                let c = fork Gives::Giver, pass [p], hand [p];
                let n = get p;
                return n
            },
            Gives::Giver => steps! { alloc, log;
                let given: Promise = passed 0;
                set given = 20;
                return 3
            },
        }
    }

    fn twin(&self, _alloc: Global) -> Result<Gives, Oom> {
        Ok(*self)
    }
}

impl PolledPlan for Gives {
    fn look(
        laid: &Laid<TaskBody<Replay<Gives>>>,
        seat: &mut WSeat<TaskBody<Replay<Gives>>>,
        p: CellId,
    ) -> Option<Watched> {
        look_at(laid, seat, p)
    }
}

/// What a future is given for cell 1, which is the promise 0.1: the first thing that the root makes.
pub(crate) fn polled<R: Wait + Threads + RandomSource + Sync + AllocGlobal>(
    rt: &R,
) -> Option<Vec<u8>> {
    let alloc = rt.alloc();
    let root = TaskBody::new(Replay::of(alloc, Gives::Root), 100);
    let run = run_polled::<_, NewestFirstPool, OpenGate, R>(
        rt,
        alloc,
        root,
        16,
        2,
        &OpenGate,
        CellId(1),
    );
    match run.ok()?.0 {
        Watched::Value(Fill::Num(value)) => {
            let mut text = Vec::from_slice(alloc, b"0.1 is ").ok()?;
            add_signed(&mut text, value).ok()?;
            text.extend_from_slice(b"\n").ok()?;
            Some(text)
        }
        _ => None,
    }
}
