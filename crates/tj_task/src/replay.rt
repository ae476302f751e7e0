//! A plan as a task, which keeps what it has been told.
ghost use Rattle.std.specs.Prelude.{◌≡◌, [], ◌∷◌, ◌++◌, IfOk};
ghost use Rattle.tj_task.specs.Replays as replays;

use crate::plan::{Do, Plan};
use crate::task::Task;
use crate::turn::{Told, Turn};
use std::alloc::Global;
use tj_base::{Items, Oom};

/// What a task has been told.
pub type ToldList = Items<Told>;

/// A task that runs its plan from the start for each ask.
#[derive(Drop)]
pub struct Replay<T> {
    plan: T,
    log: ToldList,
}

impl<T> Replay<T> {
    /// A task that has been told nothing.
    pub fn of(alloc: Global, plan: T) -> Replay<T>
        // The task of a plan has been told nothing yet.
        ensures { result ≡ replays.fresh plan }
    {
        Replay {
            plan,
            log: Items::of(Vec::new(alloc)),
        }
    }
}

/// The ask, with the task from then on.
fn turn_to<T: Drop>(alloc: Global, ask: Do<T>, then: Replay<T>) -> Turn<Replay<T>>
    ensures { result ≡ replays.turn_to ask then }
{
    match ask {
        Do::New => Turn::New(then),
        Do::Fork(child) => Turn::Fork(Replay::of(alloc, child), then),
        Do::ForkWith { child, pass, hand } => Turn::ForkWith {
            child: Replay::of(alloc, child),
            pass,
            hand,
            then,
        },
        Do::Set(p, v) => Turn::Set(p, v, then),
        Do::Get(p) => Turn::Get(p, then),
        Do::Join(t) => Turn::Join(t, then),
        Do::GetOr(p) => Turn::GetOr(p, then),
        Do::JoinOr(t) => Turn::JoinOr(t, then),
        Do::Emit(i) => Turn::Emit(i, then),
        Do::End(v) => Turn::End(v),
        Do::Fail(trouble) => Turn::Fail(trouble),
    }
}

/// The list with this at its end, unless it is the start.
fn with_told(log: ToldList, told: Told) -> Result<ToldList, Oom>
    ensures { IfOk result (λ list. list ≡ replays.with_told log told) }
{
    match told {
        Told::Start => Ok(log),
        Told::Made(_) | Told::Forked(_) | Told::Done | Told::Num(_) | Told::Ref(_) | Told::Lost =>
            with_last(log, told),
    }
}

/// The list with this at its end.
fn with_last(log: ToldList, told: Told) -> Result<ToldList, Oom>
    ensures { IfOk result (λ list. list ≡ log ++ told ∷ []) }
{
    let mut log = log;
    log.push(told)?;
    Ok(log)
}

impl<T: Plan> Task for Replay<T> {
    ghost use Rattle.tj_task.specs.Replays.{replay_turn};

    ghost turn = { replay_turn T.asks };

    fn step(self, alloc: Global, told: Told) -> Result<Turn<Replay<T>>, Oom> {
        let Replay { plan, log } = self;
        let log = with_told(log, told)?;
        let ask = plan.next(alloc, log.items())?;
        Ok(turn_to(alloc, ask, Replay { plan, log }))
    }

    fn twin(&self, alloc: Global) -> Result<Replay<T>, Oom> {
        Ok(Replay {
            plan: self.plan.twin(alloc)?,
            log: Items::of(Vec::from_slice(alloc, self.log.items())?),
        })
    }
}
