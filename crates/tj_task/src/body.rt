//! A task as a body. Each ask is tested: its places are those that the task has, a fork passes few
//! enough of them, and no more is asked than the task may ask.
ghost use Rattle.std.specs.Prelude.{◌≡◌, ◌≤◌, ◌<◌, ◌+◌, ◌^◌, length, IfOk, Some};
ghost use Rattle.tj_body.specs.Asks.{most_passed};
ghost use Rattle.tj_body.specs.Table as table;
ghost use Rattle.tj_body.specs.declared.ask.Ask.TheVariants as ask;
ghost use Rattle.tj_task.specs.Asked as asked;
ghost use Rattle.tj_task.specs.TaskBodies as bodies;

use crate::handles::{Child, Promise};
use crate::task::Task;
use crate::turn::{Told, Turn};
use std::alloc::Global;
use tj_base::{Items, Oom, Pay, PlaceList, Trouble};
use tj_body::{Answer, Ask, Body, new_places};

/// A fork passes at most so many places.
const MOST_PASSED: usize = 1_048_576;

/// A task may ask at most so often before its last ask.
const MOST_LEFT: u32 = 1_073_741_824;

/// What sort of answer a task is to be given.
#[derive(Clone, Copy)]
pub enum Due {
    Start,
    Promise,
    Child,
    Done,
    Value,
    ValueOr,
    Nothing,
}

/// The body of a task.
#[derive(Drop)]
pub struct TaskBody<T> {
    /// The task, until it has ended.
    task: Option<T>,
    /// How many places it has.
    places: u32,
    /// How often it may still ask before its last ask.
    left: u32,
    /// How often each task that it forks may.
    most: u32,
    due: Due,
}

/// An ask, what the task is from then on, and what is due then.
#[derive(Drop)]
pub struct Asked<T> {
    ask: Ask<TaskBody<T>>,
    then: Option<T>,
    due: Due,
}

impl<T> TaskBody<T> {
    ghost use Rattle.tj_body.specs.Asks.{IsFresh};
    ghost use Rattle.tj_task.specs.TaskBodies.{task_places, task_awaits, task_left};

    /// The body of a root that may ask so often before its last ask, as may each task below it, and
    /// 1,073,741,824 times at most. One that asks more often fails with `Steps`.
    pub fn new(task: T, asks: u32) -> TaskBody<T>
        // The body of a task has asked nothing yet and has one place.
        ensures fresh { IsFresh task_places task_awaits task_left 1 result }
        // It is the body of this task, with this bound or, where that is more, with 2^30.
        ensures root { result ≡ asked.fresh_body asks 1 task }
    {
        fresh_body(asks, 1, task)
    }
}

/// The body of a task that has asked nothing yet.
fn fresh_body<T>(most: u32, places: u32, task: T) -> TaskBody<T>
    ensures { result ≡ asked.fresh_body most places task }
{
    TaskBody {
        task: Some(task),
        places,
        left: most.min(MOST_LEFT),
        most,
        due: Due::Start,
    }
}

/// What the task is told of an answer, where this was due.
fn told_of(due: Due, a: Answer) -> Told
    ensures { result ≡ asked.told_of due a }
{
    match a {
        Answer::Start => Told::Start,
        Answer::Local(place) => made(due, place),
        Answer::Done => Told::Done,
        Answer::Num(i) => Told::Num(i),
        Answer::RefAt(place) => Told::Ref(place),
        Answer::Lost => Told::Lost,
    }
}

/// What the task is told of a place that it has made.
fn made(due: Due, place: u32) -> Told
    ensures { result ≡ asked.made due place }
{
    match due {
        Due::Child => Told::Forked(Child { place }),
        Due::Start | Due::Promise | Due::Done | Due::Value | Due::ValueOr | Due::Nothing => {
            Told::Made(Promise { place })
        }
    }
}

/// Whether the place of the value, if it is a reference, is one of n.
fn is_paid(n: u32, v: Pay) -> bool
    ensures { result ≡ table.is_paid n v }
{
    match v {
        Pay::Num(_) => true,
        Pay::Ref(place) => place < n,
    }
}

/// Whether each place is one of n.
fn are_below(n: u32, places: &PlaceList) -> bool
    ensures { result ≡ table.are_below n places.now }
{
    places.items().iter().all(|place| *place < n)
}

/// Whether a fork can pass and hand these places.
fn can_fork(n: u32, pass: &PlaceList, hand: &PlaceList) -> bool
    ensures { result ≡ asked.can_fork n pass.now hand.now }
{
    are_below(n, pass) && are_below(n, hand) && pass.items().len() <= MOST_PASSED
}

/// The task fails.
fn fails<T>(trouble: Trouble) -> Asked<T>
    ensures { result ≡ asked.fails trouble }
{
    Asked {
        ask: Ask::Fail(trouble),
        then: None,
        due: Due::Nothing,
    }
}

/// Whether the ask is the task's last one.
fn is_last<T>(turn: &Turn<T>) -> bool
    ensures { result ≡ asked.is_last turn.now }
{
    match turn {
        Turn::End(_) | Turn::Fail(_) => true,
        Turn::New(_)
        | Turn::Fork(_, _)
        | Turn::ForkWith { .. }
        | Turn::Set(_, _, _)
        | Turn::Get(_, _)
        | Turn::Join(_, _)
        | Turn::GetOr(_, _)
        | Turn::JoinOr(_, _)
        | Turn::Emit(_, _) => false,
    }
}

/// Whether a task with n places has each place of the ask, and passes few enough of them.
fn is_placed<T>(n: u32, turn: &Turn<T>) -> bool
    ensures { result ≡ asked.is_placed n turn.now }
{
    match turn {
        Turn::New(_) | Turn::Fork(_, _) | Turn::Emit(_, _) | Turn::Fail(_) => true,
        Turn::ForkWith { pass, hand, .. } => can_fork(n, pass, hand),
        Turn::Set(p, v, _) => p.place < n && is_paid(n, *v),
        Turn::Get(p, _) | Turn::GetOr(p, _) => p.place < n,
        Turn::Join(t, _) | Turn::JoinOr(t, _) => t.place < n,
        Turn::End(v) => is_paid(n, *v),
    }
}

/// The fork of a child that is passed and handed these.
fn forked<T>(most: u32, child: T, pass: PlaceList, hand: PlaceList) -> Ask<TaskBody<T>>
    requires few { length pass ≤ most_passed }
    ensures { result ≡ ask.Fork (asked.fresh_body most (length pass + 1) child) pass hand }
{
    let body = fresh_body(most, pass.items().len() as u32 + 1, child);
    Ask::Fork { body, pass, hand }
}

/// The task asks this, and goes on.
fn on<T>(ask: Ask<TaskBody<T>>, due: Due, then: T) -> Asked<T>
    ensures { result ≡ record { ask = ask; then = Some then; due = due } }
{
    Asked {
        ask,
        then: Some(then),
        due,
    }
}

/// The turn as it says.
fn given<T>(alloc: Global, most: u32, turn: Turn<T>) -> Asked<T>
    requires few { length (asked.passed turn) ≤ most_passed }
    ensures { result ≡ asked.given most turn }
{
    match turn {
        Turn::New(then) => on(Ask::New, Due::Promise, then),
        Turn::Fork(child, then) => {
            let (pass, hand) = (Items::of(Vec::new(alloc)), Items::of(Vec::new(alloc)));
            on(forked(most, child, pass, hand), Due::Child, then)
        }
        Turn::ForkWith {
            child,
            pass,
            hand,
            then,
        } => on(forked(most, child, pass, hand), Due::Child, then),
        Turn::Set(p, v, then) => on(Ask::Set { p: p.place, v }, Due::Done, then),
        Turn::Get(p, then) => on(Ask::Get { p: p.place }, Due::Value, then),
        Turn::Join(t, then) => on(Ask::Join { t: t.place }, Due::Value, then),
        Turn::GetOr(p, then) => on(Ask::GetOr { p: p.place }, Due::ValueOr, then),
        Turn::JoinOr(t, then) => on(Ask::JoinOr { t: t.place }, Due::ValueOr, then),
        Turn::Emit(i, then) => on(Ask::Emit(i), Due::Done, then),
        Turn::End(v) => Asked {
            ask: Ask::End(v),
            then: None,
            due: Due::Nothing,
        },
        Turn::Fail(trouble) => fails(trouble),
    }
}

/// What a task with n places asks that may ask so often before its last ask: more often breaks its
/// bound, and another place is a fault of kind.
#[tactic(auto, using(crate::proofs::Few::few_if))]
fn asked_within<T: Drop>(alloc: Global, left: u32, n: u32, most: u32, turn: Turn<T>) -> Asked<T>
    ensures { result ≡ asked.asked_within left n most turn }
{
    if !(is_last(&turn) || 0 < left) {
        return fails(Trouble::Steps);
    }
    if !is_placed(n, &turn) {
        return fails(Trouble::Kind);
    }
    given(alloc, most, turn)
}

impl<T: Drop> TaskBody<T> {
    ghost use Rattle.tj_task.specs.TaskBodies.{gone_on};

    /// The body asks what the turn says, where it could ask so often before its last ask.
    fn go_on(&mut self, alloc: Global, left: u32, turn: Turn<T>) -> Ask<TaskBody<T>>
        ensures ask { result ≡ (asked.asked_within left self.old.places self.old.most turn).ask }
        ensures body { self.new
            ≡ gone_on (asked.asked_within left self.old.places self.old.most turn) self.old }
    {
        let Asked { ask, then, due } = asked_within(alloc, left, self.places, self.most, turn);
        self.task = then;
        self.due = due;
        ask
    }

    /// The same body with this task.
    fn with_task(&self, task: Option<T>) -> TaskBody<T>
        ensures { result ≡ record self.now { task = task } }
    {
        TaskBody {
            task,
            places: self.places,
            left: self.left,
            most: self.most,
            due: self.due,
        }
    }
}

impl<T: Task> Body for TaskBody<T> {
    ghost use Rattle.tj_task.specs.TaskBodies.{task_places, task_awaits, task_left, task_asks, task_then};
    ghost use Rattle.tj_task.specs.Inner.TaskLaws.{task_obeys};

    ghost places = { task_places };

    ghost awaits = { task_awaits };

    ghost left = { task_left };

    ghost asks = { task_asks T.turn };

    ghost then = { task_then T.turn };

    fn next(&mut self, alloc: Global, a: Answer) -> Result<Ask<Self>, Oom> {
        let told = told_of(self.due, a);
        let left = self.left;
        self.places += new_places(a);
        self.left = left.saturating_sub(1);
        let Some(task) = self.task.take() else {
            return Ok(self.go_on(alloc, left, Turn::Fail(Trouble::Kind)));
        };
        let turn = task.step(alloc, told)?;
        Ok(self.go_on(alloc, left, turn))
    }

    fn twin(&self, alloc: Global) -> Result<Self, Oom> {
        match &self.task {
            Some(task) => {
                let twin = task.twin(alloc)?;
                Ok(self.with_task(Some(twin)))
            }
            None => Ok(self.with_task(None)),
        }
    }

    ghost obeys = { task_obeys T.turn };
}
