//! A wait for a cell as a future: a poll is one look.
ghost use Rattle.std.specs.Prelude.{◌≡◌, true, [], IfSome, IsSomeAnd, None, Option, Some};
ghost use Rattle.tj_log.specs.Shown.{SeatShown};
ghost use Rattle.futures.specs.Poll.{IfReady, OnPending};
ghost use Rattle.futures.specs.Task.{Covers, Keeps};
ghost use Rattle.tj_body.specs.Programs.{program_of};
ghost use Rattle.tj_task.specs.Replays.{replay_turn};
ghost use Rattle.tj_task.specs.TaskBodies.{task_asks, task_awaits, task_left, task_places, task_then};
ghost use Rattle.tj_record.specs.declared.record.Rec.{Rec};
ghost use Rattle.tj_words.specs.declared.view.View.{View};
ghost use Rattle.tj_words.specs.SeatViews.SeatSteps.{IsCellOf, IsSameSeat, IsSeatOf};
ghost use Rattle.tj_words.specs.SeatViews.Views.{IsIdle};
ghost use Rattle.tj_future.specs.LookLogs.{MakesLook};
ghost use Rattle.tj_future.specs.Looks.{Answers, GoesOn};
ghost use Rattle.tj_future.specs.Polls.{IsGiven, MayPoll, StillWaits};

use crate::looks::look_at;
use crate::watched::Watched;
use futures::Future;
use futures::task::{Context, Poll};
use tj_base::CellId;
use tj_body::{Body, TableBody};
use tj_chan::{ChanBody, TableChat};
use tj_eval::ScriptBody;
use tj_task::{Plan, Replay, Task, TaskBody};
use tj_words::{Laid, WSeat};

/// A body whose tables may be polled. An `impl` calls `look_at`, whose clauses these are. (A poll is
/// a method of an `impl`, which can't call a function over all bodies.)
pub trait Polled: Body {
    /// One look at cell `p`, as `look_at` makes it.
    fn look(laid: &Laid<Self>, seat: &mut WSeat<Self>, p: CellId) -> Option<Watched>
        requires table { IsSeatOf laid.now seat.old }
        requires cell { IsCellOf laid.now p.0 }
        requires idle { IsIdle seat.old.me.0 }
        requires slots { seat.old.me.1 ≡ [] }
        // A look by the body's own `impl`: its clauses are those of `look_at`.
        ensures seat { IsSameSeat seat.old seat.new }
        ensures idle { IsIdle seat.new.me.0 }
        ensures slots { seat.new.me.1 ≡ [] }
        ensures lot { seat.new.me.0.lot ≡ seat.old.me.0.lot }
        ensures none { result ≡ None → GoesOn (program_of Self.places Self.awaits Self.left
            Self.asks Self.then) p.0 seat.old.me.0 seat.new.me.0 }
        ensures some { IfSome result (λ watched. Answers (program_of Self.places Self.awaits
            Self.left Self.asks Self.then) laid.now.cells p.0 watched seat.old.me.0
            seat.new.me.0) }
        ensures log { MakesLook p.0 result seat.old seat.new };
}

impl<'s> Polled for TableBody<'s> {
    fn look(laid: &Laid<Self>, seat: &mut WSeat<Self>, p: CellId) -> Option<Watched> {
        look_at(laid, seat, p)
    }
}

impl<'s> Polled for ScriptBody<'s> {
    fn look(laid: &Laid<Self>, seat: &mut WSeat<Self>, p: CellId) -> Option<Watched> {
        look_at(laid, seat, p)
    }
}

impl<'s> Polled for ChanBody<TableChat<'s>> {
    fn look(laid: &Laid<Self>, seat: &mut WSeat<Self>, p: CellId) -> Option<Watched> {
        look_at(laid, seat, p)
    }
}

/// A task whose tables may be polled. An `impl` calls `look_at`, as one of `Polled` does, which no
/// crate but this one can write for a `TaskBody`.
pub trait PolledTask: Task {
    /// One look at cell `p`, as `look_at` makes it.
    fn look(
        laid: &Laid<TaskBody<Self>>,
        seat: &mut WSeat<TaskBody<Self>>,
        p: CellId,
    ) -> Option<Watched>
        requires table { IsSeatOf laid.now seat.old }
        requires cell { IsCellOf laid.now p.0 }
        requires idle { IsIdle seat.old.me.0 }
        requires slots { seat.old.me.1 ≡ [] }
        // A look by the task's own `impl`: its clauses are those of `look_at`.
        ensures seat { IsSameSeat seat.old seat.new }
        ensures idle { IsIdle seat.new.me.0 }
        ensures slots { seat.new.me.1 ≡ [] }
        ensures lot { seat.new.me.0.lot ≡ seat.old.me.0.lot }
        ensures none { result ≡ None → GoesOn (program_of task_places task_awaits task_left
            (task_asks Self.turn) (task_then Self.turn)) p.0 seat.old.me.0 seat.new.me.0 }
        ensures some { IfSome result (λ watched. Answers (program_of task_places task_awaits
            task_left (task_asks Self.turn) (task_then Self.turn)) laid.now.cells p.0 watched
            seat.old.me.0 seat.new.me.0) }
        ensures log { MakesLook p.0 result seat.old seat.new };
}

/// A plan whose tables may be polled. An `impl` calls `look_at`, too.
pub trait PolledPlan: Plan {
    /// One look at cell `p`, as `look_at` makes it.
    fn look(
        laid: &Laid<TaskBody<Replay<Self>>>,
        seat: &mut WSeat<TaskBody<Replay<Self>>>,
        p: CellId,
    ) -> Option<Watched>
        requires table { IsSeatOf laid.now seat.old }
        requires cell { IsCellOf laid.now p.0 }
        requires idle { IsIdle seat.old.me.0 }
        requires slots { seat.old.me.1 ≡ [] }
        // A look by the plan's own `impl`: its clauses are those of `look_at`.
        ensures seat { IsSameSeat seat.old seat.new }
        ensures idle { IsIdle seat.new.me.0 }
        ensures slots { seat.new.me.1 ≡ [] }
        ensures lot { seat.new.me.0.lot ≡ seat.old.me.0.lot }
        ensures none { result ≡ None → GoesOn (program_of task_places task_awaits task_left
            (task_asks (replay_turn Self.asks)) (task_then (replay_turn Self.asks))) p.0
            seat.old.me.0 seat.new.me.0 }
        ensures some { IfSome result (λ watched. Answers (program_of task_places task_awaits
            task_left (task_asks (replay_turn Self.asks)) (task_then (replay_turn Self.asks)))
            laid.now.cells p.0 watched seat.old.me.0 seat.new.me.0) }
        ensures log { MakesLook p.0 result seat.old seat.new };
}

impl<T: PolledPlan> PolledTask for Replay<T> {
    fn look(
        laid: &Laid<TaskBody<Self>>,
        seat: &mut WSeat<TaskBody<Self>>,
        p: CellId,
    ) -> Option<Watched> {
        T::look(laid, seat, p)
    }
}

impl<T: PolledTask> Polled for TaskBody<T> {
    fn look(laid: &Laid<Self>, seat: &mut WSeat<Self>, p: CellId) -> Option<Watched> {
        T::look(laid, seat, p)
    }
}

/// A wait for a cell. It has its seat until a poll is ready.
// A poll asks to be polled again: a waker would be a value that the table holds and a set wakes.
#[derive(Drop)]
pub struct CellWait<'a, B: Body> {
    laid: &'a Laid<B>,
    seat: Option<WSeat<B>>,
    p: CellId,
}

impl<'a, B: Body> CellWait<'a, B> {
    /// A wait for cell `p` by this seat, which has nothing under way.
    pub fn new(laid: &'a Laid<B>, seat: WSeat<B>, p: CellId) -> CellWait<'a, B>
        requires table { IsSeatOf laid.now seat }
        requires cell { IsCellOf laid.now p.0 }
        requires idle { IsIdle seat.me.0 }
        requires slots { seat.me.1 ≡ [] }
        // The wait has this table,
        ensures laid { result.laid.now ≡ laid.now }
        // this seat
        ensures seat { result.seat ≡ Some seat }
        // and this cell.
        ensures cell { result.p ≡ p }
        // It may be polled.
        ensures may { MayPoll result.laid.now result.seat result.p.0 }
    {
        CellWait {
            laid,
            seat: Some(seat),
            p,
        }
    }

    /// Gives the seat back before a poll is ready. There is no wait any more then.
    pub fn into_seat(self) -> WSeat<B>
        requires may { MayPoll self.laid.now self.seat self.p.0 }
        // Before it is ready a wait gives back the very seat that it has.
        ensures seat { Some result ≡ self.entry.seat }
        // This is one of the table,
        ensures table { IsSeatOf self.entry.laid.now result }
        // it may be merged,
        ensures idle { IsIdle result.me.0 }
        // and has no slot. Its lot is the one with which the wait was made, by `new` `seat` and by
        // `pending` of each poll.
        ensures slots { result.me.1 ≡ [] }
    {
        match self.seat {
            Some(seat) => seat,
            None => unreachable!(),
        }
    }
}

impl<'a, B: Polled> Future for CellWait<'a, B> {
    type Output = (Watched, WSeat<B>);

    ghost can_poll = { λ wait. MayPoll wait.laid.now wait.seat wait.p.0 };

    ghost gives = { λ wait given. IsGiven (program_of B.places B.awaits B.left B.asks B.then)
        wait.laid.now wait.seat wait.p.0 given.0 given.1 };

    fn poll(&mut self, cx: &mut Context<'_>) -> Poll<(Watched, WSeat<B>)>
        requires { MayPoll self.old.laid.now self.old.seat self.old.p.0 }
        // A ready poll gives the seat back: one of the same table, which may be merged, with its
        // lot; and the answer of the last look, as of `watch`. The polls since the wait had this seat
        // made looks, and no other step.
        ensures value { IfReady result (λ given. IsGiven (program_of B.places B.awaits B.left B.asks
            B.then) self.old.laid.now self.old.seat self.old.p.0 given.0 given.1) }
        // It is ready with what the look of this poll answered.
        ensures looked { IfReady result (λ given. IsSomeAnd self.old.seat (λ seat. Answers
            (program_of B.places B.awaits B.left B.asks B.then) self.old.laid.now.cells self.old.p.0
            given.0 seat.me.0 given.1.me.0)) }
        // This poll is that look, by the loads that `look_at` `log` says, and no other step.
        ensures log { IfReady result (λ given. IsSomeAnd self.old.seat (λ seat. MakesLook self.old.p.0
            (Some given.0) seat given.1)) }
        // It is pending only where the look of this poll answered nothing; the wait has its seat
        // again, with its lot. The poll is that look and no other step.
        ensures pending { OnPending result (StillWaits (program_of B.places B.awaits B.left B.asks
            B.then) self.old.p.0 self.old.seat self.new.seat) }
        // It has yielded then, through its context.
        ensures yielded { OnPending result (cx.new.is_woken ≡ true) }
        // It may be polled again.
        ensures again { OnPending result (MayPoll self.new.laid.now self.new.seat self.new.p.0) }
        // What the wait gives then is what it was to give before.
        ensures same { OnPending result ((given : Watched × SeatShown (Option (Rec B)) (View B)) → IsGiven
            (program_of B.places B.awaits B.left B.asks B.then) self.new.laid.now self.new.seat
            self.new.p.0 given.0 given.1 → IsGiven (program_of B.places B.awaits B.left B.asks
            B.then) self.old.laid.now self.old.seat self.old.p.0 given.0 given.1) }
        // It waits for no source.
        ensures registered { OnPending result (Covers cx.new (λ _. ⊥)) }
        // What was true of the context until the poll's end stays so.
        ensures kept { Keeps cx.old cx.new }
    {
        let Some(mut seat) = self.seat.take() else {
            unreachable!()
        };
        match B::look(self.laid, &mut seat, self.p) {
            Some(watched) => Poll::Ready((watched, seat)),
            None => {
                self.seat = Some(seat);
                cx.yield_now()
            }
        }
    }
}
