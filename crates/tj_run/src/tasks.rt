//! A claimed task runs ask by ask, until it ends or leaves its worker in a wait.
ghost use Rattle.std.specs.Prelude.{◌≡◌, ◌⊎◌, ◌<◌, IfOk, OnOk};
ghost use Rattle.tj_body.specs.Programs.{program_of};
ghost use Rattle.tj_cells.specs.CallLogs.{Grows};
ghost use Rattle.tj_run.specs.Workers.{table_program};
ghost use Rattle.tj_run.specs.Inner.Carried.{IsAsked, IsRunning, RunsTask};
ghost use Rattle.tj_run.specs.Inner.Going.{Goes, Stops, StopsWhere};
ghost use Rattle.tj_run.specs.Inner.Posts.{IsPostOf, Stays, StaysAsked};
ghost use Rattle.tj_run.specs.Inner.Waits.{ComesBack, IsLeft};

use crate::next::{Next, Wanted};
use crate::pieces::hurt_of;
use crate::post::Post;
use crate::pure::{emit, end_with, next_ask};
use crate::waits::wait;
use crate::why::Why;
use std::sync::Wait;
use tj_body::{Ask, Body, points_in_rounds};
use tj_ready::Pool;
use tj_words::{Finish, Laid, Rec};

impl<B: Body, P: Pool, R: Wait> Post<'_, B, P, R> {
    /// One ask of the task.
    #[inline(always)]
    pub(crate) fn one_ask(&mut self, laid: &Laid<B>, rec: &mut Rec<B>) -> Result<Next, Why>
        requires post { IsPostOf P.limit laid.now self.old }
        requires runs { RunsTask laid.now rec.old self.old.seat.me }
        requires running { IsRunning (table_program (program_of B.places B.awaits B.left B.asks
            B.then) laid.now) self.old.seat.me.0 rec.old }
        ensures stays { Stays P.limit self.old self.new result }
        ensures log { Grows self.old.seat self.new.seat }
        ensures goes { IfOk result (λ next. Goes (program_of B.places B.awaits B.left B.asks B.then)
            laid.now next rec.new self.old.seat.me.0 self.new.seat.me) }
        ensures falls { IfOk result (λ next. Stops next
            ⊎ (B.left rec.new.body < B.left rec.old.body)) }
    {
        let ask = next_ask(self.alloc, laid, &self.seat, rec)?;
        self.answer(laid, rec, ask)
    }

    /// What the task asks is done.
    #[inline(always)]
    fn answer(&mut self, laid: &Laid<B>, rec: &mut Rec<B>, ask: Ask<B>) -> Result<Next, Why>
        requires post { IsPostOf P.limit laid.now self.old }
        requires runs { RunsTask laid.now rec.old self.old.seat.me }
        requires asked { IsAsked (table_program (program_of B.places B.awaits B.left B.asks B.then)
            laid.now) self.old.seat.me.0 rec.old ask }
        ensures stays { StaysAsked P.limit self.old self.new rec.old rec.new result }
        ensures log { Grows self.old.seat self.new.seat }
        ensures goes { IfOk result (λ next. Goes (program_of B.places B.awaits B.left B.asks B.then)
            laid.now next rec.new self.old.seat.me.0 self.new.seat.me) }
        ensures stops { IfOk result (StopsWhere ask) }
    {
        match ask {
            Ask::New => self.make_promise(laid, rec),
            Ask::Fork { body, pass, hand } => self.fork(laid, rec, body, pass, hand),
            Ask::Set { p, v } => self.set(laid, rec, p, v),
            Ask::Get { p } => self.get(laid, rec, Wanted::of(p, false)),
            Ask::GetOr { p } => self.get(laid, rec, Wanted::of(p, true)),
            Ask::Join { t } => self.join(laid, rec, Wanted::of(t, false)),
            Ask::JoinOr { t } => self.join(laid, rec, Wanted::of(t, true)),
            Ask::Emit(number) => emit(laid, &self.seat, rec, number),
            Ask::End(v) => Ok(end_with(laid, &self.seat, rec, v)),
            Ask::Fail(trouble) => {
                points_in_rounds::<B>();
                Ok(Next::Ends(Finish::Failed(hurt_of(trouble))))
            }
        }
    }

    /// The task asks until it waits or ends.
    #[inline(always)]
    fn run_on(&mut self, laid: &Laid<B>, rec: &mut Rec<B>) -> Result<Next, Why>
        requires post { IsPostOf P.limit laid.now self.old }
        requires back { ComesBack (program_of B.places B.awaits B.left B.asks B.then) laid.now
            rec.old self.old.seat.me.0 self.old.seat.me }
        ensures stays { Stays P.limit self.old self.new result }
        ensures log { Grows self.old.seat self.new.seat }
        ensures goes { IfOk result (λ next. Goes (program_of B.places B.awaits B.left B.asks B.then)
            laid.now next rec.new self.old.seat.me.0 self.new.seat.me) }
        ensures stops { IfOk result Stops }
    {
        let mut next = self.resume(laid, rec)?;
        loop {
            match next {
                Next::Runs => next = self.one_ask(laid, rec)?,
                Next::Waits { .. } | Next::Ends(_) => return Ok(next),
            }
        }
    }

    /// Runs a claimed task until it leaves the worker. It comes back where it has waited in vain:
    /// something had become of its cell as it was to be parked. `parked` gets true where it leaves in a wait.
    // No measure: the record that comes back is the one that was passed, but that it waits (`wait` `same`),
    // and no clause of `run_on` tells how far the task has come.
    #[inline(always)]
    pub(crate) fn run(&mut self, laid: &Laid<B>, rec: Rec<B>, parked: &mut bool) -> Result<(), Why>
        requires post { IsPostOf P.limit laid.now self.old }
        requires back { ComesBack (program_of B.places B.awaits B.left B.asks B.then) laid.now rec
            self.old.seat.me.0 self.old.seat.me }
        ensures stays { Stays P.limit self.old self.new result }
        ensures log { Grows self.old.seat self.new.seat }
        ensures left { OnOk result (IsLeft laid.now self.old.seat.me.0 self.new.seat.me) }
    {
        let rt = self.rt;
        let mut rec = rec;
        for _i in rt.forever() {
            match self.run_on(laid, &mut rec)? {
                Next::Runs => unreachable!(),
                Next::Waits { place, spare } => match wait(
                    laid,
                    &mut self.seat,
                    rec,
                    place,
                    spare,
                ) {
                    None => {
                        *parked = true;
                        return Ok(());
                    }
                    Some(back) => rec = back,
                },
                Next::Ends(ending) => return self.end(laid, rec, ending),
            }
        }
        unreachable!()
    }
}
