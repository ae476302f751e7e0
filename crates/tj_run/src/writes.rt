//! A task makes a promise, or sets one; and it ends.
ghost use Rattle.std.specs.Prelude.{IfOk, OnOk};
ghost use Rattle.tj_body.specs.Programs.{program_of};
ghost use Rattle.tj_body.specs.declared.ask.Ask.TheVariants as ask;
ghost use Rattle.tj_cells.specs.CallLogs.{Grows};
ghost use Rattle.tj_run.specs.Workers.{table_program};
ghost use Rattle.tj_run.specs.Inner.Carried.{IsAsked, IsClosing, RunsTask};
ghost use Rattle.tj_run.specs.Inner.Going.{Goes};
ghost use Rattle.tj_run.specs.Inner.Posts.{IsPostOf, Stays, StaysAsked};
ghost use Rattle.tj_run.specs.Inner.Waits.{IsLeft};

use crate::next::Next;
use crate::pieces::{fill_at, take_out};
use crate::post::Post;
use crate::why::Why;
use std::sync::Wait;
use tj_base::{Pay, Sort};
use tj_body::{Answer, Body, names_and_cells, points_in_rounds};
use tj_cells::{fill, make};
use tj_park::{finish, wake};
use tj_ready::Pool;
use tj_words::{Finish, Held, Hurt, Laid, Rec};

impl<B: Body, P: Pool, R: Wait> Post<'_, B, P, R> {
    /// The task makes a promise, and owns it.
    pub(crate) fn make_promise(&mut self, laid: &Laid<B>, rec: &mut Rec<B>) -> Result<Next, Why>
        requires post { IsPostOf P.limit laid.now self.old }
        requires runs { RunsTask laid.now rec.old self.old.seat.me }
        requires asked { IsAsked (table_program (program_of B.places B.awaits B.left B.asks B.then)
            laid.now) self.old.seat.me.0 rec.old ask.New }
        ensures stays { StaysAsked P.limit self.old self.new rec.old rec.new result }
        ensures log { Grows self.old.seat self.new.seat }
        ensures goes { IfOk result (λ next. Goes (program_of B.places B.awaits B.left B.asks B.then)
            laid.now next rec.new self.old.seat.me.0 self.new.seat.me) }
    {
        points_in_rounds::<B>();
        let t = rec.cell();
        let c = make(laid, &mut self.seat, t, rec.made() + 1)?;
        let place = rec.places();
        rec.hold(Held {
            cell: c,
            sort: Sort::Promise,
        })?;
        rec.own(c)?;
        rec.count_made();
        rec.set_answer(Answer::Local(place));
        Ok(Next::Runs)
    }

    /// The task sets a promise that it owns, and wakes those who wait for it.
    pub fn set(&mut self, laid: &Laid<B>, rec: &mut Rec<B>, place: u32, v: Pay) -> Result<Next, Why>
        requires post { IsPostOf P.limit laid.now self.old }
        requires runs { RunsTask laid.now rec.old self.old.seat.me }
        requires asked { IsAsked (table_program (program_of B.places B.awaits B.left B.asks B.then)
            laid.now) self.old.seat.me.0 rec.old (ask.Set place v) }
        ensures stays { StaysAsked P.limit self.old self.new rec.old rec.new result }
        ensures log { Grows self.old.seat self.new.seat }
        ensures goes { IfOk result (λ next. Goes (program_of B.places B.awaits B.left B.asks B.then)
            laid.now next rec.new self.old.seat.me.0 self.new.seat.me) }
    {
        points_in_rounds::<B>();
        names_and_cells();
        let h = rec.at(place);
        if let Sort::Task = h.sort {
            return Ok(Next::Ends(Finish::Failed(Hurt::Kind)));
        }
        let t = rec.cell();
        let value = fill_at(rec, v);
        if !take_out(rec, h.cell) {
            return Ok(Next::Ends(Finish::Failed(Hurt::Owner(h.cell))));
        }
        fill(laid, &mut self.seat, t, h.cell, value);
        wake(
            self.rt,
            self.alloc,
            laid,
            &mut self.seat,
            h.cell,
            &mut self.pool,
        )?;
        rec.set_answer(Answer::Done);
        Ok(Next::Runs)
    }

    /// The task ends, and leaves the worker.
    #[inline(always)]
    pub(crate) fn end(&mut self, laid: &Laid<B>, rec: Rec<B>, ending: Finish) -> Result<(), Why>
        requires post { IsPostOf P.limit laid.now self.old }
        requires runs { RunsTask laid.now rec self.old.seat.me }
        requires closing { IsClosing (table_program (program_of B.places B.awaits B.left B.asks
            B.then) laid.now) self.old.seat.me.0 rec ending }
        ensures stays { Stays P.limit self.old self.new result }
        ensures log { Grows self.old.seat self.new.seat }
        ensures left { OnOk result (IsLeft laid.now self.old.seat.me.0 self.new.seat.me) }
    {
        let mut rec = rec;
        let t = rec.cell();
        rec.set_finish(ending);
        finish(
            self.rt,
            self.alloc,
            laid,
            &mut self.seat,
            t,
            rec,
            &mut self.pool,
        )?;
        Ok(())
    }
}
