//! How a task goes on once it knows what has become of the cell that it waits for: this is its
//! answer, or it ends the task.
ghost use Rattle.std.specs.Prelude.{◌≡◌, ◌+◌, ◌<◌, ◌^◌, IfErr, IfOk, length};
ghost use Rattle.tj_body.specs.Programs.{program_of};
ghost use Rattle.tj_cells.specs.CallLogs.{Grows};
ghost use Rattle.tj_run.specs.Workers.{table_program};
ghost use Rattle.tj_run.specs.Inner.Carried.{IsWaiting, RunsTask};
ghost use Rattle.tj_run.specs.Inner.Answers.{next_broken, with_lost, with_reference};
ghost use Rattle.tj_run.specs.Inner.Going.{Goes, HasAnswer, IsCauseOfWait};
ghost use Rattle.tj_run.specs.Inner.Posts.{IsPostOf, Stays, StaysAsked};
ghost use Rattle.tj_run.specs.Inner.Waits.{ComesBack};

use crate::next::{Next, Wanted};
use crate::post::Post;
use crate::why::Why;
use std::sync::Wait;
use tj_base::Sort;
use tj_body::{Answer, Body, points_in_rounds};
use tj_cells::{Seen, value};
use tj_ready::Pool;
use tj_words::{Finish, Held, Hurt, Laid, Rec};

impl<B: Body, P: Pool, R: Wait> Post<'_, B, P, R> {
    /// Looks at the cell at the place, for which the task waits: its value is the task's answer.
    /// `Waits` comes only where this call loaded TAG as 0.
    #[inline(always)]
    pub(crate) fn look(&mut self, laid: &Laid<B>, rec: &mut Rec<B>, at: Wanted) -> Result<Next, Why>
        requires post { IsPostOf P.limit laid.now self.old }
        requires runs { RunsTask laid.now rec.old self.old.seat.me }
        requires waiting { IsWaiting (table_program (program_of B.places B.awaits B.left B.asks
            B.then) laid.now) self.old.seat.me.0 rec.old at.place at.spare }
        ensures stays { StaysAsked P.limit self.old self.new rec.old rec.new result }
        ensures log { Grows self.old.seat self.new.seat }
        ensures goes { IfOk result (λ next. Goes (program_of B.places B.awaits B.left B.asks B.then)
            laid.now next rec.new self.old.seat.me.0 self.new.seat.me) }
        ensures waits { IfOk result (λ next. IsCauseOfWait next rec.old at.place at.spare
            self.old.seat.me.0 self.new.seat.me.0) }
    {
        points_in_rounds::<B>();
        let Wanted { place, spare } = at;
        let c = rec.at(place).cell;
        match value(laid, &mut self.seat, c) {
            Seen::NotYet => Ok(Next::Waits { place, spare }),
            Seen::Num(number) => {
                rec.set_answer(Answer::Num(number));
                Ok(Next::Runs)
            }
            Seen::Promise(cell) => add_reference(
                rec,
                Held {
                    cell,
                    sort: Sort::Promise,
                },
            ),
            Seen::Task(cell) => add_reference(
                rec,
                Held {
                    cell,
                    sort: Sort::Task,
                },
            ),
            Seen::Broken => Ok(find_broken(rec, Hurt::Broken(c), spare)),
        }
    }

    /// How a task goes on that was claimed, or has come back: it is at its start, or has an answer.
    #[inline(always)]
    pub(crate) fn resume(&mut self, laid: &Laid<B>, rec: &mut Rec<B>) -> Result<Next, Why>
        requires post { IsPostOf P.limit laid.now self.old }
        requires back { ComesBack (program_of B.places B.awaits B.left B.asks B.then) laid.now
            rec.old self.old.seat.me.0 self.old.seat.me }
        ensures stays { Stays P.limit self.old self.new result }
        ensures log { Grows self.old.seat self.new.seat }
        ensures goes { IfOk result (λ next. Goes (program_of B.places B.awaits B.left B.asks B.then)
            laid.now next rec.new self.old.seat.me.0 self.new.seat.me) }
        ensures answer { IfOk result HasAnswer }
    {
        points_in_rounds::<B>();
        match rec.answer() {
            Answer::RefAt(place) => {
                let spare = rec.spare();
                self.look(laid, rec, Wanted { place, spare })
            }
            _ => Ok(Next::Runs),
        }
    }
}

// The value names a cell, which the task holds from now on.
fn add_reference<B: Body>(rec: &mut Rec<B>, h: Held) -> Result<Next, Why>
    requires room { length rec.old.held + 1 < 2 ^ 31 }
    ensures memory { IfErr result (λ why. why ≡ Why.Memory) }
    ensures runs { IfOk result (λ next. next ≡ Next.Runs) }
    ensures rec { IfOk result (λ _. rec.new ≡ with_reference h rec.old) }
    ensures same { rec.new.body ≡ rec.old.body }
{
    let place = rec.places();
    rec.hold(h)?;
    rec.set_answer(Answer::RefAt(place));
    Ok(Next::Runs)
}

// The cell is broken: that is an answer where the task has something else in its place.
fn find_broken<B: Body>(rec: &mut Rec<B>, hurt: Hurt, spare: bool) -> Next
    ensures next { result ≡ next_broken spare hurt }
    ensures rec { rec.new ≡ with_lost spare rec.old }
{
    if spare {
        rec.set_answer(Answer::Lost);
        return Next::Runs;
    }
    Next::Ends(Finish::Failed(hurt))
}
