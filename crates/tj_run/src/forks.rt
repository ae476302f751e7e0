//! A task forks a child: the handed places are tested first, from the left; then the child is born,
//! gets the promises handed to it, and is released to the worker's own end of the pool.
ghost use Rattle.std.specs.Prelude.{◌≡◌, ◌≢◌, ◌+◌, ◌<◌, ◌^◌, [], ◌∷◌, IfErr, IfOk, OnOk, length};
ghost use Rattle.tj_body.specs.Programs.{program_of};
ghost use Rattle.tj_body.specs.declared.ask.Ask.TheVariants as ask;
ghost use Rattle.tj_words.specs.SeatViews.SeatSteps.{IsCellOf, IsSameSeat, IsSeatOf};
ghost use Rattle.tj_words.specs.Words.Lists.{All};
ghost use Rattle.tj_cells.specs.CallLogs.{Grows};
ghost use Rattle.tj_run.specs.Workers.{table_program};
ghost use Rattle.tj_run.specs.Inner.Carried.{IsAsked, RunsTask};
ghost use Rattle.tj_run.specs.Inner.Children.{MayGiveEach, gave_each, with_child};
ghost use Rattle.tj_run.specs.Inner.Going.{Goes};
ghost use Rattle.tj_run.specs.Inner.Posts.{IsPostOf, StaysAsked};

use crate::next::Next;
use crate::pieces::{bare_child, cells_of, hand_all, held_at};
use crate::post::Post;
use crate::why::Why;
use std::sync::Wait;
use tj_base::{CellId, CellList, PlaceList, Sort};
use tj_body::{Answer, Body, names_and_cells, points_in_rounds};
use tj_cells::{birth, hand};
use tj_park::release;
use tj_ready::Pool;
use tj_words::{Finish, Held, Laid, Rec, WSeat};

impl<B: Body, P: Pool, R: Wait> Post<'_, B, P, R> {
    /// The task forks a child with this body, which is passed and handed these places, if the task owns
    /// what it hands.
    pub(crate) fn fork(
        &mut self,
        laid: &Laid<B>,
        rec: &mut Rec<B>,
        body: B,
        pass: PlaceList,
        handed: PlaceList,
    ) -> Result<Next, Why>
        requires post { IsPostOf P.limit laid.now self.old }
        requires runs { RunsTask laid.now rec.old self.old.seat.me }
        requires asked { IsAsked (table_program (program_of B.places B.awaits B.left B.asks B.then)
            laid.now) self.old.seat.me.0 rec.old (ask.Fork body pass handed) }
        ensures stays { StaysAsked P.limit self.old self.new rec.old rec.new result }
        ensures log { Grows self.old.seat self.new.seat }
        ensures goes { IfOk result (λ next. Goes (program_of B.places B.awaits B.left B.asks B.then)
            laid.now next rec.new self.old.seat.me.0 self.new.seat.me) }
    {
        points_in_rounds::<B>();
        names_and_cells();
        if handed.items().is_empty() {
            return self.fork_bare(laid, rec, body, pass);
        }
        let given = held_at(self.alloc, rec, handed.items())?;
        let left = match hand_all(self.alloc, rec.promises(), given.as_slice())? {
            Ok(left) => left,
            Err(hurt) => return Ok(Next::Ends(Finish::Failed(hurt))),
        };
        let passed = held_at(self.alloc, rec, pass.items())?;
        let promises = cells_of(self.alloc, given.as_slice())?;
        let t = rec.cell();
        let c = birth(laid, &mut self.seat, t, rec.made() + 1)?;
        hand_each(laid, &mut self.seat, t, promises.as_slice(), c);
        let child = Rec::at_start(self.alloc, c, body, passed, promises)?;
        release(
            self.rt,
            self.alloc,
            laid,
            &mut self.seat,
            c,
            child,
            &mut self.pool,
        )?;
        note_child(rec, c, left)
    }

    // A fork that hands nothing: the task owns what it owned.
    #[inline(always)]
    fn fork_bare(
        &mut self,
        laid: &Laid<B>,
        rec: &mut Rec<B>,
        body: B,
        pass: PlaceList,
    ) -> Result<Next, Why>
        requires post { IsPostOf P.limit laid.now self.old }
        requires runs { RunsTask laid.now rec.old self.old.seat.me }
        requires asked { IsAsked (table_program (program_of B.places B.awaits B.left B.asks B.then)
            laid.now) self.old.seat.me.0 rec.old (ask.Fork body pass []) }
        ensures stays { StaysAsked P.limit self.old self.new rec.old rec.new result }
        ensures log { Grows self.old.seat self.new.seat }
        ensures goes { IfOk result (λ next. Goes (program_of B.places B.awaits B.left B.asks B.then)
            laid.now next rec.new self.old.seat.me.0 self.new.seat.me) }
    {
        points_in_rounds::<B>();
        names_and_cells();
        let t = rec.cell();
        let c = birth(laid, &mut self.seat, t, rec.made() + 1)?;
        let child = bare_child(self.alloc, c, body, rec, pass.items())?;
        release(
            self.rt,
            self.alloc,
            laid,
            &mut self.seat,
            c,
            child,
            &mut self.pool,
        )?;
        note_made(rec, c)
    }
}

// Task `t` hands these promises to its child.
fn hand_each<B: Body>(
    laid: &Laid<B>,
    seat: &mut WSeat<B>,
    t: CellId,
    promises: &[CellId],
    child: CellId,
)
    requires table { IsSeatOf laid.now seat.old }
    requires cells { All (λ (p : CellId). IsCellOf laid.now p.0) promises.now }
    requires may { MayGiveEach t.0 promises.now child.0 seat.old.me.0 }
    ensures seat { IsSameSeat seat.old seat.new }
    ensures view { seat.new.me.0 ≡ gave_each t.0 promises.now child.0 seat.old.me.0 }
    ensures log { Grows seat.old seat.new }
{
    for p in promises {
        hand(laid, seat, t, *p, child);
    }
}

// The record holds the child, and owns its result and what is left.
fn note_child<B: Body>(rec: &mut Rec<B>, c: CellId, left: CellList) -> Result<Next, Why>
    requires room { length rec.old.held + 1 < 2 ^ 31 }
    requires few { rec.old.made + 1 < 2 ^ 31 }
    requires owns { rec.old.owned ≢ [] }
    ensures memory { IfErr result (λ why. why ≡ Why.Memory) }
    ensures runs { IfOk result (λ next. next ≡ Next.Runs) }
    ensures rec { OnOk result (rec.new ≡ with_child c (rec.old.cell ∷ left) rec.old) }
    ensures same { rec.new.body ≡ rec.old.body }
{
    rec.set_promises(left.into_vec());
    note_made(rec, c)
}

// The record holds the child.
#[inline(always)]
fn note_made<B: Body>(rec: &mut Rec<B>, c: CellId) -> Result<Next, Why>
    requires room { length rec.old.held + 1 < 2 ^ 31 }
    requires few { rec.old.made + 1 < 2 ^ 31 }
    ensures memory { IfErr result (λ why. why ≡ Why.Memory) }
    ensures runs { IfOk result (λ next. next ≡ Next.Runs) }
    ensures rec { OnOk result (rec.new ≡ with_child c rec.old.owned rec.old) }
    ensures same { rec.new.body ≡ rec.old.body }
{
    let place = rec.places();
    rec.hold(Held {
        cell: c,
        sort: Sort::Task,
    })?;
    rec.count_made();
    rec.set_answer(Answer::Local(place));
    Ok(Next::Runs)
}
