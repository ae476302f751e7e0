//! Loads that are events of a walker, where they name one, and steps on OTHERS.
ghost use Rattle.std.specs.Prelude.{◌≡◌, ℕ, ◌<◌, ◌≤◌, ◌^◌, min, None, Some};
ghost use Rattle.tj_events.specs.CoreState.{present};
ghost use Rattle.tj_events.specs.Events.{MayCount, MayReadOthers};
ghost use Rattle.tj_events.specs.Events.{count_read, others_read, wait_found};
ghost use Rattle.tj_words.specs.CallLaws.StepCalls as call;
ghost use Rattle.tj_words.specs.CallLaws.StepLogs.{IsLogged, KeepsBefore};
ghost use Rattle.tj_words.specs.Words.Owners.{owner_number, owner_word};
ghost use Rattle.tj_words.specs.Calls.MetCells.{LoadsOwner, LoadsPhase};
ghost use Rattle.tj_words.specs.Calls.ParkSteps.{FirstTold};
ghost use Rattle.tj_words.specs.Words.Phases.{phase_word};
ghost use Rattle.tj_words.specs.SeatViews.SeatSteps.{IsSameSeat};
ghost use Rattle.tj_words.specs.Steps.StepEvents.{wait_in};
ghost use Rattle.tj_words.specs.Calls.WalkViews.{IsWalking, MayLoadBy, MayLoadOwner, MayLoadWait};
ghost use Rattle.tj_words.specs.Calls.WalkViews.{MayRaise, ReadsCount, lowered};
ghost use Rattle.tj_words.specs.Calls.WalkViews.{owner_seen, read_on};
ghost use Rattle.tj_words.specs.Calls.WalkViews.{turned};

use crate::offsets::{COUNT, OTHERS, own_at, phase_at};
use crate::owner::owner_of_word;
use crate::phase::Phase;
use crate::plays::Naming;
use crate::table::{Laid, WSeat};
use crate::view::{Does, Noted};
use crate::walk_plays::{
    OthersAdd, OthersSubtraction, WalkerCount, WalkerOthers, WalkerOwner, WalkerWait,
};
use std::marker::Brand;
use tj_base::CellId;
use tj_body::Body;
use tj_events::{event_keeps_facts, others_are_few};

impl<B: Body> Laid<B> {
    /// How many cells are there. A walker that counts has its bound then; where nobody walks, the view says what was
    /// loaded.
    pub fn count(&self, seat: &mut WSeat<B>, by: Option<CellId>) -> u32
        requires table { seat.old.table_id ≡ self.now.table.shared.table_id }
        requires walks { MayLoadBy by (λ t p way w. MayCount way w) seat.old.me.0 }
        // The seat is the same one of the same table, with the same slots.
        ensures seat { IsSameSeat seat.old seat.new }
        // A walker that is named has its bound from then on; where none is, the view notes what the
        // step found in COUNT, of which the answer is as many as are cells of the table.
        ensures view { ReadsCount by self.now.cells result seat.old.me.0 seat.new.me.0 }
        // Some cell is there.
        ensures some { 0 < result }
        // There are no more than the table has.
        ensures few { result ≤ self.now.cells }
        // The seat's log is longer by one entry: COUNT was loaded, and a number found of which the
        // answer is as many as are cells of the table.
        ensures log { (n : ℕ) × (result ≡ min n self.now.cells)
            × IsLogged call.counts 0 0 n seat.old seat.new }
        // Beside this entry the seat keeps the view that it had before the step.
        ensures before { KeepsBefore seat.old seat.new }
    {
        match by {
            None => self.plain_count(seat),
            Some(t) => self.walker_count::<Brand>(seat, t),
        }
    }

    fn walker_count<M: Naming>(&self, seat: &mut WSeat<B>, t: CellId) -> u32
        requires named { M.task ≡ t.0 }
        requires table { seat.old.table_id ≡ self.now.table.shared.table_id }
        requires walks { IsWalking t.0 (λ p way w. MayCount way w) seat.old.me.0 }
        ensures seat { IsSameSeat seat.old seat.new }
        ensures view { seat.new.me.0 ≡ read_on t.0 (count_read result) seat.old.me.0 }
        ensures some { 0 < result }
        ensures few { result ≤ self.now.cells }
        ensures log { (n : ℕ) × (result ≡ min n self.now.cells)
            × IsLogged call.counts 0 0 n seat.old seat.new }
        ensures before { KeepsBefore seat.old seat.new }
    {
        event_keeps_facts();
        let _ = t;
        let found = self.table.load::<WalkerCount<M>>(seat, COUNT);
        found.min(self.cells as u64) as u32
    }

    /// The owner of a cell. A walker reads that of its present cell, and then again. Where nobody walks, the view says
    /// what was loaded; and where there is an owner, the seat knows both from now on.
    pub fn see_owner(&self, seat: &mut WSeat<B>, c: CellId, by: Option<CellId>) -> Option<CellId>
        requires table { seat.old.table_id ≡ self.now.table.shared.table_id }
        requires cell { c.0 < self.now.cells }
        requires walks { MayLoadBy by (λ t p way w. (c.0 ≡ present p w.trail) × MayLoadOwner w)
            seat.old.me.0 }
        // The seat is the same one of the same table, with the same slots.
        ensures seat { IsSameSeat seat.old seat.new }
        // A walker that is named has read the owner of its present cell, for the first or for the
        // second time; where none is, the view notes that the step found the word of this owner in
        // OWN of the cell, and if there is an owner, the seat knows both from then on, with their
        // names.
        ensures view { LoadsOwner by self.now.cells c.0 result seat.old.me.0 seat.new.me.0 }
        // An owner is one of the cells of the table.
        ensures task { (u : CellId) → result ≡ Some u → u.0 < self.now.cells }
        // The seat's log is longer by one entry, whether a walker is named or not: OWN of the cell
        // was loaded, and the word of this owner found.
        ensures log { IsLogged (call.sees_owner c.0) 0 0 (owner_word (owner_number result))
            seat.old seat.new }
        // Beside this entry the seat keeps the view that it had before the step.
        ensures before { KeepsBefore seat.old seat.new }
    {
        match by {
            None => self.plain_owner(seat, c),
            Some(t) => self.walker_owner::<Brand>(seat, c, t),
        }
    }

    fn walker_owner<M: Naming>(&self, seat: &mut WSeat<B>, c: CellId, t: CellId) -> Option<CellId>
        requires named { M.task ≡ t.0 }
        requires table { seat.old.table_id ≡ self.now.table.shared.table_id }
        requires cell { c.0 < self.now.cells }
        requires walks { IsWalking t.0 (λ p way w. (c.0 ≡ present p w.trail) × MayLoadOwner w)
            seat.old.me.0 }
        ensures seat { IsSameSeat seat.old seat.new }
        ensures view { seat.new.me.0
            ≡ read_on t.0 (λ w. owner_seen (owner_number result) w w.last) seat.old.me.0 }
        ensures task { (u : CellId) → result ≡ Some u → u.0 < self.now.cells }
        ensures log { IsLogged (call.sees_owner c.0) 0 0 (owner_word (owner_number result))
            seat.old seat.new }
        ensures before { KeepsBefore seat.old seat.new }
    {
        event_keeps_facts();
        let _ = t;
        owner_of_word(self.table.load::<WalkerOwner<M>>(seat, own_at(c)))
    }

    /// The phase of a cell. Where nobody walks, the view says what was loaded; and where the cell is the first of the
    /// seat's rest, the way of its wait is known then. A seat without a rest knows the cell from now on, where that is
    /// a task that has begun.
    pub fn see_phase(&self, seat: &mut WSeat<B>, t: CellId, by: Option<CellId>) -> Phase
        requires table { seat.old.table_id ≡ self.now.table.shared.table_id }
        requires cell { t.0 < self.now.cells }
        requires walks { MayLoadBy by (λ walker p way w. MayLoadWait walker t.0 w) seat.old.me.0 }
        // The seat is the same one of the same table, with the same slots.
        ensures seat { IsSameSeat seat.old seat.new }
        // A walker that is named has read what the owner waits for; where none is, the view notes
        // that the step found the word of this phase in PHASE of the cell, and has the way of the
        // wait where the task is the first of the seat's rest. A seat without such a rest knows the
        // cell from then on, with its name, where it is a task that has begun.
        ensures view { LoadsPhase by self.now.cells t.0 result seat.old.me.0 seat.new.me.0 }
        // The first task of the seat's rest is found parked on the rest's cell.
        ensures first { by ≡ None → FirstTold t.0 result seat.old.me.0 }
        // A cell that is waited for is one of those of the table.
        ensures wait { (c : ℕ) → wait_in result ≡ Some c → c < self.now.cells }
        // The seat's log is longer by one entry, whether a walker is named or not: PHASE of the
        // cell was loaded, and the word of this phase found.
        ensures log { IsLogged (call.sees_phase t.0) 0 0 (phase_word result) seat.old seat.new }
        // Beside this entry the seat keeps the view that it had before the step.
        ensures before { KeepsBefore seat.old seat.new }
    {
        match by {
            None => self.plain_phase(seat, t),
            Some(walker) => self.walker_wait::<Brand>(seat, t, walker),
        }
    }

    fn walker_wait<M: Naming>(&self, seat: &mut WSeat<B>, u: CellId, t: CellId) -> Phase
        requires named { M.task ≡ t.0 }
        requires table { seat.old.table_id ≡ self.now.table.shared.table_id }
        requires cell { u.0 < self.now.cells }
        requires walks { IsWalking t.0 (λ p way w. MayLoadWait t.0 u.0 w) seat.old.me.0 }
        ensures seat { IsSameSeat seat.old seat.new }
        ensures view { seat.new.me.0 ≡ read_on t.0 (wait_found u.0 (wait_in result)) seat.old.me.0 }
        ensures wait { (c : ℕ) → wait_in result ≡ Some c → c < self.now.cells }
        ensures log { IsLogged (call.sees_phase u.0) 0 0 (phase_word result) seat.old seat.new }
        ensures before { KeepsBefore seat.old seat.new }
    {
        event_keeps_facts();
        let _ = t;
        Phase::of_word(self.table.load::<WalkerWait<M>>(seat, phase_at(u)))
    }

    /// OTHERS, at least the number of the other waits that are published.
    pub fn others(&self, seat: &mut WSeat<B>, by: CellId) -> u32
        requires table { seat.old.table_id ≡ self.now.table.shared.table_id }
        requires walks { IsWalking by.0 (λ p way w. MayReadOthers way w) seat.old.me.0 }
        // The seat is the same one of the same table, with the same slots.
        ensures seat { IsSameSeat seat.old seat.new }
        // The walker has read OTHERS as this number.
        ensures view { seat.new.me.0 ≡ read_on by.0 (others_read result) seat.old.me.0 }
        // The seat's log is longer by one entry: OTHERS was loaded, and this number found.
        ensures log { IsLogged (call.sees_others_by by.0) 0 0 result seat.old seat.new }
        // Beside this entry the seat keeps the view that it had before the step.
        ensures before { KeepsBefore seat.old seat.new }
    {
        self.walker_others::<Brand>(seat, by) as u32
    }

    fn walker_others<M: Naming>(&self, seat: &mut WSeat<B>, t: CellId) -> u64
        requires named { M.task ≡ t.0 }
        requires table { seat.old.table_id ≡ self.now.table.shared.table_id }
        requires walks { IsWalking t.0 (λ p way w. MayReadOthers way w) seat.old.me.0 }
        ensures seat { IsSameSeat seat.old seat.new }
        ensures view { seat.new.me.0 ≡ read_on t.0 (others_read result) seat.old.me.0 }
        ensures few { result < 2 ^ 32 }
        ensures log { IsLogged (call.sees_others_by t.0) 0 0 result seat.old seat.new }
        ensures before { KeepsBefore seat.old seat.new }
    {
        event_keeps_facts();
        others_are_few();
        let _ = t;
        self.table.load::<WalkerOthers<M>>(seat, OTHERS)
    }

    /// Raises OTHERS for a wait that comes next.
    pub fn others_up(&self, seat: &mut WSeat<B>, t: CellId)
        requires table { seat.old.table_id ≡ self.now.table.shared.table_id }
        requires runs { MayRaise t.0 seat.old.me.0 }
        // The seat is the same one of the same table, with the same slots.
        ensures seat { IsSameSeat seat.old seat.new }
        // The task has raised OTHERS, and nothing else of the view is changed.
        ensures view { seat.new.me.0 ≡ turned t.0 (λ _. Does.Raised) seat.old.me.0 }
        // The seat's log is longer by one entry: 1 was added to OTHERS.
        ensures log { (n : ℕ) × IsLogged (call.raises_others t.0) 1 0 n seat.old seat.new }
        // Beside this entry the seat keeps the view that it had before the step.
        ensures before { KeepsBefore seat.old seat.new }
    {
        self.add_other::<Brand>(seat, t);
    }

    fn add_other<M: Naming>(&self, seat: &mut WSeat<B>, t: CellId)
        requires named { M.task ≡ t.0 }
        requires table { seat.old.table_id ≡ self.now.table.shared.table_id }
        requires runs { MayRaise t.0 seat.old.me.0 }
        ensures seat { IsSameSeat seat.old seat.new }
        ensures view { seat.new.me.0 ≡ turned t.0 (λ _. Does.Raised) seat.old.me.0 }
        ensures log { (n : ℕ) × IsLogged (call.raises_others t.0) 1 0 n seat.old seat.new }
        ensures before { KeepsBefore seat.old seat.new }
    {
        event_keeps_facts();
        others_are_few();
        let _ = t;
        self.table.fetch_add::<OthersAdd<M>>(seat, OTHERS, 1);
    }

    /// Lowers OTHERS for a wait that the seat has cleared.
    pub fn others_down(&self, seat: &mut WSeat<B>)
        requires table { seat.old.table_id ≡ self.now.table.shared.table_id }
        requires cleared { 0 < seat.old.me.0.cleared }
        // The seat is the same one of the same table, with the same slots.
        ensures seat { IsSameSeat seat.old seat.new }
        // The seat has one cleared wait less to lower OTHERS for.
        ensures view { seat.new.me.0 ≡ lowered seat.old.me.0 }
        // The seat's log is longer by one entry: 1 was subtracted from OTHERS.
        ensures log { (n : ℕ) × IsLogged call.lowers_others 1 0 n seat.old seat.new }
        // Beside this entry the seat keeps the view that it had before the step.
        ensures before { KeepsBefore seat.old seat.new }
    {
        event_keeps_facts();
        others_are_few();
        self.table.fetch_sub::<OthersSubtraction>(seat, OTHERS, 1);
    }
}
