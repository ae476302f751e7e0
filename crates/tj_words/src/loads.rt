//! Loads that are no event of the core.
ghost use Rattle.std.specs.Prelude.{◌≡◌, ◌≢◌, ℕ, ◌<◌, ◌≤◌, min, None, Some};
ghost use Rattle.tj_body.specs.Points.{IsIn};
ghost use Rattle.tj_body.specs.Programs.{program_of};
ghost use Rattle.tj_words.specs.CallLaws.StepCalls as call;
ghost use Rattle.tj_words.specs.CallLaws.StepLogs.{IsLogged, KeepsBefore};
ghost use Rattle.tj_words.specs.SeatViews.FullMeaning.{NamesFull};
ghost use Rattle.tj_words.specs.Words.Heads as heads;
ghost use Rattle.tj_words.specs.Calls.MetCells.{SeesOwner, SeesPhase};
ghost use Rattle.tj_words.specs.Calls.ParkSteps.{FirstTold};
ghost use Rattle.tj_words.specs.Words.Phases as phases;
ghost use Rattle.tj_words.specs.SeatViews.SeatSteps.{IsSameSeat};
ghost use Rattle.tj_words.specs.SeatViews.SeenWords.{FindsChain, FindsShut, MayRead, NextTold};
ghost use Rattle.tj_words.specs.SeatViews.SeenWords.{SeesOnce};
ghost use Rattle.tj_words.specs.SeatViews.SeatSteps as steps;
ghost use Rattle.tj_words.specs.Steps.StepEvents.{wait_in};
ghost use Rattle.tj_words.specs.Words.Codes as codes;
ghost use Rattle.tj_words.specs.Words.Owners.{owner_number, owner_word};
ghost use Rattle.tj_words.specs.Calls.WalkViews.{ReadsCount};
ghost use Rattle.tj_words.specs.SeatViews.Views.{noted_step, saw_live, saw_rest};
ghost use Rattle.tj_words.specs.SeatViews.Views.{saw_stop};

use crate::head::Head;
use crate::offsets::{COUNT, LIVE, Once, STOP, head_at, next_at, once_at, own_at, phase_at};
use crate::owner::owner_of_word;
use crate::phase::Phase;
use crate::plays::{
    CountLoad, HeadLoad, LiveLoad, NextLoad, OnceLoad, OwnerLoad, PhaseLoad, StopLoad,
};
use crate::table::{Laid, WSeat};
use crate::view::Noted;
use tj_base::CellId;
use tj_body::Body;
use tj_tree::links_lead_to_tasks;

impl<B: Body> Laid<B> {
    /// LIVE. Where it is 0, nothing goes on any more. The view says what was loaded.
    pub fn live(&self, seat: &mut WSeat<B>) -> u32
        requires table { seat.old.table_id ≡ self.now.table.shared.table_id }
        // The seat is the same one of the same table, with the same slots.
        ensures seat { IsSameSeat seat.old seat.new }
        // Where LIVE is loaded as 0, the seat knows it, and its view has this as the last of its
        // notes.
        ensures rested { result ≡ 0 → seat.new.me.0 ≡ saw_rest seat.old.me.0 }
        // Where it isn't 0, the seat has made a step, and its view has this, with what was found,
        // as the last of its notes.
        ensures live { result ≢ 0 → seat.new.me.0 ≡ saw_live result seat.old.me.0 }
        // The seat's log is longer by one entry: LIVE was loaded, and this number found.
        ensures log { IsLogged call.sees_live 0 0 result seat.old seat.new }
        // Beside this entry the seat keeps the view that it had before the step.
        ensures before { KeepsBefore seat.old seat.new }
    {
        self.table.load::<LiveLoad>(seat, LIVE) as u32
    }

    /// STOP. It is 1 only where the meaning is full. The view says what was loaded last.
    pub fn stopped(&self, seat: &mut WSeat<B>) -> u64
        requires table { seat.old.table_id ≡ self.now.table.shared.table_id }
        // The seat is the same one of the same table, with the same slots.
        ensures seat { IsSameSeat seat.old seat.new }
        // The seat has made a step, and its view says that this was loaded last, and has it among
        // what was told and as the last of its notes.
        ensures view { seat.new.me.0 ≡ saw_stop result seat.old.me.0 }
        // STOP is 0, 1 or 2.
        ensures stop { result ≤ 2 }
        // Where it is 1, the meaning of the program with the number of cells that the view names is
        // full.
        ensures full { result ≡ 1
            → NamesFull (program_of B.places B.awaits B.left B.asks B.then) seat.old.me.0 }
        // It isn't 0 where this seat has stored something there.
        ensures stands { (n : ℕ) → IsIn n seat.old.me.0.stored → result ≢ 0 }
        // The seat's log is longer by one entry: STOP was loaded, and this number found.
        ensures log { IsLogged call.sees_stop 0 0 result seat.old seat.new }
        // Beside this entry the seat keeps the view that it had before the step.
        ensures before { KeepsBefore seat.old seat.new }
    {
        self.table.load::<StopLoad>(seat, STOP)
    }

    /// How many cells are there.
    pub(crate) fn plain_count(&self, seat: &mut WSeat<B>) -> u32
        requires table { seat.old.table_id ≡ self.now.table.shared.table_id }
        ensures seat { IsSameSeat seat.old seat.new }
        ensures view { ReadsCount None self.now.cells result seat.old.me.0 seat.new.me.0 }
        ensures some { 0 < result }
        ensures few { result ≤ self.now.cells }
        ensures log { (n : ℕ) × (result ≡ min n self.now.cells)
            × IsLogged call.counts 0 0 n seat.old seat.new }
        ensures before { KeepsBefore seat.old seat.new }
    {
        let found = self.table.load::<CountLoad>(seat, COUNT);
        found.min(self.cells as u64) as u32
    }

    /// The owner of a cell. Where there is one, the seat knows both from now on.
    pub(crate) fn plain_owner(&self, seat: &mut WSeat<B>, c: CellId) -> Option<CellId>
        requires table { seat.old.table_id ≡ self.now.table.shared.table_id }
        requires cell { c.0 < self.now.cells }
        ensures seat { IsSameSeat seat.old seat.new }
        ensures view { SeesOwner self.now.cells c.0 (owner_number result) seat.old.me.0 seat.new.me.0 }
        ensures task { (u : CellId) → result ≡ Some u → u.0 < self.now.cells }
        ensures log { IsLogged (call.sees_owner c.0) 0 0 (owner_word (owner_number result))
            seat.old seat.new }
        ensures before { KeepsBefore seat.old seat.new }
    {
        owner_of_word(self.table.load::<OwnerLoad>(seat, own_at(c)))
    }

    /// The phase of a cell. Where it is the first of the seat's rest, the way of its wait is known then; a seat without
    /// a rest knows the cell from now on, where that is a task that has begun.
    pub(crate) fn plain_phase(&self, seat: &mut WSeat<B>, t: CellId) -> Phase
        requires table { seat.old.table_id ≡ self.now.table.shared.table_id }
        requires cell { t.0 < self.now.cells }
        ensures seat { IsSameSeat seat.old seat.new }
        ensures view { SeesPhase self.now.cells t.0 result seat.old.me.0 seat.new.me.0 }
        ensures first { FirstTold t.0 result seat.old.me.0 }
        ensures wait { (c : ℕ) → wait_in result ≡ Some c → c < self.now.cells }
        ensures log { IsLogged (call.sees_phase t.0) 0 0 (phases.phase_word result)
            seat.old seat.new }
        ensures before { KeepsBefore seat.old seat.new }
    {
        Phase::of_word(self.table.load::<PhaseLoad>(seat, phase_at(t)))
    }

    /// The head of the chain of those who wait for a cell.
    pub fn head(&self, seat: &mut WSeat<B>, p: CellId) -> Head
        requires table { seat.old.table_id ≡ self.now.table.shared.table_id }
        requires cell { p.0 < self.now.cells }
        // The seat is the same one of the same table, with the same slots.
        ensures seat { IsSameSeat seat.old seat.new }
        // Where the head is shut, the seat knows that it is, and that something has become of the
        // cell.
        ensures shut { result ≡ Head.Shut
            → FindsShut (program_of B.places B.awaits B.left B.asks B.then)
            self.now.cells p.0 seat.old.me.0 seat.new.me.0 }
        // Where it is open, the seat knows the chain that it begins, of which each chain that it
        // found there before is an end.
        ensures open { result ≢ Head.Shut
            → FindsChain self.now.cells p.0 result seat.old.me.0 seat.new.me.0 }
        // The seat's log is longer by one entry: HEAD of the cell was loaded, and the word of this
        // head found.
        ensures log { IsLogged (call.sees_head p.0) 0 0 (heads.head_word result) seat.old seat.new }
        // Beside this entry the seat keeps the view that it had before the step.
        ensures before { KeepsBefore seat.old seat.new }
    {
        Head::of_word(self.table.load::<HeadLoad>(seat, head_at(p)))
    }

    /// What NEXT of a task names. The view says what was loaded.
    pub fn next_of(&self, seat: &mut WSeat<B>, t: CellId) -> Head
        requires table { seat.old.table_id ≡ self.now.table.shared.table_id }
        requires cell { t.0 < self.now.cells }
        // The seat is the same one of the same table, with the same slots.
        ensures seat { IsSameSeat seat.old seat.new }
        // The seat has made a step, of which its view notes that it found the word of this head in
        // NEXT of the task.
        ensures view { seat.new.me.0
            ≡ noted_step (Noted.Next t.0) (heads.head_word result) seat.old.me.0 }
        // It names one of the cells of the table, or nothing.
        ensures small { heads.head_word result ≤ self.now.cells }
        // Of the first task of the seat's rest NEXT names the next one of the rest.
        ensures first { NextTold t.0 result seat.old.me.0 }
        // The seat's log is longer by one entry: NEXT of the task was loaded, and the word of this
        // head found.
        ensures log { IsLogged (call.sees_next t.0) 0 0 (heads.head_word result) seat.old seat.new }
        // Beside this entry the seat keeps the view that it had before the step.
        ensures before { KeepsBefore seat.old seat.new }
    {
        Head::of_word(self.table.load::<NextLoad>(seat, next_at(t)))
    }

    /// A word that is written once.
    pub fn see_once(&self, seat: &mut WSeat<B>, c: CellId, f: Once) -> u64
        requires table { seat.old.table_id ≡ self.now.table.shared.table_id }
        requires cell { c.0 < self.now.cells }
        requires may { MayRead f c.0 seat.old.me.0 }
        // The seat is the same one of the same table, with the same slots.
        ensures seat { IsSameSeat seat.old seat.new }
        // After a load of TAG as another number than 0 the seat knows the cell and what has become
        // of it: an entry that the cell's name has in some round, and the same one as before, if it
        // knew one. TAG is 0 only if it knew none. If it knew one, BITS says what this entry says.
        // After the load of a word of the tree of forks the seat knows the word, and a tree that has
        // all nodes that it has seen.
        ensures sees { SeesOnce (program_of B.places B.awaits B.left B.asks B.then)
            self.now.cells f c.0 result seat.old.me.0 seat.new.me.0 }
        // The seat's log is longer by one entry: this word of the cell was loaded, and this number
        // found.
        ensures log { IsLogged (call.sees_once c.0 f) 0 0 result seat.old seat.new }
        // Beside this entry the seat keeps the view that it had before the step.
        ensures before { KeepsBefore seat.old seat.new }
    {
        links_lead_to_tasks();
        self.table.load::<OnceLoad>(seat, once_at(c, f))
    }
}
