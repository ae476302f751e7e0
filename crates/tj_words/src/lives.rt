//! Steps on LIVE and STOP, and the exchange of what lies in a slot that a seat has.
ghost use Rattle.std.specs.Prelude.{◌≡◌, ℕ, ◌<◌, ◌≤◌, ◌∷◌};
ghost use Rattle.atomic_table.specs.Table.{rest};
ghost use Rattle.tj_body.specs.Programs.{program_of};
ghost use Rattle.tj_words.specs.CallLaws.StepCalls as call;
ghost use Rattle.tj_words.specs.CallLaws.StepLogs.{IsLogged, KeepsBefore, LogStays};
ghost use Rattle.tj_words.specs.Calls.LiveViews.{HasSlot, MayLowerLive, MayRaiseLive};
ghost use Rattle.tj_words.specs.Calls.LiveViews.{live_lowered, live_raised};
ghost use Rattle.tj_words.specs.SeatViews.SeatSteps.{IsSameSeat};
ghost use Rattle.tj_words.specs.SeatViews.Views.{stored_stop};

use crate::live_plays::{LiveAdd, LiveSub, StopStore};
use crate::offsets::{LIVE, STOP};
use crate::table::{Laid, WSeat};
use tj_base::CellId;
use tj_body::Body;
use tj_record::Rec;

impl<B: Body> Laid<B> {
    /// Takes a token. The record of an unborn task that was put into its slot comes home.
    pub fn live_up(&self, seat: &mut WSeat<B>)
        requires table { seat.old.table_id ≡ self.now.table.shared.table_id }
        requires may { MayRaiseLive (program_of B.places B.awaits B.left B.asks B.then)
            seat.old.me }
        // The seat is one of the same table.
        ensures table { seat.new.table_id ≡ seat.old.table_id }
        // It is the same seat.
        ensures id { seat.new.id ≡ seat.old.id }
        // The seat has one token more; a record that was put into the slot taken last is home, among
        // those that the seat put there, and its slot given back.
        ensures me { seat.new.me ≡ live_raised seat.old.me }
        // The seat's log is longer by one entry: 1 was added to LIVE.
        ensures log { (n : ℕ) × IsLogged call.raises_live 1 0 n seat.old seat.new }
        // Beside this entry the seat keeps the view that it had before the step.
        ensures before { KeepsBefore seat.old seat.new }
    {
        self.table.fetch_add::<LiveAdd>(seat, LIVE, 1);
    }

    /// Gives up a token. The record of a task that has alarmed, which was put into its slot, comes
    /// home, and the task leaves the seat.
    pub fn live_down(&self, seat: &mut WSeat<B>)
        requires table { seat.old.table_id ≡ self.now.table.shared.table_id }
        requires may { MayLowerLive (program_of B.places B.awaits B.left B.asks B.then)
            seat.old.me }
        // The seat is one of the same table.
        ensures table { seat.new.table_id ≡ seat.old.table_id }
        // It is the same seat.
        ensures id { seat.new.id ≡ seat.old.id }
        // The seat has one token less; where a record was put into the slot taken last, it is home,
        // among those that the seat put there, its slot is given back, and the task that has alarmed
        // has left the seat.
        ensures me { seat.new.me ≡ live_lowered seat.old.me }
        // The seat's log is longer by one entry: 1 was subtracted from LIVE.
        ensures log { (n : ℕ) × IsLogged call.lowers_live 1 0 n seat.old seat.new }
        // Beside this entry the seat keeps the view that it had before the step.
        ensures before { KeepsBefore seat.old seat.new }
    {
        self.table.fetch_sub::<LiveSub>(seat, LIVE, 1);
    }

    /// Ends the run: 1 says that it is full, which needs a refused draw, and 2 that memory is
    /// lacking. The view says what was stored.
    pub fn stop(&self, seat: &mut WSeat<B>, w: u64)
        requires table { seat.old.table_id ≡ self.now.table.shared.table_id }
        requires some { 0 < w }
        requires known { w ≤ 2 }
        requires refused { w ≡ 1 → 0 < seat.old.me.0.refused }
        // The seat is one of the same table.
        ensures table { seat.new.table_id ≡ seat.old.table_id }
        // It is the same seat.
        ensures id { seat.new.id ≡ seat.old.id }
        // The seat has made a step, of which its view notes that it stored this number into STOP,
        // and has it among what was stored; nothing else of it is changed.
        ensures me { seat.new.me
            ≡ (stored_stop w seat.old.me.0, seat.old.me.1) }
        // The seat's log is longer by one entry: this number was stored into STOP.
        ensures log { IsLogged call.stops w 0 w seat.old seat.new }
        // Beside this entry the seat keeps the view that it had before the step.
        ensures before { KeepsBefore seat.old seat.new }
    {
        self.table.store::<StopStore>(seat, STOP, w);
    }

    /// Puts a record into the slot of t, or takes it out. The seat has taken that slot last.
    // Of the slot taken last alone: a step can give back only the first of a seat's slots.
    #[inline(always)]
    pub fn slot_swap(&self, seat: &mut WSeat<B>, t: CellId, rec: Option<Rec<B>>) -> Option<Rec<B>>
        requires table { seat.old.table_id ≡ self.now.table.shared.table_id }
        requires slot { HasSlot t.0 seat.old.me }
        // The seat is one of the same table.
        ensures table { seat.new.table_id ≡ seat.old.table_id }
        // It is the same seat.
        ensures id { seat.new.id ≡ seat.old.id }
        // What is given is what lay in the slot.
        ensures found { seat.old.me.1 ≡ (t.0, result) ∷ rest seat.old.me.1 }
        // The record that is passed lies in the slot, and nothing else of the seat is changed.
        ensures me { seat.new.me ≡ (seat.old.me.0, (t.0, rec) ∷ rest seat.old.me.1) }
        // No step was made: the seat's log is as it was.
        ensures log { LogStays seat.old seat.new }
        // So are the views before its steps.
        ensures before { (seat.new.befores ≡ seat.old.befores)
            × (seat.new.took_befores ≡ seat.old.took_befores) }
    {
        self.table.exchange(seat, t.0 as usize, rec)
    }
}
