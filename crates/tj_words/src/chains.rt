//! Steps on the chains of waiters.
ghost use Rattle.std.specs.Prelude.{◌≡◌, ◌≢◌, ◌<◌, ◌≤◌};
ghost use Rattle.tj_body.specs.Programs.{program_of};
ghost use Rattle.tj_words.specs.CallLaws.StepCalls as call;
ghost use Rattle.tj_words.specs.CallLaws.StepLogs.{IsLogged, KeepsBefore};
ghost use Rattle.tj_words.specs.Calls.ChainSteps.{HasPush, HasPushBehind, KnowsEntry, TakesChain};
ghost use Rattle.tj_words.specs.Calls.ChainSteps.{found_taken, pushed, stored_next};
ghost use Rattle.tj_words.specs.Calls.PushSteps.{FindsLonger};
ghost use Rattle.tj_words.specs.Words.Heads as heads;
ghost use Rattle.tj_words.specs.LawParts.LiveCount.{IsBacked};
ghost use Rattle.tj_words.specs.SeatViews.SeatSteps.{IsSameSeat};
ghost use Rattle.tj_words.specs.SeatViews.SeenWords.{FindsChain, FindsShut};

use crate::head::Head;
use crate::offsets::{head_at, next_at};
use crate::plays::{NextStore, PushExchange, ShutSwap};
use crate::table::{Laid, WSeat};
use tj_base::CellId;
use tj_body::Body;

impl<B: Body> Laid<B> {
    /// Says what a task will have behind it, before it is added to a chain.
    pub fn put_next(&self, seat: &mut WSeat<B>, t: CellId, behind: Head)
        requires table { seat.old.table_id ≡ self.now.table.shared.table_id }
        requires cell { t.0 < self.now.cells }
        requires small { heads.head_word behind ≤ self.now.cells }
        requires push { HasPush t.0 seat.old.me.0 }
        // The seat is the same one of the same table, with the same slots.
        ensures seat { IsSameSeat seat.old seat.new }
        // The push to come has this behind its task.
        ensures view { seat.new.me.0 ≡ stored_next t.0 behind seat.old.me.0 }
        // The seat's log is longer by one entry: this word was stored into NEXT of the task.
        ensures log { IsLogged (call.puts_next t.0) (heads.head_word behind) 0
            (heads.head_word behind) seat.old seat.new }
        // Beside this entry the seat keeps the view that it had before the step.
        ensures before { KeepsBefore seat.old seat.new }
    {
        self.table
            .store::<NextStore>(seat, next_at(t), behind.word());
    }

    /// Adds a task to a chain that begins so. Tells how the chain begins that was found.
    // It tells the head that it found, which is the expected one exactly if it has succeeded.
    pub fn push(&self, seat: &mut WSeat<B>, p: CellId, t: CellId, behind: Head) -> Head
        requires table { seat.old.table_id ≡ self.now.table.shared.table_id }
        requires cell { p.0 < self.now.cells }
        requires task { t.0 < self.now.cells }
        requires small { heads.head_word behind ≤ self.now.cells }
        requires push { HasPushBehind t.0 p.0 behind seat.old.me.0 }
        // The seat is the same one of the same table, with the same slots.
        ensures seat { IsSameSeat seat.old seat.new }
        // If the push finds the head that it expects, the task is in the chain, and its push isn't
        // to come any more.
        ensures pushed { result ≡ behind → seat.new.me.0 ≡ pushed t.0 seat.old.me.0 }
        // Where the head is shut, the seat knows that it is, and that something has become of the
        // cell.
        ensures shut { result ≡ Head.Shut
            → FindsShut (program_of B.places B.awaits B.left B.asks B.then)
            self.now.cells p.0 seat.old.me.0 seat.new.me.0 }
        // Else the seat knows the chain that was found, which lacks the task.
        ensures other { result ≢ behind → result ≢ Head.Shut
            → FindsChain self.now.cells p.0 result seat.old.me.0 seat.new.me.0 }
        // If it finds another head that isn't shut, the chain that it finds is longer than each
        // chain that the seat had found with the head that it expects.
        ensures longer { result ≢ behind → result ≢ Head.Shut
            → FindsLonger p.0 behind result seat.old.me.0 seat.new.me.0 }
        // The seat's log is longer by one entry: HEAD of the cell was exchanged for the task where
        // it was this head, and this head was found.
        ensures log { IsLogged (call.pushes p.0) (heads.head_word behind)
            (heads.head_word (Head.Task t)) (heads.head_word result) seat.old seat.new }
        // Beside this entry the seat keeps the view that it had before the step.
        ensures before { KeepsBefore seat.old seat.new }
    {
        Head::of_word(
            self.table
                .compare_exchange::<PushExchange>(seat, head_at(p), behind.word(), t.0 as u64 + 1),
        )
    }

    /// Shuts a chain, and takes it.
    pub fn shut(&self, seat: &mut WSeat<B>, p: CellId) -> Head
        requires table { seat.old.table_id ≡ self.now.table.shared.table_id }
        requires cell { p.0 < self.now.cells }
        requires entry { KnowsEntry p.0 seat.old.me.0 }
        requires rest { seat.old.me.0.rest ≡ None }
        requires backed { IsBacked seat.old.me.0 }
        // The seat is the same one of the same table, with the same slots.
        ensures seat { IsSameSeat seat.old seat.new }
        // Where the head was shut already, the seat has no shut of it to come any more, and no
        // rest.
        ensures again { result ≡ Head.Shut → seat.new.me.0 ≡ found_taken p.0 seat.old.me.0 }
        // Else the chain is the seat's rest, and the head is shut.
        ensures chain { result ≢ Head.Shut
            → TakesChain self.now.cells p.0 result seat.old.me.0 seat.new.me.0 }
        // The seat's log is longer by one entry: HEAD of the cell was swapped for a shut one, and
        // this head was found.
        ensures log { IsLogged (call.shuts p.0) heads.shut_word 0 (heads.head_word result)
            seat.old seat.new }
        // Beside this entry the seat keeps the view that it had before the step.
        ensures before { KeepsBefore seat.old seat.new }
    {
        let found = self
            .table
            .swap::<ShutSwap>(seat, head_at(p), Head::Shut.word());
        Head::of_word(found)
    }
}
