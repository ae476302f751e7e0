//! Stores of owners, and of the words that are written once.
ghost use Rattle.std.specs.Prelude.{◌≡◌, ◌<◌};
ghost use Rattle.tj_body.specs.Programs.{program_of};
ghost use Rattle.tj_words.specs.CallLaws.StepCalls as call;
ghost use Rattle.tj_words.specs.CallLaws.StepLogs.{IsLogged, KeepsBefore};
ghost use Rattle.tj_words.specs.Calls.EntryViews.{MayPutBits, MayPutOnce, MayPutTag};
ghost use Rattle.tj_words.specs.Calls.EntryViews.{PutsBits, PutsOnce, PutsTag};
ghost use Rattle.tj_words.specs.Calls.OwnerViews.{MayPutOwner, PutsOwner};
ghost use Rattle.tj_words.specs.Words.Owners.{owner_in, owner_number, owner_word};
ghost use Rattle.tj_words.specs.SeatViews.SeatSteps.{IsSameSeat};

use crate::offsets::{Once, once_at, own_at};
use crate::owner::word_of_owner;
use crate::owner_plays::{BitsPut, OwnerPut, TagPut};
use crate::table::{Laid, WSeat};
use tj_base::CellId;
use tj_body::Body;
use tj_events::event_keeps_facts;

impl<B: Body> Laid<B> {
    /// Says who owns a cell: first the one that its drawer gives it; then, of a promise, a child to
    /// which it is handed; at last nobody.
    pub fn put_owner(&self, seat: &mut WSeat<B>, c: CellId, o: Option<CellId>)
        requires table { seat.old.table_id ≡ self.now.table.shared.table_id }
        requires cell { c.0 < self.now.cells }
        requires may { MayPutOwner c.0 (owner_number o) seat.old.me.0 }
        // The seat is the same one of the same table, with the same slots.
        ensures seat { IsSameSeat seat.old seat.new }
        // A cell in hand is there from now on, with its first owner; a promise goes to the end of
        // the child's list; a cell that nobody owns is closed, and its BITS and TAG are due.
        ensures view { PutsOwner c.0 (owner_number o) seat.old.me.0 seat.new.me.0 }
        // The seat's log is longer by one entry: the word of this owner was stored into OWN of the
        // cell.
        ensures log { IsLogged (call.puts_owner c.0) (owner_word (owner_number o)) 0
            (owner_word (owner_number o)) seat.old seat.new }
        // Beside this entry the seat keeps the view that it had before the step.
        ensures before { KeepsBefore seat.old seat.new }
    {
        event_keeps_facts();
        self.table
            .store::<OwnerPut>(seat, own_at(c), word_of_owner(o));
    }

    /// Writes a word that is written once: PARENT, KID, DEPTH and JUMP of a cell in hand, and BITS
    /// and then TAG of a closed one.
    pub fn put_once(&self, seat: &mut WSeat<B>, c: CellId, f: Once, v: u64)
        requires table { seat.old.table_id ≡ self.now.table.shared.table_id }
        requires cell { c.0 < self.now.cells }
        requires may { MayPutOnce (program_of B.places B.awaits B.left B.asks B.then) f c.0 v
            seat.old.me.0 }
        // The seat is the same one of the same table, with the same slots.
        ensures seat { IsSameSeat seat.old seat.new }
        // The word is written, and due no more. After BITS the seat is to write TAG of the same
        // entry; after TAG it knows what has become of the cell, and is to shut its head.
        ensures view { PutsOnce (program_of B.places B.awaits B.left B.asks B.then) f c.0 v
            seat.old.me.0 seat.new.me.0 }
        // The seat's log is longer by one entry: this number was stored into this word of the cell.
        ensures log { IsLogged (call.puts_once c.0 f) v 0 v seat.old seat.new }
        // Beside this entry the seat keeps the view that it had before the step.
        ensures before { KeepsBefore seat.old seat.new }
    {
        match f {
            Once::Tag => self.store_tag(seat, c, v),
            Once::Bits => self.store_bits(seat, c, v),
            _ => self.put_tree_word(seat, c, f, v),
        }
    }

    fn store_bits(&self, seat: &mut WSeat<B>, c: CellId, v: u64)
        requires table { seat.old.table_id ≡ self.now.table.shared.table_id }
        requires cell { c.0 < self.now.cells }
        requires may { MayPutBits (program_of B.places B.awaits B.left B.asks B.then) c.0 v
            seat.old.me.0 }
        ensures seat { IsSameSeat seat.old seat.new }
        ensures view { PutsBits (program_of B.places B.awaits B.left B.asks B.then) c.0 v
            seat.old.me.0 seat.new.me.0 }
        ensures log { IsLogged (call.puts_once c.0 Once.Bits) v 0 v seat.old seat.new }
        ensures before { KeepsBefore seat.old seat.new }
    {
        self.table.store::<BitsPut>(seat, once_at(c, Once::Bits), v);
    }

    fn store_tag(&self, seat: &mut WSeat<B>, c: CellId, v: u64)
        requires table { seat.old.table_id ≡ self.now.table.shared.table_id }
        requires cell { c.0 < self.now.cells }
        requires may { MayPutTag c.0 v seat.old.me.0 }
        ensures seat { IsSameSeat seat.old seat.new }
        ensures view { PutsTag c.0 v seat.old.me.0 seat.new.me.0 }
        ensures log { IsLogged (call.puts_once c.0 Once.Tag) v 0 v seat.old seat.new }
        ensures before { KeepsBefore seat.old seat.new }
    {
        self.table.store::<TagPut>(seat, once_at(c, Once::Tag), v);
    }
}
