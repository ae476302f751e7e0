//! A table whose seats keep logs.
ghost use Rattle.std.specs.Prelude.{◌≡◌, ℕ, ◌<◌, [], ◌∷◌, ◌++◌, length, IfOk, IfErr};
ghost use Rattle.std.specs.Slots.{IsFull, slots_items, slots_len};
ghost use Rattle.atomic_table.specs.Table.{opening, Final, Seen, rest};
ghost use Rattle.tj_log.specs.Asks.{Asks, AsksJoin, AsksSplit, Ended, Makes};
ghost use Rattle.tj_log.specs.Laws.{IsFresh};
ghost use Rattle.tj_log.specs.Runs.{terms_of};

use crate::entry::{Did, Logged};
use crate::plays::{Adds, Exchanges, Halves, Loads, Logging, Stores, Subs, Swaps};
use crate::seat::LogSeat;
use atomic_table::{Closed, Play, Refused, Table, TableRule};
use std::alloc::{Allocator, Global};
use std::marker::{Model, PhantomData};
use std::sync::Wait;
use std::time::Duration;

/// What a caller says of its table. It is one trait, so that each claim of a call names one of the rule's dictionaries.
pub trait LogRule<S, V, K> {
    ghost use Rattle.std.specs.Prelude.{ℕ, List};
    ghost use Rattle.atomic_table.specs.Table.{Me, State, Step};
    ghost use Rattle.tj_log.specs.declared.entry.Did.{Did};

    // The rule: what holds between any two steps.
    ghost holds: { K → State S V → Type 0 };
    // The view of the first seat.
    ghost first: { K → V };
    // The words and the slots at first.
    ghost opens: { K → List ℕ → List S → Type 0 };
    // At a split: what the first seat keeps of its view.
    ghost left: { V → V };
    // What the second seat has then.
    ghost right: { V → V };
    // At a join: what the two views are as one.
    ghost both: { V → V → V };
    // What is left of the view that was taken in.
    ghost spent: { V };
    // What a join asks of the seat's view, and of the one that it takes in.
    ghost may_join: { V → V → Type 0 };
    // What each step tells: of what it does, of the step, the seat before, the number found and the seat after.
    ghost tells: { K → Did → Step S → Me S V → ℕ → Me S V → Type 0 };
}

/// The caller's rule, on views with logs: the table came to what stands by a run, and each log has its seat's steps.
pub struct Logs<P> {
    rule: PhantomData<P>,
}

impl<S, V, K, P: LogRule<S, V, K>> TableRule<S, Logged<V>, K> for Logs<P> {
    ghost use Rattle.tj_log.specs.Logs.{opened};
    ghost use Rattle.tj_log.specs.Runs.{Kept, terms_of};

    ghost holds = { λ key. Kept (terms_of (P.holds key) (P.tells key) P.left P.right P.both
        P.spent (P.opens key) (P.first key) P.may_join) };

    ghost first = { λ key. opened (P.first key) };
}

/// A table under a rule of the caller's, in memory of the program's allocator.
#[derive(Drop)]
pub struct LogTable<S, V, K, P: LogRule<S, V, K>> {
    table: Table<S, Logged<V>, K, Logs<P>, Global>,
}

impl<S, V, K, P: LogRule<S, V, K>> Model for LogTable<S, V, K, P> {
    ghost use Rattle.tj_log.specs.Shown.{TableShown};

    ghost Value = { TableShown K };

    ghost view = { λ it. record {
      shared = record {
        table_id = it.table.shared.table_id;
        key
            = it.table.shared.key;
      };
    } };
}

impl<S, V, K, P: LogRule<S, V, K>> LogTable<S, V, K, P> {
    pub fn new<B: Allocator>(
        alloc: Global,
        words: &[u64],
        slots: Vec<S, B>,
        about: &K,
    ) -> Result<(LogTable<S, V, K, P>, LogSeat<S, V>), Refused<S, B>>
        requires { P.holds about.now (opening words.now slots.items (P.first about.now))
            × P.opens about.now words.now slots.items }
        // A new table has these words and slots, and its first seat the first view of the rule.
        ensures ok { IfOk result (λ t. (t.0.shared.table_id.words ≡ length words.now)
            × (t.0.shared.table_id.slots ≡ length slots.items)
            × (t.1.table_id ≡ t.0.shared.table_id) × (t.1.id ≡ 0)
            × (t.1.me ≡ (P.first about.now, [])) × (t.0.shared.key ≡ about.now)) }
        // The first seat is fresh: it has made no step, was never split, and has taken in no other
        // one.
        ensures fresh { IfOk result (λ t. IsFresh t.1) }
        // After an error the slots are given back.
        ensures err { IfErr result (λ r. r.slots.items ≡ slots.items) }
    {
        let (table, seat) = Table::new(alloc, words, slots, about)?;
        Ok((LogTable { table }, LogSeat { seat }))
    }

    #[inline(always)]
    pub fn load<M: Play<S, V>>(&self, seat: &mut LogSeat<S, V>, word: usize) -> u64
        requires { Asks P.holds P.tells M.then Did.Load 0 0 word self.now seat.old }
        // A load tells what the caller says of it, and the seat's log is longer by this load and
        // the number found, with the view that the seat had before.
        ensures { Makes M.then Did.Load 0 0 self.now.shared.table_id.slots word seat.old result
            seat.new }
    {
        self.table
            .shared
            .load::<Logging<M, Loads>>(&mut seat.seat, word)
    }

    #[inline(always)]
    pub fn store<M: Play<S, V>>(&self, seat: &mut LogSeat<S, V>, word: usize, new: u64)
        requires { Asks P.holds P.tells M.then Did.Store new 0 word self.now seat.old }
        // So does a store, with the number stored.
        ensures { Makes M.then Did.Store new 0 self.now.shared.table_id.slots word seat.old new
            seat.new }
    {
        self.table
            .shared
            .store::<Logging<M, Stores>>(&mut seat.seat, word, new);
    }

    #[inline(always)]
    pub fn swap<M: Play<S, V>>(&self, seat: &mut LogSeat<S, V>, word: usize, new: u64) -> u64
        requires { Asks P.holds P.tells M.then Did.Swap new 0 word self.now seat.old }
        // So does a swap, with the number found.
        ensures { Makes M.then Did.Swap new 0 self.now.shared.table_id.slots word seat.old result
            seat.new }
    {
        self.table
            .shared
            .swap::<Logging<M, Swaps>>(&mut seat.seat, word, new)
    }

    #[inline(always)]
    pub fn fetch_add<M: Play<S, V>>(&self, seat: &mut LogSeat<S, V>, word: usize, k: u64) -> u64
        requires { Asks P.holds P.tells M.then Did.Add k 0 word self.now seat.old }
        // So does an addition, with the number found.
        ensures { Makes M.then Did.Add k 0 self.now.shared.table_id.slots word seat.old result
            seat.new }
    {
        self.table
            .shared
            .fetch_add::<Logging<M, Adds>>(&mut seat.seat, word, k)
    }

    #[inline(always)]
    pub fn fetch_sub<M: Play<S, V>>(&self, seat: &mut LogSeat<S, V>, word: usize, k: u64) -> u64
        requires { Asks P.holds P.tells M.then Did.Sub k 0 word self.now seat.old }
        // So does a subtraction, with the number found.
        ensures { Makes M.then Did.Sub k 0 self.now.shared.table_id.slots word seat.old result
            seat.new }
    {
        self.table
            .shared
            .fetch_sub::<Logging<M, Subs>>(&mut seat.seat, word, k)
    }

    #[inline(always)]
    pub fn compare_exchange<M: Play<S, V>>(
        &self,
        seat: &mut LogSeat<S, V>,
        word: usize,
        old: u64,
        new: u64,
    ) -> u64
        requires { Asks P.holds P.tells M.then Did.Exchange old new word self.now seat.old }
        // So does an exchange, with the number found.
        ensures { Makes M.then Did.Exchange old new self.now.shared.table_id.slots word seat.old
            result seat.new }
    {
        self.table
            .shared
            .compare_exchange::<Logging<M, Exchanges>>(&mut seat.seat, word, old, new)
    }

    pub fn split_seat(&self, seat: &mut LogSeat<S, V>) -> LogSeat<S, V>
        requires { AsksSplit P.holds P.left P.right self.now seat.old }
        // Of a split the first seat keeps the log, and the second has an empty one; views are cut
        // as the rule says.
        ensures { (seat.new.table_id ≡ seat.old.table_id) × (seat.new.id ≡ seat.old.id)
            × (seat.new.me ≡ (P.left seat.old.me.0, seat.old.me.1))
            × (result.table_id ≡ seat.old.table_id) × (result.me ≡ (P.right seat.old.me.0, []))
            × (seat.new.log ≡ seat.old.log) × (seat.new.took ≡ seat.old.took)
            × (result.log ≡ []) × (result.took ≡ []) × (seat.new.befores ≡ seat.old.befores)
            × (result.befores ≡ []) × (seat.new.took_befores ≡ seat.old.took_befores)
            × (result.took_befores ≡ []) }
    {
        let other = self
            .table
            .shared
            .split_seat::<Halves<S, K, P>>(&mut seat.seat);
        LogSeat { seat: other }
    }

    pub fn join_seat(&self, seat: &mut LogSeat<S, V>, other: LogSeat<S, V>)
        requires { AsksJoin P.holds P.both P.spent P.may_join self.now seat.old other }
        // Of a join the seat keeps its log, and has taken in the log of the other one and what that
        // had taken in; the view is made as the rule says.
        ensures { (seat.new.table_id ≡ seat.old.table_id) × (seat.new.id ≡ seat.old.id)
            × (seat.new.me ≡ (P.both seat.old.me.0 other.me.0, seat.old.me.1))
            × (seat.new.log ≡ seat.old.log)
            × (seat.new.took ≡ seat.old.took ++ other.log ∷ other.took)
            × (seat.new.befores ≡ seat.old.befores)
            × (seat.new.took_befores ≡ seat.old.took_befores ++ other.befores ∷ other.took_befores) }
    {
        let LogSeat { seat: taken } = other;
        self.table
            .shared
            .join_seat::<Halves<S, K, P>>(&mut seat.seat, taken);
    }

    /// A plain read and write of the slot that the seat took last. It is no step.
    #[inline(always)]
    pub fn exchange(&self, seat: &mut LogSeat<S, V>, slot: usize, new: S) -> S
        requires { (seat.old.table_id ≡ self.now.shared.table_id) × ((old : S)
            × (seat.old.me.1 ≡ (slot, old) ∷ rest seat.old.me.1)) }
        // An exchange of what lies in the slot taken last gives what lay there, and is no step.
        ensures { (seat.new.table_id ≡ seat.old.table_id) × (seat.new.id ≡ seat.old.id)
            × (seat.old.me.1 ≡ (slot, result) ∷ rest seat.old.me.1)
            × (seat.new.me ≡ (seat.old.me.0, (slot, new) ∷ rest seat.old.me.1))
            × (seat.new.log ≡ seat.old.log) × (seat.new.took ≡ seat.old.took)
            × (seat.new.lone ≡ seat.old.lone) × (seat.new.befores ≡ seat.old.befores)
            × (seat.new.took_befores ≡ seat.old.took_befores) }
    {
        self.table.shared.exchange(&mut seat.seat, slot, new)
    }

    /// Sleeps while the word's low 32 bits are `expected`, for no longer than `dur`. It is no step, and tells nothing.
    pub fn park_timeout<R: Wait>(&self, rt: &R, word: usize, expected: u32, dur: Duration)
        requires { word < self.now.shared.table_id.words }
    {
        self.table.shared.park_timeout(rt, word, expected, dur);
    }

    /// Closes the table with a seat.
    pub fn close_with(self, seat: LogSeat<S, V>) -> Closed<S, Global>
        requires { seat.table_id ≡ self.shared.table_id }
        // A closed table has as many words and slots as before.
        ensures counts { (slots_len result.words ≡ self.shared.table_id.words)
            × (slots_len result.slots ≡ self.shared.table_id.slots) }
        // They are those of a table under the caller's rule in which the seat has its view.
        ensures values { IsFull result.words × IsFull result.slots
            × Final (Seen (P.holds self.shared.key) seat.id seat.me.0) (slots_items result.words)
            (slots_items result.slots) }
        // They came by a run from an opening, and the seat's log has its steps of that run.
        ensures run { Ended (terms_of (P.holds self.shared.key) (P.tells self.shared.key) P.left
            P.right P.both P.spent (P.opens self.shared.key) (P.first self.shared.key)
            P.may_join) seat (slots_items result.words) (slots_items result.slots) }
    {
        let LogTable { table } = self;
        let LogSeat { seat } = seat;
        table.close_with(seat)
    }
}
