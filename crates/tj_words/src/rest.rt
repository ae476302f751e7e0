//! Rest: a table whose last seat has come back is closed, and its words and records stay as they are. A table that is
//! left before its rest is closed too; its records are dropped.
ghost use Rattle.std.specs.Prelude.{◌≡◌, ◌↔◌, ◌<◌, ◌≤◌, ◌^◌, List, length, get_or, vec_len, vec_capacity, None, Option};
ghost use Rattle.std.specs.Option.{option_map};
ghost use Rattle.tj_body.specs.Programs.{program_of};
ghost use Rattle.tj_words.specs.AtRest.RestingSeats.{MayRest};
ghost use Rattle.tj_words.specs.AtRest.ClosedCells.{AreAlarmsOnCycles, AreAtRest, AreCyclesAlarmed};
ghost use Rattle.tj_words.specs.AtRest.ClosedCells.{IsPromise, IsShown};
ghost use Rattle.tj_words.specs.AtRest.EndedRuns.{EndsRun, RestEndsRun};
ghost use Rattle.tj_words.specs.AtRest.RestMeaning.{HaveMeaning, AreCyclesOfMeaningAlarmed};
ghost use Rattle.tj_words.specs.AtRest.RestValues.{AreValuesOfMeaning, RefersBelow, value_shown};
ghost use Rattle.tj_words.specs.AtRest.ShownCells.{AreCellsOf, AreTableWords, cell_of};
ghost use Rattle.tj_words.specs.declared.offsets.Once.TheVariants.{Tag, Bits};
ghost use Rattle.tj_record.specs.declared.record.Rec.{Rec};
ghost use Rattle.tj_words.specs.Words.Offsets.{word, once_at};
ghost use Rattle.tj_words.specs.Words.Values.{NamesCell};
ghost use Rattle.std.specs.Slots.{IsFull, slots_items};

use crate::closed::{Closed, RestCell};
use crate::links::link_cell;
use crate::offsets::{COUNT, Once, once_at, own_at, phase_at};
use crate::owner::owner_of_word;
use crate::phase::Phase;
use crate::records::Records;
use crate::table::{Laid, WSeat};
use crate::value::value_of_words;
use std::alloc::Global;
use std::marker::Model;
use std::mem::forget;
use std::snapshot::Snapshot;
use tj_base::CellId;
use tj_body::{Body, meaning_is_last, rest_is_meaning};
use tj_events::{alarms_are_on_cycles, cycles_are_watched};
use tj_record::{Fill, Rec};

/// Closed words and records, with the program and the number of cells that the table was made for.
#[derive(Drop)]
pub struct RestWords<B: Body> {
    closed: Closed,
    records: Records<B>,
    limit: u32,
    strict: bool,
    root: Snapshot<B>,
}

impl<B: Body> Model for RestWords<B> {
    ghost use Rattle.std.specs.Prelude.{◌≤◌, length};
    ghost use Rattle.tj_words.specs.AtRest.RestShown.{AreSlots, RestShown};
    ghost use Rattle.tj_words.specs.AtRest.RestValues.{AreClosedWords};
    ghost use Rattle.std.specs.Slots.{slots_items};

    ghost Value = { RestShown B };

    ghost view = { λ w. record {
      cells = w.closed;
      words = slots_items w.records.table.words;
      records = slots_items w.records.table.slots;
      limit = w.limit;
      root = w.root.value;
      strict = w.strict;
    } };

    ghost invariant = { λ w. AreSlots w.closed (slots_items w.records.table.slots)
        × (length w.closed ≤ w.limit)
        × AreClosedWords w.limit (length w.closed) (slots_items w.records.table.words) };
}

impl<B: Body> RestWords<B> {
    /// How many cells were drawn: no more than the table was made for.
    pub fn drawn(&self) -> u32
        // It tells how many cells were drawn.
        ensures all { result ≡ length self.now.cells }
        // They are no more than the table was made for.
        ensures few { result ≤ self.now.limit }
    {
        self.closed.drawn()
    }

    /// What the words show of a cell.
    pub fn cell(&self, c: CellId) -> RestCell
        requires { c.0 < length self.now.cells }
        // It tells what the words show of a cell.
        ensures { IsShown self.now.cells c.0 result }
    {
        self.closed.cell(c)
    }

    /// The value of a cell, a promise or a task's result: its number, or the cell to which it refers.
    /// There is none where nothing has become of the cell, or it is broken; its TAG tells which.
    pub fn value(&self, c: CellId) -> Option<Fill>
        requires { c.0 < length self.now.cells }
        // It is what TAG and BITS of the cell stand for. `Laid::rest` says that this is the value
        // which the meaning has for the cell's name.
        ensures value { result ≡ value_shown self.now.words c.0 }
        // A cell to which it refers is one of those that were drawn.
        ensures refers { RefersBelow (length self.now.cells) result }
    {
        show_value(&self.records.table, self.limit, c)
    }

    /// The record of a task, and nothing for a promise.
    pub fn rec(&self, c: CellId) -> Option<&Rec<B>>
        requires { c.0 < length self.now.cells }
        // It gives the record that lies in the slot of the cell.
        ensures record { option_map (λ r. r.now) result ≡ get_or self.now.records c.0 None }
        // There is none exactly where the cell is a promise.
        ensures promise { (result ≡ None) ↔ IsPromise self.now.cells c.0 }
    {
        self.records.get(c.0 as usize)
    }

    /// The words without the records.
    pub fn into_closed(self) -> Closed
        // What is given shows the same of each cell.
        ensures same { result ≡ self.cells }
        // Its cells are no more than the table was made for.
        ensures few { length result ≤ self.limit }
    {
        self.closed
    }

    /// The words without the records, where the program is about to end. The records aren't given
    /// back one by one: they stay in memory, which goes with the program.
    pub fn into_closed_at_end(self) -> Closed
        // What is given shows the same of each cell.
        ensures same { result ≡ self.cells }
        // Its cells are no more than the table was made for.
        ensures few { length result ≤ self.limit }
    {
        let Self {
            closed,
            records,
            ..
        } = self;
        forget(records);
        closed
    }
}

impl<B: Body> Laid<B> {
    /// Closes the table with its last seat.
    pub fn rest(self, seat: WSeat<B>) -> RestWords<B>
        requires table { seat.table_id ≡ self.table.shared.table_id }
        requires may { MayRest seat.me.0 }
        // The number of cells is that of the table.
        ensures limit { result.limit ≡ self.cells }
        // So is the root's body.
        ensures root { result.root ≡ self.root.value }
        // And so is the rule.
        ensures strict { result.strict ≡ self.strict }
        // No more cells were drawn than the table has.
        ensures drawn { length result.cells ≤ self.cells }

        // Each task has ended, or is parked or has alarmed; and nothing has become of a cell that a
        // task waits for.
        ensures rest { AreAtRest result.cells }

        // The meaning isn't full, and what stands is exactly it: its cells, each once and none
        // other; TAG by the entry of each; each task's history, told by its phase, by what it owns
        // and by its record, and no other record.
        ensures meaning { HaveMeaning (program_of B.places B.awaits B.left B.asks B.then self.strict
            self.root.value) self.cells result.cells result.records }

        // Each standing cycle has a member that has alarmed.
        ensures cycles { AreCyclesAlarmed result.cells }
        // Each task that has alarmed is on a standing cycle.
        ensures alarms { AreAlarmsOnCycles result.cells }
        // Each cycle of the meaning's waits has a member whose task has alarmed.
        ensures meant_cycles { AreCyclesOfMeaningAlarmed (program_of B.places B.awaits B.left B.asks
            B.then self.strict self.root.value) self.cells result.cells }

        // The value of each cell is that of the meaning: what the last round has for its name.
        ensures values { AreValuesOfMeaning (program_of B.places B.awaits B.left B.asks B.then
            self.strict self.root.value) self.cells result.cells result.words }

        // All words and the records are the end of a run of the table from the first state: by step
        // calls, each of a seat of which what it asks is so, by splits, and by merges of idle
        // seats. The last seat was one of that table.
        ensures run { RestEndsRun (program_of B.places B.awaits B.left B.asks B.then) self.cells
            self.strict self.root.value seat result }
    {
        rest_is_meaning::<B>();
        meaning_is_last::<B>();
        cycles_are_watched();
        alarms_are_on_cycles();
        let Laid {
            table,
            cells,
            strict,
            root,
            room,
        } = self;
        let table = table.close_with(seat);
        let shown = show_cells(&table, cells, room);
        RestWords {
            closed: Closed { cells: shown },
            records: Records { table },
            limit: cells,
            strict,
            root,
        }
    }

    /// Closes the table with a seat, at rest or not, where the run ends before its rest. The records are dropped.
    pub fn leave(self, seat: WSeat<B>) -> Closed
        requires { seat.table_id ≡ self.table.shared.table_id }
        // No more cells were drawn than the table has.
        ensures drawn { length result ≤ self.cells }
        // What the words show of the cells is the end of a run of the table from the first state,
        // and so are the records that lay at home beside them. The seat was one of that table.
        ensures run { (records : List (Option (Rec B))) × EndsRun (program_of B.places B.awaits
            B.left B.asks B.then) self.cells self.strict self.root.value seat result records }
    {
        let Laid {
            table,
            cells,
            room,
            ..
        } = self;
        let table = table.close_with(seat);
        let shown = show_cells(&table, cells, room);
        drop(Records { table });
        Closed { cells: shown }
    }
}

/// What the words show of each cell that was drawn.
fn show_cells<B: Body>(
    table: &atomic_table::Closed<Option<Rec<B>>, Global>,
    cells: u32,
    mut room: Vec<RestCell>,
) -> Vec<RestCell>
    requires full { IsFull table.now.words }
    requires words { AreTableWords cells (slots_items table.now.words) }
    requires unused { vec_len room ≡ 0 }
    requires room { cells ≤ vec_capacity room }
    ensures { AreCellsOf (slots_items table.now.words) cells result.items }
{
    let drawn = table.word(COUNT).min(cells as u64) as usize;
    for c in 0..drawn {
        room.push_reserved(show_cell(table, cells, CellId(c as u32)));
    }
    room
}

/// What the words show of a cell.
fn show_cell<B: Body>(
    table: &atomic_table::Closed<Option<Rec<B>>, Global>,
    cells: u32,
    c: CellId,
) -> RestCell
    requires full { IsFull table.now.words }
    requires words { AreTableWords cells (slots_items table.now.words) }
    requires cell { c.0 < cells }
    ensures { result ≡ cell_of (slots_items table.now.words) c.0 }
{
    RestCell {
        own: owner_of_word(table.word(own_at(c))),
        phase: Phase::of_word(table.word(phase_at(c))),
        tag: table.word(once_at(c, Once::Tag)),
        parent: link_cell(table.word(once_at(c, Once::Parent))),
        kid: table.word(once_at(c, Once::Kid)) as u32,
    }
}

/// What TAG and BITS of a cell stand for.
fn show_value<B: Body>(
    table: &atomic_table::Closed<Option<Rec<B>>, Global>,
    cells: u32,
    c: CellId,
) -> Option<Fill>
    requires full { IsFull table.now.words }
    requires words { AreTableWords cells (slots_items table.now.words) }
    requires cell { c.0 < cells }
    requires small { NamesCell (word (slots_items table.now.words) (once_at c.0 Tag))
        → word (slots_items table.now.words) (once_at c.0 Bits) < 2 ^ 32 }
    ensures { result ≡ value_shown (slots_items table.now.words) c.0 }
{
    let tag = table.word(once_at(c, Once::Tag));
    let bits = table.word(once_at(c, Once::Bits));
    value_of_words(tag, bits)
}
