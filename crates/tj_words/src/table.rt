//! The table: its words and slots under the law, and seats that know of it.
ghost use Rattle.std.specs.Prelude.{◌≡◌, ℕ, ◌+◌, ◌*◌, ◌<◌, ◌≤◌, List, [], ◌∷◌, IfOk, length, replicate, vec_len, vec_capacity, Some, None};
ghost use Rattle.tj_base.specs.declared.cell.TheConstants.{MAX_CELLS};
ghost use Rattle.tj_body.specs.Asks.{IsFresh};
ghost use Rattle.tj_words.specs.Words.Offsets.{words_for};
ghost use Rattle.tj_log.specs.Laws as logs;
ghost use Rattle.tj_words.specs.LawParts.FirstState as first;
ghost use Rattle.tj_words.specs.LawParts.FirstState.{first_slots, first_words, first_view};

use crate::closed::RestCell;
use crate::first_rows::{KEPT_CELLS, kept_words};
use crate::links::link_word;
use crate::offsets::{CELL_WORDS, COUNT, LIVE, Once, TABLE_WORDS, once_at, own_at, phase_at};
use crate::owner::word_of_owner;
use crate::phase::Phase;
use crate::view::View;
use atomic_table::Refused;
use std::alloc::Global;
use std::snapshot::Snapshot;
use tj_base::{CellId, Oom};
use tj_body::{Body, points_in_rounds};
use tj_events::start_meets_facts;
use tj_log::{LogRule, LogSeat, LogTable};
use tj_record::Rec;

/// What a table is told when it is made: the number of cells, the root's body, and whether the rule
/// is strict.
#[derive(Drop)]
pub struct Key<B> {
    pub cells: u32,
    pub root: Snapshot<B>,
    pub strict: bool,
}

/// The law of the table: what stands at first and between any two steps, how seats are split and joined, and what each
/// step tells.
pub struct Law;

impl<B: Body> LogRule<Option<Rec<B>>, View<B>, Key<B>> for Law {
    ghost use Rattle.std.specs.Prelude.{◌≡◌};
    ghost use Rattle.tj_body.specs.Programs.{program_of};
    ghost use Rattle.tj_words.specs.CallLaws.StepLogs.{IsTold};
    ghost use Rattle.tj_words.specs.Law.{Rule};
    ghost use Rattle.tj_words.specs.LawParts.FirstState.{first_slots, first_view, first_words};
    ghost use Rattle.tj_words.specs.SeatViews.Views.{IsIdle, both, left_half, right_half, spent};

    ghost holds = { Rule (program_of B.places B.awaits B.left B.asks B.then) };

    ghost first = { λ key. first_view key.cells key.root.value key.strict };

    ghost opens = { λ key ws xs. (ws ≡ first_words key.cells)
        × (xs ≡ first_slots key.cells key.root.value) };

    ghost left = { left_half };

    ghost right = { right_half };

    ghost both = { both };

    ghost spent = { spent };

    ghost may_join = { λ v w. IsIdle v × IsIdle w };

    ghost tells = { IsTold (program_of B.places B.awaits B.left B.asks B.then) };
}

/// A seat of a table, seen as its view and the slots that it has.
pub type WSeat<B> = LogSeat<Option<Rec<B>>, View<B>>;

/// A table of words and records.
#[derive(Drop)]
pub struct Laid<B: Body> {
    pub(crate) table: LogTable<Option<Rec<B>>, View<B>, Key<B>, Law>,
    pub(crate) cells: u32,
    pub(crate) strict: bool,
    pub(crate) root: Snapshot<B>,
    /// Where `rest` puts what the words show of each cell: empty till then, with room for all.
    pub(crate) room: Vec<RestCell>,
    ghost words: { table.shared.table_id.words ≡ words_for cells },
    ghost slots: { table.shared.table_id.slots ≡ cells },
    ghost key_cells: { table.shared.key.cells ≡ cells },
    ghost key_strict: { table.shared.key.strict ≡ strict },
    ghost key_root: { table.shared.key.root.value ≡ root.value },
    ghost unused: { vec_len room ≡ 0 },
    ghost roomy: { cells ≤ vec_capacity room },
    ghost some: { 0 < cells },
    ghost few: { cells ≤ MAX_CELLS },
}

impl<B: Body> Laid<B> {
    /// A table of the root alone, which is ready, and the first seat.
    pub fn new(alloc: Global, cells: u32, root: B, strict: bool) -> Result<(Laid<B>, WSeat<B>), Oom>
        requires some { 0 < cells }
        requires few { cells ≤ MAX_CELLS }
        requires root { IsFresh B.places B.awaits B.left 1 root }
        // A new table has the given number of cells.
        ensures cells { IfOk result (λ made. made.0.cells ≡ cells) }
        // Its rule is the given one.
        ensures strict { IfOk result (λ made. made.0.strict ≡ strict) }
        // The root of the program that it goes by is the given body.
        ensures root { IfOk result (λ made. made.0.root.value ≡ root) }
        // The seat is one of this table.
        ensures table { IfOk result (λ made. made.1.table_id ≡ made.0.table.shared.table_id) }
        // The first seat has all lots, holds nothing, and knows that cell 0 is the root. That the
        // first state is within the law is what the making of the table asks.
        ensures view { IfOk result (λ made. made.1.me ≡ (first_view cells root strict, [])) }

        // The first seat is fresh: it has made no step, was never split, and has taken in no other
        // one. So by `tj_runs::fresh_is_first` the words and the slots are the first ones.
        ensures fresh { IfOk result (λ made. logs.IsFresh made.1) }
    {
        start_meets_facts();
        points_in_rounds::<B>();
        let room = Vec::with_capacity(alloc, cells as usize)?;
        let list = list_at_first(alloc, cells)?;
        let key = Key {
            cells,
            root: Snapshot::of(&root),
            strict,
        };
        let about = Snapshot::of(&root);
        let slots = slots_at_first(alloc, cells, root)?;
        match LogTable::new(alloc, words_at_first(cells, &list), slots, &key) {
            Ok((table, seat)) => Ok((
                Laid {
                    table,
                    cells,
                    strict,
                    root: about,
                    room,
                },
                seat,
            )),
            Err(Refused { slots }) => {
                drop(slots);
                Err(Oom)
            }
        }
    }

    /// Whether tasks join only those that they are before.
    pub fn strict(&self) -> bool
        // The rule of the table is told.
        ensures { result ≡ self.now.strict }
    {
        self.strict
    }
}

/// The words of a new table: those that stand in the program, or the list where there aren't as many.
fn words_at_first(cells: u32, list: &Vec<u64>) -> &[u64]
    requires some { 0 < cells }
    requires listed { KEPT_CELLS < cells → list.now.items ≡ first_words cells }
    ensures { result.now ≡ first_words cells }
{
    if cells <= KEPT_CELLS {
        kept_words(cells)
    } else {
        list.as_slice()
    }
}

/// A list of the words of a new table that has more cells than stand in the program: the root is drawn and ready, and
/// owns its result. For a smaller table it is empty.
fn list_at_first(alloc: Global, cells: u32) -> Result<Vec<u64>, Oom>
    requires some { 0 < cells }
    requires few { cells ≤ MAX_CELLS }
    ensures { KEPT_CELLS < cells → IfOk result (λ list. list.items ≡ first_words cells) }
{
    if cells <= KEPT_CELLS {
        return Ok(Vec::new(alloc));
    }
    let root = CellId(0);
    let mut words = Vec::from_elem(alloc, 0u64, TABLE_WORDS + CELL_WORDS * cells as usize)?;
    let row = words.as_mut_slice();
    row[COUNT] = 1;
    row[LIVE] = 1;
    row[own_at(root)] = word_of_owner(Some(root));
    row[phase_at(root)] = Phase::Ready.word();
    row[once_at(root, Once::Jump)] = link_word(root);
    Ok(words)
}

/// The slots of a new table: the root's record lies at home, and the others are empty.
fn slots_at_first<B: Body>(alloc: Global, cells: u32, root: B) -> Result<Vec<Option<Rec<B>>>, Oom>
    requires some { 0 < cells }
    ensures { IfOk result (λ slots. slots.items ≡ first_slots cells root) }
{
    let root = root_record(alloc, root)?;
    let mut slots = Vec::with_capacity(alloc, cells as usize)?;
    slots.push_reserved(Some(root));
    for _i in 1..cells {
        slots.push_reserved(None);
    }
    Ok(slots)
}

/// The record of the root at its start.
fn root_record<B: Body>(alloc: Global, root: B) -> Result<Rec<B>, Oom>
    ensures { IfOk result (λ made. made ≡ first.root_record root) }
{
    Rec::at_start(alloc, CellId(0), root, Vec::new(alloc), Vec::new(alloc))
}
