//! The record of a task between two of its asks, which goes from worker to worker as one pointer.
ghost use Rattle.std.specs.Prelude.{◌≡◌, ◌∷◌, IfOk};
ghost use Rattle.tj_record.specs.StartRecords.{start_record};
ghost use Rattle.tj_record.specs.TaskRecords.{own};

use std::alloc::Global;
use std::marker::Model;
use tj_base::{CellId, Oom, Sort};
use tj_body::Answer;

/// A value that a cell is filled with.
#[derive(Clone, Copy, PartialEq, Eq)]
pub enum Fill {
    Num(i64),
    Promise(CellId),
    Task(CellId),
}

/// Why a task failed.
#[derive(Clone, Copy)]
pub enum Hurt {
    Arith,
    Kind,
    Steps,
    /// It set or handed this promise without owning it.
    Owner(CellId),
    /// It asked for the value of this cell, which is broken.
    Broken(CellId),
    /// Under the strict rule it joined this task, which it isn't before in the fork order.
    Order(CellId),
}

/// How a task ended.
#[derive(Clone, Copy)]
pub enum Finish {
    Done(Fill),
    Failed(Hurt),
}

/// A cell with its sort, as a task holds it.
#[derive(Clone, Copy)]
pub struct Held {
    pub cell: CellId,
    pub sort: Sort,
}

/// What the record of a task has. The task itself isn't in its lists: most tasks hold and own
/// nothing else, and then take no memory for them.
#[derive(Drop)]
pub(crate) struct Parts<B> {
    pub(crate) cell: CellId,
    pub(crate) body: B,
    /// What the body is to be given. In a task that waits it is the place of the cell.
    pub(crate) answer: Answer,
    /// The cells that it holds beside itself, from place 1 on.
    pub(crate) others: Vec<Held>,
    /// The promises that it owns, or, where it has ended, those that it still owned then.
    pub(crate) promises: Vec<CellId>,
    /// Whether its promises are owed.
    pub(crate) owes: bool,
    /// How many tasks and promises it has made.
    pub(crate) made: u32,
    pub(crate) prints: Vec<i64>,
    pub(crate) finish: Option<Finish>,
    /// Whether a broken cell is answered by `Lost` in the wait.
    pub(crate) spare: bool,
}

/// A task between two of its asks.
#[derive(Drop)]
pub struct Rec<B> {
    pub(crate) parts: Box<Parts<B>>,
}

impl<B> Model for Rec<B> {
    ghost use Rattle.std.specs.Prelude.{◌∷◌};
    ghost use Rattle.tj_record.specs.TaskRecords.{TaskRecord, own, owned_by, owed_by};

    ghost Value = { TaskRecord B };

    ghost view = { λ rec. record {
      cell = rec.parts.value.cell;
      body = rec.parts.value.body;
      answer = rec.parts.value.answer;
      held = own rec.parts.value.cell ∷ rec.parts.value.others.items;
      owned = owned_by rec.parts.value.cell rec.parts.value.promises.items rec.parts.value.owes;
      made = rec.parts.value.made;
      prints = rec.parts.value.prints.items;
      owed = owed_by rec.parts.value.promises.items rec.parts.value.owes;
      finish = rec.parts.value.finish;
      spare = rec.parts.value.spare;
    } };
}

impl<B: Drop> Rec<B> {
    /// The record of a task at its start that holds these and owns these promises, beside itself.
    #[inline(always)]
    pub fn at_start(
        alloc: Global,
        cell: CellId,
        body: B,
        others: Vec<Held>,
        promises: Vec<CellId>,
    ) -> Result<Rec<B>, Oom>
        // The record of a task at its start holds and owns the task itself and then what is given,
        // and the task has been answered nothing, has made and printed nothing, and hasn't ended.
        ensures { IfOk result (λ rec. rec
            ≡ start_record cell body (own cell ∷ others.items) (cell ∷ promises.items)) }
    {
        let parts = Parts {
            cell,
            body,
            answer: Answer::Start,
            others,
            promises,
            owes: false,
            made: 0,
            prints: Vec::new(alloc),
            finish: None,
            spare: false,
        };
        let parts = Box::new(alloc, parts)?;
        Ok(Rec { parts })
    }
}
