//! The machine of the checker: the core state in lists of a fixed size, each a column of the cells.
ghost use Rattle.std.specs.Prelude.{◌≡◌, ◌≤◌, ◌+◌, suc, length, vec_capacity, IfOk};
ghost use Rattle.tj_core.specs.Inner.Columns.{HaveRoom};

use crate::births::{Births, MAX_CORE_CELLS};
use crate::owners::Owners;
use crate::slot::Slot;
use crate::slot_stage::SlotStage;
use crate::stage::Illegal;
use std::alloc::Global;
use tj_base::{CellId, Oom};

/// The machine.
#[derive(Drop)]
pub(crate) struct Machine {
    pub(crate) births: Births,
    pub(crate) owners: Owners,
    /// A slot for each cell that is there.
    pub(crate) slots: Vec<Slot>,
    /// The slots of the cells to come.
    pub(crate) spare: Vec<Slot>,
    pub(crate) others: u64,
    pub(crate) cleared: u64,
    ghost there: { suc (length births.births.items) ≡ length slots.items },
    ghost all: { suc (length births.births.items) + length spare.items ≡ births.limit },
    ghost owned: { length owners.owners.items ≡ births.limit },
    ghost roomy: { HaveRoom births.limit slots.items },
    ghost spares: { HaveRoom births.limit spare.items },
    ghost room: { births.limit ≤ vec_capacity slots },
}

impl Machine {
    ghost use Rattle.std.specs.Prelude.{◌≡◌, ℕ, ◌<◌, ◌≤◌, ◌↔◌, IsTrue, length, IfOk, OnErr};
    ghost use Rattle.tj_events.specs.CoreState.{promise, fresh, wait_of, is_task};
    ghost use Rattle.tj_core.specs.Inner.Columns.{stage_in};
    ghost use Rattle.tj_events.specs.CoreState.{root_alone};
    ghost use Rattle.tj_core.specs.Inner.Machine.{state_of, limit_of, loads_of};

    /// The root alone, with room for so many cells.
    pub(crate) fn new(alloc: Global, cells: u32) -> Result<Machine, Oom>
        requires some { 0 < cells }
        requires small { cells ≤ MAX_CORE_CELLS }
        ensures state { IfOk result (λ m. state_of m ≡ root_alone) }
        ensures limit { IfOk result (λ m. limit_of m ≡ cells) }
        ensures loads { IfOk result (λ m. (t : ℕ) → loads_of m t ≡ 0) }
    {
        let births = Births::new(alloc, cells)?;
        let mut owners = Owners::new(alloc, cells)?;
        owners.set(0, Some(0));
        let mut slots = Vec::with_capacity(alloc, cells as usize)?;
        let mut root = Slot::new(alloc, cells)?;
        root.begin(SlotStage::Running);
        slots.push(root)?;
        let spare = spare_slots(alloc, cells - 1, cells)?;
        Ok(Machine {
            births,
            owners,
            slots,
            spare,
            others: 0,
            cleared: 0,
        })
    }

    /// The index of a cell's slot.
    pub(crate) fn index_of(&self, c: CellId) -> Result<usize, Illegal>
        ensures ok { IfOk result (λ at. at ≡ c.0) }
        ensures inside { IfOk result (λ at. at < length self.now.slots.items) }
        ensures err { OnErr result (length self.now.slots.items ≤ c.0) }
    {
        let at = c.0 as usize;
        if at < self.slots.len() {
            Ok(at)
        } else {
            Err(Illegal)
        }
    }

    /// What a task waits for.
    pub(crate) fn wait(&self, t: u32) -> Option<u32>
        ensures { result ≡ wait_of (stage_in self.now.slots.items t) }
    {
        self.slots.get(t as usize)?.wait()
    }

    /// Whether a cell is a task.
    pub(crate) fn is_task(&self, c: u32) -> bool
        ensures { result ≡ is_task (stage_in self.now.slots.items c) }
    {
        self.slots.get(c as usize).is_some_and(Slot::is_task)
    }

    /// Whether a cell is a task that had no event yet.
    pub(crate) fn is_fresh(&self, c: u32) -> bool
        ensures fresh { IsTrue result ↔ (stage_in self.now.slots.items c ≡ fresh) }
        ensures there { IsTrue result → c < length self.now.slots.items }
    {
        self.slots.get(c as usize).is_some_and(Slot::is_fresh)
    }

    /// Whether a cell is a promise, as one is that isn't there.
    pub(crate) fn is_promise(&self, c: u32) -> bool
        ensures { IsTrue result ↔ (stage_in self.now.slots.items c ≡ promise) }
    {
        if (c as usize) < self.slots.len() {
            self.slots[c as usize].is_promise()
        } else {
            true
        }
    }
}

/// So many empty slots, each with room for walks that pass `cells` owners.
fn spare_slots(alloc: Global, count: u32, cells: u32) -> Result<Vec<Slot>, Oom>
    ensures length { IfOk result (λ slots. length slots.items ≡ count) }
    ensures room { IfOk result (λ slots. HaveRoom cells slots.items) }
{
    let mut slots = Vec::with_capacity(alloc, count as usize)?;
    for _i in 0..count {
        slots.push(Slot::new(alloc, cells)?)?;
    }
    Ok(slots)
}
