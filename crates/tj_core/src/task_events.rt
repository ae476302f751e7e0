//! The events of a task that runs, and those at the two ends of a wait.
ghost use Rattle.std.specs.Prelude.{◌≡◌, []};
ghost use Rattle.tj_events.specs.Events.{raised_by_way, stage_after_close};
ghost use Rattle.tj_core.specs.Inner.SlotStages.{IsIdle, cell_stage};

use crate::machine::Machine;
use crate::slot_stage::SlotStage;
use crate::stage::Illegal;
use tj_base::CellId;
use tj_events::{Event, Way};

impl Machine {
    ghost use Rattle.std.specs.Prelude.{◌≡◌, ℕ, ◌<◌, ◌≤◌, ◌^◌, ◌↔◌, IsTrue, length, OnOk, OnErr};
    ghost use Rattle.tj_events.specs.Events.{way_of_wait, MayClose, MayHand, Owns, IsFreshChild, IsRunning};
    ghost use Rattle.tj_core.specs.Inner.SlotStages.{IsIdle};
    ghost use Rattle.tj_core.specs.Inner.Machine.{Accepts, Refuses, Adds, IsUnchanged, state_of, limit_of};

    /// The task raises OTHERS.
    pub(crate) fn raise(&mut self, t: CellId) -> Result<(), Illegal>
        requires { self.old.others < 2 ^ 63 }
        ensures ok { OnOk result (Accepts self.old (Event.Raise t) self.new) }
        ensures err { OnErr result (Refuses self.old (Event.Raise t) self.new) }
    {
        if !self.runs(t.0) {
            return Err(Illegal);
        }
        self.set_idle(t.0, SlotStage::Raised);
        self.others += 1;
        Ok(())
    }

    /// OTHERS is lowered for a wait that was cleared.
    pub(crate) fn lower(&mut self) -> Result<(), Illegal>
        ensures ok { OnOk result (Accepts self.old Event.Lower self.new) }
        ensures err { OnErr result (Refuses self.old Event.Lower self.new) }
    {
        if self.cleared == 0 {
            return Err(Illegal);
        }
        self.cleared -= 1;
        self.others = self.others.saturating_sub(1);
        Ok(())
    }

    /// The task's wait is cleared.
    pub(crate) fn unwait(&mut self, t: CellId) -> Result<(), Illegal>
        requires { self.old.cleared < 2 ^ 63 }
        ensures ok { OnOk result (Accepts self.old (Event.Unwait t) self.new) }
        ensures err { OnErr result (Refuses self.old (Event.Unwait t) self.new) }
    {
        let Some((cell, way)) = self.parked_on(t.0) else {
            return Err(Illegal);
        };
        if self.owners.of(cell).is_some() {
            return Err(Illegal);
        }
        self.set_idle(t.0, SlotStage::Running);
        self.cleared += raised_by(way);
        Ok(())
    }

    /// The way of a wait of t for p.
    fn way(&self, t: CellId, p: CellId) -> Way
        ensures { result ≡ way_of_wait (state_of self.now) t.0 p.0 }
    {
        if self.is_task(p.0) && self.births.precedes(t.0, p.0) {
            Way::Along
        } else {
            Way::Other
        }
    }

    /// The task publishes its wait for p.
    pub(crate) fn publish(&mut self, t: CellId, p: CellId) -> Result<(), Illegal>
        ensures ok { OnOk result (Accepts self.old (Event.Publish t p) self.new) }
        ensures err { OnErr result (Refuses self.old (Event.Publish t p) self.new) }
    {
        let _there = self.index_of(p)?;
        let way = self.way(t, p);
        if !self.may_publish(t.0, way) {
            return Err(Illegal);
        }
        self.start_walk(t.0, p.0, way);
        Ok(())
    }

    /// The task closes p, and ends where that is its own result.
    pub(crate) fn close(&mut self, t: CellId, p: CellId) -> Result<(), Illegal>
        ensures ok { OnOk result (Accepts self.old (Event.Close t p) self.new) }
        ensures err { OnErr result (Refuses self.old (Event.Close t p) self.new) }
    {
        if !self.runs(t.0) {
            return Err(Illegal);
        }
        if !self.may_close(t, p) {
            return Err(Illegal);
        }
        self.set_idle(t.0, slot_after_close(p.0 == t.0));
        self.set_owner(p.0, None);
        Ok(())
    }

    /// The task hands p to its child c.
    pub(crate) fn hand(&mut self, t: CellId, p: CellId, c: CellId) -> Result<(), Illegal>
        ensures ok { OnOk result (Accepts self.old (Event.Hand t p c) self.new) }
        ensures err { OnErr result (Refuses self.old (Event.Hand t p c) self.new) }
    {
        if !self.runs(t.0) {
            return Err(Illegal);
        }
        if !self.may_hand(t, p, c) {
            return Err(Illegal);
        }
        self.set_idle(t.0, SlotStage::Running);
        self.set_owner(p.0, Some(c.0));
        Ok(())
    }

    /// Whether t owns p, and nothing else where p is its own result.
    fn may_close(&self, t: CellId, p: CellId) -> bool
        ensures close { IsTrue result ↔ MayClose (state_of self.now) t.0 p.0 }
        ensures there { IsTrue result → p.0 < length self.now.owners.owners.items }
    {
        if !self.owns(t, p) {
            return false;
        }
        if p.0 != t.0 {
            return true;
        }
        self.owners.owns_result_alone(t.0)
    }

    /// Whether p is a promise that t owns, and c a fresh child of t.
    fn may_hand(&self, t: CellId, p: CellId, c: CellId) -> bool
        ensures hand { IsTrue result ↔ MayHand (state_of self.now) t.0 p.0 c.0 }
        ensures promise { IsTrue result → p.0 < length self.now.owners.owners.items }
        ensures child { IsTrue result → c.0 < length self.now.owners.owners.items }
    {
        if !self.is_promise(p.0) {
            return false;
        }
        if !self.owns(t, p) {
            return false;
        }
        self.is_fresh_child(t, c)
    }

    /// Whether t owns p.
    fn owns(&self, t: CellId, p: CellId) -> bool
        ensures owns { IsTrue result ↔ Owns (state_of self.now) t.0 p.0 }
        ensures there { IsTrue result → p.0 < length self.now.owners.owners.items }
    {
        self.owners.of(p.0) == Some(t.0)
    }

    /// Whether c is a fresh child of t.
    fn is_fresh_child(&self, t: CellId, c: CellId) -> bool
        ensures child { IsTrue result ↔ IsFreshChild (state_of self.now) t.0 c.0 }
        ensures there { IsTrue result → c.0 < length self.now.owners.owners.items }
    {
        if !self.is_fresh(c.0) {
            return false;
        }
        self.births.maker(c.0) == t.0 && c.0 != t.0
    }

    /// The task makes a promise, which it owns.
    pub(crate) fn make(&mut self, t: CellId) -> Result<(), Illegal>
        ensures ok { OnOk result (Accepts self.old (Event.Make t) self.new) }
        ensures err { OnErr result (Refuses self.old (Event.Make t) self.new) }
    {
        let _at = self.index_of(t)?;
        self.add(t, t.0, SlotStage::Promise)?;
        Ok(())
    }

    /// The task forks a child, which owns its own cell.
    pub(crate) fn fork(&mut self, t: CellId) -> Result<(), Illegal>
        ensures ok { OnOk result (Accepts self.old (Event.Fork t) self.new) }
        ensures err { OnErr result (Refuses self.old (Event.Fork t) self.new) }
    {
        let child = self.births.count();
        self.add(t, child, SlotStage::Fresh)?;
        Ok(())
    }

    /// The task makes a new cell of this stage with this owner.
    fn add(&mut self, t: CellId, owner: u32, stage: SlotStage) -> Result<(), Illegal>
        requires idle { IsIdle stage }
        requires owner { owner ≤ length self.old.slots.items }
        ensures ok { OnOk result (Adds self.old t.0 owner stage self.new) }
        ensures illegal { OnErr result (IsRunning (state_of self.old) t.0
            → limit_of self.old ≤ (state_of self.old).count) }
        ensures err { OnErr result (IsUnchanged self.old self.new) }
    {
        if !self.runs(t.0) {
            return Err(Illegal);
        }
        let Some(mut slot) = self.spare.pop() else {
            return Err(Illegal);
        };
        slot.begin(stage);
        self.slots[t.0 as usize].set_idle(SlotStage::Running);
        let cell = self.births.count();
        self.births.add(t.0);
        let pushed = self.slots.push(slot).is_ok();
        prove!(pushed);
        self.owners.set(cell, Some(owner));
        Ok(())
    }
}

/// The stage of a task that has closed a cell, by whether that was its own result.
fn slot_after_close(own: bool) -> SlotStage
    ensures idle { IsIdle result }
    ensures stage { cell_stage [] 0 0 result ≡ stage_after_close own }
{
    if own {
        SlotStage::Ended
    } else {
        SlotStage::Running
    }
}

/// By how much a wait of this way has raised OTHERS.
fn raised_by(way: Way) -> u64
    ensures { result ≡ raised_by_way way }
{
    match way {
        Way::Along => 0,
        Way::Other => 1,
    }
}
