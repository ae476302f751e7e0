//! The changes that events make: each change of one cell is made by one function here, whose clause
//! says it of the core state.
use crate::machine::Machine;
use crate::slot_stage::SlotStage;
use crate::stage::Illegal;
use crate::walk_step::WalkStep;
use tj_base::CellId;
use tj_events::Way;

impl Machine {
    ghost use Rattle.std.specs.Prelude.{◌≡◌, ℕ, ◌<◌, ◌≤◌, ◌↔◌, IsTrue, [], length, Some, IfSome, OnOk, OnErr};
    ghost use Rattle.tj_base.specs.Puts.{put};
    ghost use Rattle.tj_events.specs.CoreState.{waits, walks, parked, stage};
    ghost use Rattle.tj_events.specs.Events.{IsRunning, MayPublish, start_walk, restage, alter, owned_by};
    ghost use Rattle.tj_core.specs.Inner.Machine.{Accepts, Refuses, Changes, state_of, limit_of, loads_of};
    ghost use Rattle.tj_core.specs.Inner.Owners.{IsInside};
    ghost use Rattle.tj_core.specs.Inner.SlotStages.{IsIdle, cell_stage};
    ghost use Rattle.tj_core.specs.Inner.WalkSteps.{event_of, IsSoNow};

    /// Whether a cell is a task that runs.
    pub(crate) fn runs(&self, t: u32) -> bool
        ensures runs { IsTrue result ↔ IsRunning (state_of self.now) t }
        ensures there { IsTrue result → t < length self.now.slots.items }
    {
        if (t as usize) < self.slots.len() {
            self.slots[t as usize].runs()
        } else {
            false
        }
    }

    /// Whether a task may publish a wait of this way.
    pub(crate) fn may_publish(&self, t: u32, way: Way) -> bool
        ensures may { IsTrue result ↔ MayPublish way (stage (state_of self.now).cells t) }
        ensures there { IsTrue result → t < length self.now.slots.items }
    {
        if (t as usize) < self.slots.len() {
            self.slots[t as usize].may_publish(way)
        } else {
            false
        }
    }

    /// The cell and the way of the wait on which a task is parked.
    pub(crate) fn parked_on(&self, t: u32) -> Option<(u32, Way)>
        ensures some { (c : ℕ) (way : Way) → (result ≡ Some (c, way))
            ↔ (stage (state_of self.now).cells t ≡ waits c way parked) }
        ensures there { IfSome result (λ _. t < length self.now.slots.items) }
    {
        if (t as usize) < self.slots.len() {
            self.slots[t as usize].parked_on()
        } else {
            None
        }
    }

    /// The task is at another stage, at which it doesn't wait.
    #[tactic(auto, using(crate::proofs::Columns::ColumnLists::loads_stay))]
    pub(crate) fn set_idle(&mut self, t: u32, stage: SlotStage)
        requires there { t < length self.old.slots.items }
        requires idle { IsIdle stage }
        ensures state { state_of self.new
            ≡ restage (state_of self.old) t (λ _. cell_stage [] 0 0 stage) }
        ensures loads { (c : ℕ) → loads_of self.new c ≡ loads_of self.old c }
        ensures same { Changes self.old self.new }
    {
        self.slots[t as usize].set_idle(stage);
    }

    /// The task waits for the cell, and its walk is at its start.
    #[tactic(auto, using(crate::proofs::Columns::ColumnLists::loads_set))]
    pub(crate) fn start_walk(&mut self, t: u32, cell: u32, way: Way)
        requires { t < length self.old.slots.items }
        ensures state { state_of self.new
            ≡ restage (state_of self.old) t (λ _. waits cell way (walks start_walk)) }
        ensures loads { (c : ℕ) → loads_of self.new c ≡ put (loads_of self.old) t 0 c }
        ensures same { Changes self.old self.new }
    {
        self.slots[t as usize].publish(cell, way);
    }

    /// The walker takes a step, which reads what is so now.
    pub(crate) fn walk_on(&mut self, t: CellId, step: WalkStep) -> Result<(), Illegal>
        requires { IsSoNow (state_of self.old) t.0 step }
        ensures ok { OnOk result (Accepts self.old (event_of t step) self.new) }
        ensures err { OnErr result (Refuses self.old (event_of t step) self.new) }
    {
        if (t.0 as usize) >= self.slots.len() {
            return Err(Illegal);
        }
        self.slots[t.0 as usize].step(t.0, step)?;
        Ok(())
    }

    /// A cell's owner is `now` from here on.
    pub(crate) fn set_owner(&mut self, c: u32, now: Option<u32>)
        requires cell { c < length self.old.owners.owners.items }
        requires owner { IsInside now (length self.old.owners.owners.items) }
        ensures state { state_of self.new ≡ alter (state_of self.old) c (owned_by now) }
        ensures loads { (t : ℕ) → loads_of self.new t ≡ loads_of self.old t }
        ensures same { Changes self.old self.new }
    {
        self.owners.set(c, now);
    }
}
