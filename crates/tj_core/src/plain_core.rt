//! The core: the machine, and how many events were applied to it.
ghost use Rattle.std.specs.Prelude.{◌≤◌};

use crate::births::MAX_CORE_CELLS;
use crate::machine::Machine;
use crate::stage::{Illegal, Stage};
use std::alloc::Global;
use tj_base::{CellId, Oom};
use tj_events::{Event, LastRead};

/// A run of the core, from the root alone on. It accepts exactly the allowed events.
#[derive(Drop)]
pub struct Core {
    machine: Machine,
    applied: u64,
    ghost others: { machine.others ≤ applied },
    ghost cleared: { machine.cleared ≤ applied },
}

impl Core {
    ghost use Rattle.std.specs.Prelude.{◌≡◌, ℕ, ◌<◌, ◌≤◌, ◌^◌, map, IfOk, OnOk, OnErr, MatchOption};
    ghost use Rattle.tj_events.specs.CoreState.{root_alone, stage, wait};
    ghost use Rattle.tj_events.specs.Events.{Allowed, Walks};
    ghost use Rattle.tj_events.specs.WaitGraph.{IsOnCycle, IsCycleFrom};
    ghost use Rattle.tj_core.specs.Checker.Core.{core_state, core_limit, core_loads, core_applied, Applies, IsSame};
    ghost use Rattle.tj_events.specs.CoreFacts.{CoreFacts};
    ghost use Rattle.tj_core.specs.Checker.StagesShown.{stage_shown};

    /// The root alone, running, with room for so many cells.
    pub fn new(alloc: Global, cells: u32) -> Result<Core, Oom>
        requires some { 0 < cells }
        requires small { cells ≤ MAX_CORE_CELLS }
        // A new core shows the root alone.
        ensures state { IfOk result (λ core. core_state core ≡ root_alone) }
        // Its limit of cells is the given one.
        ensures limit { IfOk result (λ core. core_limit core ≡ cells) }
        // No task has made a load.
        ensures loads { IfOk result (λ core. (t : ℕ) → core_loads core t ≡ 0) }
        // No event was applied.
        ensures applied { IfOk result (λ core. core_applied core ≡ 0) }
        // What it shows meets the facts.
        ensures facts { IfOk result (λ core. CoreFacts (core_state core)) }
    {
        let machine = Machine::new(alloc, cells)?;
        Ok(Core {
            machine,
            applied: 0,
        })
    }

    /// Applies an event where it is allowed, and else answers `Illegal` and changes nothing.
    // It asks that fewer than 2^63 events were applied, since the rules bound OTHERS by nothing.
    pub fn apply(&mut self, e: Event) -> Result<(), Illegal>
        requires { core_applied self.old < 2 ^ 63 }
        // `Ok` comes only where the event is allowed, and then the state and the loads are those
        // after it, the limit is the same, and one event more is applied.
        ensures ok { OnOk result (Applies self.old e self.new) }
        // `Illegal` comes only where the event isn't allowed.
        ensures illegal { OnErr result (¬ Allowed (core_limit self.old) (core_state self.old) e) }
        // After `Illegal` nothing has changed.
        ensures err { OnErr result (IsSame self.old self.new) }
        // Where the state before met the facts, so does the state then, whatever the answer.
        ensures facts { CoreFacts (core_state self.old) → CoreFacts (core_state self.new) }
    {
        self.machine.step(e)?;
        self.applied += 1;
        Ok(())
    }

    /// The stage of a task, or None where t isn't a task that is there.
    pub fn stage(&self, t: CellId) -> Option<Stage>
        // The answer is the shown stage of the task, and None exactly where it is no task that is
        // there.
        ensures { result ≡ stage_shown (stage (core_state self.now).cells t.0) }
    {
        self.machine.stage(t.0)
    }

    /// The loads of a task's last walk, 0 where it has made none.
    pub fn loads(&self, t: CellId) -> u32
        // The answer is the number of loads of the task's last walk.
        ensures { result ≡ core_loads self.now t.0 }
    {
        self.machine.loads(t.0)
    }

    /// The last read and the loads of a task's walk, where it walks.
    pub(crate) fn walk(&self, t: CellId) -> Option<(LastRead, u32)>
        ensures { let state = core_state self.now in
            MatchOption result (¬ Walks state t.0 (λ c way w. Unit {0}))
            (λ read. Walks state t.0 (λ c way w. (w.last ≡ read.0) × (w.loads ≡ read.1))) }
    {
        self.machine.walk(t.0)
    }

    /// What a task waits for.
    pub(crate) fn wait(&self, t: CellId) -> Option<u32>
        ensures { result ≡ wait (core_state self.now).cells t.0 }
    {
        self.machine.wait(t.0)
    }

    /// The tasks of the cycle through t, from t on. None comes exactly where t is on no cycle.
    // A cell that is no task has None, as a task on no cycle.
    pub fn cycle_of(&self, alloc: Global, t: CellId) -> Result<Option<Vec<CellId>>, Oom>
        // The answer is the tasks of the standing cycle through t, from t on, and None exactly
        // where there is none.
        ensures { let cells = (core_state self.now).cells in
            IfOk result (λ found. MatchOption found (¬ IsOnCycle cells t.0)
            (λ tasks. IsCycleFrom cells t.0 (map (λ c. c.0) tasks.items))) }
    {
        self.machine.cycle_of(alloc, t.0)
    }

    /// How many events were applied.
    pub fn applied(&self) -> u64
        // The answer is how many events were applied.
        ensures { result ≡ core_applied self.now }
    {
        self.applied
    }
}
