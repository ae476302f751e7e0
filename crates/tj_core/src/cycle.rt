//! Standing cycles of the machine. Each task leads to one task at most, the owner of the cell that
//! it waits for. So the way on from a task comes back to it or ends within as many steps as there
//! are cells.
use crate::machine::Machine;
use std::alloc::Global;
use tj_base::{CellId, Oom};

impl Machine {
    ghost use Rattle.std.specs.Prelude.{ℕ, map, IfOk, MatchOption};
    ghost use Rattle.tj_events.specs.WaitGraph.{Leads, IsOnCycle, IsCycleFrom};
    ghost use Rattle.tj_core.specs.Inner.Machine.{state_of};

    /// The owner of the cell that a task waits for.
    fn next(&self, t: u32) -> Option<u32>
        ensures { let cells = (state_of self.now).cells in
            MatchOption result ((u : ℕ) → ¬ Leads cells t u) (λ u. Leads cells t u) }
    {
        let cell = self.wait(t)?;
        self.owners.of(cell)
    }

    /// The tasks of the cycle through t, from t on.
    pub(crate) fn cycle_of(&self, alloc: Global, t: u32) -> Result<Option<Vec<CellId>>, Oom>
        ensures { let cells = (state_of self.now).cells in
            IfOk result (λ found. MatchOption found (¬ IsOnCycle cells t)
            (λ tasks. IsCycleFrom cells t (map (λ c. c.0) tasks.items))) }
    {
        let mut tasks = Vec::new(alloc);
        let mut at = t;
        for _step in 0..self.births.count() {
            tasks.push(CellId(at))?;
            let Some(next) = self.next(at) else {
                return Ok(None);
            };
            if next == t {
                return Ok(Some(tasks));
            }
            at = next;
        }
        Ok(None)
    }
}
