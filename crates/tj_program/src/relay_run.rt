//! Running a relay over workers: tasks that hand a channel's sending end on. The outcome is that of
//! channels as lists.
ghost use Rattle.std.specs.Prelude.{◌<◌, ◌≤◌, IfOk};
ghost use Rattle.tj_gen.specs.declared.script.TheConstants.{MAX_SIZE};
ghost use Rattle.tj_base.specs.declared.cell.TheConstants.{MAX_CELLS};
ghost use Rattle.tj_program.specs.Inner.ClosedOutputs.{IsRunGiven};
ghost use Rattle.tj_modes.specs.RelayRuns.{IsRelayRun, relay_start};

use crate::crew::Crew;
use crate::output::ClosedOutput;
use std::sync::Wait;
use std::thread::Threads;
use tj_base::Oom;
use tj_chan::{ChanBody, Relay, relay_root};
use tj_modes::Told;
use tj_ports::Gate;

impl<G: Gate, R: Wait + Threads + Sync> Crew<'_, G, R> {
    /// The report of a run of the relay of so many items, or that it is full.
    pub fn relay(&self, size: u32, cells: u32) -> Result<ClosedOutput, Oom>
        requires size { (0 < size) × (size ≤ MAX_SIZE) }
        requires cells { (0 < cells) × (cells ≤ MAX_CELLS) }
        requires workers { (0 < self.now.count) × (self.now.count ≤ 64) }

        // Status and text are those of channels as lists.
        ensures lists { IfOk result (λ given.
            IsRelayRun size cells given.output.status given.output.text.items) }
        ensures run { IfOk result (λ given. IsRunGiven Told.Report (relay_start size cells)
            given.output.status given.output.text.items given.closed) }
    {
        let root = ChanBody::new(self.alloc, relay_root(size))?;
        self.run_body(root, cells, false, Told::Report)
    }
}
