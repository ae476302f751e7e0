//! What a walker reads of the machine.
use crate::machine::Machine;
use tj_events::LastRead;

impl Machine {
    ghost use Rattle.std.specs.Prelude.{◌≡◌, ℕ, Some};
    ghost use Rattle.tj_events.specs.CoreState.{owner, wait, present, IfWalks};
    ghost use Rattle.tj_core.specs.Inner.Machine.{state_of};

    /// The owner of the present cell of a task's walk.
    pub(crate) fn present_owner(&self, t: u32) -> Option<u32>
        ensures { let cells = (state_of self.now).cells in
            IfWalks cells t (λ c way w. result ≡ owner cells (present c w.trail)) }
    {
        if (t as usize) < self.slots.len() {
            self.owners.of(self.slots[t as usize].present())
        } else {
            None
        }
    }

    /// What the owner that a task's walk has just read waits for.
    pub(crate) fn wait_of_owner(&self, t: u32) -> Option<u32>
        ensures { let cells = (state_of self.now).cells in
            IfWalks cells t (λ c way w. (u : ℕ) → w.last ≡ LastRead.SawOwner (Some u)
            → result ≡ wait cells u) }
    {
        if (t as usize) < self.slots.len() {
            let owner = self.slots[t as usize].owner_read()?;
            self.wait(owner)
        } else {
            None
        }
    }
}
