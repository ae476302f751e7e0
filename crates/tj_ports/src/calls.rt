//! The calls of a port in memory, counted from 1, and those of them that fail.
ghost use Rattle.std.specs.Prelude.{ℕ, ◌≡◌, ◌≤◌, ◌↔◌, IsOk, IsErr, OnOk, OnErr};
ghost use Rattle.tj_ports.specs.Faults.{HasFault};

use crate::failed::Failed;

/// How many calls there were, which calls fail, and how many faults there were.
#[derive(Drop)]
pub struct Calls {
    pub made: u32,
    pub failing: Vec<u32>,
    pub faults: u64,
}

impl Calls {
    ghost use Rattle.tj_ports.specs.Calls.{number_of_next, fresh_calls, IsNextListed, ListsNone};

    /// No call yet; those with these numbers will fail.
    pub fn new(failing: Vec<u32>) -> Calls
        ensures { result ≡ fresh_calls failing }
    {
        Calls {
            made: 0,
            failing,
            faults: 0,
        }
    }

    /// Begins the next call, which fails where its number is listed.
    pub fn begin(&mut self) -> Result<(), Failed>
        ensures listed { IsErr result ↔ IsNextListed self.old }
        ensures made { self.new.made ≡ number_of_next self.old.made }
        ensures failing { self.new.failing ≡ self.old.failing }
        ensures counted { self.old.faults ≤ self.new.faults }
        ensures quiet { OnOk result (self.new.faults ≡ self.old.faults) }
        ensures failed { OnErr result (HasFault self.old.faults self.new.faults) }
        ensures sound { ListsNone self.old → IsOk result × (self.new.faults ≡ self.old.faults) }
    {
        self.made = self.made.saturating_add(1);
        if self.failing.contains(&self.made) {
            return Err(self.fail());
        }
        Ok(())
    }

    /// Counts a fault.
    pub fn fail(&mut self) -> Failed
        ensures made { self.new.made ≡ self.old.made }
        ensures failing { self.new.failing ≡ self.old.failing }
        ensures counted { self.old.faults ≤ self.new.faults }
        ensures failed { HasFault self.old.faults self.new.faults }
    {
        self.faults = self.faults.saturating_add(1);
        Failed
    }
}
