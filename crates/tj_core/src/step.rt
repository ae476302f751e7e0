//! One event of the machine.
use crate::machine::Machine;
use crate::stage::{Illegal, Stage};
use crate::walk_step::WalkStep;
use tj_events::{Event, LastRead};

impl Machine {
    ghost use Rattle.std.specs.Prelude.{◌≡◌, ◌<◌, ◌^◌, OnOk, OnErr, MatchOption};
    ghost use Rattle.tj_core.specs.Inner.Columns.{stage_in, loads_in};
    ghost use Rattle.tj_core.specs.Checker.StagesShown.{stage_shown};
    ghost use Rattle.tj_core.specs.Inner.Machine.{Accepts, Refuses, state_of};
    ghost use Rattle.tj_events.specs.Events.{Walks};

    /// Applies an event where it is allowed.
    pub(crate) fn step(&mut self, e: Event) -> Result<(), Illegal>
        requires others { self.old.others < 2 ^ 63 }
        requires cleared { self.old.cleared < 2 ^ 63 }
        ensures ok { OnOk result (Accepts self.old e self.new) }
        ensures err { OnErr result (Refuses self.old e self.new) }
    {
        match e {
            Event::Make(t) => self.make(t),
            Event::Fork(t) => self.fork(t),
            Event::Hand(t, p, c) => self.hand(t, p, c),
            Event::Close(t, p) => self.close(t, p),
            Event::Raise(t) => self.raise(t),
            Event::Publish(t, p) => self.publish(t, p),
            Event::LoadOthers(t) => {
                let others = self.others;
                self.walk_on(t, WalkStep::Others(others))
            }
            Event::LoadCount(t) => {
                let count = self.births.count();
                self.walk_on(t, WalkStep::Count(count))
            }
            Event::ReadOwner(t) => {
                let owner = self.present_owner(t.0);
                self.walk_on(t, WalkStep::Owner(owner))
            }
            Event::ReadWait(t) => {
                let wait = self.wait_of_owner(t.0);
                self.walk_on(t, WalkStep::Wait(wait))
            }
            Event::ReadOwnerAgain(t) => {
                let owner = self.present_owner(t.0);
                self.walk_on(t, WalkStep::Again(owner))
            }
            Event::Alarm(t) => self.walk_on(t, WalkStep::Alarm),
            Event::Settle(t) => self.walk_on(t, WalkStep::Settle),
            Event::Unwait(t) => self.unwait(t),
            Event::Lower => self.lower(),
        }
    }

    /// The stage of a task.
    pub(crate) fn stage(&self, t: u32) -> Option<Stage>
        ensures { result ≡ stage_shown (stage_in self.now.slots.items t) }
    {
        self.slots.get(t as usize)?.shown()
    }

    /// The loads of a task's last walk.
    pub(crate) fn loads(&self, t: u32) -> u32
        ensures { result ≡ loads_in self.now.slots.items t }
    {
        self.slots.get(t as usize).map_or(0, |slot| slot.loads)
    }

    /// The last read and the loads of a task's walk, where it walks.
    pub(crate) fn walk(&self, t: u32) -> Option<(LastRead, u32)>
        ensures { let state = state_of self.now in
            MatchOption result (¬ Walks state t (λ c way w. Unit {0}))
            (λ read. Walks state t (λ c way w. (w.last ≡ read.0) × (w.loads ≡ read.1))) }
    {
        if (t as usize) < self.slots.len() {
            self.slots[t as usize].walk()
        } else {
            None
        }
    }
}
