//! One cell of the checker: its stage, and the walk of its task. The calls of a walk test the
//! walker's last read, and then change it.
ghost use Rattle.std.specs.Prelude.{◌≡◌, ℕ, ◌+◌, ◌*◌, ◌<◌, ◌≤◌, length, vec_capacity};
ghost use Rattle.tj_core.specs.declared.births.TheConstants.{MAX_CORE_CELLS};
ghost use Rattle.tj_core.specs.declared.slot_stage.Progress.TheVariants.{Walking};
ghost use Rattle.tj_core.specs.declared.slot_stage.SlotStage.TheVariants.{Waiting};
ghost use Rattle.tj_core.specs.Inner.SlotStages.{stage_passes, stage_loads, stage_bound};

use crate::births::MAX_CORE_CELLS;
use crate::slot_stage::{Progress, SlotStage};
use crate::stage::{Illegal, Stage};
use crate::walk_step::WalkStep;
use std::alloc::{AllocError, Global};
use tj_events::{LastRead, TrailLink, Way};

/// A slot. Its trail has room for as many owners as its walk may pass.
#[derive(Drop)]
pub(crate) struct Slot {
    pub(crate) stage: SlotStage,
    pub(crate) bound: u32,
    pub(crate) loads: u32,
    /// The owners that the walk has passed, the oldest first.
    pub(crate) trail: Vec<TrailLink>,
    ghost within: { length trail.items + stage_passes stage ≤ bound },
    ghost loaded: { loads ≤ 3 * length trail.items + stage_loads stage },
    ghost room: { bound ≤ vec_capacity trail },
    // Before a walk has read its bound, that is 0.
    ghost small: { bound ≤ MAX_CORE_CELLS * stage_bound stage },
}

impl Slot {
    ghost use Rattle.std.specs.Prelude.{◌≡◌, ◌≢◌, ℕ, suc, ◌+◌, ◌*◌, ◌<◌, ◌≤◌, ◌↔◌, IsTrue, IfOk, OnOk, OnErr, Some, None, [], MatchOption, length, vec_capacity};
    ghost use Rattle.tj_events.specs.CoreState.{promise, fresh, waits, walks, parked, alarmed, wait_of, is_task, Runs, present, IfWalksAt};
    ghost use Rattle.tj_events.specs.Events.{WalksAt, MayPublish, start_walk};
    ghost use Rattle.tj_core.specs.Inner.Slots.{stage_of, walker};
    ghost use Rattle.tj_core.specs.declared.slot_stage.Progress.TheVariants.{Walking};
    ghost use Rattle.tj_core.specs.declared.slot_stage.SlotStage.TheVariants.{Waiting};
    ghost use Rattle.tj_core.specs.Checker.StagesShown.{stage_shown};
    ghost use Rattle.tj_core.specs.Inner.SlotStages.{cell_stage, IsIdle};
    ghost use Rattle.tj_core.specs.Inner.WalkSteps.{MayStep, stage_by, loads_by, HasRoom};

    /// An empty slot, with room for walks that pass so many owners.
    pub(crate) fn new(alloc: Global, cells: u32) -> Result<Slot, AllocError>
        ensures stage { IfOk result (λ slot. stage_of slot ≡ promise) }
        ensures loads { IfOk result (λ slot. slot.loads ≡ 0) }
        ensures room { IfOk result (λ slot. cells ≤ vec_capacity slot.trail) }
    {
        let trail = Vec::with_capacity(alloc, cells as usize)?;
        Ok(Slot {
            stage: SlotStage::Promise,
            bound: 0,
            loads: 0,
            trail,
        })
    }

    /// Whether its task is fresh or running.
    pub(crate) fn runs(&self) -> bool
        ensures { IsTrue result ↔ Runs (stage_of self.now) }
    {
        matches!(self.stage, SlotStage::Fresh | SlotStage::Running)
    }

    /// Whether it is a task's.
    pub(crate) fn is_task(&self) -> bool
        ensures { result ≡ is_task (stage_of self.now) }
    {
        !matches!(self.stage, SlotStage::Promise)
    }

    /// The stage of its task.
    pub(crate) fn shown(&self) -> Option<Stage>
        ensures { result ≡ stage_shown (stage_of self.now) }
    {
        match self.stage {
            SlotStage::Promise => None,
            SlotStage::Fresh => Some(Stage::Fresh),
            SlotStage::Running => Some(Stage::Running),
            SlotStage::Raised => Some(Stage::Raised),
            SlotStage::Waiting(_, _, Progress::Walking(_)) => Some(Stage::Walking),
            SlotStage::Waiting(_, _, Progress::Parked) => Some(Stage::Parked),
            SlotStage::Waiting(_, _, Progress::Alarmed) => Some(Stage::Alarmed),
            SlotStage::Ended => Some(Stage::Ended),
        }
    }

    /// Whether it is a promise's.
    pub(crate) fn is_promise(&self) -> bool
        ensures { IsTrue result ↔ (stage_of self.now ≡ promise) }
    {
        matches!(self.stage, SlotStage::Promise)
    }

    /// Whether it is that of a task that had no event yet.
    pub(crate) fn is_fresh(&self) -> bool
        ensures { IsTrue result ↔ (stage_of self.now ≡ fresh) }
    {
        matches!(self.stage, SlotStage::Fresh)
    }

    /// Whether its task may publish a wait of this way.
    pub(crate) fn may_publish(&self, way: Way) -> bool
        ensures { IsTrue result ↔ MayPublish way (stage_of self.now) }
    {
        match way {
            Way::Along => self.runs(),
            Way::Other => matches!(self.stage, SlotStage::Raised),
        }
    }

    /// What its task waits for.
    pub(crate) fn wait(&self) -> Option<u32>
        ensures { result ≡ wait_of (stage_of self.now) }
    {
        match self.stage {
            SlotStage::Waiting(cell, _, _) => Some(cell),
            _ => None,
        }
    }

    /// The cell and the way of the wait on which its task is parked.
    pub(crate) fn parked_on(&self) -> Option<(u32, Way)>
        ensures some { (c : ℕ) (way : Way)
            → (result ≡ Some (c, way)) ↔ (stage_of self.now ≡ waits c way parked) }
    {
        match self.stage {
            SlotStage::Waiting(cell, way, Progress::Parked) => Some((cell, way)),
            _ => None,
        }
    }

    /// The last read and the loads of its walk, where its task walks.
    pub(crate) fn walk(&self) -> Option<(LastRead, u32)>
        ensures { let stage = stage_of self.now in
            MatchOption result (¬ WalksAt stage (λ c way w. Unit {0}))
            (λ read. WalksAt stage (λ c way w. (w.last ≡ read.0) × (w.loads ≡ read.1))) }
    {
        match self.stage {
            SlotStage::Waiting(_, _, Progress::Walking(last)) => Some((last, self.loads)),
            _ => None,
        }
    }

    /// The present cell of its walk.
    pub(crate) fn present(&self) -> u32
        ensures { IfWalksAt (stage_of self.now) (λ c way w. result ≡ present c w.trail) }
    {
        match (self.trail.last(), self.stage) {
            (Some(link), _) => link.next,
            (None, SlotStage::Waiting(cell, _, _)) => cell,
            (None, _) => 0,
        }
    }

    /// It is a new cell's from here on.
    pub(crate) fn begin(&mut self, stage: SlotStage)
        requires { IsIdle stage }
        ensures stage { stage_of self.new ≡ cell_stage [] 0 0 stage }
        ensures loads { self.new.loads ≡ 0 }
        ensures room { vec_capacity self.old.trail ≤ vec_capacity self.new.trail }
    {
        self.loads = 0;
        self.stage = stage;
    }

    /// Its task no longer waits.
    pub(crate) fn set_idle(&mut self, stage: SlotStage)
        requires { IsIdle stage }
        ensures stage { stage_of self.new ≡ cell_stage [] 0 0 stage }
        ensures loads { self.new.loads ≡ self.old.loads }
        ensures room { vec_capacity self.old.trail ≤ vec_capacity self.new.trail }
    {
        self.stage = stage;
    }

    /// Its task walks on the cell, from the start.
    pub(crate) fn publish(&mut self, cell: u32, way: Way)
        ensures stage { stage_of self.new ≡ waits cell way (walks start_walk) }
        ensures loads { self.new.loads ≡ 0 }
        ensures room { vec_capacity self.old.trail ≤ vec_capacity self.new.trail }
    {
        self.trail.clear();
        self.bound = 0;
        self.loads = 0;
        self.stage = SlotStage::Waiting(cell, way, Progress::Walking(LastRead::Published));
    }

    /// The owner that its walk has just read.
    pub(crate) fn owner_read(&self) -> Option<u32>
        ensures { IfWalksAt (stage_of self.now)
            (λ c way w. (u : ℕ) → w.last ≡ LastRead.SawOwner (Some u) → result ≡ Some u) }
    {
        match self.stage {
            SlotStage::Waiting(_, _, Progress::Walking(LastRead::SawOwner(owner))) => owner,
            _ => None,
        }
    }

    /// Whether the step is the next one of a walk of task t with this last read.
    fn may_step(&self, t: u32, step: WalkStep, way: Way, last: LastRead) -> bool
        ensures { IsTrue result
            ↔ MayStep t step way (walker self.now.trail.items self.now.bound self.now.loads last) }
    {
        match step {
            WalkStep::Others(_) => way == Way::Along && last == LastRead::Published,
            WalkStep::Count(_) => last.before_count(way),
            WalkStep::Owner(_) => last.before_owner(self.trail.len(), self.bound),
            WalkStep::Wait(_) => last.before_wait(t),
            WalkStep::Again(_) => matches!(last, LastRead::SawWait(_, Some(_))),
            WalkStep::Alarm => last == LastRead::SawOwner(Some(t)),
            WalkStep::Settle => last.ends_walk(self.trail.len(), self.bound),
        }
    }

    /// The walker of task t takes a step.
    #[tactic(auto, using(crate::proofs::Columns::Slots::walks_at))]
    pub(crate) fn step(&mut self, t: u32, step: WalkStep) -> Result<(), Illegal>
        requires { HasRoom (vec_capacity self.old.trail) step }
        ensures allowed { OnOk result (WalksAt (stage_of self.old) (λ c. MayStep t step)) }
        ensures stage { OnOk result (stage_of self.new ≡ stage_by step (stage_of self.old)) }
        ensures loads { OnOk result (self.new.loads ≡ loads_by step self.old.loads) }
        ensures room { vec_capacity self.old.trail ≤ vec_capacity self.new.trail }
        ensures illegal { OnErr result (¬ WalksAt (stage_of self.old) (λ c. MayStep t step)) }
        ensures err { OnErr result (self.new ≡ self.old) }
    {
        let SlotStage::Waiting(cell, way, Progress::Walking(last)) = self.stage else {
            return Err(Illegal);
        };
        if !self.may_step(t, step, way, last) {
            return Err(Illegal);
        }
        self.take_step(t, step, cell, way, last);
        Ok(())
    }

    /// The walk, which waits for the cell and has this last read, is after the step.
    fn take_step(&mut self, t: u32, step: WalkStep, cell: u32, way: Way, last: LastRead)
        requires walks { self.old.stage ≡ Waiting cell way (Walking last) }
        requires may { MayStep t step way (walker self.old.trail.items self.old.bound self.old.loads last) }
        requires room { HasRoom (vec_capacity self.old.trail) step }
        ensures stage { stage_of self.new ≡ stage_by step (stage_of self.old) }
        ensures loads { self.new.loads ≡ loads_by step self.old.loads }
        ensures room { vec_capacity self.old.trail ≤ vec_capacity self.new.trail }
    {
        match step {
            WalkStep::Others(others) => self.stage = walking(
                cell,
                way,
                LastRead::SawOthers(others),
            ),
            WalkStep::Count(count) => {
                self.bound = count;
                self.stage = walking(cell, way, LastRead::Counted);
            }
            WalkStep::Owner(owner) => {
                self.loads += 1;
                self.stage = walking(cell, way, LastRead::SawOwner(owner));
            }
            WalkStep::Wait(wait) => {
                let LastRead::SawOwner(Some(owner)) = last else {
                    return;
                };
                self.loads += 1;
                self.stage = walking(cell, way, LastRead::SawWait(owner, wait));
            }
            WalkStep::Again(now) => {
                let LastRead::SawWait(owner, Some(next)) = last else {
                    return;
                };
                self.loads += 1;
                if now == Some(owner) {
                    let pushed = self.trail.push(TrailLink { owner, next }).is_ok();
                    prove!(pushed);
                    self.stage = walking(cell, way, LastRead::Passed);
                } else {
                    self.stage = walking(cell, way, LastRead::Changed);
                }
            }
            WalkStep::Alarm => self.stage = SlotStage::Waiting(cell, way, Progress::Alarmed),
            WalkStep::Settle => self.stage = SlotStage::Waiting(cell, way, Progress::Parked),
        }
    }
}

/// The stage of a task that waits, and whose walk goes on after this read.
fn walking(cell: u32, way: Way, read: LastRead) -> SlotStage
    ensures { result ≡ Waiting cell way (Walking read) }
{
    SlotStage::Waiting(cell, way, Progress::Walking(read))
}
