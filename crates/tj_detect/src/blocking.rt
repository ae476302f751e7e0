//! A task blocks on a wait: the wait is published, and a walk over the other tasks' words tells then
//! whether it closes a cycle.
ghost use Rattle.std.specs.Prelude.{◌≡◌, ◌↔◌, ℕ, ◌+◌, ◌<◌};
ghost use Rattle.tj_body.specs.Programs.{program_of};
ghost use Rattle.tj_events.specs.declared.walk.Walker.{Walker};
ghost use Rattle.tj_events.specs.CoreState.{present};
ghost use Rattle.tj_events.specs.Events as core;
ghost use Rattle.tj_events.specs.Events.{MayReadOwner};
ghost use Rattle.tj_words.specs.CallLaws.StepCalls as call;
ghost use Rattle.tj_words.specs.CallLaws.StepLogs.{IsLogged};
ghost use Rattle.tj_words.specs.Words.Owners.{owner_number};
ghost use Rattle.tj_words.specs.Words.Phases.{phase_word};
ghost use Rattle.tj_words.specs.SeatViews.SeatSteps.{IsCellOf, IsSameSeat, IsSeatOf};
ghost use Rattle.tj_words.specs.Steps.StepEvents.{wait_in};
ghost use Rattle.tj_words.specs.Calls.WaitViews.{MayPutWait, PutsWait};
ghost use Rattle.tj_words.specs.Calls.WalkViews.{IsWalking, MayLoadWait};
ghost use Rattle.tj_detect.specs.BlockLogs.{LogsBlock, MakesWalk};
ghost use Rattle.tj_detect.specs.Blocks.{Blocks, HasReadNoOthers, InEachTable, MayBlock};
ghost use Rattle.tj_detect.specs.Blocks.{OthersWatch, StandsOnCycle};
ghost use Rattle.tj_detect.specs.Inner.WalkHops.{
  Comes,
  Hops,
  IsAtCount,
  MakesHop,
  MakesSecondLook,
  Passes,
  WalksWith,
};

use std::sync::ledger::Ledger;
use tj_base::{CellId, Steps};
use tj_body::Body;
use tj_events::settlers_are_not_alone;
use tj_words::{Laid, Phase, WSeat, Walk, Way};

/// What a call that blocks on a wait came to.
#[derive(Clone, Copy, PartialEq, Eq)]
pub enum Verdict {
    /// The task is on a standing cycle, and has alarmed.
    Alarm,
    /// The walk has ended without an alarm.
    Walked,
    /// No other wait stood, so a wait along the order needs no walk.
    Skipped,
}

/// What up to three reads of a walk came to.
#[derive(Drop)]
pub(crate) enum Hop {
    /// The owner is passed, and this is the next present cell.
    Next(CellId),
    /// The walk is at its end.
    Ended,
    /// The owner is the walker's own task.
    Own,
}

/// Publishes that t waits for q, and walks whether the wait closes a cycle. An other wait raises
/// OTHERS first; a wait along the order is walked only where OTHERS isn't 0.
pub fn block<B: Body, L: Ledger>(
    laid: &Laid<B>,
    seat: &mut WSeat<B>,
    t: CellId,
    q: CellId,
    way: Way,
    steps: &mut Steps<L>,
) -> Verdict
    requires table { IsSeatOf laid.now seat.old }
    requires task { IsCellOf laid.now t.0 }
    requires cell { IsCellOf laid.now q.0 }
    requires may { MayBlock t.0 q.0 way seat.old.me.0 }
    // The seat is the same, with the same slots.
    ensures seat { IsSameSeat seat.old seat.new }
    // The wait is published, and the view is as it was but for what t does, its steps, and a token
    // for an alarm; with n cells counted the walk makes at most 3n loads and the call 3n + 3 steps,
    // and a skip makes two. Walked comes only where a load of this call ended the walk, and the way
    // is other or this walk has read OTHERS above 0 and gone on from there.
    ensures view { Blocks result t.0 q.0 way steps.old steps.new seat.old.me.0 seat.new.me.0 }
    // Skipped comes exactly where the way is along and this call loaded OTHERS as 0.
    ensures skipped { result ≡ Verdict.Skipped ↔ HasReadNoOthers t.0 q.0 seat.new.me.0 }
    // Alarm comes only with t on a standing cycle.
    ensures alarm { result ≡ Verdict.Alarm
        → InEachTable (program_of B.places B.awaits B.left B.asks B.then) seat.new.me.0
        (StandsOnCycle t.0) }
    // Walked comes only where each standing cycle through t has another member that has alarmed or
    // is on course.
    ensures walked { result ≡ Verdict.Walked
        → InEachTable (program_of B.places B.awaits B.left B.asks B.then) seat.new.me.0
        (OthersWatch t.0) }
    // The call is these steps, in this order, and no other. On a wait along the order the wait is
    // stored, and then OTHERS loaded; an other wait raises OTHERS, and is stored then. Skipped
    // comes with no step after OTHERS was loaded as 0. Else, which on a wait along the order comes
    // only where OTHERS was loaded above 0, COUNT is loaded, and then OWN of the present cell, which
    // is q at first, PHASE of the owner and OWN again, so often at most as COUNT counts cells of
    // the table. Where both loads of OWN name the same other task, the cell that it waits for by
    // its PHASE is the present one from then on, and else nothing more is loaded. Alarm comes
    // exactly where the first of the two loads names t, with the store of the alarm last; where
    // the second alone did, it would be Walked.
    ensures log { LogsBlock laid.now.cells t.0 q way result seat.old seat.new }
{
    settlers_are_not_alone();
    let waiter = Waiter { laid, t, q, way };
    match way {
        Way::Along => waiter.walk_along(seat, steps),
        Way::Other => {
            // It counts among the others before it stands.
            laid.others_up(seat, t);
            steps.tick();
            waiter.put_wait(seat, Walk::Walking, steps);
            waiter.walk(seat, steps)
        }
    }
}

// A task `t` that waits for `q`, at its table.
#[derive(Drop)]
struct Waiter<'l, B: Body> {
    laid: &'l Laid<B>,
    t: CellId,
    q: CellId,
    way: Way,
}

impl<B: Body> Waiter<'_, B> {
    // A wait along the order: it is walked where another wait may stand.
    fn walk_along<L: Ledger>(&self, seat: &mut WSeat<B>, steps: &mut Steps<L>) -> Verdict
        requires table { IsSeatOf self.now.laid.now seat.old }
        requires task { IsCellOf self.now.laid.now self.now.t.0 }
        requires cell { IsCellOf self.now.laid.now self.now.q.0 }
        requires along { self.now.way ≡ Way.Along }
        requires may { MayBlock self.now.t.0 self.now.q.0 self.now.way seat.old.me.0 }
        ensures seat { IsSameSeat seat.old seat.new }
        ensures view { Blocks result self.now.t.0 self.now.q.0 self.now.way steps.old steps.new
            seat.old.me.0 seat.new.me.0 }
        ensures log { LogsBlock self.now.laid.now.cells self.now.t.0 self.now.q self.now.way result
            seat.old seat.new }
    {
        self.put_wait(seat, Walk::Walking, steps);
        let others = self.laid.others(seat, self.t);
        steps.tick();
        if others == 0 {
            return Verdict::Skipped;
        }
        self.walk(seat, steps)
    }

    // Stores in PHASE that the task waits, and how its walk stands.
    fn put_wait<L: Ledger>(&self, seat: &mut WSeat<B>, walk: Walk, steps: &mut Steps<L>)
        requires table { IsSeatOf self.now.laid.now seat.old }
        requires task { IsCellOf self.now.laid.now self.now.t.0 }
        requires cell { IsCellOf self.now.laid.now self.now.q.0 }
        requires may { MayPutWait (program_of B.places B.awaits B.left B.asks B.then) self.now.t.0
            self.now.q.0 self.now.way walk seat.old.me }
        ensures table { seat.new.table_id ≡ seat.old.table_id }
        ensures id { seat.new.id ≡ seat.old.id }
        ensures puts { PutsWait self.now.t.0 self.now.q.0 self.now.way walk seat.old.me
            seat.new.me }
        ensures step { steps.new ≡ steps.old + 1 }
        ensures log { IsLogged (call.puts_phase self.now.t.0)
            (phase_word (Phase.Waiting self.now.q self.now.way walk)) 0
            (phase_word (Phase.Waiting self.now.q self.now.way walk)) seat.old seat.new }
    {
        self.laid
            .put_phase(seat, self.t, Phase::Waiting(self.q, self.way, walk));
        steps.tick();
    }

    // The walk from q on: as many owners are passed at most as there are cells.
    fn walk<L: Ledger>(&self, seat: &mut WSeat<B>, steps: &mut Steps<L>) -> Verdict
        requires table { IsSeatOf self.now.laid.now seat.old }
        requires task { IsCellOf self.now.laid.now self.now.t.0 }
        requires cell { IsCellOf self.now.laid.now self.now.q.0 }
        requires walks { IsAtCount self.now.t.0 self.now.q.0 self.now.way seat.old.me.0 }
        ensures seat { IsSameSeat seat.old seat.new }
        ensures comes { Comes result self.now.t.0 self.now.q.0 self.now.way steps.old steps.new
            seat.old.me.0 seat.new.me.0 }
        ensures log { MakesWalk self.now.laid.now.cells self.now.t.0 self.now.q self.now.way result
            seat.old seat.new }
    {
        let bound = self.laid.count(seat, Some(self.t));
        steps.tick();
        let mut present = self.q;
        for passed in 0..bound {
            match self.look_at_owner(seat, present, steps) {
                Hop::Next(next) => {
                    present = next;
                }
                Hop::Ended => {
                    return Verdict::Walked;
                }
                Hop::Own => {
                    self.put_wait(seat, Walk::Alarmed, steps);
                    return Verdict::Alarm;
                }
            }
        }
        Verdict::Walked
    }

    // The owner of the present cell p, what this owner waits for, and the owner again.
    fn look_at_owner<L: Ledger>(&self, seat: &mut WSeat<B>, p: CellId, steps: &mut Steps<L>) -> Hop
        requires table { IsSeatOf self.now.laid.now seat.old }
        requires cell { IsCellOf self.now.laid.now p.0 }
        requires walks { IsWalking self.now.t.0
            (λ q way w. (p.0 ≡ present q w.trail) × MayReadOwner w) seat.old.me.0 }
        ensures seat { IsSameSeat seat.old seat.new }
        ensures hops { (q : ℕ) (way : Way) (w : Walker)
            → WalksWith self.now.t.0 q way w seat.old.me.0
            → Hops self.now.laid.now.cells result self.now.t.0 q way w steps.old steps.new
            seat.old.me.0 seat.new.me.0 }
        ensures log { MakesHop self.now.t.0 p.0 result seat.old seat.new }
    {
        let t = self.t;
        let first = self.laid.see_owner(seat, p, Some(t));
        steps.tick();
        match first {
            None => Hop::Ended,
            Some(u) => {
                if u.0 == t.0 {
                    return Hop::Own;
                }
                self.look_at_wait(seat, p, u, steps)
            }
        }
    }

    // What the owner u of p waits for, and whether it still is the owner.
    fn look_at_wait<L: Ledger>(
        &self,
        seat: &mut WSeat<B>,
        p: CellId,
        u: CellId,
        steps: &mut Steps<L>,
    ) -> Hop
        requires table { IsSeatOf self.now.laid.now seat.old }
        requires cell { IsCellOf self.now.laid.now p.0 }
        requires owner { IsCellOf self.now.laid.now u.0 }
        requires walks { IsWalking self.now.t.0 (λ q way w. (p.0 ≡ present q w.trail)
            × MayLoadWait self.now.t.0 u.0 w) seat.old.me.0 }
        ensures seat { IsSameSeat seat.old seat.new }
        ensures passes { (q : ℕ) (way : Way) (w : Walker)
            → WalksWith self.now.t.0 q way w seat.old.me.0
            → Passes self.now.laid.now.cells result u.0 self.now.t.0 q way w steps.old steps.new
            seat.old.me.0 seat.new.me.0 }
        ensures log { MakesSecondLook p.0 u.0 result seat.old seat.new }
    {
        let found = self.laid.see_phase(seat, u, Some(self.t));
        steps.tick();
        match wait_of(found) {
            None => Hop::Ended,
            Some(next) => {
                let again = self.laid.see_owner(seat, p, Some(self.t));
                steps.tick();
                if is_owner(again, u) {
                    return Hop::Next(next);
                }
                Hop::Ended
            }
        }
    }
}

// The cell that a task in this phase waits for.
fn wait_of(phase: Phase) -> Option<CellId>
    ensures { wait_in phase ≡ owner_number result }
{
    match phase {
        Phase::Waiting(cell, _, _) => Some(cell),
        _ => None,
    }
}

fn is_owner(owner: Option<CellId>, u: CellId) -> bool
    ensures { result ≡ core.is_owner (owner_number owner) u.0 }
{
    match owner {
        Some(o) => o.0 == u.0,
        None => false,
    }
}
