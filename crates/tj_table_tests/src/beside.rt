//! One seat that holds two tasks at once: it runs the root, and claims a child of it, which gets a promise
//! and blocks.
ghost use Rattle.std.specs.Prelude.{◌≡◌};
ghost use Rattle.tj_body.specs.Programs.{program_of};
ghost use Rattle.tj_words.specs.SeatViews.KnowsMore.{KnowsMore};
ghost use Rattle.tj_words.specs.SeatViews.SeatSteps.{IsSeatOf};
ghost use Rattle.tj_run.specs.Inner.Carried.{RunsTask};
ghost use Rattle.tj_table_tests.specs.Beside.{HasBegun, MayBeginBeside, WaitsBeside};

use crate::by_hand::Rig;
use std::marker::Brand;
use std::process::Abort;
use std::sync::Wait;
use std::sync::ledger::Blank;
use tj_base::{CellId, Sort};
use tj_body::{Ask, Body, points_in_rounds};
use tj_detect::Verdict;
use tj_park::{Parked, park};
use tj_words::{Held, Rec, WSeat, Way};

impl<B: Body, R: Wait + Abort> Rig<'_, B, R> {
    /// The seat runs a task, and claims another one besides, which is to begin.
    fn claim_beside(&self, seat: &mut WSeat<B>, mine: &Rec<B>, t: CellId) -> Rec<B>
        requires table { IsSeatOf self.now.laid seat.old }
        requires begins { MayBeginBeside (program_of B.places B.awaits B.left B.asks B.then)
            self.now.laid mine.now t.0 seat.old.me }
        ensures table { seat.new.table_id ≡ seat.old.table_id }
        ensures begun { HasBegun (program_of B.places B.awaits B.left B.asks B.then)
            self.now.laid mine.now result seat.old.me seat.new.me }
    {
        if t.0 == mine.cell().0 {
            panic!(self.rt; "another one");
        }
        self.claim_first(seat, t)
    }

    /// The other task's body asks for a promise. Tells which.
    pub(crate) fn ask_beside(
        &self,
        seat: &mut WSeat<B>,
        mine: &Rec<B>,
        t: CellId,
    ) -> (Rec<B>, u32, Held)
        requires table { IsSeatOf self.now.laid seat.old }
        requires begins { MayBeginBeside (program_of B.places B.awaits B.left B.asks B.then)
            self.now.laid mine.now t.0 seat.old.me }
        ensures table { seat.new.table_id ≡ seat.old.table_id }
        ensures waits { WaitsBeside (program_of B.places B.awaits B.left B.asks B.then)
            self.now.laid mine.now result.0 result.1 result.2 seat.old.me seat.new.me }
    {
        points_in_rounds::<B>();
        let mut rec = self.claim_beside(seat, mine, t);
        let Ok(ask) = rec.next(self.alloc) else {
            panic!(self.rt; "no memory");
        };
        let Ask::Get { p } = ask else {
            panic!(self.rt; "it gets");
        };
        let h = rec.at(p);
        let Sort::Promise = h.sort else {
            panic!(self.rt; "a promise");
        };
        (rec, p, h)
    }

    /// The other task blocks, its walk ends without an alarm, and it is parked.
    pub(crate) fn park_beside(&self, seat: &mut WSeat<B>, mine: &Rec<B>, t: CellId)
        requires table { IsSeatOf self.now.laid seat.old }
        requires begins { MayBeginBeside (program_of B.places B.awaits B.left B.asks B.then)
            self.now.laid mine.now t.0 seat.old.me }
        ensures table { seat.new.table_id ≡ seat.old.table_id }
        ensures knows { KnowsMore seat.old.me.0 seat.new.me.0 }
        ensures runs { RunsTask self.now.laid mine.now seat.new.me }
    {
        let told = self.ask_beside(seat, mine, t);
        let (mut rec, p, h) = told;
        let t = rec.cell();
        let verdict = self.block_at::<Brand>(seat, &mut rec, p, h.cell, Blank::new(1));
        let Verdict::Walked = verdict else {
            panic!(self.rt; "its owner doesn't wait");
        };
        let Parked::Left = park(&self.laid, seat, t, h.cell, Way::Other, rec) else {
            panic!(self.rt; "nothing has become of it");
        };
    }
}
