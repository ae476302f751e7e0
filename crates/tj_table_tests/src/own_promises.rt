//! The racing detector on a wait for a promise: the root gets a promise of its own, alarms and is shelved.
ghost use Rattle.std.specs.Prelude.{◌≡◌};
ghost use Rattle.tj_body.specs.Programs.{program_of};
ghost use Rattle.tj_words.specs.SeatViews.SeatSteps.{IsSeatOf};
ghost use Rattle.tj_table_tests.specs.ByHand.{IsRun};

use crate::by_hand::Rig;
use crate::written::{Says, lists_of, table_of};
use std::marker::Brand;
use std::process::Abort;
use std::sync::Wait;
use std::sync::ledger::Blank;
use tj_base::{CellId, Sort};
use tj_body::{Ask, Body, points_in_rounds};
use tj_detect::Verdict;
use tj_park::shelve;
use tj_ready::LockedPool;
use tj_words::{Rec, WSeat};

impl<B: Body, R: Wait + Abort> Rig<'_, B, R> {
    /// A task that runs gets a promise, blocks, and alarms; then it is shelved.
    fn get_and_alarm(&self, seat: &mut WSeat<B>, rec: Rec<B>)
        requires table { IsSeatOf self.now.laid seat.old }
        requires runs { IsRun (program_of B.places B.awaits B.left B.asks B.then)
            self.now.laid rec seat.old.me }
        ensures table { seat.new.table_id ≡ seat.old.table_id }
    {
        points_in_rounds::<B>();
        let (mut rec, asked) = self.ask(seat, rec);
        let Ask::Get { p } = asked else {
            panic!(self.rt; "it gets");
        };
        let h = rec.at(p);
        let Sort::Promise = h.sort else {
            panic!(self.rt; "a promise");
        };
        let t = rec.cell();
        let verdict = self.block_at::<Brand>(seat, &mut rec, p, h.cell, Blank::new(1));
        let Verdict::Alarm = verdict else {
            panic!(self.rt; "it owns the promise");
        };
        shelve(&self.laid, seat, t, rec);
    }
}

/// The root makes a promise, and gets it.
const OWN: &[&[Says]] = &[&[Says::New, Says::Get(1)]];

#[test]
fn a_wait_for_an_own_promise_alarms(rt: HostRuntime) {
    let lists = lists_of(&rt, rt.alloc(), OWN);
    let (rig, mut seat, _pool) = table_of::<LockedPool, HostRuntime>(&rt, &lists, 2);
    let root = rig.begin(&mut seat, CellId(0));
    let rec = rig.to_promise(&mut seat, root);
    rig.get_and_alarm(&mut seat, rec);
    assert!(rt; rig.laid.live(&mut seat) == 0, "nothing goes on");
}
