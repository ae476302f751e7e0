//! The racing detector along the order: the root joins a child of it. Its walk is skipped where no other
//! wait stands, and alarms where the child waits for a promise of the root.
ghost use Rattle.std.specs.Prelude.{◌≡◌};
ghost use Rattle.tj_body.specs.Programs.{program_of};
ghost use Rattle.tj_words.specs.SeatViews.SeatSteps.{IsCellOf, IsSeatOf};
ghost use Rattle.tj_run.specs.Inner.Waits.{OpensLedger};
ghost use Rattle.tj_table_tests.specs.ByHand.{IsRun, MayBegin};

use crate::by_hand::Rig;
use crate::written::{Says, lists_of, table_of};
use std::marker::Brand;
use std::process::Abort;
use std::sync::Wait;
use std::sync::ledger::{Blank, Ledger};
use tj_base::{CellId, Sort, Steps};
use tj_body::{Ask, Body, points_in_rounds};
use tj_detect::{Verdict, block, way_of};
use tj_ready::{LockedPool, Pool};
use tj_words::{Rec, WSeat, Way};

impl<B: Body, R: Wait + Abort> Rig<'_, B, R> {
    /// A task that runs joins a task that it is before in the fork order, and blocks. Tells the verdict.
    fn joins<L: Ledger>(&self, seat: &mut WSeat<B>, rec: Rec<B>, blank: Blank) -> Verdict
        requires blank { OpensLedger blank.name blank.parts L.name L.parts }
        requires table { IsSeatOf self.now.laid seat.old }
        requires runs { IsRun (program_of B.places B.awaits B.left B.asks B.then)
            self.now.laid rec seat.old.me }
    {
        points_in_rounds::<B>();
        let (rec, asked) = self.ask(seat, rec);
        let Ask::Join { t } = asked else {
            panic!(self.rt; "it joins");
        };
        let h = rec.at(t);
        let Sort::Task = h.sort else {
            panic!(self.rt; "a task");
        };
        let mut steps = Steps::<L>::new(blank);
        let Way::Along = way_of(&self.laid, seat, rec.cell(), h.cell, &mut steps) else {
            panic!(self.rt; "along the order");
        };
        block(&self.laid, seat, rec.cell(), h.cell, Way::Along, &mut steps)
    }

    /// The root forks a child, and the other seat claims it; then the root joins it.
    fn join_started<P: Pool>(
        &self,
        seat: &mut WSeat<B>,
        other: &mut WSeat<B>,
        pool: &mut P,
    ) -> Verdict
        requires table { IsSeatOf self.now.laid seat.old }
        requires other_table { IsSeatOf self.now.laid other.old }
        requires begins { MayBegin (program_of B.places B.awaits B.left B.asks B.then)
            self.now.laid 0 seat.old.me }
        requires other_begins { MayBegin (program_of B.places B.awaits B.left B.asks B.then)
            self.now.laid 1 other.old.me }
        requires pool { P.limit pool.old ≡ self.now.laid.cells }
    {
        let root = self.begin(seat, CellId(0));
        let rec = self.to_child(seat, root, pool);
        drop(self.begin(other, CellId(1)));
        self.joins::<Brand>(seat, rec, Blank::new(1))
    }

    /// A child waits for a promise of the task that runs; then the task joins the child.
    fn join_beside(&self, seat: &mut WSeat<B>, rec: Rec<B>, child: CellId) -> Verdict
        requires table { IsSeatOf self.now.laid seat.old }
        requires child { IsCellOf self.now.laid child.0 }
        requires runs { IsRun (program_of B.places B.awaits B.left B.asks B.then)
            self.now.laid rec seat.old.me }
    {
        self.park_beside(seat, &rec, child);
        self.joins::<Brand>(seat, rec, Blank::new(1))
    }
}

/// The root forks a child, to which it passes itself, and joins it.
const STARTED: &[&[Says]] = &[&[Says::Fork(1, &[0], &[]), Says::Join(1)], &[Says::Emit(8)]];

/// The root makes a promise and forks a child that gets it, and joins the child.
const CYCLE: &[&[Says]] = &[
    &[Says::New, Says::Fork(1, &[1], &[]), Says::Join(2)],
    &[Says::Get(1)],
];

#[test]
fn a_join_of_a_started_child_is_skipped(rt: HostRuntime) {
    let lists = lists_of(&rt, rt.alloc(), STARTED);
    let (rig, seat, mut pool) = table_of::<LockedPool, HostRuntime>(&rt, &lists, 2);
    let (mut first, mut second) = rig.laid.split(seat);
    let verdict = rig.join_started(&mut first, &mut second, &mut pool);
    assert!(rt; verdict == Verdict::Skipped, "no other wait stands");
}

#[test]
fn a_cycle_of_two_tasks_of_one_seat_alarms(rt: HostRuntime) {
    let lists = lists_of(&rt, rt.alloc(), CYCLE);
    let (rig, mut seat, mut pool) = table_of::<LockedPool, HostRuntime>(&rt, &lists, 3);
    let root = rig.to_fork(&mut seat, &mut pool);
    let verdict = rig.join_beside(&mut seat, root, CellId(2));
    assert!(rt;
        verdict == Verdict::Alarm,
        "the child waits for its promise"
    );
}
