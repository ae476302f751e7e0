//! Draws of cells, and the words of a cell that its drawer writes while it has the cell in hand.
ghost use Rattle.std.specs.Prelude.{◌≡◌, ℕ, ◌<◌, ◌≤◌, IfSome, None};
ghost use Rattle.tj_body.specs.Programs.{program_of};
ghost use Rattle.tj_words.specs.CallLaws.StepCalls as call;
ghost use Rattle.tj_words.specs.CallLaws.StepLogs.{IsLogged, KeepsBefore};
ghost use Rattle.tj_words.specs.Calls.DrawViews as draws;
ghost use Rattle.tj_words.specs.Calls.DrawViews.{FindsCell, FindsNone, MayDraw, MayWrite};
ghost use Rattle.tj_words.specs.Calls.DrawViews.{new_slots};
ghost use Rattle.tj_words.specs.SeatViews.SeatSteps.{IsSameSeat};

use crate::draw_plays::{Draw, WordStore};
use crate::offsets::{COUNT, Once, once_at};
use crate::plays::Naming;
use crate::table::{Laid, WSeat};
use std::marker::Brand;
use tj_base::{CellId, Sort};
use tj_body::{Body, full_where_names};
use tj_events::event_keeps_facts;

impl<B: Body> Laid<B> {
    /// Draws a cell for a task that runs, which the seat has in hand then. There is none where all
    /// are drawn.
    // It asks only that the next thing of the task has a name of some round: the law needs no more.
    pub fn draw_one(&self, seat: &mut WSeat<B>, t: CellId, sort: Sort) -> Option<CellId>
        requires table { seat.old.table_id ≡ self.now.table.shared.table_id }
        requires may { MayDraw (program_of B.places B.awaits B.left B.asks B.then) t.0
            seat.old.me.0 }
        // It is the same seat of the same table.
        ensures seat { (seat.new.table_id ≡ seat.old.table_id) × (seat.new.id ≡ seat.old.id) }
        // A cell that is found is the next after all that were drawn; the seat has it in hand, with
        // its words to write, and a new task beside.
        ensures found { IfSome result (λ c. FindsCell self.now.cells t.0 sort c.0
            seat.old.me.0 seat.new.me.0) }
        // Where a task is drawn, the seat has its slot too.
        ensures slots { IfSome result (λ c. seat.new.me.1 ≡ new_slots c.0 sort seat.old.me.1) }
        // Where there is none, the meaning of the program with the number of cells is full, the
        // seat has one refused draw more, and its slots are the same.
        ensures refused { result ≡ None
            → FindsNone (program_of B.places B.awaits B.left B.asks B.then)
            seat.old.me.0 seat.new.me.0 × (seat.new.me.1 ≡ seat.old.me.1) }
        // The seat's log is longer by one entry: 1 was added to COUNT, which was the number of the
        // cell.
        ensures log_found { IfSome result (λ c. IsLogged (call.draws t.0 sort) 1 0 c.0
            seat.old seat.new) }
        // Where there is none, it is longer by one entry, too: 1 was added to COUNT, which was the
        // table's number of cells or more.
        ensures log_refused { result ≡ None → (n : ℕ) × (self.now.cells ≤ n)
            × IsLogged (call.draws t.0 sort) 1 0 n seat.old seat.new }
        // Beside this entry the seat keeps the view that it had before the step.
        ensures before { KeepsBefore seat.old seat.new }
    {
        let found = self.add_count::<Brand>(seat, t, sort);
        if found < self.cells as u64 {
            Some(CellId(found as u32))
        } else {
            None
        }
    }

    fn add_count<M: Naming>(&self, seat: &mut WSeat<B>, t: CellId, sort: Sort) -> u64
        requires named { (M.task ≡ t.0) × (M.sort ≡ sort) }
        requires table { seat.old.table_id ≡ self.now.table.shared.table_id }
        requires may { MayDraw (program_of B.places B.awaits B.left B.asks B.then) t.0
            seat.old.me.0 }
        ensures seat { (seat.new.table_id ≡ seat.old.table_id) × (seat.new.id ≡ seat.old.id) }
        ensures found { result < self.now.cells
            → FindsCell self.now.cells t.0 sort result seat.old.me.0 seat.new.me.0
            × (seat.new.me.1 ≡ new_slots result sort seat.old.me.1) }
        ensures refused { self.now.cells ≤ result
            → FindsNone (program_of B.places B.awaits B.left B.asks B.then)
            seat.old.me.0 seat.new.me.0 × (seat.new.me.1 ≡ seat.old.me.1) }
        ensures log { IsLogged (call.draws t.0 sort) 1 0 result seat.old seat.new }
        ensures before { KeepsBefore seat.old seat.new }
    {
        event_keeps_facts();
        full_where_names::<B>();
        self.table.fetch_add::<Draw<M>>(seat, COUNT, 1)
    }

    /// Writes PARENT, KID, DEPTH or JUMP of the cell in hand.
    pub(crate) fn put_tree_word(&self, seat: &mut WSeat<B>, c: CellId, f: Once, v: u64)
        requires table { seat.old.table_id ≡ self.now.table.shared.table_id }
        requires cell { c.0 < self.now.cells }
        requires may { MayWrite c.0 f v seat.old.me.0 }
        ensures seat { IsSameSeat seat.old seat.new }
        ensures view { seat.new.me.0 ≡ draws.wrote_word c.0 f v seat.old.me.0 }
        ensures log { IsLogged (call.puts_once c.0 f) v 0 v seat.old seat.new }
        ensures before { KeepsBefore seat.old seat.new }
    {
        self.table.store::<WordStore>(seat, once_at(c, f), v);
    }
}
