//! A task that waits is parked.
ghost use Rattle.std.specs.Prelude.{◌≡◌, ◌∷◌, None};
ghost use Rattle.atomic_table.specs.Table.{rest};
ghost use Rattle.tj_body.specs.Programs.{program_of};
ghost use Rattle.tj_words.specs.Calls.LiveViews.{HasSlot};
ghost use Rattle.tj_words.specs.SeatViews.SeatSteps.{IsCellOf, IsSeatOf};
ghost use Rattle.tj_park.specs.Records.{HasNoRecord};
ghost use Rattle.tj_park.specs.ParkLogs.{MakesPark, MakesReturn};
ghost use Rattle.tj_park.specs.ParkViews.{GaveBack, IfBack, IfLeft, LeftTask, MayParkTask};

use crate::join::join_chain;
use crate::wakes::lower;
use tj_base::CellId;
use tj_body::Body;
use tj_words::{Laid, Phase, Rec, WSeat, Walk, Way};

/// What became of a task that was to be parked.
#[derive(Drop)]
pub enum Parked<B> {
    /// Its record lies at home, and another takes it when its cell has a value.
    Left,
    /// Its cell had a value already, and it runs again.
    Back(Rec<B>),
}

/// Parks a task whose walk for its wait for `q` has ended without an alarm. `Back` comes only where
/// this call found the head of the cell's chain shut, and cleared the wait.
// It takes the cell and the way from its caller, who has both from `block`: the record has no way.
#[inline(always)]
pub fn park<B: Body>(
    laid: &Laid<B>,
    seat: &mut WSeat<B>,
    t: CellId,
    q: CellId,
    way: Way,
    rec: Rec<B>,
) -> Parked<B>
    requires table { IsSeatOf laid.now seat.old }
    requires task { IsCellOf laid.now t.0 }
    requires cell { IsCellOf laid.now q.0 }
    requires slot { HasSlot t.0 seat.old.me }
    requires others { HasNoRecord (rest seat.old.me.1) }
    requires may { MayParkTask (program_of B.places B.awaits B.left B.asks B.then) t.0 q.0 way rec
        seat.old.me.0 }
    // The seat is one of the same table.
    ensures table { seat.new.table_id ≡ seat.old.table_id }
    // It is the same seat.
    ensures id { seat.new.id ≡ seat.old.id }
    // The task has left the seat, which has nothing to come and its counts as before; at most 2N +
    // 6 steps. The seat has found no head shut and at most N chains since, N being the table's
    // number of cells. Each push asks for the chain found last (`left_log`), so there were at most
    // N of them. No record was taken out of home.
    ensures left { IfLeft result (LeftTask laid.now.cells t.0 seat.old.me.0 seat.new.me.0) }
    // Whether it is left or runs again, the seat's steps put one record home, which is the one that was
    // passed.
    ensures home { seat.new.me.0.put_home ≡ rec ∷ seat.old.me.0.put_home }
    // Its slot has left the seat too, where it is left.
    ensures left_slot { IfLeft result (seat.new.me.1 ≡ rest seat.old.me.1) }
    // The task runs again with the seat, which knows that the chain of the cell is shut and what
    // has become of the cell; its counts are as before, and there were at most 2N + 6 steps. The
    // seat has found the head of this cell shut once, no other, and chains as with `left`: so at
    // most N pushes failed (`back_log`). The record is the very one that the exchange took out of
    // home, which the seat's view has in front now; no other was taken.
    ensures back { IfBack result (λ r. GaveBack
        (program_of B.places B.awaits B.left B.asks B.then) laid.now.cells t.0 q.0 r
        seat.old.me.0 seat.new.me.0) }
    // The record is the one that was passed.
    ensures same { IfBack result (λ r. r ≡ rec) }
    // Its slot is the seat's, and empty.
    ensures back_slot { IfBack result (λ _. seat.new.me.1 ≡ (t.0, None) ∷ rest seat.old.me.1) }
    // Where the task is left, the steps of this call are: PHASE is stored as Parked, the head is
    // loaded, and then, once or more, NEXT is stored and a push made that asks for the head found
    // last; the last push finds that head and adds the task. LIVE is lowered at last.
    ensures left_log { IfLeft result (MakesPark t.0 q.0 way seat.old seat.new) }
    // Where it runs again they are: PHASE is stored as Parked, and the head is loaded; each push
    // fails, until the head is found shut, by the load or by a push. Then the exchange of PHASE from
    // Parked on this cell to Running finds Parked, and OTHERS is lowered if the wait was counted.
    ensures back_log { IfBack result (λ _. MakesReturn t.0 q.0 way seat.old seat.new) }
{
    drop(laid.slot_swap(seat, t, Some(rec)));
    laid.put_phase(seat, t, Phase::Waiting(q, way, Walk::Parked));
    if join_chain(laid, seat, t, q) {
        laid.live_down(seat);
        return Parked::Left;
    }
    // No other seat can have woken the task, so this exchange doesn't fail.
    let was = Phase::Waiting(q, way, Walk::Parked);
    let _ = laid.swap_phase(seat, t, was, Phase::Running);
    let rec = laid.slot_swap(seat, t, None).unwrap();
    lower(laid, seat, was);
    Parked::Back(rec)
}
