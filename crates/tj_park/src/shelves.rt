//! A task that has alarmed is shelved.
ghost use Rattle.std.specs.Prelude.{◌≡◌, ℕ};
ghost use Rattle.atomic_table.specs.Table.{rest};
ghost use Rattle.tj_body.specs.Programs.{program_of};
ghost use Rattle.tj_words.specs.Calls.LiveViews.{HasSlot};
ghost use Rattle.tj_words.specs.CallLaws.StepCalls as call;
ghost use Rattle.tj_words.specs.CallLaws.StepLogs.{IsLogged, KeepsBefore};
ghost use Rattle.tj_words.specs.SeatViews.SeatSteps.{IsCellOf, IsSeatOf};
ghost use Rattle.tj_park.specs.ChildViews.{MayShelve, shelved};

use tj_base::CellId;
use tj_body::Body;
use tj_words::{Laid, Rec, WSeat};

/// Puts the record of a task that has alarmed home, for good.
pub fn shelve<B: Body>(laid: &Laid<B>, seat: &mut WSeat<B>, t: CellId, rec: Rec<B>)
    requires table { IsSeatOf laid.now seat.old }
    requires slot { HasSlot t.0 seat.old.me }
    requires may { MayShelve (program_of B.places B.awaits B.left B.asks B.then) t.0 rec
        seat.old.me.0 }
    // The seat is one of the same table.
    ensures table { seat.new.table_id ≡ seat.old.table_id }
    // It is the same seat.
    ensures id { seat.new.id ≡ seat.old.id }
    // The task has left the seat with its slot, and a token is given up. The record that was passed
    // is the one that the seat put home.
    ensures me { seat.new.me ≡ (shelved t.0 rec seat.old.me.0, rest seat.old.me.1) }
    // The call is one step: LIVE is lowered.
    ensures log { (n : ℕ) × IsLogged call.lowers_live 1 0 n seat.old seat.new }
    // Beside this entry the seat keeps the view that it had before the call.
    ensures before { KeepsBefore seat.old seat.new }
{
    drop(laid.slot_swap(seat, t, Some(rec)));
    laid.live_down(seat);
}
