//! A child becomes ready.
ghost use Rattle.std.specs.Prelude.{◌≡◌, ◌∷◌, ℕ, OnErr, OnOk};
ghost use Rattle.atomic_table.specs.Table.{rest};
ghost use Rattle.tj_body.specs.Programs.{program_of};
ghost use Rattle.tj_words.specs.Calls.LiveViews.{HasSlot};
ghost use Rattle.tj_words.specs.CallLaws.StepCalls as call;
ghost use Rattle.tj_words.specs.CallLaws.StepLogs.{entry_of};
ghost use Rattle.tj_words.specs.SeatViews.SeatSteps.{IsCellOf, IsSeatOf};
ghost use Rattle.tj_words.specs.Words.Phases.{phase_word};
ghost use Rattle.tj_park.specs.ChildViews.{MayReleaseChild, child_home, released_child};

use std::alloc::Global;
use std::sync::Wait;
use tj_base::{CellId, Oom};
use tj_body::Body;
use tj_ready::Pool;
use tj_words::{Laid, Phase, Rec, WSeat};

/// Puts the record of an unborn child home, says that the child is ready, and puts it into the
/// pool. After `Oom` the child is ready and not in the pool.
#[inline(always)]
pub fn release<B: Body, P: Pool, R: Wait>(
    rt: &R,
    alloc: Global,
    laid: &Laid<B>,
    seat: &mut WSeat<B>,
    t: CellId,
    rec: Rec<B>,
    pool: &mut P,
) -> Result<(), Oom>
    requires table { IsSeatOf laid.now seat.old }
    requires cell { IsCellOf laid.now t.0 }
    requires slot { HasSlot t.0 seat.old.me }
    requires may { MayReleaseChild (program_of B.places B.awaits B.left B.asks B.then) t.0 rec
        seat.old.me.0 }
    requires pool { P.limit pool.old ≡ laid.now.cells }
    // The seat is one of the same table.
    ensures table { seat.new.table_id ≡ seat.old.table_id }
    // It is the same seat.
    ensures id { seat.new.id ≡ seat.old.id }
    // The child has left the seat, and its slot too, whatever the pool answers. The record that was
    // passed is the one that the seat put home.
    ensures me { seat.new.me ≡ (released_child t.0 rec seat.old.me.0, rest seat.old.me.1) }
    // The pool's limit stays.
    ensures limit { P.limit pool.new ≡ P.limit pool.old }
    // After `Ok` the pool tells that the child was put into it.
    ensures ok { OnOk result (P.puts pool.old t pool.new) }
    // After an error the pool tells that it is as it was.
    ensures err { OnErr result (P.same pool.old pool.new) }
    // The call is two steps, whatever the pool answers: LIVE is raised, and then PHASE of the child
    // stored as Ready. So after an error the child is ready all the same.
    ensures log { (n : ℕ) × (seat.new.log ≡ entry_of (call.puts_phase t.0) (phase_word Phase.Ready)
        0 (phase_word Phase.Ready) ∷ entry_of call.raises_live 1 0 n ∷ seat.old.log)
        × (seat.new.took ≡ seat.old.took) }
    // Beside each of them the seat keeps the view that it had before it: by the second step it had
    // the very record that was passed at home.
    ensures before { (seat.new.befores
        ≡ child_home t.0 rec seat.old.me.0 ∷ seat.old.me.0 ∷ seat.old.befores)
        × (seat.new.took_befores ≡ seat.old.took_befores) }
{
    drop(laid.slot_swap(seat, t, Some(rec)));
    laid.live_up(seat);
    laid.put_phase(seat, t, Phase::Ready);
    pool.put(rt, alloc, t)
}
