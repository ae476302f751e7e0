//! A ready task is claimed.
ghost use Rattle.std.specs.Prelude.{◌≡◌, ◌≢◌, ◌∷◌, IfSome, None};
ghost use Rattle.tj_body.specs.Programs.{program_of};
ghost use Rattle.tj_words.specs.Calls.ExchangeViews.{KnowsTable, missed};
ghost use Rattle.tj_words.specs.CallLaws.StepCalls as call;
ghost use Rattle.tj_words.specs.CallLaws.StepLogs.{IsLogged, KeepsBefore};
ghost use Rattle.tj_words.specs.SeatViews.SeatSteps.{IsCellOf, IsSeatOf};
ghost use Rattle.tj_words.specs.Words.Phases.{phase_word};
ghost use Rattle.tj_park.specs.ChildViews.{Claimed};

use tj_base::CellId;
use tj_body::Body;
use tj_words::{Laid, Phase, Rec, WSeat};

/// Claims a task, and takes its record. `None` comes only where this call's one exchange found a
/// phase other than Ready; then the seat has this phase among its notes, and nothing else of it has
/// changed. Either way the call is this one step.
#[inline(always)]
pub fn claim<B: Body>(laid: &Laid<B>, seat: &mut WSeat<B>, t: CellId) -> Option<Rec<B>>
    requires table { IsSeatOf laid.now seat.old }
    requires cell { IsCellOf laid.now t.0 }
    requires knows { KnowsTable seat.old.me.0 }
    // The seat is one of the same table.
    ensures table { seat.new.table_id ≡ seat.old.table_id }
    // It is the same seat.
    ensures id { seat.new.id ≡ seat.old.id }
    // None comes only where the one exchange of this call found the task in another phase than
    // Ready: the seat is as it was, a step later, and its view notes the phase. This one exchange
    // is the call's only step, and it found this phase.
    ensures none { result ≡ None → (p : Phase) × (p ≢ Phase.Ready)
        × (seat.new.me ≡ (missed t.0 p seat.old.me.0, seat.old.me.1))
        × IsLogged (call.swaps_phase t.0) (phase_word Phase.Ready) (phase_word Phase.Running)
        (phase_word p) seat.old seat.new }
    // The task is the seat's, as its record tells; the record tells a point of the task that is at
    // its start or has waited for a cell of which the seat knows what has become. It is the very
    // record that the step of this call took out of home, which the seat's view has in front now; it
    // put no record home.
    ensures some { IfSome result (λ r. Claimed (program_of B.places B.awaits B.left B.asks B.then)
        t.0 r seat.old.me.0 seat.new.me.0) }
    // Its slot is the seat's, and empty.
    ensures slot { IfSome result (λ _. seat.new.me.1 ≡ (t.0, None) ∷ seat.old.me.1) }
    // The call is one step: the exchange of PHASE from Ready to Running, which found Ready.
    ensures log_some { result ≢ None → IsLogged (call.swaps_phase t.0) (phase_word Phase.Ready)
        (phase_word Phase.Running) (phase_word Phase.Ready) seat.old seat.new }
    // Beside this one entry the seat keeps the view that it had before the call, after `None` too.
    ensures before { KeepsBefore seat.old seat.new }
{
    match laid.swap_phase(seat, t, Phase::Ready, Phase::Running) {
        Ok(()) => laid.slot_swap(seat, t, None),
        Err(_) => None,
    }
}
