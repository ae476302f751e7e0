//! Exchanges of PHASE: a ready task is claimed, one that waited is woken, and one that its seat had
//! parked goes on.
ghost use Rattle.std.specs.Prelude.{◌≡◌, ◌≢◌, ◌<◌, IfErr, OnOk};
ghost use Rattle.tj_body.specs.Programs.{program_of};
ghost use Rattle.tj_words.specs.CallLaws.StepCalls as call;
ghost use Rattle.tj_words.specs.CallLaws.StepLogs.{IsLogged, KeepsBefore};
ghost use Rattle.tj_words.specs.Words.Codes as codes;
ghost use Rattle.tj_words.specs.Calls.ExchangeViews.{MaySwap, Swaps, missed};
ghost use Rattle.tj_words.specs.Words.Phases as phases;
ghost use Rattle.tj_words.specs.SeatViews.Views.{noted_step};

use crate::exchange_plays::PhaseExchange;
use crate::offsets::phase_at;
use crate::phase::Phase;
use crate::table::{Laid, WSeat};
use crate::view::Noted;
use tj_base::CellId;
use tj_body::Body;
use tj_events::event_keeps_facts;

impl<B: Body> Laid<B> {
    /// Changes the phase of a task, if it is as it is thought to be; else tells the phase found, and the view says that
    /// this step found it.
    #[inline(always)]
    pub fn swap_phase(
        &self,
        seat: &mut WSeat<B>,
        t: CellId,
        was: Phase,
        to: Phase,
    ) -> Result<(), Phase>
        requires table { seat.old.table_id ≡ self.now.table.shared.table_id }
        requires cell { t.0 < self.now.cells }
        requires may { MaySwap t.0 was to seat.old.me.0 }
        // The seat is one of the same table.
        ensures table { seat.new.table_id ≡ seat.old.table_id }
        // It is the same seat.
        ensures seat { seat.new.id ≡ seat.old.id }
        // After `Ok` from Ready the seat holds the task, and has its slot with its record, which
        // tells a point of the program by what the seat knows then; so it has where it takes a task
        // back that it had parked, and the record is the one that it put home last of the task;
        // where it wakes the first of its rest, that task is in the rest no more, and a token is
        // spent.
        ensures swapped { OnOk result (Swaps (program_of B.places B.awaits B.left B.asks B.then)
            t.0 was to seat.old.me seat.new.me) }
        // An error is one of an exchange from Ready, and tells another phase; the seat is as it
        // was, a step later, of which its view notes that it found the word of this phase in PHASE
        // of the task. From Parked the exchange doesn't fail.
        ensures found { IfErr result (λ p. (was ≡ Phase.Ready) × (p ≢ was)
            × (seat.new.me ≡ (missed t.0 p seat.old.me.0, seat.old.me.1))) }
        // The seat's log is longer by one entry: PHASE of the task was exchanged, and was as it was
        // thought to be.
        ensures log_swapped { OnOk result (IsLogged (call.swaps_phase t.0) (phases.phase_word was)
            (phases.phase_word to) (phases.phase_word was) seat.old seat.new) }
        // After an error it is longer by one entry, too: the exchange found the phase that is told.
        ensures log_found { IfErr result (λ p. IsLogged (call.swaps_phase t.0) (phases.phase_word was)
            (phases.phase_word to) (phases.phase_word p) seat.old seat.new) }
        // Beside this entry the seat keeps the view that it had before the step.
        ensures before { KeepsBefore seat.old seat.new }
    {
        let found = self.exchange_phase(seat, t, was, to);
        if found == was.word() {
            Ok(())
        } else {
            Err(Phase::of_word(found))
        }
    }

    fn exchange_phase(&self, seat: &mut WSeat<B>, t: CellId, was: Phase, to: Phase) -> u64
        requires table { seat.old.table_id ≡ self.now.table.shared.table_id }
        requires cell { t.0 < self.now.cells }
        requires may { MaySwap t.0 was to seat.old.me.0 }
        ensures table { seat.new.table_id ≡ seat.old.table_id }
        ensures seat { seat.new.id ≡ seat.old.id }
        ensures swapped { result ≡ phases.phase_word was
            → Swaps (program_of B.places B.awaits B.left B.asks B.then) t.0 was to
            seat.old.me seat.new.me }
        ensures found { result ≢ phases.phase_word was → (was ≡ Phase.Ready)
            × (seat.new.me ≡ (noted_step (Noted.Missed t.0) result seat.old.me.0, seat.old.me.1))
            × codes.IsPhaseWord self.now.cells result }
        ensures log { IsLogged (call.swaps_phase t.0) (phases.phase_word was) (phases.phase_word to)
            result seat.old seat.new }
        ensures before { KeepsBefore seat.old seat.new }
    {
        event_keeps_facts();
        self.table
            .compare_exchange::<PhaseExchange>(seat, phase_at(t), was.word(), to.word())
    }
}
