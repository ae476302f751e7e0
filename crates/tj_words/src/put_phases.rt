//! Stores of PHASE: a cell in hand is marked as a promise, a task becomes ready, a wait is published, at
//! the end of its walk the task is parked or has alarmed, and a task ends.
ghost use Rattle.std.specs.Prelude.{◌≡◌, ◌<◌};
ghost use Rattle.atomic_table.specs.Table.{rest};
ghost use Rattle.tj_body.specs.Programs.{program_of};
ghost use Rattle.tj_words.specs.CallLaws.StepCalls as call;
ghost use Rattle.tj_words.specs.CallLaws.StepLogs.{IsLogged, KeepsBefore};
ghost use Rattle.tj_words.specs.Calls.DrawViews as draws;
ghost use Rattle.tj_words.specs.Calls.DrawViews.{MayMark};
ghost use Rattle.tj_words.specs.Calls.LiveViews.{MayEnd, MayRelease, ended, homed, released};
ghost use Rattle.tj_words.specs.Calls.PhaseViews.{MayPutPhase, PutsPhase, WaitsBelow};
ghost use Rattle.tj_words.specs.Calls.WaitViews.{MayPutWait, PutsWait};
ghost use Rattle.tj_words.specs.SeatViews.SeatSteps.{IsSameSeat};
ghost use Rattle.tj_words.specs.Words.Phases.{phase_word};

use crate::draw_plays::MarkStore;
use crate::live_plays::{EndedStore, ReadyStore};
use crate::offsets::phase_at;
use crate::phase::{Phase, Walk};
use crate::table::{Laid, WSeat};
use crate::wait_plays::WaitStore;
use tj_base::CellId;
use tj_body::Body;
use tj_events::{Way, event_keeps_facts};

impl<B: Body> Laid<B> {
    /// Stores the phase of a cell: of a new promise in hand, of a task that becomes ready, waits,
    /// is parked, has alarmed, or has ended. The phase tells which of these it is.
    #[inline(always)]
    pub fn put_phase(&self, seat: &mut WSeat<B>, t: CellId, p: Phase)
        requires table { seat.old.table_id ≡ self.now.table.shared.table_id }
        requires cell { t.0 < self.now.cells }
        requires waits { WaitsBelow self.now.cells p }
        requires may { MayPutPhase (program_of B.places B.awaits B.left B.asks B.then) t.0 p
            seat.old.me }
        // The seat is one of the same table.
        ensures table { seat.new.table_id ≡ seat.old.table_id }
        // It is the same seat.
        ensures id { seat.new.id ≡ seat.old.id }
        // What the seat has for the task is what the phase says. A task that is ready, parked or
        // has ended has left the seat; of one that is parked or has ended the slot is given back, and
        // the record in it is among those that the seat put home; a parked one is to be pushed.
        ensures puts { PutsPhase t.0 p seat.old.me seat.new.me }
        // The seat's log is longer by one entry: the word of this phase was stored into PHASE of
        // the cell.
        ensures log { IsLogged (call.puts_phase t.0) (phase_word p) 0 (phase_word p)
            seat.old seat.new }
        // Beside this entry the seat keeps the view that it had before the step.
        ensures before { KeepsBefore seat.old seat.new }
    {
        match p {
            Phase::Promise => self.put_promise(seat, t),
            Phase::Ready => self.put_ready(seat, t),
            Phase::Ended => self.put_ended(seat, t),
            Phase::Waiting(cell, way, walk) => self.put_wait(seat, t, cell, way, walk),
            Phase::Unborn | Phase::Running => {}
        }
    }

    /// Marks the cell in hand as a promise, by its PHASE.
    fn put_promise(&self, seat: &mut WSeat<B>, c: CellId)
        requires table { seat.old.table_id ≡ self.now.table.shared.table_id }
        requires cell { c.0 < self.now.cells }
        requires may { MayMark c.0 seat.old.me.0 }
        ensures seat { IsSameSeat seat.old seat.new }
        ensures view { seat.new.me.0 ≡ draws.marked_promise seat.old.me.0 }
        ensures log { IsLogged (call.puts_phase c.0) (phase_word Phase.Promise) 0
            (phase_word Phase.Promise) seat.old seat.new }
        ensures before { KeepsBefore seat.old seat.new }
    {
        self.table
            .store::<MarkStore>(seat, phase_at(c), Phase::Promise.word());
    }

    /// Says that an unborn task is ready, whose record lies at home.
    fn put_ready(&self, seat: &mut WSeat<B>, t: CellId)
        requires table { seat.old.table_id ≡ self.now.table.shared.table_id }
        requires task { t.0 < self.now.cells }
        requires may { MayRelease t.0 seat.old.me.0 }
        ensures table { seat.new.table_id ≡ seat.old.table_id }
        ensures id { seat.new.id ≡ seat.old.id }
        ensures me { seat.new.me ≡ (released t.0 seat.old.me.0, seat.old.me.1) }
        ensures log { IsLogged (call.puts_phase t.0) (phase_word Phase.Ready) 0
            (phase_word Phase.Ready) seat.old seat.new }
        ensures before { KeepsBefore seat.old seat.new }
    {
        self.table
            .store::<ReadyStore>(seat, phase_at(t), Phase::Ready.word());
    }

    /// Says that a task waits for the cell, and where it stands.
    fn put_wait(&self, seat: &mut WSeat<B>, t: CellId, p: CellId, way: Way, walk: Walk)
        requires table { seat.old.table_id ≡ self.now.table.shared.table_id }
        requires task { t.0 < self.now.cells }
        requires cell { p.0 < self.now.cells }
        requires may { MayPutWait (program_of B.places B.awaits B.left B.asks B.then) t.0 p.0 way
            walk seat.old.me }
        ensures table { seat.new.table_id ≡ seat.old.table_id }
        ensures id { seat.new.id ≡ seat.old.id }
        ensures puts { PutsWait t.0 p.0 way walk seat.old.me seat.new.me }
        ensures log { IsLogged (call.puts_phase t.0) (phase_word (Phase.Waiting p way walk)) 0
            (phase_word (Phase.Waiting p way walk)) seat.old seat.new }
        ensures before { KeepsBefore seat.old seat.new }
    {
        event_keeps_facts();
        self.table
            .store::<WaitStore>(seat, phase_at(t), Phase::Waiting(p, way, walk).word());
    }

    /// Says that a task has ended, whose record with its finish was put into its slot.
    fn put_ended(&self, seat: &mut WSeat<B>, t: CellId)
        requires table { seat.old.table_id ≡ self.now.table.shared.table_id }
        requires task { t.0 < self.now.cells }
        requires may { MayEnd (program_of B.places B.awaits B.left B.asks B.then) t.0 seat.old.me }
        ensures table { seat.new.table_id ≡ seat.old.table_id }
        ensures id { seat.new.id ≡ seat.old.id }
        ensures me { seat.new.me ≡ (homed seat.old.me.1 (ended t.0 seat.old.me.0), rest seat.old.me.1) }
        ensures log { IsLogged (call.puts_phase t.0) (phase_word Phase.Ended) 0
            (phase_word Phase.Ended) seat.old seat.new }
        ensures before { KeepsBefore seat.old seat.new }
    {
        self.table
            .store::<EndedStore>(seat, phase_at(t), Phase::Ended.word());
    }
}
