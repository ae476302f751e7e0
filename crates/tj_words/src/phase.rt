//! The phase of a cell, and the word that stands for it.
ghost use Rattle.std.specs.Prelude.{◌≡◌, ◌<◌, ◌/◌, ◌^◌};
ghost use Rattle.tj_words.specs.Words.Phases.{phase_word, phase_in};
ghost use Rattle.tj_words.specs.Words.Phases as phases;

use tj_base::CellId;
use tj_events::Way;

/// Where a task stands that waits.
#[derive(Clone, Copy)]
pub enum Walk {
    /// Its walk is under way.
    Walking,
    /// Its walk has ended without an alarm.
    Parked,
    /// It has alarmed.
    Alarmed,
}

/// Where a cell stands.
#[derive(Clone, Copy)]
pub enum Phase {
    /// A task that isn't ready yet.
    Unborn,
    /// A task that anyone may claim.
    Ready,
    /// A task that a worker runs.
    Running,
    /// A task that has ended.
    Ended,
    /// A promise.
    Promise,
    /// A task that waits for a cell.
    Waiting(CellId, Way, Walk),
}

impl Phase {
    /// The word of the phase.
    pub fn word(self) -> u64
        // The word of a phase is that of the definition.
        ensures word { result ≡ phase_word self }
        // It stands for this phase.
        ensures back { phase_in result ≡ self }
    {
        match self {
            Phase::Unborn => 0,
            Phase::Ready => 1,
            Phase::Running => 2,
            Phase::Ended => 3,
            Phase::Promise => 4,
            Phase::Waiting(cell, way, walk) => wait_code(way, walk) + 16 * cell.0 as u64,
        }
    }

    /// The phase that a word stands for.
    pub fn of_word(word: u64) -> Phase
        requires code { phase_word (phase_in word) ≡ word }
        requires cell { word / 16 < 2 ^ 32 }
        // The phase of a word is that of the definition.
        ensures phase { result ≡ phase_in word }
        // Its word is this word.
        ensures back { phase_word result ≡ word }
    {
        let cell = CellId((word / 16) as u32);
        match word % 16 {
            0 => Phase::Unborn,
            1 => Phase::Ready,
            2 => Phase::Running,
            3 => Phase::Ended,
            8 => Phase::Waiting(cell, Way::Along, Walk::Walking),
            9 => Phase::Waiting(cell, Way::Along, Walk::Parked),
            10 => Phase::Waiting(cell, Way::Along, Walk::Alarmed),
            12 => Phase::Waiting(cell, Way::Other, Walk::Walking),
            13 => Phase::Waiting(cell, Way::Other, Walk::Parked),
            14 => Phase::Waiting(cell, Way::Other, Walk::Alarmed),
            _ => Phase::Promise,
        }
    }
}

/// The low four bits of the word of a wait.
fn wait_code(way: Way, walk: Walk) -> u64
    ensures { result ≡ phases.wait_code way walk }
{
    let way = match way {
        Way::Along => 8,
        Way::Other => 12,
    };
    match walk {
        Walk::Walking => way,
        Walk::Parked => way + 1,
        Walk::Alarmed => way + 2,
    }
}
