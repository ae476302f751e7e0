//! Why a run is to stop, and how a worker leaves it.
ghost use Rattle.std.specs.Prelude.{◌≡◌};
ghost use Rattle.tj_run.specs.Leaving.{stop_word};
ghost use Rattle.tj_words.specs.Words.StopWords as words;

use std::alloc::{AllocError, AllocFailed};
use tj_base::Oom;
use tj_cells::Full;
use tj_words::Stop;

/// Why a run was stopped.
#[derive(Clone, Copy, Debug, PartialEq, Eq)]
pub enum Why {
    /// All cells are drawn, and another one is needed.
    Full,
    /// Memory is lacking.
    Memory,
}

impl Why {
    /// The cause that the word STOP says.
    #[inline(always)]
    pub fn of_stop(stop: Stop) -> Why
        // What a loaded STOP says of why a run has stopped.
        ensures { stop_word result ≡ words.stop_word stop }
    {
        match stop {
            Stop::Full => Why::Full,
            Stop::Memory => Why::Memory,
        }
    }

    /// What the word STOP is to say.
    #[inline(always)]
    pub fn stop(self) -> Stop
        // What is stored in STOP for a cause.
        ensures { words.stop_word result ≡ stop_word self }
    {
        match self {
            Why::Full => Stop::Full,
            Why::Memory => Stop::Memory,
        }
    }
}

/// How a worker left the run.
#[derive(Clone, Copy, Debug, PartialEq, Eq)]
pub enum Left {
    /// Nothing goes on any more.
    Rested,
    /// Some worker has stopped the run.
    Stopped(Why),
}

/// Why a run has no outcome.
#[derive(Clone, Copy, Debug, PartialEq, Eq)]
pub enum RunFault {
    Full,
    Oom,
}

impl From<Full> for Why {
    ghost use Rattle.std.specs.Prelude.{◌≡◌};
    ghost use Rattle.tj_run.specs.declared.why.Why.TheVariants as why;

    ghost from_gives = { λ _ w. w ≡ why.Full };

    fn from(_full: Full) -> Why {
        Why::Full
    }
}

impl From<Oom> for Why {
    ghost use Rattle.std.specs.Prelude.{◌≡◌};
    ghost use Rattle.tj_run.specs.declared.why.Why.TheVariants as why;

    ghost from_gives = { λ _ w. w ≡ why.Memory };

    fn from(_want: Oom) -> Why {
        Why::Memory
    }
}

impl From<Oom> for RunFault {
    ghost use Rattle.std.specs.Prelude.{◌≡◌};
    ghost use Rattle.tj_run.specs.declared.why.RunFault.TheVariants as fault;

    ghost from_gives = { λ _ f. f ≡ fault.Oom };

    fn from(_want: Oom) -> RunFault {
        RunFault::Oom
    }
}
