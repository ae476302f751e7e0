//! Why a run that tells has no outcome.
use std::error::Error;
use std::fmt;
use tj_base::Oom;

/// Why a run that tells has no outcome.
#[derive(Clone, Copy, Debug, PartialEq, Eq)]
pub enum ToldFault {
    /// The meaning needs more cells than the limit.
    Full,
    Oom,
    /// The listener has stopped the run.
    Stopped,
}

impl fmt::Display for ToldFault {
    fn fmt<W: fmt::Write>(&self, f: &mut fmt::Formatter<W>) -> fmt::Result {
        match self {
            ToldFault::Full => f.write_str("more cells are needed than the limit"),
            ToldFault::Oom => f.write_str("out of memory"),
            ToldFault::Stopped => f.write_str("the listener has stopped the run"),
        }
    }
}

impl Error for ToldFault {}

impl From<Oom> for ToldFault {
    ghost use Rattle.std.specs.Prelude.{◌≡◌};
    ghost use Rattle.tj_told.specs.declared.fault.ToldFault.TheVariants as fault;

    ghost from_gives = { λ _ f. f ≡ fault.Oom };

    fn from(_want: Oom) -> ToldFault {
        ToldFault::Oom
    }
}
