//! Why a statement gives no ask: the task fails, or memory is wanting.
use tj_base::{Oom, Trouble};

#[derive(Drop)]
pub(crate) enum Halt {
    Fault(Trouble),
    Memory,
}

impl From<Trouble> for Halt {
    ghost use Rattle.std.specs.Prelude.{◌≡◌};
    ghost use Rattle.tj_eval.specs.declared.halt.Halt.TheVariants.{Fault};

    ghost from_gives = { λ fault halt. halt ≡ Fault fault };

    fn from(fault: Trouble) -> Halt {
        Halt::Fault(fault)
    }
}

impl From<Oom> for Halt {
    ghost use Rattle.std.specs.Prelude.{◌≡◌};
    ghost use Rattle.tj_eval.specs.declared.halt.Halt.TheVariants.{Memory};

    ghost from_gives = { λ _ halt. halt ≡ Memory };

    fn from(_want: Oom) -> Halt {
        Halt::Memory
    }
}
