//! What an exchange of PHASE tells its caller.
use crate::view::View;
use atomic_table::Play;
use tj_body::Body;
use tj_record::Rec;

/// An exchange of PHASE.
pub(crate) struct PhaseExchange;

impl<B: Body> Play<Option<Rec<B>>, View<B>> for PhaseExchange {
    ghost use Rattle.tj_body.specs.Programs.{program_of};
    ghost use Rattle.tj_words.specs.Calls.ExchangeViews.{phase_swap};
    ghost use Rattle.tj_words.specs.Inner.CellTold.{of_its_cell};

    ghost then = { of_its_cell (λ cells c. phase_swap
        (program_of B.places B.awaits B.left B.asks B.then) c cells) };
}
