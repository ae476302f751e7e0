//! Sleeping beside a word of the table. It is no step: no word changes, and no seat is taken.
ghost use Rattle.std.specs.Prelude.{◌<◌};

use crate::offsets::{Once, once_at};
use crate::table::Laid;
use std::sync::Wait;
use std::time::Duration;
use tj_base::CellId;
use tj_body::Body;

impl<B: Body> Laid<B> {
    /// Sleeps while TAG of the cell is 0, for no longer than this. It may return at any time, and tells
    /// nothing.
    #[tactic(auto, using(crate::proofs::SeatLoads::KnowLoads::once_within))]
    pub fn park_on_tag<R: Wait>(&self, rt: &R, c: CellId, most: Duration)
        requires cell { c.0 < self.now.cells }
    {
        self.table.park_timeout(rt, once_at(c, Once::Tag), 0, most);
    }
}
