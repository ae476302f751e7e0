//! Seats of a table: one is split off for each worker, and merged again when it is done.
ghost use Rattle.std.specs.Prelude.{◌≡◌, [], ◌∷◌, ◌++◌};
ghost use Rattle.tj_words.specs.SeatViews.Views.{IsIdle, MaySplit, both, left_half, right_half};

use crate::table::{Laid, WSeat};
use tj_body::Body;

impl<B: Body> Laid<B> {
    /// A seat more, for a worker. It knows what the seat knows.
    pub fn split(&self, mut seat: WSeat<B>) -> (WSeat<B>, WSeat<B>)
        requires table { seat.table_id ≡ self.now.table.shared.table_id }
        requires room { MaySplit seat.me.0 }
        // The first seat is one of the same table.
        ensures table { result.0.table_id ≡ seat.table_id }
        // So is the second.
        ensures other_table { result.1.table_id ≡ seat.table_id }
        // The first seat keeps its number.
        ensures id { result.0.id ≡ seat.id }
        // The first seat's lot is less by the least lot, and all else of it is as before.
        ensures view { result.0.me ≡ (left_half seat.me.0, seat.me.1) }
        // The second seat has the least lot, knows what the first knows, and holds nothing.
        ensures other_view { result.1.me ≡ (right_half seat.me.0, []) }
        // The first seat's log is as before, and the second's is empty.
        ensures log { (result.0.log ≡ seat.log) × (result.1.log ≡ []) }
        // The first seat has taken in what it had taken in before, and the second nothing.
        ensures took { (result.0.took ≡ seat.took) × (result.1.took ≡ []) }
        // The first seat keeps the views that it had before its steps.
        ensures befores { (result.0.befores ≡ seat.befores)
            × (result.0.took_befores ≡ seat.took_befores) }
        // The second seat has none.
        ensures other_befores { (result.1.befores ≡ []) × (result.1.took_befores ≡ []) }
    {
        let other = self.table.split_seat(&mut seat);
        (seat, other)
    }

    /// One seat of two, which knows what either of them did.
    pub fn merge(&self, mut a: WSeat<B>, b: WSeat<B>) -> WSeat<B>
        requires table { a.table_id ≡ self.now.table.shared.table_id }
        requires other_table { b.table_id ≡ self.now.table.shared.table_id }
        requires slots { (a.me.1 ≡ []) × (b.me.1 ≡ []) }
        requires idle { IsIdle a.me.0 }
        requires other_idle { IsIdle b.me.0 }
        // The merged seat is one of the same table.
        ensures table { result.table_id ≡ a.table_id }
        // It has the first one's number.
        ensures id { result.id ≡ a.id }
        // It knows what either of the two knew, and has both lots.
        ensures view { result.me ≡ (both a.me.0 b.me.0, []) }
        // It may be merged again.
        ensures idle { IsIdle result.me.0 }
        // The merged seat's log is that of the first.
        ensures log { result.log ≡ a.log }
        // Beside it the seat has the logs that the first had taken in, then that of the second and
        // those that the second had taken in.
        ensures took { result.took ≡ a.took ++ b.log ∷ b.took }
        // The views before the steps of each of these logs are kept beside it.
        ensures befores { (result.befores ≡ a.befores)
            × (result.took_befores ≡ a.took_befores ++ b.befores ∷ b.took_befores) }
    {
        self.table.join_seat(&mut a, b);
        a
    }
}
