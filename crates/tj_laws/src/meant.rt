//! The law of what stands in a table where the meaning fits its limit.
ghost use Rattle.tj_laws.specs.WithinMeaning.{StandsWithinMeaning};

use tj_body::{
    Body, history_stops, meaning_is_last, points_are_good, points_in_rounds, rounds_grow,
};

/// At every moment, where the meaning isn't full: each TAG that is set, with its BITS, is the
/// meaning's entry for its cell's name; each cell that is drawn and isn't in hand has a name of the
/// meaning; and each record at home is at a point of its task's history under the meaning.
pub fn within_meaning<B: Body>()
    // At every moment, where the meaning isn't full: each cell that is drawn and isn't in hand has
    // a name of the meaning, by PARENT and KID; each TAG that is set, with its BITS, is the
    // meaning's entry for its cell's name; each record at home is at a point of a task of the
    // meaning, under the meaning's assignment, and what it has printed is a beginning of what that
    // task prints.
    ensures { StandsWithinMeaning B.places B.awaits B.left B.asks B.then }
{
    meaning_is_last::<B>();
    rounds_grow::<B>();
    points_in_rounds::<B>();
    points_are_good::<B>();
    history_stops::<B>();
}
