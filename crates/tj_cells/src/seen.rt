//! What has become of a cell, as a seat sees it.
ghost use Rattle.std.specs.Prelude.{◌≡◌, ◌≢◌};
ghost use Rattle.tj_body.specs.Programs.{program_of};
ghost use Rattle.tj_words.specs.SeatViews.SeatSteps.{IsCellOf, IsSameSeat, IsSeatOf};
ghost use Rattle.tj_words.specs.SeatViews.SeenWords.{FindsNothing};
ghost use Rattle.tj_words.specs.CallLaws.StepCalls as call;
ghost use Rattle.tj_words.specs.CallLaws.StepLogs.{IsLogged};
ghost use Rattle.tj_cells.specs.SeenValues.{SeesValue, seen_in};
ghost use Rattle.tj_cells.specs.ValueLogs.{LoadsEntry};

use tj_base::CellId;
use tj_body::Body;
use tj_words::{Fill, Laid, Once, WSeat, value_of_words};

/// What has become of a cell.
#[derive(Clone, Copy, PartialEq, Eq)]
pub enum Seen {
    Num(i64),
    Promise(CellId),
    Task(CellId),
    Broken,
    NotYet,
}

/// What has become of cell `p`: its value for good, or nothing yet.
#[inline(always)]
pub fn value<B: Body>(laid: &Laid<B>, seat: &mut WSeat<B>, p: CellId) -> Seen
    requires table { IsSeatOf laid.now seat.old }
    requires cell { IsCellOf laid.now p.0 }
    // The seat is the same one of the same table, with the same slots.
    ensures seat { IsSameSeat seat.old seat.new }
    // Nothing yet is never told where the seat knew what has become of the cell.
    ensures not_yet { result ≡ Seen.NotYet → FindsNothing p.0 seat.old.me.0 seat.new.me.0 }
    // Else what is told is what the cell has in some round of the program, which is what it has in
    // the meaning where that fits, for good; the seat knows it, and the cell that it names.
    ensures value { result ≢ Seen.NotYet
        → SeesValue (program_of B.places B.awaits B.left B.asks B.then) laid.now.cells p.0 result
        seat.old.me.0 seat.new.me.0 }
    // Where nothing has become of it yet, this call is one step, the load of TAG of this cell,
    // which found 0.
    ensures log_not_yet { result ≡ Seen.NotYet
        → IsLogged (call.sees_once p.0 Once.Tag) 0 0 0 seat.old seat.new }
    // Else it is two steps, the loads of TAG, which isn't 0, and then of BITS; what is told is what
    // these two words stand for.
    ensures log_value { result ≢ Seen.NotYet → LoadsEntry p.0 result seat.old seat.new }
{
    let tag = laid.see_once(seat, p, Once::Tag);
    if tag == 0 {
        return Seen::NotYet;
    }
    let bits = laid.see_once(seat, p, Once::Bits);
    seen_of(value_of_words(tag, bits))
}

/// What was seen where the words stand for this: `None` where the cell is broken.
fn seen_of(fill: Option<Fill>) -> Seen
    ensures { result ≡ seen_in fill }
{
    match fill {
        Some(Fill::Num(number)) => Seen::Num(number),
        Some(Fill::Promise(cell)) => Seen::Promise(cell),
        Some(Fill::Task(cell)) => Seen::Task(cell),
        None => Seen::Broken,
    }
}
