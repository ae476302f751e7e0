//! The closing of cells: nobody owns the cell any more, and then BITS and TAG say what has become of
//! it. TAG comes last: where it isn't 0, BITS is written.
ghost use Rattle.std.specs.Prelude.{◌≡◌, None, Some};
ghost use Rattle.tj_body.specs.Programs.{program_of};
ghost use Rattle.tj_body.specs.declared.point.Entry.TheVariants.{Broken};
ghost use Rattle.tj_words.specs.SeatViews.SeatSteps.{IsCellOf, IsSameSeat, IsSeatOf};
ghost use Rattle.tj_cells.specs.CallLogs.{MakesClosed};
ghost use Rattle.tj_cells.specs.FilledCells.{IsFilledWith, MayFill, MayGiveUp, WillBecome, became};

use tj_base::CellId;
use tj_body::Body;
use tj_words::{Fill, Laid, Once, WSeat, value_words};

/// Task `t` fills a cell that it owns with a value.
#[inline(always)]
pub fn fill<B: Body>(laid: &Laid<B>, seat: &mut WSeat<B>, t: CellId, p: CellId, v: Fill)
    requires table { IsSeatOf laid.now seat.old }
    requires cell { IsCellOf laid.now p.0 }
    requires owner { MayGiveUp t.0 p.0 seat.old.me.0 }
    requires value { MayFill (program_of B.places B.awaits B.left B.asks B.then) p.0 v
        seat.old.me.0 }
    // The seat is the same one of the same table, with the same slots.
    ensures seat { IsSameSeat seat.old seat.new }
    // The task owns the cell no more, the seat knows that it has this value, and is to shut its
    // chain.
    ensures view { IsFilledWith t.0 p.0 v seat.old.me.0 seat.new.me.0 }
    // The call is three steps: OWN is stored as nobody, then BITS and then TAG as what stands for
    // the value.
    ensures log { MakesClosed p.0 (Some v) seat.old seat.new }
{
    let (tag, bits) = value_words(Some(v));
    laid.put_owner(seat, p, None);
    laid.put_once(seat, p, Once::Bits, bits);
    laid.put_once(seat, p, Once::Tag, tag);
}

/// Task `t` breaks a cell that it owns: it will have no value.
pub fn break_off<B: Body>(laid: &Laid<B>, seat: &mut WSeat<B>, t: CellId, p: CellId)
    requires table { IsSeatOf laid.now seat.old }
    requires cell { IsCellOf laid.now p.0 }
    requires owner { MayGiveUp t.0 p.0 seat.old.me.0 }
    requires broken { WillBecome (program_of B.places B.awaits B.left B.asks B.then) p.0 Broken
        seat.old.me.0 }
    // The seat is the same one of the same table, with the same slots.
    ensures seat { IsSameSeat seat.old seat.new }
    // The task owns the cell no more, the seat knows that it is broken, and is to shut its chain.
    ensures view { seat.new.me.0 ≡ became t.0 p.0 Broken seat.old.me.0 }
    // The call is three steps: OWN is stored as nobody, then BITS, and then TAG as 4.
    ensures log { MakesClosed p.0 None seat.old seat.new }
{
    let (tag, nothing) = value_words(None);
    laid.put_owner(seat, p, None);
    laid.put_once(seat, p, Once::Bits, nothing);
    laid.put_once(seat, p, Once::Tag, tag);
}
