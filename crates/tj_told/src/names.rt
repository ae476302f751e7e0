//! The name of a cell while the tasks run, by its makers up to the root.
ghost use Rattle.std.specs.Prelude.{◌≡◌, ◌<◌, ◌↔◌, IfOk, IsTrue};
ghost use Rattle.tj_words.specs.SeatViews.SeatSteps.{IsCellOf, IsSeatOf};
ghost use Rattle.tj_words.specs.SeatViews.SeenWords.{MayReadTree};
ghost use Rattle.tj_told.specs.Observers.{KnowsCell, KnowsName, LooksOn, Observes, SeesMaker};
ghost use Rattle.tj_told.specs.ToldLinks.{SeesName};

use crate::shared_makers::with_numbers;
use std::alloc::Global;
use tj_base::{CellId, Name, Oom};
use tj_body::Body;
use tj_words::{Laid, Once, WSeat, link_cell};

/// The name of a cell that the seat knows: it loads PARENT and KID of the cell, and of each maker of it
/// up to the root.
pub fn name_at<B: Body>(
    alloc: Global,
    laid: &Laid<B>,
    seat: &mut WSeat<B>,
    c: CellId,
) -> Result<Name, Oom>
    requires seat { Observes laid.now seat.old }
    requires cell { IsCellOf laid.now c.0 }
    requires known { KnowsCell c.0 seat.old.me.0 }
    // The seat is the same one of the same table, and may be merged; it knows what it knew.
    ensures seat { LooksOn seat.old seat.new }
    // The name is the one that the cell has in what the seat knows.
    ensures name { IfOk result (λ q. KnowsName c.0 q seat.new.me.0) }
    // It is the name by PARENT and KID, as the seat has seen them.
    ensures seen { IfOk result (λ q. SeesName seat.new.me.0.seen c.0 q) }
{
    name_beside(alloc, laid, seat, c, None)
}

/// The same, of a name that shares with another one the names of the makers that both have.
pub(crate) fn name_beside<B: Body>(
    alloc: Global,
    laid: &Laid<B>,
    seat: &mut WSeat<B>,
    c: CellId,
    other: Option<&Name>,
) -> Result<Name, Oom>
    requires seat { Observes laid.now seat.old }
    requires cell { IsCellOf laid.now c.0 }
    requires known { KnowsCell c.0 seat.old.me.0 }
    ensures seat { LooksOn seat.old seat.new }
    ensures name { IfOk result (λ q. KnowsName c.0 q seat.new.me.0) }
    ensures seen { IfOk result (λ q. SeesName seat.new.me.0.seen c.0 q) }
{
    let mut parts = Vec::new(alloc);
    let mut at = c.0;
    while at > 0 {
        let (maker, number) = maker_of(laid, seat, CellId(at));
        parts.push(number)?;
        at = maker.0;
    }
    parts.reverse();
    with_numbers(alloc, parts.as_slice(), other)
}

/// Whether a cell that the seat knows has this name. No name is made for it: the numbers are compared
/// from the last one on, and the cell's makers are looked at up to the first number that differs.
pub(crate) fn has_name<B: Body>(laid: &Laid<B>, seat: &mut WSeat<B>, c: CellId, name: &Name) -> bool
    requires seat { Observes laid.now seat.old }
    requires cell { IsCellOf laid.now c.0 }
    requires known { KnowsCell c.0 seat.old.me.0 }
    ensures seat { LooksOn seat.old seat.new }
    ensures name { IsTrue result ↔ KnowsName c.0 name.now seat.new.me.0 }
    ensures seen { IsTrue result → SeesName seat.new.me.0.seen c.0 name.now }
{
    let mut at = c.0;
    let mut left = name;
    while at > 0 {
        let (maker, number) = maker_of(laid, seat, CellId(at));
        let Some((last, before)) = left.split_last() else {
            return false;
        };
        if last != number {
            return false;
        }
        left = before;
        at = maker.0;
    }
    left.depth() == 0
}

/// The maker of a cell, and the cell's number among what it made, by loads of PARENT and KID.
fn maker_of<B: Body>(laid: &Laid<B>, seat: &mut WSeat<B>, c: CellId) -> (CellId, u32)
    requires seat { IsSeatOf laid.now seat.old }
    requires cell { IsCellOf laid.now c.0 }
    requires may { MayReadTree c.0 seat.old.me.0 }
    ensures seat { LooksOn seat.old seat.new }
    ensures maker { SeesMaker laid.now.cells c.0 result.0.0 result.1 seat.new.me.0 }
{
    let parent = laid.see_once(seat, c, Once::Parent);
    let kid = laid.see_once(seat, c, Once::Kid);
    (link_cell(parent), kid as u32)
}
