//! The value of a cell that is watched by its name.
ghost use Rattle.std.specs.Prelude.{◌≡◌, ◌≢◌, Ok, IfOk, IfSome};
ghost use Rattle.tj_words.specs.SeatViews.SeatSteps.{IsCellOf};
ghost use Rattle.tj_told.specs.Hearing.{HearsOn, IsStoppedOn};
ghost use Rattle.tj_told.specs.Observers.{KnowsCell, LooksOn, Observes};
ghost use Rattle.tj_told.specs.SeenNews.{AreSeen, HasSeenValue, IsNameOf, IsSeenAs};

use crate::listener::{Goes, Listener};
use crate::names::{has_name, name_at};
use crate::telling::Telling;
use std::alloc::Global;
use tj_base::{CellId, Name, Oom, Shown};
use tj_body::Body;
use tj_cells::{Seen, value};
use tj_words::{Laid, WSeat};

/// A look at a cell of which something has become: if it is the wanted one, its value is told.
pub(crate) fn look_at_value<B: Body, T: Listener>(
    alloc: Global,
    laid: &Laid<B>,
    seat: &mut WSeat<B>,
    c: CellId,
    wanted: &Option<Name>,
    telling: &mut Telling<T>,
) -> Result<Goes, Oom>
    requires seat { Observes laid.now seat.old }
    requires cell { IsCellOf laid.now c.0 }
    requires known { KnowsCell c.0 seat.old.me.0 }
    ensures seat { LooksOn seat.old seat.new }
    ensures seen { AreSeen wanted.now seat.old telling.old.met.items telling.old.news
        → AreSeen wanted.now seat.new telling.new.met.items telling.new.news }
    ensures goes { HearsOn T.tells telling.old telling.new (result ≢ Ok Goes.Stop) }
    ensures stops { IsStoppedOn T.tells telling.old telling.new (result ≡ Ok Goes.Stop) }
{
    let Some(name) = wanted else {
        return Ok(Goes::On);
    };
    telling.meet(c)?;
    match value_if_named(alloc, laid, seat, c, name)? {
        Some(value) => telling.tell_value(alloc, name, &value),
        None => Ok(Goes::On),
    }
}

/// The value of the cell, if that is its name, and it has a value.
fn value_if_named<B: Body>(
    alloc: Global,
    laid: &Laid<B>,
    seat: &mut WSeat<B>,
    c: CellId,
    wanted: &Name,
) -> Result<Option<Shown>, Oom>
    requires seat { Observes laid.now seat.old }
    requires cell { IsCellOf laid.now c.0 }
    requires known { KnowsCell c.0 seat.old.me.0 }
    ensures seat { LooksOn seat.old seat.new }
    ensures value { IfOk result (λ found. IfSome found (λ v. HasSeenValue c.0 wanted.now v
        seat.new.me.0)) }
{
    if !has_name(laid, seat, c, wanted) {
        return Ok(None);
    }
    value_at(alloc, laid, seat, c)
}

/// The value of the cell, if it has one.
fn value_at<B: Body>(
    alloc: Global,
    laid: &Laid<B>,
    seat: &mut WSeat<B>,
    c: CellId,
) -> Result<Option<Shown>, Oom>
    requires seat { Observes laid.now seat.old }
    requires cell { IsCellOf laid.now c.0 }
    ensures seat { LooksOn seat.old seat.new }
    ensures value { IfOk result (λ found. IfSome found (λ v. IsSeenAs c.0 v seat.new.me.0)) }
{
    match value(laid, seat, c) {
        Seen::Num(number) => Ok(Some(Shown::Num(number))),
        Seen::Promise(of) => reference(alloc, laid, seat, of),
        Seen::Task(of) => reference(alloc, laid, seat, of),
        Seen::Broken | Seen::NotYet => Ok(None),
    }
}

/// A reference to a cell, by its name.
fn reference<B: Body>(
    alloc: Global,
    laid: &Laid<B>,
    seat: &mut WSeat<B>,
    of: CellId,
) -> Result<Option<Shown>, Oom>
    requires seat { Observes laid.now seat.old }
    requires cell { IsCellOf laid.now of.0 }
    requires known { KnowsCell of.0 seat.old.me.0 }
    ensures seat { LooksOn seat.old seat.new }
    ensures name { IfOk result (λ found. IfSome found (λ v. IsNameOf of.0 v seat.new.me.0)) }
{
    Ok(Some(Shown::Ref(name_at(alloc, laid, seat, of)?)))
}
