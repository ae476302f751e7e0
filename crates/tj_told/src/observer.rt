//! An observer: beside the workers it looks at the phases of the cells that are drawn.
ghost use Rattle.std.specs.Prelude.{◌≡◌, ◌≢◌, Ok, get_or, false};
ghost use Rattle.tj_words.specs.SeatViews.SeatSteps.{IsCellOf};
ghost use Rattle.tj_told.specs.Hearing.{HearsOn, IsStoppedOn};
ghost use Rattle.std.specs.Prelude.{Option};
ghost use Rattle.tj_base.specs.ForkOrder as fork;
ghost use Rattle.tj_told.specs.Observers.{KnowsCell, LooksOn, Observes};
ghost use Rattle.tj_told.specs.SeenNews.{AreSeen, IsBrokenNow};
ghost use Rattle.tj_told.specs.ToldLoads.{StopsLast};
ghost use Rattle.std.specs.Prelude.{true};
ghost use Rattle.tj_base.specs.declared.cell.CellId.{CellId};
ghost use Rattle.tj_events.specs.declared.walk.Way.{Way};
ghost use Rattle.tj_words.specs.declared.phase.Phase.TheVariants as phase_of;
ghost use Rattle.tj_words.specs.declared.phase.Walk.TheVariants as walk;

use crate::links::cycle_of;
use crate::listener::{Goes, Listener};
use crate::looks::{Looks, Watch};
use crate::names::name_beside;
use crate::news::broken_last;
use crate::telling::Telling;
use crate::values::look_at_value;
use std::alloc::Global;
use std::sync::Wait;
use std::thread::Parker;
use std::time::Duration;
use tj_base::{CellId, Name, Oom};
use tj_body::Body;
use tj_words::{Laid, Once, Phase, Stop, WSeat, Walk};

/// What a look came to, and how an observer leaves.
#[derive(Clone, Copy)]
pub(crate) enum Sight {
    /// The run goes on.
    GoesOn,
    /// The run is at its end.
    Ended,
    /// The listener stops it.
    Stops,
    /// Memory is lacking.
    Wants,
}

/// Looks until the run is at its end. Where the listener stops it, or memory is lacking, it stores 2 in
/// STOP. Between two looks it sleeps, until the bell rings at the latest. Where nobody is to look, it
/// does nothing.
pub(crate) fn observe<B: Body, T: Listener, R: Wait>(
    rt: &R,
    alloc: Global,
    laid: &Laid<B>,
    seat: WSeat<B>,
    watch: Watch,
    bell: &Parker,
    telling: Telling<T>,
) -> (WSeat<B>, Telling<T>, Sight)
    requires seat { Observes laid.now seat }
    ensures seat { Observes laid.now result.0 }
    ensures lot { result.0.me.0.lot ≡ seat.me.0.lot }
    ensures seen { AreSeen watch.wanted seat telling.met.items telling.news
        → AreSeen watch.wanted result.0 result.1.met.items result.1.news }
    ensures goes { AreSeen watch.wanted seat telling.met.items telling.news
        → HearsOn T.tells telling result.1 (result.2 ≢ Sight.Stops) }
    ensures stops { AreSeen watch.wanted seat telling.met.items telling.news
        → IsStoppedOn T.tells telling result.1 (result.2 ≡ Sight.Stops) }
    ensures stored { result.2 ≢ Sight.Ended → StopsLast result.0.log }
{
    let Looks::Every(every) = watch.looks else {
        return (seat, telling, Sight::Ended);
    };
    let mut seat = seat;
    let mut telling = telling;
    for _i in rt.forever() {
        let sight = look(alloc, laid, &mut seat, &watch.wanted, &mut telling);
        match sight {
            Sight::GoesOn => bell.park_timeout(rt, Duration::from_millis(u64::from(every))),
            Sight::Ended => return (seat, telling, sight),
            Sight::Stops | Sight::Wants => {
                laid.stop(&mut seat, Stop::Memory.word());
                return (seat, telling, sight);
            }
        }
    }
    unreachable!()
}

/// One look: it ends where STOP is loaded as other than 0, or LIVE as 0.
fn look<B: Body, T: Listener>(
    alloc: Global,
    laid: &Laid<B>,
    seat: &mut WSeat<B>,
    wanted: &Option<Name>,
    telling: &mut Telling<T>,
) -> Sight
    requires seat { Observes laid.now seat.old }
    ensures seat { LooksOn seat.old seat.new }
    ensures seen { AreSeen wanted.now seat.old telling.old.met.items telling.old.news
        → AreSeen wanted.now seat.new telling.new.met.items telling.new.news }
    ensures goes { AreSeen wanted.now seat.old telling.old.met.items telling.old.news
        → HearsOn T.tells telling.old telling.new (result ≢ Sight.Stops) }
    ensures stops { AreSeen wanted.now seat.old telling.old.met.items telling.old.news
        → IsStoppedOn T.tells telling.old telling.new (result ≡ Sight.Stops) }
{
    if laid.stopped(seat) != 0 {
        return Sight::Ended;
    }
    if laid.live(seat) == 0 {
        return Sight::Ended;
    }
    let drawn = laid.count(seat, None);
    for c in 0..drawn {
        match look_at(alloc, laid, seat, CellId(c), wanted, telling) {
            Ok(Goes::On) => {}
            Ok(Goes::Stop) => return Sight::Stops,
            Err(Oom) => return Sight::Wants,
        }
    }
    Sight::GoesOn
}

/// A look at one cell of which more may be to be told.
fn look_at<B: Body, T: Listener>(
    alloc: Global,
    laid: &Laid<B>,
    seat: &mut WSeat<B>,
    t: CellId,
    wanted: &Option<Name>,
    telling: &mut Telling<T>,
) -> Result<Goes, Oom>
    requires seat { Observes laid.now seat.old }
    requires cell { IsCellOf laid.now t.0 }
    ensures seat { LooksOn seat.old seat.new }
    ensures seen { AreSeen wanted.now seat.old telling.old.met.items telling.old.news
        → AreSeen wanted.now seat.new telling.new.met.items telling.new.news }
    ensures goes { AreSeen wanted.now seat.old telling.old.met.items telling.old.news
        → HearsOn T.tells telling.old telling.new (result ≢ Ok Goes.Stop) }
    ensures stops { AreSeen wanted.now seat.old telling.old.met.items telling.old.news
        → IsStoppedOn T.tells telling.old telling.new (result ≡ Ok Goes.Stop) }
{
    if telling.has_met(t) {
        return Ok(Goes::On);
    }
    let tag = load_tag(laid, seat, t);
    if tag == 0 {
        return look_at_phase(alloc, laid, seat, t, telling);
    }
    if tag == 4 {
        return look_at_broken(alloc, laid, seat, t, telling);
    }
    look_at_value(alloc, laid, seat, t, wanted, telling)
}

/// TAG of a cell: where it isn't 0, the seat knows the cell.
fn load_tag<B: Body>(laid: &Laid<B>, seat: &mut WSeat<B>, c: CellId) -> u64
    requires seat { Observes laid.now seat.old }
    requires cell { IsCellOf laid.now c.0 }
    ensures seat { LooksOn seat.old seat.new }
    ensures broken { result ≡ 4 → IsBrokenNow laid.now.cells c.0 seat.new.me.0 }
    ensures known { result ≢ 0 → KnowsCell c.0 seat.new.me.0 }
{
    laid.see_once(seat, c, Once::Tag)
}

/// A cell that is broken, of which this wasn't told yet: it is told.
fn look_at_broken<B: Body, T: Listener>(
    alloc: Global,
    laid: &Laid<B>,
    seat: &mut WSeat<B>,
    c: CellId,
    telling: &mut Telling<T>,
) -> Result<Goes, Oom>
    requires seat { Observes laid.now seat.old }
    requires cell { IsCellOf laid.now c.0 }
    requires broken { IsBrokenNow laid.now.cells c.0 seat.old.me.0 }
    requires unmet { get_or telling.old.met.items c.0 false ≡ false }
    ensures seat { LooksOn seat.old seat.new }
    ensures seen { (w : Option fork.Name)
        → AreSeen w seat.old telling.old.met.items telling.old.news
        → AreSeen w seat.new telling.new.met.items telling.new.news }
    ensures goes { (w : Option fork.Name)
        → AreSeen w seat.old telling.old.met.items telling.old.news
        → HearsOn T.tells telling.old telling.new (result ≢ Ok Goes.Stop) }
    ensures stops { (w : Option fork.Name)
        → AreSeen w seat.old telling.old.met.items telling.old.news
        → IsStoppedOn T.tells telling.old telling.new (result ≡ Ok Goes.Stop) }
{
    telling.meet(c)?;
    let other = broken_last(telling.news.items());
    let name = name_beside(alloc, laid, seat, c, other)?;
    telling.tell_broken(alloc, &name)
}

/// A look at PHASE: where it is that of a task that has alarmed, its cycle is told, if it wasn't told yet.
fn look_at_phase<B: Body, T: Listener>(
    alloc: Global,
    laid: &Laid<B>,
    seat: &mut WSeat<B>,
    t: CellId,
    telling: &mut Telling<T>,
) -> Result<Goes, Oom>
    requires seat { Observes laid.now seat.old }
    requires cell { IsCellOf laid.now t.0 }
    ensures seat { LooksOn seat.old seat.new }
    ensures seen { (w : Option fork.Name)
        → AreSeen w seat.old telling.old.met.items telling.old.news
        → AreSeen w seat.new telling.new.met.items telling.new.news }
    ensures goes { HearsOn T.tells telling.old telling.new (result ≢ Ok Goes.Stop) }
    ensures stops { IsStoppedOn T.tells telling.old telling.new (result ≡ Ok Goes.Stop) }
{
    let phase = laid.see_phase(seat, t, None);
    if !has_alarmed(phase) {
        return Ok(Goes::On);
    }
    telling.meet(t)?;
    match cycle_of(alloc, laid, seat, t)? {
        Some(links) => telling.tell_new(alloc, &links),
        None => Ok(Goes::On),
    }
}

/// Whether the phase is that of a task that has alarmed.
fn has_alarmed(phase: Phase) -> bool
    ensures { result ≡ true → (c : CellId) × (way : Way)
        × (phase ≡ phase_of.Waiting c way walk.Alarmed) }
{
    matches!(phase, Phase::Waiting(_, _, Walk::Alarmed))
}
