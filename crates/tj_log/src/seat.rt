//! A seat with its log.
ghost use Rattle.std.specs.Prelude.{◌≡◌};
ghost use Rattle.tj_log.specs.Logs.{numbers};

use crate::entry::Logged;
use atomic_table::Seat;
use std::marker::Model;

/// A seat, seen as the caller's view and the slots that it has, and the log of its steps.
#[derive(Drop)]
pub struct LogSeat<S, V> {
    pub(crate) seat: Seat<S, Logged<V>>,
    ghost same_slots: { numbers seat.me.1 ≡ seat.me.0.slots },
}

impl<S, V> Model for LogSeat<S, V> {
    ghost use Rattle.tj_log.specs.Shown.{SeatShown};

    ghost Value = { SeatShown S V };

    ghost view = { λ it. record {
      table_id = it.seat.table_id;
      id = it.seat.id;
      me = (it.seat.me.0.own, it.seat.me.1);
      log = it.seat.me.0.log;
      took = it.seat.me.0.took;
      lone = it.seat.me.0.lone;
      befores = it.seat.me.0.befores.views;
      took_befores = it.seat.me.0.befores.taken;
    } };
}
