//! A body that notes its arguments, at which statement it made each promise and each task, and what
//! it set and handed on. It notes a thing when it is told that this is done, as a fork or a set may
//! be refused.
ghost use Rattle.std.specs.Prelude.{◌≡◌, ◌++◌, IfOk, OnOk, length, map, suc};
ghost use Rattle.tj_body.specs.SeenAs.{ask_as};
ghost use Rattle.tj_trace.specs.Logs as log;

use crate::line::Maker;
use std::alloc::Global;
use std::marker::Model;
use tj_base::{Oom, Pay, Sort};
use tj_body::{Answer, Ask, Body};
use tj_eval::PlacedBody;

/// The promise of a place was set by this statement.
#[derive(Clone, Copy)]
pub struct PlaceSet {
    pub place: u32,
    pub at: usize,
}

/// The promise of a place was handed to the thing with this number.
#[derive(Clone, Copy)]
pub struct PlaceHand {
    pub place: u32,
    pub thing: usize,
}

/// A body that knows where it stands, with what it began with, what made each of its things, and
/// what it set and handed on.
#[derive(Drop)]
pub struct LoggedBody<'s> {
    pub placed: PlacedBody<'s>,
    pub began: Vec<Pay>,
    pub makers: Vec<Maker>,
    pub sets: Vec<PlaceSet>,
    pub hands: Vec<PlaceHand>,
    due: Option<Sort>,
    set_due: Option<u32>,
    hand_due: Vec<u32>,
}

impl<'s> Model for LoggedBody<'s> {
    ghost use Rattle.tj_trace.specs.Logs.{Logged};

    ghost Value = { Logged };

    ghost use Rattle.std.specs.Coded.{codes};
    ghost use Rattle.tj_eval.specs.Inner.Codes.{expression_code, statement_code, statements_code};

    ghost coded = { Prim.hlevel (codes, expression_code, statement_code, statements_code) };

    ghost view = { λ b. record {
      placed = b.placed;
      began = b.began.items;
      makers = b.makers.items;
      sets = b.sets.items;
      hands = b.hands.items;
      due = b.due;
      set_due = b.set_due;
      hand_due = b.hand_due.items;
    } };
}

/// What the ask makes, if it makes something.
fn made_by(ask: &Ask<PlacedBody>) -> Option<Sort>
    ensures { result ≡ log.made_by ask.now }
{
    match ask {
        Ask::New => Some(Sort::Promise),
        Ask::Fork {
            body: _,
            pass: _,
            hand: _,
        } => Some(Sort::Task),
        _ => None,
    }
}

/// The place that the ask sets, if it sets one.
fn set_by(ask: &Ask<PlacedBody>) -> Option<u32>
    ensures { result ≡ log.set_by ask.now }
{
    match ask {
        Ask::Set { p, v: _ } => Some(*p),
        _ => None,
    }
}

/// The places that the ask hands on.
fn handed_by(alloc: Global, ask: &Ask<PlacedBody>) -> Result<Vec<u32>, Oom>
    ensures { IfOk result (λ places. places.items ≡ log.handed_by ask.now) }
{
    match ask {
        Ask::Fork {
            body: _,
            pass: _,
            hand,
        } => Ok(Vec::from_slice(alloc, hand.items())?),
        _ => Ok(Vec::new(alloc)),
    }
}

/// The same ask of a body that notes.
fn noting(alloc: Global, ask: Ask<PlacedBody>) -> Result<Ask<LoggedBody>, Oom>
    ensures { IfOk result (λ noting. noting ≡ ask_as log.logged ask.entry) }
{
    match ask {
        Ask::New => Ok(Ask::New),
        Ask::Fork { body, pass, hand } => {
            let body = LoggedBody::of(alloc, body)?;
            Ok(Ask::Fork { body, pass, hand })
        }
        Ask::Set { p, v } => Ok(Ask::Set { p, v }),
        Ask::Get { p } => Ok(Ask::Get { p }),
        Ask::Join { t } => Ok(Ask::Join { t }),
        Ask::GetOr { p } => Ok(Ask::GetOr { p }),
        Ask::JoinOr { t } => Ok(Ask::JoinOr { t }),
        Ask::Emit(n) => Ok(Ask::Emit(n)),
        Ask::End(v) => Ok(Ask::End(v)),
        Ask::Fail(fault) => Ok(Ask::Fail(fault)),
    }
}

/// The promises of these places are handed to the thing with this number.
fn hand_on(hands: &mut Vec<PlaceHand>, thing: usize, places: &[u32]) -> Result<(), Oom>
    ensures { OnOk result (hands.new.items
        ≡ hands.old.items ++ map (log.hand_here thing) places.now) }
{
    for place in places {
        let place = *place;
        hands.push(PlaceHand { place, thing })?;
    }
    Ok(())
}

impl<'s> LoggedBody<'s> {
    /// The same body, which has asked nothing yet.
    pub fn of(alloc: Global, placed: PlacedBody<'s>) -> Result<LoggedBody<'s>, Oom>
        ensures { IfOk result (λ body. body ≡ log.logged placed.entry) }
    {
        let began = Vec::from_slice(alloc, placed.vars())?;
        Ok(LoggedBody {
            placed,
            began,
            makers: Vec::new(alloc),
            sets: Vec::new(alloc),
            hands: Vec::new(alloc),
            due: None,
            set_due: None,
            hand_due: Vec::new(alloc),
        })
    }

    /// Notes the statement at which it stands, if it has asked for something to be made.
    fn note_here(&mut self) -> Result<(), Oom>
        ensures { OnOk result (self.new ≡ record self.old {
          makers = self.old.makers ++ log.maker_here self.old.due self.old.placed.stand;
        }) }
    {
        if let Some(sort) = self.due {
            let decl = self.placed.decl();
            let at = self.placed.at();
            self.makers.push(Maker { sort, decl, at })?;
        }
        Ok(())
    }

    /// Notes what it hands on, if it has asked for a task that is handed something.
    fn note_hands(&mut self) -> Result<(), Oom>
        ensures { OnOk result (self.new ≡ record self.old {
          hands = self.old.hands ++ map (log.hand_here (suc (length self.old.makers)))
              self.old.hand_due;
        }) }
    {
        let thing = self.makers.len() + 1;
        hand_on(&mut self.hands, thing, self.hand_due.as_slice())
    }

    /// Notes what it sets, if it has asked for that.
    fn note_set(&mut self) -> Result<(), Oom>
        ensures { OnOk result (self.new ≡ record self.old {
          sets = self.old.sets ++ log.set_here self.old.set_due self.old.placed.stand;
        }) }
    {
        if let Some(place) = self.set_due {
            let here = self.placed.at();
            self.sets.push(PlaceSet { place, at: here })?;
        }
        Ok(())
    }

    /// Notes what the answer tells: that something was made where it stands, or set there.
    fn note(&mut self, a: Answer) -> Result<(), Oom>
        ensures { OnOk result (self.new ≡ record self.old {
          makers = log.noted a self.old;
          sets = log.sets_noted a self.old;
          hands = log.hands_noted a self.old;
        }) }
    {
        match a {
            Answer::Local(_) => {
                self.note_hands()?;
                self.note_here()
            }
            Answer::Done => self.note_set(),
            _ => Ok(()),
        }
    }
}

impl<'s> Body for LoggedBody<'s> {
    ghost use Rattle.tj_trace.specs.Logs.{logged_places, logged_awaits, logged_left};
    ghost use Rattle.tj_trace.specs.Logs.{logged_asks, logged_then};
    ghost use Rattle.tj_trace.specs.Inner.LogLaws.{logged_obeys};

    ghost places = { logged_places };

    ghost awaits = { logged_awaits };

    ghost left = { logged_left };

    ghost asks = { logged_asks };

    ghost then = { logged_then };

    fn next(&mut self, alloc: Global, a: Answer) -> Result<Ask<Self>, Oom> {
        self.note(a)?;
        let ask = self.placed.next(alloc, a)?;
        self.due = made_by(&ask);
        self.set_due = set_by(&ask);
        self.hand_due = handed_by(alloc, &ask)?;
        noting(alloc, ask)
    }

    fn twin(&self, alloc: Global) -> Result<Self, Oom> {
        Ok(LoggedBody {
            placed: self.placed.twin(alloc)?,
            began: Vec::from_slice(alloc, &self.began)?,
            makers: Vec::from_slice(alloc, &self.makers)?,
            sets: Vec::from_slice(alloc, &self.sets)?,
            hands: Vec::from_slice(alloc, &self.hands)?,
            due: self.due,
            set_due: self.set_due,
            hand_due: Vec::from_slice(alloc, &self.hand_due)?,
        })
    }

    ghost obeys = { logged_obeys };
}
