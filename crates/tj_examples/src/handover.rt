//! A body of one's own: a task that hands a promise to a child, and gets what the child sets it to.
ghost use Rattle.std.specs.Prelude.{◌≡◌, ◌∷◌, [], IfOk};

use std::alloc::Global;
use tj_base::{Items, Oom, Pay, PlaceList, Trouble};
use tj_body::{Answer, Ask, Body};

/// What a task of this program does next.
#[derive(Drop)]
pub enum Handover {
    /// The root makes a promise,
    Begin(i64),
    /// forks a child that is passed the promise and owns it,
    Fork(i64),
    /// gets what the child sets it to,
    Get,
    /// and ends with that.
    End,
    /// The child sets the promise,
    Set(i64),
    /// and ends.
    Leave,
    /// Nothing: a task with so many places has ended.
    Over(u32),
}

impl Body for Handover {
    ghost use Rattle.tj_examples.specs.Handovers.{places, awaits, left, asks, then, obeys};

    ghost places = { places };

    ghost awaits = { awaits };

    ghost left = { left };

    ghost asks = { asks };

    ghost then = { then };

    fn next(&mut self, alloc: Global, a: Answer) -> Result<Ask<Self>, Oom> {
        let (ask, then) = match self {
            Handover::Begin(number) => (Ask::New, Handover::Fork(*number)),
            Handover::Fork(number) => (
                Ask::Fork {
                    body: Handover::Set(*number),
                    pass: one_place(alloc, 1)?,
                    hand: one_place(alloc, 1)?,
                },
                Handover::Get,
            ),
            Handover::Get => (Ask::Get { p: 1 }, Handover::End),
            Handover::End => match a {
                Answer::Num(value) => (Ask::End(Pay::Num(value)), Handover::Over(3)),
                _ => (Ask::Fail(Trouble::Kind), Handover::Over(4)),
            },
            Handover::Set(number) => (
                Ask::Set {
                    p: 1,
                    v: Pay::Num(*number),
                },
                Handover::Leave,
            ),
            Handover::Leave => (Ask::End(Pay::Num(0)), Handover::Over(2)),
            Handover::Over(places) => (Ask::Fail(Trouble::Kind), Handover::Over(*places)),
        };
        *self = then;
        Ok(ask)
    }

    fn twin(&self, _alloc: Global) -> Result<Self, Oom> {
        Ok(match self {
            Handover::Begin(number) => Handover::Begin(*number),
            Handover::Fork(number) => Handover::Fork(*number),
            Handover::Get => Handover::Get,
            Handover::End => Handover::End,
            Handover::Set(number) => Handover::Set(*number),
            Handover::Leave => Handover::Leave,
            Handover::Over(places) => Handover::Over(*places),
        })
    }

    ghost obeys = { obeys };
}

/// A list of one place.
fn one_place(alloc: Global, place: u32) -> Result<PlaceList, Oom>
    ensures { IfOk result (λ places. places ≡ place ∷ []) }
{
    Ok(Items::of(Vec::from_slice(alloc, &[place])?))
}
