//! The sum of a slice, by halves.
ghost use Rattle.std.specs.Prelude.{◌≡◌};
ghost use Rattle.tj_examples.specs.Sums as sums;

use std::alloc::Global;
use tj_base::{Oom, Pay, Trouble};
use tj_task::{Child, Task, Told, Turn, plus};

/// A part of a slice: from one index to before another.
#[derive(Clone, Copy)]
pub struct Part<'a> {
    pub all: &'a [i64],
    pub from: usize,
    pub to: usize,
}

/// What a task does next.
#[derive(Clone, Copy)]
pub enum Sum<'a> {
    /// It sums this part, by two children if it is long.
    Of(Part<'a>),
    /// It forks the second child.
    Second(Part<'a>),
    /// It joins the first,
    Both(Child),
    /// and then the second.
    Other(Child),
    /// It ends with the sum.
    Last(i64),
}

impl<'a> Part<'a> {
    ghost use Rattle.tj_examples.specs.Sums.{sum_part, sum_short};

    /// Sums the part, or has its halves summed.
    fn sum(self) -> Turn<Sum<'a>>
        ensures { result ≡ sum_part self.entry }
    {
        if self.to.saturating_sub(self.from) > 1000 {
            let middle = self.from.midpoint(self.to);
            let left = Part { to: middle, ..self };
            let right = Part {
                from: middle,
                ..self
            };
            return Turn::Fork(Sum::Of(left), Sum::Second(right));
        }
        self.sum_short()
    }

    /// Sums a short part.
    fn sum_short(self) -> Turn<Sum<'a>>
        ensures { result ≡ sum_short self.entry }
    {
        match self.all.get(self.from..self.to) {
            Some(part) => Turn::End(Pay::Num(total(part))),
            None => Turn::Fail(Trouble::Kind),
        }
    }
}

/// The sum of these.
fn total(part: &[i64]) -> i64
    ensures { result ≡ sums.total part.now }
{
    let mut sum = 0i64;
    for x in part {
        sum = plus(sum, *x);
    }
    sum
}

impl<'a> Task for Sum<'a> {
    ghost use Rattle.tj_examples.specs.Sums.{turn};

    ghost turn = { turn };

    fn step(self, _alloc: Global, told: Told) -> Result<Turn<Sum<'a>>, Oom> {
        Ok(match (self, told) {
            (Sum::Of(part), Told::Start) => part.sum(),
            (Sum::Second(part), Told::Forked(first)) => Turn::Fork(Sum::Of(part), Sum::Both(first)),
            (Sum::Both(first), Told::Forked(second)) => Turn::Join(first, Sum::Other(second)),
            (Sum::Other(second), Told::Num(x)) => Turn::Join(second, Sum::Last(x)),
            (Sum::Last(x), Told::Num(y)) => Turn::End(Pay::Num(plus(x, y))),
            _ => Turn::Fail(Trouble::Kind),
        })
    }

    fn twin(&self, _alloc: Global) -> Result<Sum<'a>, Oom> {
        Ok(*self)
    }
}
