//! The code of a task, as the runtime sees it: it is given an answer, and gives the next ask.
ghost use Rattle.std.specs.Prelude.{ℕ, ◌<◌, ◌^◌, ◌≡◌, IfOk};
ghost use Rattle.tj_body.specs.declared.ask.Answer.{Answer};
ghost use Rattle.tj_body.specs.declared.ask.Ask.{Ask};
ghost use Rattle.tj_body.specs.Asks.{Await, Fits, Obeys};

use crate::ask::{Answer, Ask};
use std::alloc::Global;
use tj_base::Oom;

/// A task's code. What it asks is a function of the body and of what it is answered.
pub trait Body: Sized + Send + Drop {
    /// How many places its task has.
    ghost places: { Self → ℕ };

    /// What sort of answer it is to be given.
    ghost awaits: { Self → Await };

    /// At least the number of asks that it has still to give before its last one.
    ghost left: { Self → ℕ };

    /// What it asks next, given this answer.
    ghost asks: { Self → Answer → Ask Self };

    /// What it is from then on.
    ghost then: { Self → Answer → Self };

    /// Gives the next ask. After `Oom` nothing is said of the body but that it can be dropped.
    fn next(&mut self, alloc: Global, a: Answer) -> Result<Ask<Self>, Oom>
        requires fits { Fits (awaits self.old) (places self.old) a }
        requires room { places self.old < 2 ^ 31 }
        // The ask is the function `asks` of the body and the answer.
        ensures ask { IfOk result (λ ask. ask ≡ asks self.old a) }
        // The body from then on is the function `then` of these.
        ensures body { IfOk result (λ _. self.new ≡ then self.old a) };

    /// An equal body.
    fn twin(&self, alloc: Global) -> Result<Self, Oom>
        // The twin equals the body.
        ensures { IfOk result (λ twin. twin ≡ self.now) };

    /// The laws of one ask.
    ghost obeys: { (b : Self) (a : Answer) → Obeys places awaits left asks then b a };
}
