//! The code of a task that speaks by channels: it is given an answer, and gives the next ask.
ghost use Rattle.std.specs.Prelude.{ℕ, ◌<◌, ◌^◌, ◌≡◌, IfOk};
ghost use Rattle.tj_chan.specs.declared.chat.ChatAnswer.{ChatAnswer};
ghost use Rattle.tj_chan.specs.declared.chat.ChatAsk.{ChatAsk};
ghost use Rattle.tj_chan.specs.Chats.{Await, FitsChat, ObeysChat};

use crate::chat::{ChatAnswer, ChatAsk};
use std::alloc::Global;
use tj_base::Oom;

/// A task's code. What it asks is a function of the chatter and of what it is answered.
// Its asks are given one by one, each for its answer, as those of a body.
pub trait Chatter: Sized + Send + Drop {
    /// How many channels its task has.
    ghost channels: { Self → ℕ };

    /// What sort of answer it is to be given: `place` is a new channel, which has the next place,
    /// and `cell` is a value received. No answer fits `cell_or` or `nothing`.
    ghost awaits: { Self → Await };

    /// At least the number of asks that it has still to give before its last one.
    ghost left: { Self → ℕ };

    /// What it asks next, given this answer.
    ghost asks: { Self → ChatAnswer → ChatAsk Self };

    /// What it is from then on.
    ghost then: { Self → ChatAnswer → Self };

    /// Gives the next ask. After `Oom` nothing is said of the chatter but that it can be dropped.
    fn next(&mut self, alloc: Global, a: ChatAnswer) -> Result<ChatAsk<Self>, Oom>
        requires fits { FitsChat (awaits self.old) (channels self.old) a }
        requires room { channels self.old < 2 ^ 31 }
        // The ask is the function `asks` of the chatter and the answer.
        ensures ask { IfOk result (λ ask. ask ≡ asks self.old a) }
        // The chatter from then on is the function `then` of these.
        ensures body { IfOk result (λ _. self.new ≡ then self.old a) };

    /// An equal chatter.
    fn twin(&self, alloc: Global) -> Result<Self, Oom>
        // The twin equals the chatter.
        ensures { IfOk result (λ twin. twin ≡ self.now) };

    /// The laws of one ask.
    ghost obeys: { (c : Self) (a : ChatAnswer) → ObeysChat channels awaits left asks then c a };
}
