//! How a record changes. What is refused for want of memory leaves the record as it was.
ghost use Rattle.std.specs.Prelude.{◌≡◌, ◌≢◌, ◌+◌, ◌<◌, ◌^◌, ◌∷◌, ◌++◌, [], drop, length, Some, IfOk, OnErr, OnOk};
ghost use Rattle.std.specs.List.{remove};
ghost use Rattle.tj_body.specs.Asks.{Fits};
ghost use Rattle.tj_body.specs.declared.ask.Answer.TheVariants.{RefAt};
ghost use Rattle.tj_record.specs.TaskRecords.{ended_record};

use crate::record::{Finish, Held, Rec};
use std::alloc::Global;
use tj_base::{CellId, Oom};
use tj_body::{Answer, Ask, Body};

impl<B> Rec<B> {
    /// The task holds one cell more, at the next place.
    #[inline(always)]
    pub fn hold(&mut self, h: Held) -> Result<(), Oom>
        // The record holds one cell more, at its end, and all else of it is as before.
        ensures ok { OnOk result (self.new ≡ record self.old { held = self.old.held ++ h ∷ [] }) }
        // What is refused leaves the record as it was.
        ensures err { OnErr result (self.new ≡ self.old) }
    {
        self.parts.others.push(h)?;
        Ok(())
    }

    /// The task owns one promise more.
    #[inline(always)]
    pub fn own(&mut self, p: CellId) -> Result<(), Oom>
        requires { self.old.owned ≢ [] }
        // It owns one promise more, and all else of it is as before.
        ensures ok { OnOk result (self.new ≡ record self.old { owned = self.old.owned ++ p ∷ [] }) }
        ensures err { OnErr result (self.new ≡ self.old) }
    {
        self.parts.promises.push(p)?;
        Ok(())
    }

    /// The task no longer owns the promise that stands at this index among its promises.
    #[inline(always)]
    pub fn disown(&mut self, index: usize)
        requires { index < length (drop 1 self.old.owned) }
        // It owns one promise less, the one at the index, and all else of it is as before.
        ensures { self.new ≡ record self.old {
          owned = self.old.cell ∷ remove (drop 1 self.old.owned) index;
        } }
    {
        self.parts.promises.remove(index);
    }

    /// The task owns these promises, and its result, in place of what it owned.
    #[inline(always)]
    pub fn set_promises(&mut self, promises: Vec<CellId>)
        requires { self.old.owned ≢ [] }
        // It owns its result and these promises, and all else of it is as before.
        ensures { self.new ≡ record self.old { owned = self.old.cell ∷ promises.items } }
    {
        self.parts.promises = promises;
    }

    /// The task has made one thing more.
    #[inline(always)]
    pub fn count_made(&mut self)
        requires { self.old.made + 1 < 2 ^ 32 }
        // It has made one thing more, and all else of it is as before.
        ensures { self.new ≡ record self.old { made = self.old.made + 1 } }
    {
        self.parts.made += 1;
    }

    /// The task prints a number.
    #[inline(always)]
    pub fn print(&mut self, number: i64) -> Result<(), Oom>
        // It has printed one number more, and all else of it is as before.
        ensures ok { OnOk result (self.new
            ≡ record self.old { prints = self.old.prints ++ number ∷ [] }) }
        ensures err { OnErr result (self.new ≡ self.old) }
    {
        self.parts.prints.push(number)?;
        Ok(())
    }

    /// This is what the body is to be given.
    #[inline(always)]
    pub fn set_answer(&mut self, answer: Answer)
        // What the body is to be given is set, and all else of it is as before.
        ensures { self.new ≡ record self.old { answer = answer } }
    {
        self.parts.answer = answer;
    }

    /// The task waits for the cell at the place, and `spare` is whether a broken cell is answered by
    /// `Lost`.
    #[inline(always)]
    pub fn set_wait(&mut self, place: u32, spare: bool)
        // It waits at the place, and all else of it is as before.
        ensures { self.new ≡ record self.old { answer = RefAt place; spare = spare } }
    {
        self.parts.answer = Answer::RefAt(place);
        self.parts.spare = spare;
    }

    /// This is how the task ends.
    #[inline(always)]
    pub fn set_finish(&mut self, finish: Finish)
        // It ends like this, and all else of it is as before.
        ensures { self.new ≡ record self.old { finish = Some finish } }
    {
        self.parts.finish = Some(finish);
    }

    /// The task has ended: it owns nothing, and what it owned beside its result, it owes.
    #[inline(always)]
    pub fn end(&mut self)
        requires { self.old.owned ≢ [] }
        // It owns nothing, it owes what it owned beside its result, and all else of it is as
        // before.
        ensures { self.new ≡ ended_record self.old }
    {
        self.parts.owes = true;
    }
}

impl<B: Body> Rec<B> {
    /// The body is given the record's answer, and asks. After `Oom` nothing is said of the body but
    /// that it can be dropped.
    #[inline(always)]
    pub fn next(&mut self, alloc: Global) -> Result<Ask<B>, Oom>
        requires fits { Fits (B.awaits self.old.body) (B.places self.old.body) self.old.answer }
        requires room { B.places self.old.body < 2 ^ 31 }
        // The ask is that of the body for the record's answer.
        ensures ask { IfOk result (λ ask. ask ≡ B.asks self.old.body self.old.answer) }
        // The body is what it is from then on.
        ensures body { IfOk result (λ _. self.new.body ≡ B.then self.old.body self.old.answer) }
        // All else of the record is as before, also where memory is lacking.
        ensures others { self.new ≡ record self.old { body = self.new.body } }
    {
        let answer = self.parts.answer;
        self.parts.body.next(alloc, answer)
    }
}
