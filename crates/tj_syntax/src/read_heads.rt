//! Reading and finding the heads of tasks.
ghost use Rattle.std.specs.Prelude.{◌≡◌, ◌≤◌, [], ◌<◌, All, IfOk, IfSome, OnOk, length, map};
ghost use Rattle.std.specs.Option.{option_map};
ghost use Rattle.tj_lex.specs.Shorts.{IsIn, what_of};
ghost use Rattle.tj_syntax.specs.Inner.Input as spec;
ghost use Rattle.tj_syntax.specs.Inner.State.{bare};
ghost use Rattle.tj_syntax.specs.Inner.Heads.{head_of, heads_of};
ghost use Rattle.tj_syntax.specs.Inner.Input.{names_of};
ghost use Rattle.tj_syntax.specs.Marks.{index_of};

use crate::fault::{Breach, Stop};
use crate::heads::{Head, Heads};
use crate::names::Names;
use crate::parser::breach;
use crate::script::MAX_TASKS;
use std::alloc::Global;
use tj_lex::{Key, Kind, Mark, Seen, Short};

impl<'t> Heads<'t> {
    /// The heads in a script.
    pub(crate) fn of(alloc: Global, text: &'t [u8], tokens: &'t [Short]) -> Result<Heads<'t>, Stop>
        requires { All (IsIn text.now) tokens.now }
        ensures { IfOk result (λ heads. heads_of heads
            ≡ spec.heads_from [] (map (what_of text.now) tokens.now)) }
    {
        let mut heads = Heads {
            names: Names::new(alloc),
            list: Vec::new(alloc),
        };
        for at in 0..tokens.len() {
            heads.add_front(alloc, text, &tokens[at..])?;
        }
        Ok(heads)
    }

    /// Adds the head that stands at the front, if one does.
    fn add_front(&mut self, alloc: Global, text: &'t [u8], tokens: &'t [Short]) -> Result<(), Stop>
        requires { All (IsIn text.now) tokens.now }
        ensures { OnOk result (heads_of self.new
            ≡ spec.with_front (heads_of self.old) (map (what_of text.now) tokens.now)) }
    {
        if let [task, name, rest @ ..] = tokens
            && let Kind::Key(Key::Task) = task.what
            && let Seen::Name(name) = name.seen(text)
        {
            self.add(alloc, name, rest)?;
        }
        Ok(())
    }

    /// Adds the head of a task, unless it is there or they are too many.
    fn add(&mut self, alloc: Global, name: &'t [u8], rest: &'t [Short]) -> Result<(), Stop>
        ensures { OnOk result (heads_of self.new
            ≡ spec.with_head (heads_of self.old) name.now (map bare rest.now)) }
    {
        if breach(MAX_TASKS, &self.names, name).is_some() {
            return Ok(());
        }
        let head = Head {
            name,
            params: count_params(rest),
            left: rest.len() + 1,
        };
        self.list.push(head)?;
        if let Err(stop) = self.names.add(alloc, name) {
            self.list.pop();
            return Err(stop);
        }
        Ok(())
    }

    /// The number of a task.
    pub(crate) fn number_of(&self, name: &[u8]) -> Option<u32>
        ensures value { result ≡ index_of (names_of (heads_of self.now)) name.now }
        ensures below { IfSome result (λ number. number < length (heads_of self.now)) }
    {
        self.names.number_of(name)
    }

    /// The head of a task.
    pub(crate) fn get(&self, name: &[u8]) -> Option<Head<'t>>
        ensures { option_map head_of result ≡ spec.head_named (heads_of self.now) name.now }
    {
        match self.number_of(name) {
            Some(number) => Some(self.list[number as usize]),
            None => None,
        }
    }

    /// The fault of a fork of the task with this number, with so many arguments.
    pub(crate) fn flaw_at(&self, task: Option<u32>, left: usize, count: usize) -> Option<Stop>
        requires { IfSome task (λ number. number < length (heads_of self.now)) }
        ensures { result ≡ spec.flaw_at (spec.head_at (heads_of self.now) task) left count }
    {
        match task {
            None => Some(Stop::Broken(Breach::Unknown, left)),
            Some(number) if self.list[number as usize].params == count => None,
            Some(_) => Some(Stop::Broken(Breach::Count, left)),
        }
    }
}

/// How many names stand at the front, with commas between them.
fn count_params(tokens: &[Short]) -> usize
    ensures { result ≡ spec.count_params (map bare tokens.now) }
{
    let mut count = 0;
    for token in tokens {
        match token.what {
            Kind::Name => count += 1,
            Kind::Mark(Mark::ParenOpen | Mark::Comma) => {}
            _ => return count,
        }
    }
    count
}
