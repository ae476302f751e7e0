//! What is left to read of a script, with what is known there, and the steps that every rule is
//! made of. A step that fails leaves the token at which it failed as the next one.
ghost use Rattle.std.specs.Prelude.{◌≡◌, ◌≢◌, ◌<◌, IfOk, Ok, None, length};
ghost use Rattle.std.specs.Option.{option_map};
ghost use Rattle.tj_lex.specs.Shorts.{tok_seen};
ghost use Rattle.tj_syntax.specs.Inner.State.{input_of};
ghost use Rattle.tj_syntax.specs.Inner.Input as spec;
ghost use Rattle.tj_syntax.specs.Inner.Input.{Reads};
ghost use Rattle.tj_syntax.specs.Marks.{index_of};

use crate::ahead::Ahead;
use crate::fault::{Breach, Stop};
use crate::heads::Heads;
use crate::names::Names;
use crate::script::MAX_VARS;
use std::alloc::Global;
use tj_lex::{Mark, Seen};

/// The state of a parser.
#[derive(Drop)]
pub(crate) struct Parser<'t> {
    pub alloc: Global,
    /// The tokens that are left, without the end.
    pub ahead: Ahead<'t>,
    /// The variables that are known.
    pub vars: Names<'t>,
    /// The tasks of the script.
    pub heads: Heads<'t>,
    /// The first fault of a fork so far.
    pub flaw: Option<Stop>,
}

impl<'t> Parser<'t> {
    /// The next token, unless only the end is left.
    #[inline(always)]
    pub(crate) fn peek(&self) -> Option<Seen<'t>>
        ensures { option_map tok_seen result ≡ spec.first (input_of self.now).ahead }
    {
        self.ahead.first()
    }

    /// How many tokens are left.
    pub(crate) fn left(&self) -> usize
        ensures { result ≡ length (input_of self.now).ahead }
    {
        self.ahead.rest.len()
    }

    /// Goes behind the next token.
    pub(crate) fn skip(&mut self)
        ensures { input_of self.new ≡ spec.next (input_of self.old) }
    {
        self.ahead = self.ahead.behind_first();
    }

    /// The fault of a token that can't follow.
    pub(crate) fn refuse(&self) -> Stop
        ensures { result ≡ Stop.Expected (length (input_of self.now).ahead) }
    {
        Stop::Expected(self.ahead.rest.len())
    }

    /// The fault of a token that breaks a rule.
    pub(crate) fn breaks(&self, breach: Breach) -> Stop
        ensures { result ≡ Stop.Broken breach (length (input_of self.now).ahead) }
    {
        Stop::Broken(breach, self.ahead.rest.len())
    }

    /// Whether the next token is this mark.
    pub(crate) fn sees(&self, mark: Mark) -> bool
        ensures { result ≡ spec.sees mark (input_of self.now) }
    {
        match self.peek() {
            Some(Seen::Mark(found)) => same_mark(mark, found),
            _ => false,
        }
    }

    /// Takes this mark, if it comes next.
    #[tactic(auto, unfolding(crate::specs::Inner::Input::eat))]
    pub(crate) fn eat(&mut self, mark: Mark) -> bool
        ensures { spec.eat mark (input_of self.old) ≡ Ok (result, input_of self.new) }
    {
        let found = self.sees(mark);
        if found {
            self.skip();
        }
        found
    }

    /// Takes this mark, which has to come next.
    #[tactic(auto, unfolding(crate::specs::Inner::Input::expect))]
    pub(crate) fn expect(&mut self, mark: Mark) -> Result<(), Stop>
        ensures reads { Reads (λ _. tt) (spec.expect mark (input_of self.old))
            result (input_of self.new) }
        ensures no_memory { result ≢ Err Stop.Oom }
    {
        if !self.sees(mark) {
            return Err(self.refuse());
        }
        self.skip();
        Ok(())
    }

    /// Takes a token that opens a level, where so many more may be opened.
    #[tactic(auto, unfolding(crate::specs::Inner::Input::open_level))]
    pub(crate) fn open(&mut self, room: u32) -> Result<(), Stop>
        ensures reads { Reads (λ _. tt) (spec.open_level room (input_of self.old))
            result (input_of self.new) }
        ensures no_memory { result ≢ Err Stop.Oom }
        ensures some { IfOk result (λ _. 0 < room) }
    {
        if room == 0 {
            return Err(self.breaks(Breach::Deep));
        }
        self.skip();
        Ok(())
    }

    /// Takes a variable, which has to be known.
    #[tactic(auto, unfolding(crate::specs::Inner::Input::known))]
    pub(crate) fn known(&mut self, name: &[u8]) -> Result<u32, Stop>
        ensures reads { Reads (λ n. n) (spec.known name.now (input_of self.old))
            result (input_of self.new) }
        ensures no_memory { result ≢ Err Stop.Oom }
    {
        match self.vars.number_of(name) {
            Some(number) => {
                self.skip();
                Ok(number)
            }
            None => Err(self.breaks(Breach::Unknown)),
        }
    }

    #[tactic(auto, unfolding(crate::specs::Inner::Input::variable))]
    pub(crate) fn variable(&mut self) -> Result<u32, Stop>
        ensures reads { Reads (λ n. n) (spec.variable (input_of self.old)) result (input_of self.new) }
        ensures no_memory { result ≢ Err Stop.Oom }
    {
        match self.peek() {
            Some(Seen::Name(name)) => self.known(name),
            _ => Err(self.refuse()),
        }
    }

    // Takes the name that comes next, unless it breaks a rule.
    fn take_unless(&mut self, breach: Option<Breach>, name: &'t [u8]) -> Result<&'t [u8], Stop>
        ensures reads { Reads (λ x. x.now)
            (spec.unless breach (λ i. Ok (name.now, spec.next i)) (input_of self.old))
            result (input_of self.new) }
        ensures no_memory { result ≢ Err Stop.Oom }
    {
        if let Some(breach) = breach {
            return Err(self.breaks(breach));
        }
        self.skip();
        Ok(name)
    }

    /// Takes a name that is declared, where these are declared already and so many may be.
    #[tactic(auto, unfolding(crate::specs::Inner::Input::fresh))]
    pub(crate) fn fresh(&mut self, most: usize, earlier: &Names<'t>) -> Result<&'t [u8], Stop>
        ensures reads { Reads (λ x. x.now) (spec.fresh most earlier.now (input_of self.old))
            result (input_of self.new) }
        ensures no_memory { result ≢ Err Stop.Oom }
    {
        match self.peek() {
            Some(Seen::Name(name)) => self.take_unless(breach(most, earlier, name), name),
            _ => Err(self.refuse()),
        }
    }

    /// Takes the name of a variable that is declared.
    #[tactic(auto, unfolding(crate::specs::Inner::Input::fresh))]
    pub(crate) fn fresh_variable(&mut self) -> Result<&'t [u8], Stop>
        ensures reads { Reads (λ x. x.now) (spec.fresh_variable (input_of self.old))
            result (input_of self.new) }
        ensures no_memory { result ≢ Err Stop.Oom }
    {
        match self.peek() {
            Some(Seen::Name(name)) => {
                let breach = breach(MAX_VARS, &self.vars, name);
                self.take_unless(breach, name)
            }
            _ => Err(self.refuse()),
        }
    }

    /// Makes a variable known.
    pub(crate) fn add_variable(&mut self, name: &'t [u8]) -> Result<(), Stop>
        requires new { index_of (input_of self.old).vars name.now ≡ None }
        requires few { length (input_of self.old).vars < MAX_VARS }
        ensures { Reads (λ _. tt) (spec.add_variable name.now (input_of self.old))
            result (input_of self.new) }
    {
        self.vars.add(self.alloc, name)
    }

    /// The number of a forked task. Keeps the fault of the fork, if it is the first.
    #[tactic(auto, unfolding(crate::specs::Inner::Input::note_fork))]
    pub(crate) fn note_fork(&mut self, name: &[u8], left: usize, count: usize) -> u32
        ensures { spec.note_fork name.now left count (input_of self.old)
            ≡ Ok (result, input_of self.new) }
    {
        let task = self.heads.number_of(name);
        if self.flaw.is_none() {
            self.flaw = self.heads.flaw_at(task, left, count);
        }
        task.unwrap_or(0)
    }
}

/// How a name breaks a rule as one that is declared, where these are declared already and so many
/// may be.
pub(crate) fn breach(most: usize, earlier: &Names<'_>, name: &[u8]) -> Option<Breach>
    ensures { result ≡ spec.breach_of most earlier.now name.now }
{
    if earlier.number_of(name).is_some() {
        return Some(Breach::Twice);
    }
    if earlier.len() >= most {
        return Some(Breach::Many);
    }
    None
}

fn same_mark(a: Mark, b: Mark) -> bool
    ensures { result ≡ spec.same_mark a b }
{
    a == b
}
