//! Reading asks: forks with their arguments, gets and joins.
ghost use Rattle.std.specs.Prelude.{◌≡◌, ◌≢◌, map};
ghost use Rattle.std.specs.Option.{option_map};
ghost use Rattle.tj_syntax.specs.Inner.State.{input_of};
ghost use Rattle.tj_syntax.specs.View as view;
ghost use Rattle.tj_syntax.specs.Inner.Input as spec;
ghost use Rattle.tj_syntax.specs.Inner.Input.{Reads};
ghost use Rattle.tj_syntax.specs.Inner.Reading as reading;

use crate::expr::{Expr, RefOf};
use crate::fault::Stop;
use crate::parser::Parser;
use crate::stmt::{Arg, Call, Rhs};
use tj_lex::{Key, Mark, Seen};

impl<'t> Parser<'t> {
    /// An ask or an expression.
    #[tactic(auto, unfolding(crate::specs::Inner::Reading::given))]
    pub(crate) fn given(&mut self, room: u32) -> Result<Rhs, Stop>
        ensures { Reads view.given (reading.given room (input_of self.old))
            result (input_of self.new) }
    {
        match self.peek() {
            Some(Seen::Key(Key::New | Key::Fork | Key::Get | Key::Join)) => {
                Ok(Rhs::Call(self.ask(room)?))
            }
            _ => Ok(Rhs::Expr(self.expression(room)?)),
        }
    }

    /// An ask.
    #[tactic(auto, unfolding(crate::specs::Inner::Reading::ask))]
    pub(crate) fn ask(&mut self, room: u32) -> Result<Call, Stop>
        ensures { Reads view.ask (reading.ask room (input_of self.old))
            result (input_of self.new) }
    {
        match self.peek() {
            Some(Seen::Key(Key::New)) => {
                self.skip();
                Ok(Call::New)
            }
            Some(Seen::Key(Key::Fork)) => {
                self.skip();
                self.fork(room)
            }
            Some(Seen::Key(Key::Get)) => {
                self.skip();
                let (r, other) = self.asked(room)?;
                Ok(Call::Get(r, other))
            }
            Some(Seen::Key(Key::Join)) => {
                self.skip();
                let (r, other) = self.asked(room)?;
                Ok(Call::Join(r, other))
            }
            _ => Err(self.refuse()),
        }
    }

    /// A fork, behind its keyword.
    #[tactic(auto, unfolding(crate::specs::Inner::Reading::fork))]
    fn fork(&mut self, room: u32) -> Result<Call, Stop>
        ensures { Reads view.ask (reading.fork room (input_of self.old))
            result (input_of self.new) }
    {
        let (name, left) = self.forked()?;
        self.expect(Mark::ParenOpen)?;
        let args = self.arguments(room)?;
        self.expect(Mark::ParenClose)?;
        let task = self.note_fork(name, left, args.len());
        Ok(Call::Fork(task, args))
    }

    /// The name of a forked task, and how many tokens are left from it on.
    #[tactic(auto, unfolding(crate::specs::Inner::Reading::forked))]
    fn forked(&mut self) -> Result<(&'t [u8], usize), Stop>
        ensures reads { Reads (λ f. (f.0.now, f.1)) (reading.forked (input_of self.old))
            result (input_of self.new) }
        ensures no_memory { result ≢ Err Stop.Oom }
    {
        match self.peek() {
            Some(Seen::Name(name)) => {
                let left = self.left();
                self.skip();
                Ok((name, left))
            }
            _ => Err(self.refuse()),
        }
    }

    /// Arguments with commas between them, up to the closing parenthesis.
    fn arguments(&mut self, room: u32) -> Result<Vec<Arg>, Stop>
        ensures { Reads (λ found. map view.argument found.items)
            (reading.separated (reading.argument room) (input_of self.old))
            result (input_of self.new) }
    {
        let mut found = Vec::new(self.alloc);
        if self.sees(Mark::ParenClose) {
            return Ok(found);
        }
        for _repeat in 0..self.left() {
            found.push(self.argument(room)?)?;
            if !self.eat(Mark::Comma) {
                return Ok(found);
            }
        }
        Err(self.refuse())
    }

    /// A variable that is handed on, or an expression.
    #[tactic(auto, unfolding(crate::specs::Inner::Reading::argument))]
    fn argument(&mut self, room: u32) -> Result<Arg, Stop>
        ensures { Reads view.argument (reading.argument room (input_of self.old))
            result (input_of self.new) }
    {
        match self.peek() {
            Some(Seen::Key(Key::Own)) => {
                self.skip();
                Ok(Arg::Own(self.variable()?))
            }
            _ => Ok(Arg::Expr(self.expression(room)?)),
        }
    }

    /// The reference of a get or a join, with what is computed where the cell is broken.
    #[tactic(auto, unfolding(crate::specs::Inner::Reading::asked))]
    fn asked(&mut self, room: u32) -> Result<(RefOf, Option<Expr>), Stop>
        ensures { Reads (λ a. (a.0, option_map view.expression a.1))
            (reading.asked room (input_of self.old)) result (input_of self.new) }
    {
        let r = self.reference()?;
        let other = self.or_else(room)?;
        Ok((r, other))
    }

    /// A variable or `me`.
    #[tactic(auto, unfolding(crate::specs::Inner::Reading::reference))]
    fn reference(&mut self) -> Result<RefOf, Stop>
        ensures reads { Reads (λ r. r) (reading.reference (input_of self.old))
            result (input_of self.new) }
        ensures no_memory { result ≢ Err Stop.Oom }
    {
        match self.peek() {
            Some(Seen::Name(name)) => Ok(RefOf::Var(self.known(name)?)),
            Some(Seen::Key(Key::Me)) => {
                self.skip();
                Ok(RefOf::Me)
            }
            _ => Err(self.refuse()),
        }
    }

    /// What is computed where the cell is broken, if anything is.
    #[tactic(auto, unfolding(crate::specs::Inner::Reading::or_else))]
    fn or_else(&mut self, room: u32) -> Result<Option<Expr>, Stop>
        ensures { Reads (option_map view.expression)
            (reading.or_else room (input_of self.old)) result (input_of self.new) }
    {
        match self.peek() {
            Some(Seen::Key(Key::Or)) => {
                self.skip();
                Ok(Some(self.expression(room)?))
            }
            _ => Ok(None),
        }
    }
}
