//! Reading tasks, one behind the other.
ghost use Rattle.std.specs.Prelude.{◌≡◌, ◌≢◌, map};
ghost use Rattle.tj_syntax.specs.Inner.State.{input_of};
ghost use Rattle.tj_syntax.specs.View as view;
ghost use Rattle.tj_syntax.specs.Inner.Input.{Reads};
ghost use Rattle.tj_syntax.specs.Inner.Reading as reading;

use crate::fault::Stop;
use crate::names::Names;
use crate::parser::Parser;
use crate::script::{Decl, MAX_LEVELS, MAX_TASKS};
use std::mem;
use tj_lex::{Key, Mark, Seen, Word};

impl<'t> Parser<'t> {
    /// The tasks up to the end.
    pub(crate) fn tasks(&mut self) -> Result<Vec<Decl>, Stop>
        ensures { Reads (λ found. map view.task found.items) (reading.tasks (input_of self.old))
            result (input_of self.new) }
    {
        let mut found = Vec::new(self.alloc);
        let mut earlier = Names::new(self.alloc);
        for _repeat in 0..self.left() {
            if self.left() == 0 {
                return Ok(found);
            }
            self.task_keyword()?;
            let name = self.fresh(MAX_TASKS, &earlier)?;
            found.push(self.task(name)?)?;
            earlier.add(self.alloc, name)?;
        }
        if self.left() == 0 {
            Ok(found)
        } else {
            Err(self.refuse())
        }
    }

    #[tactic(auto, unfolding(crate::specs::Inner::Reading::task_keyword))]
    fn task_keyword(&mut self) -> Result<(), Stop>
        ensures reads { Reads (λ _. tt) (reading.task_keyword (input_of self.old))
            result (input_of self.new) }
        ensures no_memory { result ≢ Err Stop.Oom }
    {
        match self.peek() {
            Some(Seen::Key(Key::Task)) => {
                self.skip();
                Ok(())
            }
            _ => Err(self.refuse()),
        }
    }

    /// A task, behind its name.
    #[tactic(auto, unfolding(crate::specs::Inner::Reading::task_behind))]
    fn task(&mut self, name: &[u8]) -> Result<Decl, Stop>
        ensures { Reads view.task (reading.task_behind name.now (input_of self.old))
            result (input_of self.new) }
    {
        self.expect(Mark::ParenOpen)?;
        self.params()?;
        self.expect(Mark::ParenClose)?;
        let params = self.vars.len() as u32;
        let body = self.block(MAX_LEVELS)?;
        let vars = mem::replace(&mut self.vars, Names::new(self.alloc)).into_vec();
        Ok(Decl {
            name: Word::copied(self.alloc, name)?,
            params,
            vars,
            body,
        })
    }

    /// Parameters with commas between them, up to the closing parenthesis.
    fn params(&mut self) -> Result<(), Stop>
        ensures { Reads (λ _. tt) (reading.params (input_of self.old)) result (input_of self.new) }
    {
        if self.sees(Mark::ParenClose) {
            return Ok(());
        }
        for _repeat in 0..self.left() {
            let name = self.fresh_variable()?;
            self.add_variable(name)?;
            if !self.eat(Mark::Comma) {
                return Ok(());
            }
        }
        Err(self.refuse())
    }
}
