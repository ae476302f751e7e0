//! Reading statements and blocks.
ghost use Rattle.std.specs.Prelude.{◌≡◌, map};
ghost use Rattle.std.specs.Option.{option_map};
ghost use Rattle.tj_syntax.specs.Inner.State.{input_of};
ghost use Rattle.tj_syntax.specs.View as view;
ghost use Rattle.tj_syntax.specs.Inner.Input.{Reads};
ghost use Rattle.tj_syntax.specs.Inner.Reading as reading;

use crate::expr::Expr;
use crate::fault::Stop;
use crate::parser::Parser;
use crate::stmt::{Block, Stmt};
use tj_lex::{Key, Mark, Seen};

impl<'t> Parser<'t> {
    /// Statements between braces.
    #[cycle(block)]
    pub(crate) fn block(&mut self, room: u32) -> Result<Block, Stop>
        ensures { Reads view.block (reading.block room (input_of self.old))
            result (input_of self.new) }
    {
        match self.peek() {
            Some(Seen::Mark(Mark::BraceOpen)) => {
                self.open(room)?;
                self.statements(room - 1)
            }
            _ => Err(self.refuse()),
        }
    }

    /// Statements up to the closing brace.
    #[cycle(block)]
    fn statements(&mut self, room: u32) -> Result<Block, Stop>
        ensures { Reads view.block
            (reading.statements (reading.statement room) (input_of self.old))
            result (input_of self.new) }
    {
        let mut stmts = Vec::new(self.alloc);
        for _repeat in 0..self.left() {
            if self.eat(Mark::BraceClose) {
                return Ok(Block { stmts });
            }
            stmts.push(self.statement(room)?)?;
        }
        Err(self.refuse())
    }

    #[cycle(block)]
    #[tactic(auto, unfolding(crate::specs::Inner::Reading::statement_over))]
    fn statement(&mut self, room: u32) -> Result<Stmt, Stop>
        ensures { Reads view.statement (reading.statement room (input_of self.old))
            result (input_of self.new) }
    {
        match self.peek() {
            Some(Seen::Key(Key::Let)) => {
                self.skip();
                self.let_new(room)
            }
            Some(Seen::Name(_)) => self.assign(room),
            Some(Seen::Key(Key::Print)) => {
                self.skip();
                Ok(Stmt::Print(self.ended(room)?))
            }
            Some(Seen::Key(Key::Set)) => {
                self.skip();
                self.set_cell(room)
            }
            Some(Seen::Key(Key::Return)) => {
                self.skip();
                Ok(Stmt::Return(self.ended(room)?))
            }
            Some(Seen::Key(Key::If)) => {
                self.skip();
                self.choose(room)
            }
            Some(Seen::Key(Key::While)) => {
                self.skip();
                self.repeat(room)
            }
            _ => self.ask_statement(room),
        }
    }

    /// A conditional, behind `if`.
    #[cycle(block)]
    #[tactic(auto, unfolding(crate::specs::Inner::Reading::choose))]
    fn choose(&mut self, room: u32) -> Result<Stmt, Stop>
        ensures { Reads view.statement
            (reading.choose room (reading.block room) (input_of self.old))
            result (input_of self.new) }
    {
        let condition = self.expression(room)?;
        let body = self.block(room)?;
        let other = self.otherwise(room)?;
        Ok(Stmt::If(condition, body, other))
    }

    #[cycle(block)]
    #[tactic(auto, unfolding(crate::specs::Inner::Reading::otherwise))]
    fn otherwise(&mut self, room: u32) -> Result<Option<Block>, Stop>
        ensures { Reads (λ other. view.otherwise_of (option_map view.block other))
            (reading.otherwise (reading.block room) (input_of self.old))
            result (input_of self.new) }
    {
        match self.peek() {
            Some(Seen::Key(Key::Else)) => {
                self.skip();
                Ok(Some(self.block(room)?))
            }
            _ => Ok(None),
        }
    }

    /// A loop, behind `while`.
    #[cycle(block)]
    #[tactic(auto, unfolding(crate::specs::Inner::Reading::repeat))]
    fn repeat(&mut self, room: u32) -> Result<Stmt, Stop>
        ensures { Reads view.statement
            (reading.repeat room (reading.block room) (input_of self.old))
            result (input_of self.new) }
    {
        let condition = self.expression(room)?;
        let body = self.block(room)?;
        Ok(Stmt::While(condition, body))
    }

    /// The declaration of a variable, behind `let`. It is known from behind the semicolon on.
    #[tactic(auto, unfolding(crate::specs::Inner::Reading::let_new))]
    fn let_new(&mut self, room: u32) -> Result<Stmt, Stop>
        ensures { Reads view.statement (reading.let_new room (input_of self.old))
            result (input_of self.new) }
    {
        let name = self.fresh_variable()?;
        self.expect(Mark::Assign)?;
        let side = self.given(room)?;
        self.expect(Mark::Semi)?;
        let number = self.vars.len() as u32;
        self.add_variable(name)?;
        Ok(Stmt::Let(number, side))
    }

    #[tactic(auto, unfolding(crate::specs::Inner::Reading::assign))]
    fn assign(&mut self, room: u32) -> Result<Stmt, Stop>
        ensures { Reads view.statement (reading.assign room (input_of self.old))
            result (input_of self.new) }
    {
        let number = self.variable()?;
        self.expect(Mark::Assign)?;
        let side = self.given(room)?;
        self.expect(Mark::Semi)?;
        Ok(Stmt::Assign(number, side))
    }

    /// Behind `set`.
    #[tactic(auto, unfolding(crate::specs::Inner::Reading::set_cell))]
    fn set_cell(&mut self, room: u32) -> Result<Stmt, Stop>
        ensures { Reads view.statement (reading.set_cell room (input_of self.old))
            result (input_of self.new) }
    {
        let number = self.variable()?;
        self.expect(Mark::Assign)?;
        let value = self.expression(room)?;
        self.expect(Mark::Semi)?;
        Ok(Stmt::Set(number, value))
    }

    /// An expression and its semicolon.
    #[tactic(auto, unfolding(crate::specs::Inner::Reading::ended))]
    fn ended(&mut self, room: u32) -> Result<Expr, Stop>
        ensures { Reads view.expression (reading.ended room (input_of self.old))
            result (input_of self.new) }
    {
        let value = self.expression(room)?;
        self.expect(Mark::Semi)?;
        Ok(value)
    }

    #[tactic(auto, unfolding(crate::specs::Inner::Reading::ask_statement))]
    fn ask_statement(&mut self, room: u32) -> Result<Stmt, Stop>
        ensures { Reads view.statement (reading.ask_statement room (input_of self.old))
            result (input_of self.new) }
    {
        let call = self.ask(room)?;
        self.expect(Mark::Semi)?;
        Ok(Stmt::Do(call))
    }
}
