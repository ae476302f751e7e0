//! Statements of a task: those that ask nothing are carried out one after another, up to one that asks.
ghost use Rattle.std.specs.Prelude.{◌≡◌, ◌≤◌, map, IsTrue};
ghost use Rattle.tj_eval.specs.Bodies.{all_have_few_params};
ghost use Rattle.tj_syntax.specs.View as view;
ghost use Rattle.tj_eval.specs.Statements as state;
ghost use Rattle.tj_eval.specs.Inner.Effects.{IsAskOf, IsGiven, ComesToAsk, IsStep, is_ask};

use crate::expression::{held, number, reference_in, value, whole};
use crate::halt::Halt;
use crate::quick::quick;
use crate::state::{Due, ScriptBody, State};
use std::alloc::Global;
use std::slice;
use tj_base::{Pay, Trouble};
use tj_body::Ask;
use tj_syntax::{Block, Expr, Rhs, Stmt};

/// The statements of the block.
#[tactic(auto, using(crate::proofs::Views::listed_block))]
#[inline(always)]
fn statements(body: &Block) -> &[Stmt]
    ensures { map view.statement result.now ≡ state.listed (view.block body.now) }
{
    &body.stmts
}

impl<'s> State<'s> {
    /// Goes on to the next statement that asks, if one is left, which has then begun. Those before
    /// it hand nothing on that is as large as an ask.
    #[inline(always)]
    pub(crate) fn go_on(&mut self) -> Result<Option<&'s Stmt>, Halt>
        ensures { ComesToAsk (λ stmt. view.statement stmt.now) self.old result self.new }
    {
        while let Some(stmt) = self.take() {
            if self.steps == 0 {
                return Err(Halt::Fault(Trouble::Steps));
            }
            self.steps -= 1;
            if !self.passes(stmt)? {
                return Ok(Some(stmt));
            }
            self.turn();
        }
        Ok(None)
    }

    /// Where the body of a loop has ended and the loop's condition holds, begins the loop anew. The
    /// loop stays where it lies.
    #[inline(always)]
    fn turn(&mut self)
        ensures ask { state.next_ask self.new.steps self.new
            ≡ state.next_ask self.old.steps self.old }
        ensures steps { self.new.steps ≤ self.old.steps }
        ensures script { self.new.script ≡ self.old.script }
    {
        if !self.block.is_empty() || self.steps == 0 {
            return;
        }
        if let Some((Stmt::While(e, body), _)) = self.outer.split_first() {
            if let Some(n) = quick(&self.vars, e) {
                if n != 0 {
                    self.steps -= 1;
                    self.block = statements(body);
                }
            }
        }
    }

    /// Gives the variable the value of the expression.
    #[inline(always)]
    fn give(&mut self, x: u32, e: &Expr) -> Result<(), Trouble>
        ensures { IsGiven self.old x (view.expression e.now) result self.new }
    {
        if let Expr::Var(y) = e {
            let v = held(&self.vars, *y);
            self.keep(Some(x), v);
            return Ok(());
        }
        match quick(&self.vars, e) {
            Some(n) => {
                self.keep(Some(x), Pay::Num(n));
                Ok(())
            }
            None => self.give_whole(x, e),
        }
    }

    /// The same, where it may be a reference or a fault.
    #[inline(never)]
    fn give_whole(&mut self, x: u32, e: &Expr) -> Result<(), Trouble>
        ensures { IsGiven self.old x (view.expression e.now) result self.new }
    {
        let v = whole(&self.vars, e)?;
        self.keep(Some(x), v);
        Ok(())
    }

    /// Carries a statement out that asks nothing. False: it asks, and isn't carried out.
    pub(crate) fn passes(&mut self, stmt: &'s Stmt) -> Result<bool, Halt>
        ensures { IsStep self.old (view.statement stmt.now) result self.new }
    {
        match stmt {
            Stmt::Let(x, Rhs::Expr(e)) | Stmt::Assign(x, Rhs::Expr(e)) => {
                self.give(*x, e)?;
                Ok(true)
            }
            Stmt::If(e, body, other) => {
                if number(&self.vars, e)? != 0 {
                    self.open_block(body)?;
                } else if let Some(other) = other {
                    self.open_block(other)?;
                }
                Ok(true)
            }
            Stmt::While(e, body) => {
                if number(&self.vars, e)? != 0 {
                    self.open(slice::from_ref(stmt))?;
                    self.open_block(body)?;
                }
                Ok(true)
            }
            _ => Ok(false),
        }
    }

    /// The ask of a statement that asks.
    #[inline(always)]
    pub(crate) fn begin(
        &mut self,
        alloc: Global,
        stmt: &'s Stmt,
    ) -> Result<Ask<ScriptBody<'s>>, Halt>
        requires few { IsTrue (all_have_few_params self.old.script) }
        requires asks { IsTrue (is_ask (view.statement stmt.now)) }
        ensures { let ask = state.begun self.old (view.statement stmt.now) in
            IsAskOf self.old ask result self.new }
    {
        match stmt {
            Stmt::Let(x, Rhs::Call(call)) | Stmt::Assign(x, Rhs::Call(call)) => {
                self.ask(alloc, Some(*x), call)
            }
            Stmt::Do(call) => self.ask(alloc, None, call),
            Stmt::Print(e) => {
                let n = number(&self.vars, e)?;
                self.due = Due::Done;
                Ok(Ask::Emit(n))
            }
            Stmt::Set(x, e) => {
                let p = reference_in(held(&self.vars, *x))?;
                let v = value(&self.vars, e)?;
                self.due = Due::Done;
                Ok(Ask::Set { p, v })
            }
            Stmt::Return(e) => {
                let v = value(&self.vars, e)?;
                self.end(alloc);
                Ok(Ask::End(v))
            }
            _ => unreachable!(),
        }
    }
}
