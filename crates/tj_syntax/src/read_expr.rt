//! Reading expressions, by the levels at which their operators bind.
ghost use Rattle.std.specs.Prelude.{◌≡◌, ◌+◌, ◌*◌, ◌<◌, IfOk, IfSome, map, length};
ghost use Rattle.std.specs.Option.{option_map};
ghost use Rattle.tj_lex.specs.Shorts.{tok_seen};
ghost use Rattle.tj_syntax.specs.Inner.State.{bare, input_of};
ghost use Rattle.tj_syntax.specs.View.{expression, pair};
ghost use Rattle.tj_syntax.specs.Inner.Input as spec;
ghost use Rattle.tj_syntax.specs.Inner.Input.{Reads};
ghost use Rattle.tj_syntax.specs.Inner.Reading as reading;
ghost use Rattle.tj_syntax.specs.Grammar.{chain_of};
ghost use Rattle.tj_syntax.specs.View.{pairs_of};
ghost use Rattle.tj_syntax.specs.Trees as tree;

use crate::expr::{Expr, Op, Rel};
use crate::fault::Stop;
use crate::parser::Parser;
use std::alloc::{AllocError, Global};
use tj_lex::{Key, Kind, Mark, Seen, Short};

/// The levels of chains: sums have products as operands, and products unaries.
#[derive(Clone, Copy)]
pub(crate) enum Level {
    Sums,
    Products,
}

/// The operator of a level that a token is.
fn operator(level: Level, token: Option<Seen<'_>>) -> Option<Op>
    ensures { result ≡ reading.operator level (option_map tok_seen token.entry) }
{
    match (level, token) {
        (Level::Sums, Some(Seen::Mark(Mark::Plus))) => Some(Op::Plus),
        (Level::Sums, Some(Seen::Mark(Mark::Minus))) => Some(Op::Minus),
        (Level::Products, Some(Seen::Mark(Mark::Times))) => Some(Op::Times),
        (Level::Products, Some(Seen::Mark(Mark::Over))) => Some(Op::Over),
        (Level::Products, Some(Seen::Mark(Mark::Rest))) => Some(Op::Rest),
        _ => None,
    }
}

/// The comparison that a token is.
fn relation(token: Option<Seen<'_>>) -> Option<Rel>
    ensures { result ≡ reading.relation (option_map tok_seen token.entry) }
{
    match token {
        Some(Seen::Mark(Mark::Eq)) => Some(Rel::Eq),
        Some(Seen::Mark(Mark::Ne)) => Some(Rel::Ne),
        Some(Seen::Mark(Mark::Lt)) => Some(Rel::Lt),
        Some(Seen::Mark(Mark::Le)) => Some(Rel::Le),
        Some(Seen::Mark(Mark::Gt)) => Some(Rel::Gt),
        Some(Seen::Mark(Mark::Ge)) => Some(Rel::Ge),
        _ => None,
    }
}

/// Whether the token is an operand by itself.
#[inline(always)]
fn is_leaf(token: Short) -> bool
    ensures { result ≡ reading.is_leaf (bare token) }
{
    match token.what {
        Kind::Num | Kind::Name | Kind::Key(Key::Me) => true,
        _ => false,
    }
}

/// Whether an expression ends in front of the token.
#[inline(always)]
fn ends_expression(token: Short) -> bool
    ensures { result ≡ reading.ends_expression (bare token) }
{
    match token.what {
        Kind::Mark(Mark::Semi | Mark::Comma | Mark::ParenClose | Mark::BraceOpen) => true,
        _ => false,
    }
}

fn negation(alloc: Global, x: Expr) -> Result<Expr, AllocError>
    ensures { IfOk result (λ e. expression e ≡ tree.negation (expression x)) }
{
    Ok(Expr::Neg(Box::new(alloc, x)?))
}

fn comparison(alloc: Global, rel: Rel, x: Expr, y: Expr) -> Result<Expr, AllocError>
    ensures { IfOk result (λ e. expression e
        ≡ tree.comparison rel (expression x) (expression y)) }
{
    Ok(Expr::Cmp(rel, Box::new(alloc, x)?, Box::new(alloc, y)?))
}

/// An operand with the pairs behind it.
#[tactic(auto, using(crate::proofs::Views::used_views))]
fn chained(alloc: Global, x: Expr, pairs: Vec<(Op, Expr)>) -> Result<Expr, AllocError>
    ensures { IfOk result (λ e. expression e
        ≡ chain_of (expression x) (pairs_of (map pair pairs.items))) }
{
    if pairs.is_empty() {
        return Ok(x);
    }
    Ok(Expr::Chain(Box::new(alloc, x)?, pairs))
}

impl<'t> Parser<'t> {
    /// Whether the next token is an expression by itself.
    #[inline(always)]
    fn stands_alone(&self) -> bool
        ensures { result ≡ reading.stands_alone (input_of self.now).ahead }
    {
        match self.ahead.rest {
            [operand, behind, ..] => is_leaf(*operand) && ends_expression(*behind),
            _ => false,
        }
    }

    /// A sum, or two sums with a comparison between them. Most are one token, which is read at once.
    #[cycle(expression)]
    #[tactic(auto, unfolding(crate::specs::Inner::Reading::expression_over))]
    pub(crate) fn expression(&mut self, room: u32) -> Result<Expr, Stop>
        ensures { Reads expression (reading.expression room (input_of self.old))
            result (input_of self.new) }
    {
        if self.stands_alone() {
            return self.unary(room);
        }
        let x = self.chain(Level::Sums, room)?;
        match relation(self.peek()) {
            Some(rel) => {
                self.skip();
                let y = self.chain(Level::Sums, room)?;
                Ok(comparison(self.alloc, rel, x, y)?)
            }
            None => Ok(x),
        }
    }

    /// Operands with operators of a level between them.
    #[cycle(expression)]
    #[tactic(auto, unfolding(crate::specs::Inner::Reading::chain))]
    fn chain(&mut self, level: Level, room: u32) -> Result<Expr, Stop>
        ensures { Reads expression
            (reading.chain (reading.operand room level) level (input_of self.old))
            result (input_of self.new) }
    {
        let x = self.operand(level, room)?;
        let pairs = self.pairs(level, room)?;
        Ok(chained(self.alloc, x, pairs)?)
    }

    /// The operators of a level that come next, each with its operand.
    #[cycle(expression)]
    fn pairs(&mut self, level: Level, room: u32) -> Result<Vec<(Op, Expr)>, Stop>
        ensures { Reads (λ found. map pair found.items)
            (reading.pairs (reading.operand room level) level (input_of self.old))
            result (input_of self.new) }
    {
        let mut found = Vec::new(self.alloc);
        for _repeat in 0..self.left() {
            let Some(op) = operator(level, self.peek()) else {
                return Ok(found);
            };
            self.skip();
            let y = self.operand(level, room)?;
            found.push((op, y))?;
        }
        Ok(found)
    }

    #[cycle(expression)]
    fn operand(&mut self, level: Level, room: u32) -> Result<Expr, Stop>
        ensures { Reads expression (reading.operand room level (input_of self.old))
            result (input_of self.new) }
    {
        match level {
            Level::Sums => self.chain(Level::Products, room),
            Level::Products => self.unary(room),
        }
    }

    /// A sign before a unary, a number, a name, `me`, or an expression in parentheses.
    #[cycle(expression)]
    fn unary(&mut self, room: u32) -> Result<Expr, Stop>
        ensures { Reads expression (reading.unary room (input_of self.old))
            result (input_of self.new) }
    {
        match self.peek() {
            Some(Seen::Num(n)) => {
                self.skip();
                Ok(Expr::Num(n))
            }
            Some(Seen::Name(name)) => Ok(Expr::Var(self.known(name)?)),
            Some(Seen::Key(Key::Me)) => {
                self.skip();
                Ok(Expr::Me)
            }
            Some(Seen::Mark(Mark::Minus)) => {
                self.open(room)?;
                let x = self.unary(room - 1)?;
                Ok(negation(self.alloc, x)?)
            }
            Some(Seen::Mark(Mark::ParenOpen)) => {
                self.open(room)?;
                let x = self.expression(room - 1)?;
                self.expect(Mark::ParenClose)?;
                Ok(x)
            }
            _ => Err(self.refuse()),
        }
    }
}
