//! A task of a script between two of its asks. It keeps positions in blocks: for each block that is
//! open, the statements of it that remain.
ghost use Rattle.std.specs.Prelude.{◌≡◌, [], ◌∷◌, ◌++◌, if◌then◌else◌, is_ok, OnOk, MatchOption, map};
ghost use Rattle.tj_syntax.specs.View.{block, statement};
ghost use Rattle.tj_eval.specs.Statements as state;

use std::alloc::Global;
use std::marker::Model;
use tj_base::{Oom, Pay};
use tj_syntax::{Block, Expr, Script, Stmt};

/// What a task awaits, with the variable that its value is for.
#[derive(Clone, Copy)]
pub(crate) enum Due<'s> {
    Start,
    Place(Option<u32>),
    Cell(Option<u32>),
    CellOr(Option<u32>, &'s Expr),
    Done,
    Over,
}

/// A body that runs one task of a script. It is handed on often, so what the task is lies in a box.
#[derive(Drop)]
pub struct ScriptBody<'s> {
    pub(crate) state: Box<State<'s>>,
}

impl<'s> Model for ScriptBody<'s> {
    ghost use Rattle.tj_eval.specs.Statements.{TaskState};

    ghost Value = { TaskState };

    ghost use Rattle.std.specs.Coded.{codes};
    ghost use Rattle.tj_eval.specs.Inner.Codes.{expression_code, statement_code, statements_code};

    ghost coded = { Prim.hlevel (codes, expression_code, statement_code, statements_code) };

    ghost view = { λ b. b.state.value };
}

/// A task of a script between two of its asks.
#[derive(Drop)]
pub(crate) struct State<'s> {
    pub(crate) script: &'s Script,
    pub(crate) limit: u32,
    /// What remains of the innermost open block.
    pub(crate) block: &'s [Stmt],
    /// The same of the block around it, which takes no list where it lies here.
    pub(crate) outer: &'s [Stmt],
    /// The same of each block around these. Each has some.
    pub(crate) around: Vec<&'s [Stmt]>,
    pub(crate) vars: Vec<Pay>,
    pub(crate) steps: u32,
    pub(crate) places: u32,
    pub(crate) due: Due<'s>,
}

impl<'s> Model for State<'s> {
    ghost use Rattle.std.specs.Prelude.{map, ◌<◌, ◌++◌, length};
    ghost use Rattle.std.specs.List.{AllByRecursion};
    ghost use Rattle.tj_eval.specs.Statements.{TaskState};
    ghost use Rattle.tj_eval.specs.Bodies.{rest_of};

    ghost Value = { TaskState };

    ghost use Rattle.std.specs.Coded.{codes};
    ghost use Rattle.tj_eval.specs.Inner.Codes.{expression_code, statement_code, statements_code};

    ghost coded = { Prim.hlevel (codes, expression_code, statement_code, statements_code) };

    ghost use Rattle.tj_syntax.specs.View as shown;
    ghost use Rattle.tj_eval.specs.Inner.View.{due_of};

    ghost view = { λ b. record {
      script = shown.script b.script.now;
      limit = b.limit;
      rest = map shown.statement b.block.now ++ (map shown.statement b.outer.now
          ++ rest_of (map (λ block. map shown.statement block.now) b.around.items));
      vars = b.vars.items;
      steps = b.steps;
      places = b.places;
      due = due_of b.due;
    } };

    ghost invariant = { λ b. AllByRecursion (λ block. 0 < length block.now) b.around.items };
}

/// Adds the block. Where there is room for it, that is a few steps and no call.
#[inline(always)]
fn push<'s>(blocks: &mut Vec<&'s [Stmt]>, block: &'s [Stmt]) -> Result<(), Oom>
    ensures { blocks.new.items
        ≡ (if is_ok result then blocks.old.items ++ block.entry ∷ [] else blocks.old.items) }
{
    if blocks.len() < blocks.capacity() {
        blocks.push_reserved(block);
    } else {
        blocks.push(block)?;
    }
    Ok(())
}

impl<'s> State<'s> {
    /// Takes the next of the remaining statements, if there is one.
    #[inline(always)]
    pub(crate) fn take(&mut self) -> Option<&'s Stmt>
        ensures { MatchOption result ((self.old.rest ≡ []) × (self.new ≡ self.old))
            (λ stmt. (self.old.rest ≡ statement stmt.now ∷ self.new.rest)
            × (self.new ≡ record self.old { rest = self.new.rest })) }
    {
        if let Some((stmt, rest)) = self.block.split_first() {
            self.block = rest;
            return Some(stmt);
        }
        if let Some((stmt, rest)) = self.outer.split_first() {
            self.block = rest;
            self.outer = &[];
            return Some(stmt);
        }
        let (stmt, rest) = self.around.pop()?.split_first()?;
        self.block = rest;
        Some(stmt)
    }

    /// Lets these statements come first. A block goes onto the list only where another one lies in
    /// front of it, so a task that opens one block at a time makes no list.
    #[inline(always)]
    pub(crate) fn open(&mut self, list: &'s [Stmt]) -> Result<(), Oom>
        ensures { OnOk result (self.new ≡ state.first (map statement list.now) self.old) }
    {
        let block = self.block;
        self.block = list;
        if block.is_empty() {
            return Ok(());
        }
        let outer = self.outer;
        self.outer = block;
        if outer.is_empty() {
            return Ok(());
        }
        push(&mut self.around, outer)?;
        Ok(())
    }

    /// Lets the statements of the block come first.
    #[tactic(auto, using(crate::proofs::Views::listed_block))]
    #[inline(always)]
    pub(crate) fn open_block(&mut self, body: &'s Block) -> Result<(), Oom>
        ensures { OnOk result (self.new ≡ state.first (state.listed (block body.now)) self.old) }
    {
        self.open(&body.stmts)
    }

    /// Puts the value into the variable, if there is one for it.
    #[inline(always)]
    pub(crate) fn keep(&mut self, into: Option<u32>, v: Pay)
        ensures { self.new ≡ state.kept into v self.old }
    {
        let Some(x) = into else {
            return;
        };
        if (x as usize) < self.vars.len() {
            self.vars[x as usize] = v;
        }
    }

    /// Lets the task await nothing any more. Its variables are given back, so that the next task
    /// takes their memory; what else it holds stays until the body is dropped.
    pub(crate) fn end(&mut self, alloc: Global)
        ensures { self.new ≡ state.ended self.old }
    {
        self.due = Due::Over;
        self.vars = Vec::new(alloc);
    }
}
