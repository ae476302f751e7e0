//! The numbers of the statements that remain, and the one at which a task stands.
ghost use Rattle.std.specs.Prelude.{◌≡◌, ◌+◌, ◌<◌, ◌≤◌, ◌∷◌, ◌++◌, [], ℕ, List, MatchOption, IfOk, OnOk, length};
ghost use Rattle.std.specs.Prelude.{slice_get, Some};
ghost use Rattle.tj_syntax.specs.Trees.{Statement};
ghost use Rattle.tj_eval.specs.declared.sizes.Size.{Size};
ghost use Rattle.tj_syntax.specs.View as view;
ghost use Rattle.tj_eval.specs.Stands as stand;
ghost use Rattle.tj_eval.specs.Inner.Standing.{HasNext, IsBlockAt, IsNumbered, ahead_of, around_numbers, block_numbers};
ghost use Rattle.tj_eval.specs.Inner.Standing.{first_numbers, run_numbers, stands, whole_at};

use crate::expression::number;
use crate::sizes::Size;
use crate::state::State;
use std::alloc::Global;
use tj_base::Oom;
use tj_syntax::{Block, Call, Rhs, Stmt};

/// What remains of an open block: the number of its next statement, and how many come behind that one.
#[derive(Clone, Copy)]
pub(crate) struct Run {
    pub(crate) next: usize,
    pub(crate) more: usize,
}

/// What remains of the open blocks, and where the task stands.
#[derive(Drop)]
pub(crate) struct Numbers {
    pub(crate) block: Option<Run>,
    /// The same of the blocks around it.
    pub(crate) around: Vec<Run>,
    /// The number of the statement that has begun last.
    pub(crate) at: usize,
    /// The declaration that this statement forks.
    pub(crate) called: u32,
}

/// The declaration that the ask forks.
fn callee(call: &Call) -> u32
    ensures { result ≡ stand.callee (view.ask call.now) }
{
    match call {
        Call::Fork(f, _) => *f,
        Call::New | Call::Get(_, _) | Call::Join(_, _) => 0,
    }
}

/// The size of the statement with this number.
fn size_at(own: &[Size], n: usize) -> Size
    requires { (s : Statement) × IsNumbered own.now n s }
    ensures size { slice_get own.now n ≡ Some result }
    ensures room { n + result.whole ≤ length own.now }
    ensures first { result.first < result.whole }
{
    own[n]
}

/// What remains of a run behind its first number.
fn behind(own: &[Size], run: Run) -> Option<Run>
    requires { run.next + whole_at own.now run.next ≤ length own.now }
    ensures { run_numbers own.now run.next run.more ≡ run.next ∷ block_numbers own.now result }
{
    if run.more == 0 {
        return None;
    }
    let whole = match own.get(run.next) {
        Some(size) => size.whole,
        None => 0,
    };
    Some(Run {
        next: run.next + whole,
        more: run.more - 1,
    })
}

impl Numbers {
    /// The numbers of a block of so many statements, of which none has begun.
    pub(crate) fn of_block(alloc: Global, count: usize) -> Numbers
        ensures { (own : List Size) (decl : ℕ) → stands own decl result ≡ record {
          decl = decl;
          ahead = first_numbers own 0 count ++ length own ∷ [];
          at = 0;
          called = 0;
        } }
    {
        let block = match count.checked_sub(1) {
            Some(more) => Some(Run { next: 0, more }),
            None => None,
        };
        Numbers {
            block,
            around: Vec::new(alloc),
            at: 0,
            called: 0,
        }
    }

    /// Equal numbers.
    pub(crate) fn twin(&self, alloc: Global) -> Result<Numbers, Oom>
        ensures { IfOk result (λ twin. (own : List Size) (decl : ℕ) → stands own decl twin
            ≡ stands own decl self.now) }
    {
        Ok(Numbers {
            block: self.block,
            around: Vec::from_slice(alloc, &self.around)?,
            at: self.at,
            called: self.called,
        })
    }

    /// Takes the run that comes first, if there is one.
    fn first(&mut self) -> Option<Run>
        ensures run { MatchOption result
            ((own : List Size) → ahead_of own self.old ≡ length own ∷ [])
            (λ run. (own : List Size) → ahead_of own self.old
            ≡ run_numbers own run.next run.more ++ around_numbers own self.new.around.items) }
        ensures at { self.new.at ≡ self.old.at }
        ensures called { self.new.called ≡ self.old.called }
    {
        match self.block {
            Some(run) => Some(run),
            None => {
                let run = self.around.pop()?;
                Some(run)
            }
        }
    }

    /// Stands at the next statement.
    pub(crate) fn step(&mut self, own: &[Size])
        requires { HasNext own.now (ahead_of own.now self.old) }
        ensures { (decl : ℕ) → let old = stands own.now decl self.old in
            stands own.now decl self.new ≡ stand.stand_on old.ahead old }
    {
        if let Some(run) = self.first() {
            self.at = run.next;
            self.called = 0;
            self.block = behind(own, run);
        }
    }

    /// Stands at the closing brace.
    pub(crate) fn close(&mut self, own: &[Size])
        requires { ahead_of own.now self.old ≡ length own.now ∷ [] }
        ensures { (decl : ℕ) → let old = stands own.now decl self.old in
            stands own.now decl self.new ≡ stand.stand_over old.ahead old }
    {
        self.at = own.len();
        self.called = 0;
    }

    /// Lets the statements of a block come first, of which the first has number n.
    fn open(&mut self, own: &[Size], n: usize, body: &Block) -> Result<(), Oom>
        requires { IsBlockAt own.now n (view.block body.now) }
        ensures { OnOk result ((decl : ℕ) → stands own.now decl self.new
            ≡ stand.opened (stand.numbers n (view.block body.now)) (stands own.now decl self.old)) }
    {
        self.open_run(n, body.stmts.len())
    }

    /// Lets so many statements come first, of which the first has number n.
    fn open_run(&mut self, n: usize, count: usize) -> Result<(), Oom>
        ensures { OnOk result ((own : List Size) (decl : ℕ) → stands own decl self.new
            ≡ stand.opened (first_numbers own n count) (stands own decl self.old)) }
    {
        if count == 0 {
            return Ok(());
        }
        let outer = self.block;
        self.block = Some(Run {
            next: n,
            more: count - 1,
        });
        match outer {
            Some(run) => {
                self.around.push(run)?;
                Ok(())
            }
            None => Ok(()),
        }
    }

    /// Stands where the statement has begun, at which it stands.
    pub(crate) fn begin(&mut self, own: &[Size], t: &State<'_>, stmt: &Stmt) -> Result<(), Oom>
        requires { IsNumbered own.now self.old.at (view.statement stmt.now) }
        ensures { OnOk result ((decl : ℕ) → stands own.now decl self.new
            ≡ stand.stand_begun t.now (view.statement stmt.now) (stands own.now decl self.old)) }
    {
        match stmt {
            Stmt::Let(_, Rhs::Call(call)) | Stmt::Assign(_, Rhs::Call(call)) | Stmt::Do(call) => {
                self.called = callee(call);
                Ok(())
            }
            Stmt::Let(_, Rhs::Expr(_)) | Stmt::Assign(_, Rhs::Expr(_)) => {
                self.called = 0;
                Ok(())
            }
            Stmt::If(e, body, other) => match number(&t.vars, e) {
                Ok(0) => match other {
                    Some(other) => {
                        let first = self.at + 1 + size_at(own, self.at).first;
                        self.open(own, first, other)
                    }
                    None => Ok(()),
                },
                Ok(_) => self.open(own, self.at + 1, body),
                Err(_) => Ok(()),
            },
            Stmt::While(e, body) => match number(&t.vars, e) {
                Ok(0) => Ok(()),
                Ok(_) => {
                    let first = self.at + 1;
                    self.open_run(self.at, 1)?;
                    self.open(own, first, body)
                }
                Err(_) => Ok(()),
            },
            Stmt::Print(_) | Stmt::Set(_, _) | Stmt::Return(_) => Ok(()),
        }
    }
}
