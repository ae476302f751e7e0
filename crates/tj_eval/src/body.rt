//! A task of a script as a body: it takes its answer, and goes on to its next ask.
ghost use Rattle.std.specs.Prelude.{◌≡◌, ◌<◌, ◌≤◌, ◌^◌, codes, length, slice_get, IfOk, IsTrue, List, Some};
ghost use Rattle.std.specs.List.{position_from};
ghost use Rattle.std.specs.Str.{bytes_eq};
ghost use Rattle.tj_body.specs.Asks as asks;
ghost use Rattle.tj_body.specs.Asks.{IsFresh};
ghost use Rattle.tj_lex.specs.declared.token.Tok.{Tok};
ghost use Rattle.tj_syntax.specs.declared.script.Decl.{Decl};
ghost use Rattle.tj_syntax.specs.Faults.{IsScript, main_of};
ghost use Rattle.tj_syntax.specs.Trees.{Task};
ghost use Rattle.tj_syntax.specs.View as view;
ghost use Rattle.tj_eval.specs.Bodies.{all_have_few_params, IsMainBody};
ghost use Rattle.tj_eval.specs.Bodies.{script_places, script_awaits, script_left};
ghost use Rattle.tj_eval.specs.Statements as state;
ghost use Rattle.tj_eval.specs.Inner.Effects.{IsNext, IsNextAsk, IsAnswered};

use crate::expression::value;
use crate::fork::task_of;
use crate::halt::Halt;
use crate::state::{Due, ScriptBody, State};
use std::alloc::Global;
use tj_base::{Oom, Pay, Trouble};
use tj_body::{Answer, Ask, Body};
use tj_syntax::{Decl, Expr, Script};

/// The most statements that a task may be let begin.
pub const MAX_STEPS: u32 = 1_000_000;

/// The body of the script's task `main`, each of whose tasks makes at most so many statements.
// It asks that some tokens are the script, and not which: a caller hands on `ok` of `parse`.
pub fn main_body<'s>(alloc: Global, script: &'s Script, steps: u32) -> Result<ScriptBody<'s>, Oom>
    requires steps { (0 < steps) × (steps ≤ MAX_STEPS) }
    requires script { (tokens : List Tok) × IsScript tokens (view.script script.now) }
    // The body is that of the script's task `main`, each of whose tasks may begin so many
    // statements.
    ensures main { IfOk result (IsMainBody (view.script script.now) steps) }
    // It has asked nothing yet and has one place.
    ensures fresh { IfOk result (IsFresh script_places script_awaits script_left 1) }
{
    let body = task_of(alloc, script, steps, main_task(script), Vec::new(alloc), 0)?;
    Ok(body)
}

/// The task `main`.
fn main_task(script: &Script) -> &Decl
    requires { (main : Task) × (main_of (view.script script.now) ≡ Some main) }
    ensures { main_of (view.script script.now) ≡ Some (view.task result.now) }
{
    task_at(script, main_number(script))
}

/// The task with this number.
pub(crate) fn task_at(script: &Script, f: usize) -> &Decl
    requires { f < length (view.script script.now) }
    ensures { slice_get (view.script script.now) f ≡ Some (view.task result.now) }
{
    &script.tasks[f]
}

/// The number of the task `main`.
pub(crate) fn main_number(script: &Script) -> usize
    requires { (main : Task) × (main_of (view.script script.now) ≡ Some main) }
    ensures index { result < length (view.script script.now) }
    ensures main { main_of (view.script script.now) ≡ slice_get (view.script script.now) result }
{
    match main_among(script.tasks.as_slice()) {
        Some(f) => f,
        None => unreachable!(),
    }
}

/// The index of the first of these that is named `main`.
fn main_among(decls: &[Decl]) -> Option<usize>
    ensures { result ≡ position_from (λ (d : Decl). bytes_eq d.name (codes "main")) 0 decls.now }
{
    decls.iter().position(is_main)
}

/// Whether the task is named `main`.
fn is_main(decl: &Decl) -> bool
    ensures { result ≡ bytes_eq decl.now.name (codes "main") }
{
    decl.name.bytes() == b"main".as_slice()
}

/// How many places the answer adds.
pub(crate) fn new_places(a: Answer) -> u32
    ensures { result ≡ asks.new_places a }
{
    match a {
        Answer::Local(_) | Answer::RefAt(_) => 1,
        Answer::Start | Answer::Done | Answer::Num(_) | Answer::Lost => 0,
    }
}

impl<'s> State<'s> {
    /// Takes the answer.
    #[inline(always)]
    pub(crate) fn settle(&mut self, a: Answer) -> Result<(), Trouble>
        ensures { IsAnswered self.old (state.answered self.old self.old.due a) result self.new }
    {
        let due = self.due;
        match due {
            Due::Place(into) | Due::Cell(into) => self.keep_answer(into, a),
            Due::CellOr(into, e) => self.keep_or_else(into, e, a)?,
            Due::Start | Due::Done | Due::Over => {}
        }
        Ok(())
    }

    /// Puts the value that is answered into the variable.
    fn keep_answer(&mut self, into: Option<u32>, a: Answer)
        ensures { self.new ≡ state.kept_if into (state.value_of a) self.old }
    {
        match a {
            Answer::Local(k) | Answer::RefAt(k) => self.keep(into, Pay::Ref(k)),
            Answer::Num(n) => self.keep(into, Pay::Num(n)),
            Answer::Start | Answer::Done | Answer::Lost => {}
        }
    }

    /// The same, or puts the value of the expression there where the cell is broken.
    fn keep_or_else(&mut self, into: Option<u32>, e: &Expr, a: Answer) -> Result<(), Trouble>
        ensures { let next = state.answered_or_else self.old into (view.expression e.now) a in
            IsAnswered self.old next result self.new }
    {
        if let Answer::Lost = a {
            let v = value(&self.vars, e)?;
            self.keep(into, v);
        } else {
            self.keep_answer(into, a);
        }
        Ok(())
    }

    /// Goes on to the next ask.
    #[inline(always)]
    fn run(&mut self, alloc: Global) -> Result<Ask<ScriptBody<'s>>, Oom>
        requires { IsTrue (all_have_few_params self.old.script) }
        ensures { IfOk result (λ ask.
            IsNextAsk (state.next_ask self.old.steps self.old) ask self.new) }
    {
        match self.next_ask(alloc) {
            Ok(ask) => Ok(ask),
            Err(Halt::Fault(fault)) => Ok(self.fail(fault)),
            Err(Halt::Memory) => Err(Oom),
        }
    }

    /// The next ask, if no statement before it fails.
    #[inline(always)]
    fn next_ask(&mut self, alloc: Global) -> Result<Ask<ScriptBody<'s>>, Halt>
        requires { IsTrue (all_have_few_params self.old.script) }
        ensures { IsNext (state.next_ask self.old.steps self.old) result self.new }
    {
        match self.go_on()? {
            Some(stmt) => self.begin(alloc, stmt),
            None => {
                self.end(alloc);
                Ok(Ask::End(Pay::Num(0)))
            }
        }
    }

    /// Takes the answer, and goes on to the next ask.
    #[inline(always)]
    fn answer(&mut self, alloc: Global, a: Answer) -> Result<Ask<ScriptBody<'s>>, Oom>
        requires few { IsTrue (all_have_few_params self.old.script) }
        requires room { self.old.places < 2 ^ 31 }
        ensures { IfOk result (λ ask. IsNextAsk (state.next self.old a) ask self.new) }
    {
        self.places += new_places(a);
        match self.settle(a) {
            Ok(()) => self.run(alloc),
            Err(fault) => Ok(self.fail(fault)),
        }
    }

    /// An equal state.
    pub(crate) fn twin(&self, alloc: Global) -> Result<State<'s>, Oom>
        ensures { IfOk result (λ twin. twin ≡ self.now) }
    {
        Ok(State {
            script: self.script,
            limit: self.limit,
            block: self.block,
            outer: self.outer,
            around: Vec::from_slice(alloc, &self.around)?,
            vars: Vec::from_slice(alloc, &self.vars)?,
            steps: self.steps,
            places: self.places,
            due: self.due,
        })
    }

    /// Fails, and keeps what its variables hold.
    pub(crate) fn fail(&mut self, fault: Trouble) -> Ask<ScriptBody<'s>>
        ensures ask { result ≡ Ask.Fail fault }
        ensures failed { self.new ≡ state.failed self.old }
    {
        self.due = Due::Over;
        Ask::Fail(fault)
    }
}

impl ScriptBody<'_> {
    /// How many places its task has: a new reference gets this number.
    pub fn places(&self) -> u32
        // A body tells how many places its task has, so that a caller knows which answers fit.
        ensures { result ≡ script_places self.now }
    {
        self.state.places
    }
}

impl<'s> Body for ScriptBody<'s> {
    ghost use Rattle.tj_eval.specs.Bodies.{script_places, script_awaits, script_left};
    ghost use Rattle.tj_eval.specs.Bodies.{script_asks, script_then};
    ghost use Rattle.tj_eval.specs.Inner.Laws.{script_obeys};

    ghost places = { script_places };

    ghost awaits = { script_awaits };

    ghost left = { script_left };

    ghost asks = { script_asks };

    ghost then = { script_then };

    fn next(&mut self, alloc: Global, a: Answer) -> Result<Ask<Self>, Oom> {
        self.state.answer(alloc, a)
    }

    fn twin(&self, alloc: Global) -> Result<Self, Oom> {
        let state = Box::new(alloc, self.state.twin(alloc)?)?;
        Ok(ScriptBody { state })
    }

    ghost obeys = { script_obeys };
}
