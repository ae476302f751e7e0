//! A task of a script that knows where it stands: it numbers the statements that remain.
ghost use Rattle.std.specs.Prelude.{◌≡◌, ◌+◌, ◌-◌, ◌<◌, ◌≤◌, ◌^◌, [], ◌∷◌, ℕ, List, IsTrue, IfOk, IfSome, OnOk, MatchOption};
ghost use Rattle.std.specs.Prelude.{length, nat_eq, slice_get, Some, None};
ghost use Rattle.tj_body.specs.Asks.{IsFresh};
ghost use Rattle.tj_body.specs.SeenAs.{ask_as};
ghost use Rattle.tj_body.specs.declared.ask.Answer.{Answer};
ghost use Rattle.tj_lex.specs.declared.token.Tok.{Tok};
ghost use Rattle.tj_syntax.specs.Faults.{IsScript};
ghost use Rattle.tj_syntax.specs.View as view;
ghost use Rattle.tj_syntax.specs.Trees.{Task};
ghost use Rattle.tj_eval.specs.Bodies.{all_have_few_params};
ghost use Rattle.tj_eval.specs.Sizes.{sizes_of};
ghost use Rattle.tj_eval.specs.Statements as state;
ghost use Rattle.tj_eval.specs.Stands as stand;
ghost use Rattle.tj_eval.specs.Stands.{IsPlacedMain, StandsRight, placed_places, placed_awaits, placed_left};
ghost use Rattle.tj_eval.specs.Inner.Effects.{ComesToAsk, IsStep, IsNext, IsNextAsk, IsSaid};
ghost use Rattle.tj_eval.specs.Inner.Standing.{ForksIn, IsChildIn, IsHome, IsNumbered, IsReady, shown};

use crate::body::{MAX_STEPS, main_body, main_number, new_places, task_at};
use crate::halt::Halt;
use crate::numbers::Numbers;
use crate::sizes::{Size, Sizes};
use crate::state::{Due, ScriptBody, State};
use std::alloc::Global;
use std::marker::Model;
use tj_base::{Oom, Pay, Trouble};
use tj_body::{Answer, Ask, Body};
use tj_syntax::{Decl, Script, Stmt};

/// A body that runs one task of a script, and knows where it stands.
// Out of memory it becomes one that has ended, so its numbers always are those of what remains.
#[derive(Drop)]
pub struct PlacedBody<'s> {
    pub(crate) inner: Standing<'s>,
}

/// The declaration that a task runs, with its script and their sizes.
#[derive(Clone, Copy)]
pub(crate) struct Home<'s> {
    pub(crate) script: &'s Script,
    pub(crate) sizes: &'s Sizes,
    pub(crate) decl: usize,
    pub(crate) own: &'s [Size],
}

/// A task between two of its asks, with the numbers of what remains.
#[derive(Drop)]
pub(crate) struct Standing<'s> {
    pub(crate) home: Home<'s>,
    pub(crate) body: State<'s>,
    pub(crate) numbers: Numbers,
}

impl<'s> Model for PlacedBody<'s> {
    ghost use Rattle.tj_eval.specs.Stands.{PlacedState};
    ghost use Rattle.tj_eval.specs.Inner.Standing.{IsReady, shown};

    ghost Value = { PlacedState };

    ghost use Rattle.std.specs.Coded.{codes};
    ghost use Rattle.tj_eval.specs.Inner.Codes.{expression_code, statement_code, statements_code};

    ghost coded = { Prim.hlevel (codes, expression_code, statement_code, statements_code) };

    ghost view = { λ b. shown b.inner };

    ghost invariant = { λ b. IsReady b.inner };
}

impl<'s> Standing<'s> {
    /// Takes the next of the remaining statements, if there is one, and stands there or at the closing brace.
    fn take(&mut self) -> Option<&'s Stmt>
        requires ready { IsReady self.old }
        ensures taken { MatchOption result ((self.old.body.rest ≡ []) × (shown self.new
            ≡ record (shown self.old) {
              stand = stand.stand_over (shown self.old).stand.ahead (shown self.old).stand;
            }))
            (λ stmt. (self.old.body.rest ≡ view.statement stmt.now ∷ self.new.body.rest)
            × (shown self.new ≡ record {
              task = record self.old.body { rest = self.new.body.rest };
              stand = stand.stand_on (shown self.old).stand.ahead (shown self.old).stand;
            })) }
        ensures home { self.new.home ≡ self.old.home }
    {
        let Some(stmt) = self.body.take() else {
            self.numbers.close(self.home.own);
            return None;
        };
        self.numbers.step(self.home.own);
        Some(stmt)
    }

    /// Whether no statement may begin any more.
    fn is_spent(&self) -> bool
        ensures { result ≡ nat_eq self.now.body.steps 0 }
    {
        self.body.steps == 0
    }

    /// Begins the statement at which it stands. False: it asks, and isn't carried out.
    fn begin(&mut self, stmt: &'s Stmt) -> Result<bool, Halt>
        requires steps { 0 < self.old.body.steps }
        requires numbered { let at = self.old.numbers.at in
            IsNumbered self.old.home.own.now at (view.statement stmt.now) }
        ensures task { let on = record self.old.body { steps = self.old.body.steps - 1 } in
            IsStep on (view.statement stmt.now) result self.new.body }
        ensures stand { let on = record self.old.body { steps = self.old.body.steps - 1 } in
            IsSaid result ((shown self.new).stand
            ≡ stand.stand_begun on (view.statement stmt.now) (shown self.old).stand) }
        ensures home { self.new.home ≡ self.old.home }
    {
        self.body.steps -= 1;
        self.numbers.begin(self.home.own, &self.body, stmt)?;
        self.body.passes(stmt)
    }

    /// Goes on to the next statement that asks, if one is left, at which it then stands.
    fn go_on(&mut self) -> Result<Option<&'s Stmt>, Halt>
        requires ready { IsReady self.old }
        ensures comes { ComesToAsk (λ stmt. view.statement stmt.now)
            self.old.body result self.new.body }
        ensures stand { IsSaid result ((shown self.new).stand
            ≡ stand.stand_ask self.old.body.steps self.old.body (shown self.old).stand) }
        ensures home { self.new.home ≡ self.old.home }
    {
        while let Some(stmt) = self.take() {
            if self.is_spent() {
                return Err(Halt::Fault(Trouble::Steps));
            }
            if !self.begin(stmt)? {
                return Ok(Some(stmt));
            }
        }
        Ok(None)
    }

    /// The next ask, if no statement before it fails.
    fn next_ask(&mut self, alloc: Global) -> Result<Ask<ScriptBody<'s>>, Halt>
        requires few { IsTrue (all_have_few_params self.old.body.script) }
        requires ready { IsReady self.old }
        ensures task { let old = self.old.body in
            IsNext (state.next_ask old.steps old) result self.new.body }
        ensures stand { IsSaid result ((shown self.new).stand
            ≡ stand.stand_ask self.old.body.steps self.old.body (shown self.old).stand) }
        ensures home { self.new.home ≡ self.old.home }
    {
        match self.go_on()? {
            Some(stmt) => self.body.begin(alloc, stmt),
            None => {
                self.body.end(alloc);
                Ok(Ask::End(Pay::Num(0)))
            }
        }
    }

    /// Goes on to the next ask.
    fn run(&mut self, alloc: Global) -> Result<Ask<ScriptBody<'s>>, Oom>
        requires few { IsTrue (all_have_few_params self.old.body.script) }
        requires ready { IsReady self.old }
        ensures task { IfOk result (λ ask.
            IsNextAsk (state.next_ask self.old.body.steps self.old.body) ask self.new.body) }
        ensures stand { OnOk result ((shown self.new).stand
            ≡ stand.stand_ask self.old.body.steps self.old.body (shown self.old).stand) }
        ensures home { self.new.home ≡ self.old.home }
    {
        match self.next_ask(alloc) {
            Ok(ask) => Ok(ask),
            Err(Halt::Fault(fault)) => Ok(self.body.fail(fault)),
            Err(Halt::Memory) => Err(Oom),
        }
    }

    /// Takes the answer, and goes on.
    fn answer(&mut self, alloc: Global, a: Answer) -> Result<Ask<ScriptBody<'s>>, Oom>
        requires few { IsTrue (all_have_few_params self.old.body.script) }
        requires room { self.old.body.places < 2 ^ 31 }
        requires ready { IsReady self.old }
        ensures task { IfOk result (λ ask.
            IsNextAsk (state.next self.old.body a) ask self.new.body) }
        ensures stand { OnOk result ((shown self.new).stand
            ≡ stand.stand_next self.old.body a (shown self.old).stand) }
        ensures home { self.new.home ≡ self.old.home }
    {
        self.body.places += new_places(a);
        match self.body.settle(a) {
            Ok(()) => self.run(alloc),
            Err(fault) => Ok(self.body.fail(fault)),
        }
    }
}

/// The declaration with this number.
fn home_of<'s>(script: &'s Script, sizes: &'s Sizes, f: usize) -> Home<'s>
    requires declared { f < length (view.script script.now) }
    requires sizes { sizes.now ≡ sizes_of (view.script script.now) }
    ensures home { (task : Task) → slice_get (view.script script.now) f ≡ Some task
        → IsHome result task }
    ensures script { result.script ≡ script.entry }
    ensures decl { result.decl ≡ f }
{
    Home {
        script,
        sizes,
        decl: f,
        own: sizes.of_task(f),
    }
}

/// A task at its beginning, which knows that it stands at the beginning of this declaration.
fn placed<'s>(alloc: Global, home: Home<'s>, f: usize, body: ScriptBody<'s>) -> PlacedBody<'s>
    requires home { (task : Task) × IsHome home task }
    requires child { IsChildIn home f body }
    ensures { result ≡ stand.placed f body.entry }
{
    let count = task_at(home.script, f).body.stmts.len();
    let home = home_of(home.script, home.sizes, f);
    PlacedBody {
        inner: Standing {
            home,
            body: Box::into_inner(body.state),
            numbers: Numbers::of_block(alloc, count),
        },
    }
}

/// A task that has ended for want of memory.
fn given_up<'s>(alloc: Global, home: Home<'s>) -> Standing<'s>
    requires { (task : Task) × IsHome home task }
    ensures { IsReady result }
{
    let body = State {
        script: home.script,
        limit: 0,
        block: &[],
        outer: &[],
        around: Vec::new(alloc),
        vars: Vec::new(alloc),
        steps: 0,
        places: 0,
        due: Due::Over,
    };
    Standing {
        home,
        body,
        numbers: Numbers::of_block(alloc, 0),
    }
}

/// The same ask of a task that knows where it stands.
fn ask_of<'s>(
    alloc: Global,
    home: Home<'s>,
    f: usize,
    ask: Ask<ScriptBody<'s>>,
) -> Ask<PlacedBody<'s>>
    requires home { (task : Task) × IsHome home task }
    requires child { ForksIn home f ask }
    ensures { result ≡ ask_as (stand.placed f) ask.entry }
{
    match ask {
        Ask::New => Ask::New,
        Ask::Fork { body, pass, hand } => {
            let body = placed(alloc, home, f, body);
            Ask::Fork { body, pass, hand }
        }
        Ask::Set { p, v } => Ask::Set { p, v },
        Ask::Get { p } => Ask::Get { p },
        Ask::Join { t } => Ask::Join { t },
        Ask::GetOr { p } => Ask::GetOr { p },
        Ask::JoinOr { t } => Ask::JoinOr { t },
        Ask::Emit(n) => Ask::Emit(n),
        Ask::End(v) => Ask::End(v),
        Ask::Fail(fault) => Ask::Fail(fault),
    }
}

/// The body of the script's task `main`, each of whose tasks makes at most so many statements. It knows where it
/// stands, by the sizes of the script.
pub fn placed_main<'s>(
    alloc: Global,
    script: &'s Script,
    sizes: &'s Sizes,
    steps: u32,
) -> Result<PlacedBody<'s>, Oom>
    requires steps { (0 < steps) × (steps ≤ MAX_STEPS) }
    requires script { (tokens : List Tok) × IsScript tokens (view.script script.now) }
    requires sizes { sizes.now ≡ sizes_of (view.script script.now) }
    // The body that knows where it stands is that of the script's task `main`, each of whose tasks
    // may begin so many statements, at the beginning of that declaration.
    ensures main { IfOk result (IsPlacedMain (view.script script.now) steps) }
    // It has asked nothing yet and has one place.
    ensures fresh { IfOk result (IsFresh placed_places placed_awaits placed_left 1) }
    // The numbers ahead of it are those of the declaration's statements and of the closing brace.
    ensures right { IfOk result StandsRight }
{
    let f = main_number(script);
    let home = home_of(script, sizes, f);
    let body = main_body(alloc, script, steps)?;
    Ok(placed(alloc, home, f, body))
}

impl PlacedBody<'_> {
    /// The declaration that its task runs.
    pub fn decl(&self) -> usize
        // It tells the declaration that its task runs.
        ensures { result ≡ self.now.stand.decl }
    {
        self.inner.home.decl
    }

    /// What its variables hold.
    pub fn vars(&self) -> &[Pay]
        // It tells what the variables of its task hold: at the beginning the arguments, and then 0s.
        ensures { result.now ≡ self.now.task.vars }
    {
        self.inner.body.vars.as_slice()
    }

    /// How many places its task has: a new reference gets this number.
    pub fn places(&self) -> u32
        // It tells how many places its task has.
        ensures { result ≡ placed_places self.now }
    {
        self.inner.body.places
    }

    /// The number of the statement at which it stands, or that of the closing brace.
    pub fn at(&self) -> usize
        // It tells the number of the statement that has begun last, or that of the closing brace.
        ensures { result ≡ self.now.stand.at }
    {
        self.inner.numbers.at
    }
}

impl<'s> Body for PlacedBody<'s> {
    ghost use Rattle.tj_eval.specs.Stands.{placed_places, placed_awaits, placed_left};
    ghost use Rattle.tj_eval.specs.Stands.{placed_asks, placed_then};
    ghost use Rattle.tj_eval.specs.Inner.StandLaws.{placed_obeys};

    ghost places = { placed_places };

    ghost awaits = { placed_awaits };

    ghost left = { placed_left };

    ghost asks = { placed_asks };

    ghost then = { placed_then };

    fn next(&mut self, alloc: Global, a: Answer) -> Result<Ask<Self>, Oom> {
        let home = self.inner.home;
        match self.inner.answer(alloc, a) {
            Ok(ask) => Ok(ask_of(alloc, home, self.inner.numbers.called as usize, ask)),
            Err(Oom) => {
                self.inner = given_up(alloc, home);
                Err(Oom)
            }
        }
    }

    fn twin(&self, alloc: Global) -> Result<Self, Oom> {
        let inner = Standing {
            home: self.inner.home,
            body: self.inner.body.twin(alloc)?,
            numbers: self.inner.numbers.twin(alloc)?,
        };
        Ok(PlacedBody { inner })
    }

    ghost obeys = { placed_obeys };
}
