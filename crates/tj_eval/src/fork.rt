//! Forks: the arguments from the left, and the task that they make.
ghost use Rattle.std.specs.Prelude.{◌≡◌, ◌≤◌, ◌-◌, ◌++◌, length, map, replicate, pos, slice_get};
ghost use Rattle.std.specs.Prelude.{List, IfOk, IsTrue, OnOk};
ghost use Rattle.tj_syntax.specs.View as view;
ghost use Rattle.tj_eval.specs.Statements as state;
ghost use Rattle.tj_eval.specs.Bodies.{most_params, all_have_few_params};
ghost use Rattle.tj_eval.specs.Inner.Effects.{IsAdded, IsPassed, IsChild, IsForkOf};

use crate::expression::{held, reference_in, value};
use crate::halt::Halt;
use crate::state::{Due, ScriptBody, State};
use std::alloc::Global;
use tj_base::{Items, Oom, Pay, PlaceList, Trouble};
use tj_body::Ask;
use tj_syntax::{Arg, Decl, Script};

/// The value of an argument.
#[inline(always)]
fn argument(vars: &[Pay], arg: &Arg) -> Result<Pay, Trouble>
    ensures { result ≡ state.argument vars.now (view.argument arg.now) }
{
    match arg {
        Arg::Own(x) => Ok(Pay::Ref(reference_in(held(vars, *x))?)),
        Arg::Expr(e) => value(vars, e),
    }
}

/// What a child is given.
#[derive(Drop)]
struct Passed {
    /// The arguments as the child has them: its references have its own places.
    vars: Vec<Pay>,
    /// The places of these references in the task that forks.
    places: PlaceList,
}

/// Adds a value to a child's variables, and its place to the others if it is a reference.
#[inline(always)]
fn add(vars: &mut Vec<Pay>, places: &mut Vec<u32>, v: Pay) -> Result<(), Oom>
    requires few { length places.old.items ≤ most_params }
    ensures { OnOk result (IsAdded v
        vars.old.items places.old.items vars.new.items places.new.items) }
{
    match v {
        Pay::Num(_) => vars.push(v)?,
        Pay::Ref(place) => {
            places.push(place)?;
            vars.push(Pay::Ref(places.len() as u32))?;
        }
    }
    Ok(())
}

/// The arguments, in a list with room for n variables.
#[inline(always)]
fn arguments(alloc: Global, vars: &[Pay], args: &[Arg], n: usize) -> Result<Passed, Halt>
    requires few { length args.now ≤ most_params }
    ensures { IsPassed (state.arguments vars.now (map view.argument args.now)) result }
{
    let Ok(mut values) = Vec::with_capacity(alloc, n) else {
        return Err(Halt::Memory);
    };
    let mut places = Vec::new(alloc);
    for arg in args {
        let v = argument(vars, arg)?;
        add(&mut values, &mut places, v)?;
    }
    Ok(Passed {
        vars: values,
        places: Items::of(places),
    })
}

/// The places of the references that are handed.
#[inline(always)]
fn handed(alloc: Global, vars: &[Pay], args: &[Arg]) -> Result<PlaceList, Oom>
    ensures { IfOk result (λ places. places
        ≡ state.references (state.handed vars.now (map view.argument args.now))) }
{
    let mut places = Vec::new(alloc);
    for arg in args {
        if let Arg::Own(x) = arg {
            if let Pay::Ref(place) = held(vars, *x) {
                places.push(place)?;
            }
        }
    }
    Ok(Items::of(places))
}

/// The variables of a child: these, and 0 for the others of its n.
#[inline(always)]
fn variables(mut vars: Vec<Pay>, n: usize) -> Result<Vec<Pay>, Oom>
    ensures { IfOk result (λ all. all.items ≡ vars.items
        ++ replicate (n - length vars.items) (Pay.Num (pos 0))) }
{
    if vars.len() < n {
        vars.resize(n, Pay::Num(0))?;
    }
    Ok(vars)
}

/// A task of the script that begins with these arguments.
#[inline(always)]
pub(crate) fn task_of<'s>(
    alloc: Global,
    script: &'s Script,
    limit: u32,
    decl: &'s Decl,
    vars: Vec<Pay>,
    passed: usize,
) -> Result<ScriptBody<'s>, Oom>
    requires few { passed ≤ most_params }
    ensures { (values : List Pay) → vars.items ≡ state.as_passed 1 values
        → passed ≡ length (state.references values) → IfOk result (λ body. body
        ≡ state.task_of (view.script script.now) limit (view.task decl.now) values) }
{
    let state = State {
        script,
        limit,
        block: &decl.body.stmts,
        outer: &[],
        around: Vec::new(alloc),
        vars: variables(vars, decl.vars.len())?,
        steps: limit,
        places: passed as u32 + 1,
        due: Due::Start,
    };
    Ok(ScriptBody {
        state: Box::new(alloc, state)?,
    })
}

impl<'s> State<'s> {
    /// The ask for a child: a task of the script with as many parameters as there are arguments.
    #[inline(always)]
    pub(crate) fn fork(
        &self,
        alloc: Global,
        f: u32,
        args: &[Arg],
    ) -> Result<Ask<ScriptBody<'s>>, Halt>
        requires { IsTrue (all_have_few_params self.now.script) }
        ensures { let task = slice_get self.now.script f in
            IsForkOf self.now task (map view.argument args.now) result }
    {
        let Some(decl) = self.script.tasks.get(f as usize) else {
            return Err(Halt::Fault(Trouble::Kind));
        };
        if args.len() != decl.params as usize {
            return Err(Halt::Fault(Trouble::Kind));
        }
        self.child(alloc, decl, args)
    }

    /// The ask for a child with these arguments.
    #[inline(always)]
    fn child(
        &self,
        alloc: Global,
        decl: &'s Decl,
        args: &[Arg],
    ) -> Result<Ask<ScriptBody<'s>>, Halt>
        requires few { length args.now ≤ most_params }
        ensures { IsChild self.now (view.task decl.now) (map view.argument args.now) result }
    {
        let passed = arguments(alloc, &self.vars, args, decl.vars.len())?;
        let hand = handed(alloc, &self.vars, args)?;
        let pass = passed.places;
        let n = pass.items().len();
        let body = task_of(alloc, self.script, self.limit, decl, passed.vars, n)?;
        Ok(Ask::Fork { body, pass, hand })
    }
}
