//! Listing asks, with their arguments and what stands behind `or`.
ghost use Rattle.std.specs.Prelude.{◌≡◌, ◌∷◌, ◌++◌, OnOk, IfOk, codes, map, Option};
ghost use Rattle.std.specs.Option.{option_map};
ghost use Rattle.tj_syntax.specs.Listing as listing;
ghost use Rattle.tj_syntax.specs.Listing.{text_of};
ghost use Rattle.tj_syntax.specs.View as view;

use crate::expr::{Expr, RefOf};
use crate::list_expr::{list_expression, put, put_name};
use crate::script::Decl;
use crate::stmt::{Arg, Call, Rhs};
use tj_base::Oom;
use tj_lex::Word;

/// What is known where a part is listed: the names of tasks and of variables, and the indent.
#[derive(Clone, Copy)]
pub(crate) struct Scope<'s> {
    pub(crate) tasks: &'s [Decl],
    pub(crate) vars: &'s [Word],
    pub(crate) indent: &'s [u8],
}

fn list_argument(text: &mut Vec<u8>, vars: &[Word], x: &Arg) -> Result<(), Oom>
    ensures { OnOk result (text.new.items
        ≡ text.old.items ++ text_of (listing.argument vars.now (view.argument x.now))) }
{
    match x {
        Arg::Own(v) => {
            put(text, b"own ")?;
            put_name(text, vars, *v)
        }
        Arg::Expr(x) => list_expression(text, vars, x),
    }
}

/// Adds arguments behind others, with a comma before each.
#[tactic(auto, using(crate::proofs::Listed::Views::listing_steps))]
fn list_more_arguments(text: &mut Vec<u8>, vars: &[Word], args: &[Arg]) -> Result<(), Oom>
    ensures { OnOk result (text.new.items
        ≡ text.old.items ++ text_of (listing.more_arguments vars.now
        (map view.argument args.now))) }
{
    for x in args {
        put(text, b", ")?;
        list_argument(text, vars, x)?;
    }
    Ok(())
}

#[tactic(auto, using(crate::proofs::Listed::Views::listing_steps))]
fn list_arguments(text: &mut Vec<u8>, vars: &[Word], args: &[Arg]) -> Result<(), Oom>
    ensures { OnOk result (text.new.items
        ≡ text.old.items ++ text_of (listing.arguments vars.now (map view.argument args.now))) }
{
    match args {
        [] => Ok(()),
        [first, more @ ..] => {
            list_argument(text, vars, first)?;
            list_more_arguments(text, vars, more)
        }
    }
}

fn list_reference(text: &mut Vec<u8>, vars: &[Word], r: RefOf) -> Result<(), Oom>
    ensures { OnOk result (text.new.items
        ≡ text.old.items ++ listing.part_text (listing.reference vars.now r)) }
{
    match r {
        RefOf::Var(x) => put_name(text, vars, x),
        RefOf::Me => put(text, b"me"),
    }
}

/// Adds what is computed where the cell is broken, if anything is.
fn list_or_else(text: &mut Vec<u8>, vars: &[Word], other: &Option<Expr>) -> Result<(), Oom>
    ensures { OnOk result (text.new.items
        ≡ text.old.items ++ text_of (listing.or_else_parts vars.now
        (option_map view.expression other.now))) }
{
    match other {
        None => Ok(()),
        Some(x) => {
            put(text, b" or ")?;
            list_expression(text, vars, x)
        }
    }
}

/// Adds the name of a task.
#[tactic(auto, using(crate::proofs::Listed::Views::listing_steps))]
fn put_task(text: &mut Vec<u8>, tasks: &[Decl], f: u32) -> Result<(), Oom>
    ensures { OnOk result (text.new.items
        ≡ text.old.items ++ listing.part_text (listing.name (listing.names_of
        (map view.task tasks.now)) f)) }
{
    match tasks.get(f as usize) {
        Some(task) => put(text, task.name.bytes()),
        None => Ok(()),
    }
}

#[tactic(auto, using(crate::proofs::Listed::Views::listing_steps))]
pub(crate) fn list_ask(text: &mut Vec<u8>, at: Scope, ask: &Call) -> Result<(), Oom>
    ensures { OnOk result (text.new.items ≡ text.old.items
        ++ text_of (listing.ask (listing.names_of (map view.task at.entry.tasks.now))
        at.entry.vars.now (view.ask ask.now))) }
{
    match ask {
        Call::New => put(text, b"new"),
        Call::Fork(f, args) => {
            put(text, b"fork ")?;
            put_task(text, at.tasks, *f)?;
            put(text, b"(")?;
            list_arguments(text, at.vars, args)?;
            put(text, b")")
        }
        Call::Get(r, other) => {
            put(text, b"get ")?;
            list_reference(text, at.vars, *r)?;
            list_or_else(text, at.vars, other)
        }
        Call::Join(r, other) => {
            put(text, b"join ")?;
            list_reference(text, at.vars, *r)?;
            list_or_else(text, at.vars, other)
        }
    }
}

pub(crate) fn list_given(text: &mut Vec<u8>, at: Scope, side: &Rhs) -> Result<(), Oom>
    ensures { OnOk result (text.new.items ≡ text.old.items
        ++ text_of (listing.given (listing.names_of (map view.task at.entry.tasks.now))
        at.entry.vars.now (view.given side.now))) }
{
    match side {
        Rhs::Call(ask) => list_ask(text, at, ask),
        Rhs::Expr(x) => list_expression(text, at.vars, x),
    }
}
