//! Why a statement failed by `arith` or `kind`, by what the variables held.
ghost use Rattle.std.specs.Prelude.{◌≡◌, cond, map, None, Some};
ghost use Rattle.std.specs.Option.{option_map};
ghost use Rattle.tj_syntax.specs.Trees as tree;
ghost use Rattle.tj_syntax.specs.View as trees;
ghost use Rattle.tj_reasons.specs.Reasons as spec;

use crate::reason::{Met, Reason, Wanted};
use crate::values::{found, number};
use tj_base::Sort;
use tj_body::Value;
use tj_syntax::{Arg, Call, Expr, RefOf, Rhs, Stmt};

/// A cell of this sort is wanted.
fn wanted_of(sort: Sort) -> Wanted
    ensures { result ≡ spec.wanted_of sort }
{
    match sort {
        Sort::Task => Wanted::Task,
        Sort::Promise => Wanted::Promise,
    }
}

/// Whether two sorts are one.
fn is_sort(sort: Sort, other: Sort) -> bool
    ensures { result ≡ spec.is_sort sort other }
{
    match (sort, other) {
        (Sort::Task, Sort::Task) | (Sort::Promise, Sort::Promise) => true,
        (Sort::Task, Sort::Promise) | (Sort::Promise, Sort::Task) => false,
    }
}

/// Why no value came of an expression.
fn no_value(held: &[Value], e: &Expr) -> Option<Reason>
    ensures { result ≡ spec.no_value held.now (trees.expression e.now) }
{
    found(held, e).err()
}

/// Why no number came of it.
fn no_number(held: &[Value], e: &Expr) -> Option<Reason>
    ensures { result ≡ spec.no_number held.now (trees.expression e.now) }
{
    number(held, e).err()
}

/// Why a variable refers to no cell.
fn no_reference(sort: Sort, held: &[Value], x: u32) -> Option<Reason>
    ensures { result ≡ spec.no_reference sort x (spec.held_in held.now x) }
{
    match held.get(x as usize) {
        Some(Value::Num(number)) => Some(Reason::Met(Met::Number(*number), wanted_of(sort))),
        Some(Value::Ref(_)) => None,
        None => Some(Reason::Met(Met::Number(0), wanted_of(sort))),
    }
}

/// Why one that refers to a cell refers to none of this sort.
fn other_sort(sort: Sort, held: &[Value], x: u32) -> Option<Reason>
    ensures { result ≡ spec.other_sort sort x (spec.held_in held.now x) }
{
    match held.get(x as usize) {
        Some(Value::Ref(reference)) => unlike(sort, reference.sort, Met::Variable(x)),
        Some(Value::Num(_)) | None => None,
    }
}

/// Why a cell of the one sort, met so, isn't one of the wanted sort.
fn unlike(sort: Sort, other: Sort, met: Met) -> Option<Reason>
    ensures { result ≡ cond (spec.is_sort sort other) None
        (Some (Reason.Met met (spec.wanted_of sort))) }
{
    if is_sort(sort, other) {
        None
    } else {
        Some(Reason::Met(met, wanted_of(sort)))
    }
}

/// Why what is waited for is no cell of this sort.
fn not_awaited(sort: Sort, held: &[Value], awaited: RefOf) -> Option<Reason>
    ensures { result ≡ spec.not_awaited sort held.now awaited }
{
    match awaited {
        RefOf::Var(x) => no_reference(sort, held, x).or(other_sort(sort, held, x)),
        RefOf::Me => unlike(sort, Sort::Task, Met::Itself),
    }
}

/// Why no value came of what stands behind `or`.
fn no_other(held: &[Value], other: &Option<Expr>) -> Option<Reason>
    ensures { result ≡ spec.no_other held.now (option_map trees.expression other.now) }
{
    match other {
        Some(e) => no_value(held, e),
        None => None,
    }
}

/// Why no value came of an argument.
fn no_argument(held: &[Value], argument: &Arg) -> Option<Reason>
    ensures { result ≡ spec.no_argument held.now (trees.argument argument.now) }
{
    match argument {
        Arg::Own(x) => no_reference(Sort::Promise, held, *x),
        Arg::Expr(e) => no_value(held, e),
    }
}

/// The same of the first of several for which there is a reason.
fn no_arguments(held: &[Value], arguments: &[Arg]) -> Option<Reason>
    ensures { result ≡ spec.no_arguments held.now (map trees.argument arguments.now) }
{
    match arguments {
        [] => None,
        [first, more @ ..] => no_argument(held, first).or(no_arguments(held, more)),
    }
}

/// Why what is handed is no promise.
fn no_promise(held: &[Value], argument: &Arg) -> Option<Reason>
    ensures { result ≡ spec.no_promise held.now (trees.argument argument.now) }
{
    match argument {
        Arg::Own(x) => other_sort(Sort::Promise, held, *x),
        Arg::Expr(_) => None,
    }
}

/// The same of the first of several arguments.
fn no_promises(held: &[Value], arguments: &[Arg]) -> Option<Reason>
    ensures { result ≡ spec.no_promises held.now (map trees.argument arguments.now) }
{
    match arguments {
        [] => None,
        [first, more @ ..] => no_promise(held, first).or(no_promises(held, more)),
    }
}

/// Why an ask failed.
fn ask_failed(held: &[Value], call: &Call) -> Option<Reason>
    ensures { result ≡ spec.ask_failed held.now (trees.ask call.now) }
{
    match call {
        Call::New => None,
        Call::Fork(_, list) => no_arguments(held, list).or(no_promises(held, list)),
        Call::Get(r, other) => not_awaited(Sort::Promise, held, *r).or(no_other(held, other)),
        Call::Join(r, other) => not_awaited(Sort::Task, held, *r).or(no_other(held, other)),
    }
}

/// Why a variable was given nothing.
fn not_given(held: &[Value], side: &Rhs) -> Option<Reason>
    ensures { result ≡ spec.not_given held.now (trees.given side.now) }
{
    match side {
        Rhs::Call(call) => ask_failed(held, call),
        Rhs::Expr(e) => no_value(held, e),
    }
}

/// Why a promise wasn't set.
fn not_set(held: &[Value], x: u32, e: &Expr) -> Option<Reason>
    ensures { result ≡ spec.failed_at held.now (tree.set_cell x (trees.expression e.now)) }
{
    let value = no_value(held, e).or(other_sort(Sort::Promise, held, x));
    no_reference(Sort::Promise, held, x).or(value)
}

/// Why a statement failed by `arith` or `kind` that failed so.
pub fn failed_at(held: &[Value], statement: &Stmt) -> Option<Reason>
    ensures { result ≡ spec.failed_at held.now (trees.statement statement.now) }
{
    match statement {
        Stmt::Let(_, side) | Stmt::Assign(_, side) => not_given(held, side),
        Stmt::Do(call) => ask_failed(held, call),
        Stmt::Print(e) | Stmt::If(e, _, _) | Stmt::While(e, _) => no_number(held, e),
        Stmt::Return(e) => no_value(held, e),
        Stmt::Set(x, e) => not_set(held, *x, e),
    }
}
