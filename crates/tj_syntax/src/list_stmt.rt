//! Listing statements and blocks.
ghost use Rattle.std.specs.Prelude.{◌≡◌, ◌∷◌, ◌++◌, OnOk, IfOk, codes, map, Option};
ghost use Rattle.std.specs.Option.{option_map};
ghost use Rattle.tj_syntax.specs.Listing as listing;
ghost use Rattle.tj_syntax.specs.Listing.{text_of};
ghost use Rattle.tj_syntax.specs.View as view;

use crate::expr::Expr;
use crate::list_ask::{Scope, list_ask, list_given};
use crate::list_expr::{list_expression, put, put_name};
use crate::stmt::{Block, Rhs, Stmt};
use std::alloc::Global;
use tj_base::Oom;
use tj_lex::Word;

/// Adds a variable, and what it is given.
#[tactic(auto, using(crate::proofs::Listed::Views::listing_steps))]
fn list_assignment(text: &mut Vec<u8>, at: Scope, x: u32, side: &Rhs) -> Result<(), Oom>
    ensures { OnOk result (text.new.items ≡ text.old.items
        ++ text_of (listing.name at.entry.vars.now x ∷ listing.assigned
        (listing.given (listing.names_of (map view.task at.entry.tasks.now))
        at.entry.vars.now (view.given side.now)))) }
{
    put_name(text, at.vars, x)?;
    put(text, b" = ")?;
    list_given(text, at, side)?;
    put(text, b";")
}

/// Adds an expression with what stands in front of it and behind it.
fn list_between(
    text: &mut Vec<u8>,
    vars: &[Word],
    front: &[u8],
    x: &Expr,
    end: &[u8],
) -> Result<(), Oom>
    ensures { OnOk result (text.new.items ≡ text.old.items ++ (front.now
        ++ (text_of (listing.expression vars.now (view.expression x.now)) ++ end.now))) }
{
    put(text, front)?;
    list_expression(text, vars, x)?;
    put(text, end)
}

/// Two spaces more.
fn deeper(alloc: Global, indent: &[u8]) -> Result<Vec<u8>, Oom>
    ensures { IfOk result (λ more. more.items ≡ indent.now ++ codes "  ") }
{
    let mut more = Vec::from_slice(alloc, indent)?;
    more.extend_from_slice(b"  ")?;
    Ok(more)
}

/// Adds a statement without its first line's indent and its last line's end.
#[cycle(statement)]
#[tactic(auto, using(crate::proofs::Listed::Views::listing_steps))]
fn list_statement(alloc: Global, text: &mut Vec<u8>, at: Scope, s: &Stmt) -> Result<(), Oom>
    ensures { OnOk result (text.new.items ≡ text.old.items ++ text_of
        (listing.statement (listing.names_of (map view.task at.entry.tasks.now))
        at.entry.vars.now at.entry.indent.now (view.statement s.now))) }
{
    match s {
        Stmt::Let(x, side) => {
            put(text, b"let ")?;
            list_assignment(text, at, *x, side)
        }
        Stmt::Assign(x, side) => list_assignment(text, at, *x, side),
        Stmt::Do(ask) => {
            list_ask(text, at, ask)?;
            put(text, b";")
        }
        Stmt::Print(x) => list_between(text, at.vars, b"print ", x, b";"),
        Stmt::Set(x, e) => {
            put(text, b"set ")?;
            put_name(text, at.vars, *x)?;
            list_between(text, at.vars, b" = ", e, b";")
        }
        Stmt::Return(x) => list_between(text, at.vars, b"return ", x, b";"),
        Stmt::If(x, body, other) => {
            list_between(text, at.vars, b"if ", x, b" ")?;
            list_block(alloc, text, at, body)?;
            list_else(alloc, text, at, other)
        }
        Stmt::While(x, body) => {
            list_between(text, at.vars, b"while ", x, b" ")?;
            list_block(alloc, text, at, body)
        }
    }
}

/// Adds a block, behind which the line goes on.
#[cycle(statement)]
#[tactic(auto, using(crate::proofs::Listed::Views::listing_steps))]
pub(crate) fn list_block(
    alloc: Global,
    text: &mut Vec<u8>,
    at: Scope,
    body: &Block,
) -> Result<(), Oom>
    ensures { OnOk result (text.new.items ≡ text.old.items ++ text_of
        (listing.block (listing.names_of (map view.task at.entry.tasks.now))
        at.entry.vars.now at.entry.indent.now (view.block body.now))) }
{
    let more = deeper(alloc, at.indent)?;
    let inner = Scope {
        indent: more.as_slice(),
        ..at
    };
    put(text, b"{\n")?;
    list_lines(alloc, text, inner, &body.stmts)?;
    put(text, at.indent)?;
    put(text, b"}")
}

/// Adds statements, each with its indent and the end of its line.
#[cycle(statement)]
#[tactic(auto, using(crate::proofs::Listed::Views::listing_steps))]
fn list_lines(alloc: Global, text: &mut Vec<u8>, at: Scope, stmts: &[Stmt]) -> Result<(), Oom>
    ensures { OnOk result (text.new.items ≡ text.old.items ++ text_of
        (listing.lines (listing.names_of (map view.task at.entry.tasks.now))
        at.entry.vars.now at.entry.indent.now
        (view.statements_of (map view.statement stmts.now)))) }
{
    for s in stmts {
        put(text, at.indent)?;
        list_statement(alloc, text, at, s)?;
        put(text, b"\n")?;
    }
    Ok(())
}

#[cycle(statement)]
#[tactic(auto, using(crate::proofs::Listed::Views::listing_steps))]
fn list_else(alloc: Global, text: &mut Vec<u8>, at: Scope, other: &Option<Block>) -> Result<(), Oom>
    ensures { OnOk result (text.new.items ≡ text.old.items ++ text_of
        (listing.else_parts (listing.names_of (map view.task at.entry.tasks.now))
        at.entry.vars.now at.entry.indent.now
        (view.otherwise_of (option_map view.block other.now)))) }
{
    match other {
        None => Ok(()),
        Some(body) => {
            put(text, b" else ")?;
            list_block(alloc, text, at, body)
        }
    }
}
