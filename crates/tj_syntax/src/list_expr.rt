//! Listing expressions: an operand stands in parentheses where its level is below the one that
//! is needed where it stands.
ghost use Rattle.std.specs.Prelude.{◌≡◌, ◌++◌, ◌∷◌, [], OnOk, get_or, map};
ghost use Rattle.std.specs.Fmt.{signed_decimal};
ghost use Rattle.tj_lex.specs.Spelling.{mark_text};
ghost use Rattle.tj_syntax.specs.Grammar.{op_mark, rel_mark};
ghost use Rattle.tj_syntax.specs.Listing as listing;
ghost use Rattle.tj_syntax.specs.Listing.{text_of};
ghost use Rattle.tj_syntax.specs.View.{pair, pairs_of};
ghost use Rattle.tj_syntax.specs.View as view;

use crate::expr::{Expr, Op, Rel};
use itoa::Buffer;
use tj_base::Oom;
use tj_lex::Word;

/// Adds bytes.
pub(crate) fn put(text: &mut Vec<u8>, bytes: &[u8]) -> Result<(), Oom>
    ensures { OnOk result (text.new.items ≡ text.old.items ++ bytes.now) }
{
    text.extend_from_slice(bytes)?;
    Ok(())
}

/// Adds the name of a number.
pub(crate) fn put_name(text: &mut Vec<u8>, names: &[Word], n: u32) -> Result<(), Oom>
    ensures { OnOk result (text.new.items ≡ text.old.items ++ get_or names.now n []) }
{
    match names.get(n as usize) {
        Some(name) => put(text, name.bytes()),
        None => Ok(()),
    }
}

fn put_number(text: &mut Vec<u8>, n: i64) -> Result<(), Oom>
    ensures { OnOk result (text.new.items ≡ text.old.items ++ signed_decimal n) }
{
    let mut buffer = Buffer::new();
    put(text, buffer.format(n).as_bytes())
}

/// An operator with its spaces.
fn put_op(text: &mut Vec<u8>, op: Op) -> Result<(), Oom>
    ensures { OnOk result (text.new.items ≡ text.old.items ++ 32 ∷ (mark_text
        (op_mark op) ++ 32 ∷ [])) }
{
    match op {
        Op::Plus => put(text, b" + "),
        Op::Minus => put(text, b" - "),
        Op::Times => put(text, b" * "),
        Op::Over => put(text, b" / "),
        Op::Rest => put(text, b" % "),
    }
}

/// A comparison with its spaces.
fn put_rel(text: &mut Vec<u8>, rel: Rel) -> Result<(), Oom>
    ensures { OnOk result (text.new.items ≡ text.old.items ++ 32 ∷ (mark_text
        (rel_mark rel) ++ 32 ∷ [])) }
{
    match rel {
        Rel::Eq => put(text, b" == "),
        Rel::Ne => put(text, b" != "),
        Rel::Lt => put(text, b" < "),
        Rel::Le => put(text, b" <= "),
        Rel::Gt => put(text, b" > "),
        Rel::Ge => put(text, b" >= "),
    }
}

fn op_level(op: Op) -> u32
    ensures value { result ≡ listing.op_level op }
{
    match op {
        Op::Plus | Op::Minus => 1,
        Op::Times | Op::Over | Op::Rest => 2,
    }
}

fn pairs_level(pairs: &[(Op, Expr)]) -> u32
    ensures { result ≡ listing.pairs_level (pairs_of (map pair pairs.now)) }
{
    match pairs {
        [(op, _), ..] => op_level(*op),
        [] => 2,
    }
}

/// How tightly an expression binds, from 0 for a comparison to 3.
#[tactic(auto, using(crate::proofs::Listed::Views::listing_steps))]
fn level(x: &Expr) -> u32
    ensures { result ≡ listing.level (view.expression x.now) }
{
    match x {
        Expr::Cmp(..) => 0,
        Expr::Chain(_, pairs) => pairs_level(pairs),
        _ => 3,
    }
}

/// Adds an expression.
#[cycle(expression)]
#[tactic(auto, using(crate::proofs::Listed::Views::listing_steps))]
pub(crate) fn list_expression(text: &mut Vec<u8>, vars: &[Word], x: &Expr) -> Result<(), Oom>
    ensures { OnOk result (text.new.items
        ≡ text.old.items ++ text_of (listing.expression vars.now (view.expression x.now))) }
{
    match x {
        Expr::Num(n) => put_number(text, *n),
        Expr::Var(x) => put_name(text, vars, *x),
        Expr::Me => put(text, b"me"),
        Expr::Neg(a) => {
            put(text, b"-")?;
            list_operand(text, vars, 3, a)
        }
        Expr::Chain(a, pairs) => {
            list_operand(text, vars, pairs_level(pairs) + 1, a)?;
            list_pairs(text, vars, pairs)
        }
        Expr::Cmp(rel, a, b) => {
            list_operand(text, vars, 1, a)?;
            put_rel(text, *rel)?;
            list_operand(text, vars, 1, b)
        }
    }
}

/// Adds an operand where this level is needed.
#[cycle(expression)]
#[tactic(auto, using(crate::proofs::Listed::Views::listing_steps))]
fn list_operand(text: &mut Vec<u8>, vars: &[Word], need: u32, x: &Expr) -> Result<(), Oom>
    ensures { OnOk result (text.new.items
        ≡ text.old.items ++ text_of (listing.operand vars.now need (view.expression x.now))) }
{
    if level(x) < need {
        put(text, b"(")?;
        list_expression(text, vars, x)?;
        put(text, b")")
    } else {
        list_expression(text, vars, x)
    }
}

/// Adds the operators and operands of a chain behind its first operand.
#[cycle(expression)]
#[tactic(auto, using(crate::proofs::Listed::Views::listing_steps))]
fn list_pairs(text: &mut Vec<u8>, vars: &[Word], pairs: &[(Op, Expr)]) -> Result<(), Oom>
    ensures { OnOk result (text.new.items
        ≡ text.old.items ++ text_of (listing.pairs_parts vars.now (pairs_of
        (map pair pairs.now)))) }
{
    for (op, y) in pairs {
        put_op(text, *op)?;
        list_operand(text, vars, op_level(*op) + 1, y)?;
    }
    Ok(())
}
