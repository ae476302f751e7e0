//! What an expression came to by what variables held, or why it came to nothing.
ghost use Rattle.std.specs.Prelude.{◌≡◌, map, neg_ℤ};
ghost use Rattle.tj_eval.specs.Expressions as meaning;
ghost use Rattle.tj_syntax.specs.View.{expression, pair, pairs_of};
ghost use Rattle.tj_reasons.specs.Reasons as spec;

use crate::reason::{Met, Reason, Wanted};
use tj_body::Value;
use tj_syntax::{Expr, Op, Rel};

/// What a variable held, as it is met.
fn met_in(held: &[Value], x: u32) -> Met
    ensures { result ≡ spec.met_as x (spec.held_in held.now x) }
{
    match held.get(x as usize) {
        Some(Value::Num(number)) => Met::Number(*number),
        Some(Value::Ref(_)) => Met::Variable(x),
        None => Met::Number(0),
    }
}

/// A number, which was wanted.
fn as_number(met: Met) -> Result<i64, Reason>
    ensures { result ≡ spec.as_number met }
{
    match met {
        Met::Number(number) => Ok(number),
        Met::Variable(x) => Err(Reason::Met(Met::Variable(x), Wanted::Number)),
        Met::Itself => Err(Reason::Met(Met::Itself, Wanted::Number)),
    }
}

/// A number, as it is met.
fn met_number(number: Result<i64, Reason>) -> Result<Met, Reason>
    ensures { result ≡ spec.met_number number }
{
    match number {
        Ok(number) => Ok(Met::Number(number)),
        Err(reason) => Err(reason),
    }
}

/// What an expression came to of a task whose variables held these.
#[cycle(found)]
pub fn found(held: &[Value], e: &Expr) -> Result<Met, Reason>
    ensures { result ≡ spec.found held.now (expression e.now) }
{
    match e {
        Expr::Num(n) => Ok(Met::Number(*n)),
        Expr::Var(x) => Ok(met_in(held, *x)),
        Expr::Me => Ok(Met::Itself),
        Expr::Neg(a) => Ok(Met::Number(negated(number(held, a)?)?)),
        Expr::Chain(a, pairs) => met_number(chained(held, number(held, a)?, pairs)),
        Expr::Cmp(rel, a, b) => {
            let n = number(held, a)?;
            let m = number(held, b)?;
            Ok(Met::Number(compares(*rel, n, m) as i64))
        }
    }
}

/// The number to which an expression came.
#[cycle(found)]
pub fn number(held: &[Value], e: &Expr) -> Result<i64, Reason>
    ensures { result ≡ spec.and_then (spec.found held.now (expression e.now)) spec.as_number }
{
    as_number(found(held, e)?)
}

/// What a chain came to whose operands so far came to n.
#[cycle(found)]
fn chained(held: &[Value], n: i64, pairs: &[(Op, Expr)]) -> Result<i64, Reason>
    ensures { result ≡ spec.chained held.now n (pairs_of (map pair pairs.now)) }
{
    let mut so_far = n;
    for (op, e) in pairs {
        let m = number(held, e)?;
        so_far = applied(*op, so_far, m)?;
    }
    Ok(so_far)
}

/// The number with the other sign.
fn negated(n: i64) -> Result<i64, Reason>
    ensures { result ≡ spec.exact (neg_ℤ n) }
{
    n.checked_neg().ok_or(Reason::Overflow)
}

/// What the operator gives.
fn applied(op: Op, a: i64, b: i64) -> Result<i64, Reason>
    ensures { result ≡ spec.applied op a b }
{
    match op {
        Op::Plus => a.checked_add(b).ok_or(Reason::Overflow),
        Op::Minus => a.checked_sub(b).ok_or(Reason::Overflow),
        Op::Times => a.checked_mul(b).ok_or(Reason::Overflow),
        Op::Over => quotient(a, b),
        Op::Rest => rest(a, b),
    }
}

/// The quotient.
fn quotient(a: i64, b: i64) -> Result<i64, Reason>
    ensures { result ≡ spec.applied Op.Over a b }
{
    if b == 0 {
        return Err(Reason::Division);
    }
    a.checked_div(b).ok_or(Reason::Overflow)
}

/// The rest.
fn rest(a: i64, b: i64) -> Result<i64, Reason>
    ensures { result ≡ spec.applied Op.Rest a b }
{
    if b == 0 {
        return Err(Reason::Division);
    }
    a.checked_rem(b).ok_or(Reason::Overflow)
}

/// Whether the comparison holds.
fn compares(rel: Rel, a: i64, b: i64) -> bool
    ensures { result ≡ meaning.compares rel a b }
{
    match rel {
        Rel::Eq => a == b,
        Rel::Ne => a != b,
        Rel::Lt => a < b,
        Rel::Le => a <= b,
        Rel::Gt => a > b,
        Rel::Ge => a >= b,
    }
}
