//! The values of expressions: from the left, and the first fault decides.
ghost use Rattle.std.specs.Prelude.{◌≡◌, Ok, Err, neg_ℤ, map, MatchOption};
ghost use Rattle.tj_syntax.specs.View.{expression, pair, pairs_of};
ghost use Rattle.tj_eval.specs.Expressions as meaning;

use crate::quick::quick;
use tj_base::{Pay, Trouble};
use tj_syntax::{Expr, Op, Rel};

/// What the variable holds.
#[inline(always)]
pub(crate) fn held(vars: &[Pay], x: u32) -> Pay
    ensures { result ≡ meaning.held vars.now x }
{
    match vars.get(x as usize) {
        Some(value) => *value,
        None => Pay::Num(0),
    }
}

/// The value of an expression of a task with these variables.
#[inline(always)]
pub(crate) fn value(vars: &[Pay], e: &Expr) -> Result<Pay, Trouble>
    ensures { result ≡ meaning.value vars.now (expression e.now) }
{
    if let Expr::Var(x) = e {
        return Ok(held(vars, *x));
    }
    match quick(vars, e) {
        Some(n) => Ok(Pay::Num(n)),
        None => whole(vars, e),
    }
}

/// The same, of one that comes to a reference or to a fault.
#[cycle(whole)]
#[inline(never)]
pub(crate) fn whole(vars: &[Pay], e: &Expr) -> Result<Pay, Trouble>
    ensures { result ≡ meaning.value vars.now (expression e.now) }
{
    match e {
        Expr::Num(n) => Ok(Pay::Num(*n)),
        Expr::Var(x) => Ok(held(vars, *x)),
        Expr::Me => Ok(Pay::Ref(0)),
        Expr::Neg(a) => negated(number(vars, a)?),
        Expr::Chain(a, pairs) => chained(vars, number(vars, a)?, pairs),
        Expr::Cmp(rel, a, b) => {
            let n = number(vars, a)?;
            let m = number(vars, b)?;
            Ok(Pay::Num(compares(*rel, n, m) as i64))
        }
    }
}

/// The value of an operand, which has to be a number.
#[cycle(whole)]
#[inline(always)]
pub(crate) fn number(vars: &[Pay], e: &Expr) -> Result<i64, Trouble>
    ensures { result ≡ meaning.with_number (meaning.value vars.now (expression e.now)) (λ n. Ok n) }
{
    match quick(vars, e) {
        Some(n) => Ok(n),
        None => number_in(whole(vars, e)?),
    }
}

/// The value of a chain whose operands so far have come to n.
#[cycle(whole)]
fn chained(vars: &[Pay], n: i64, pairs: &[(Op, Expr)]) -> Result<Pay, Trouble>
    ensures { result ≡ meaning.chained vars.now n (pairs_of (map pair pairs.now)) }
{
    let mut so_far = n;
    for (op, e) in pairs {
        let m = number(vars, e)?;
        so_far = applied(*op, so_far, m).ok_or(Trouble::Arith)?;
    }
    Ok(Pay::Num(so_far))
}

/// The number that a value is.
pub(crate) fn number_in(value: Pay) -> Result<i64, Trouble>
    ensures { result ≡ meaning.with_number (Ok value) (λ n. Ok n) }
{
    match value {
        Pay::Num(n) => Ok(n),
        Pay::Ref(_) => Err(Trouble::Kind),
    }
}

/// The place of the reference that a value is.
pub(crate) fn reference_in(value: Pay) -> Result<u32, Trouble>
    ensures { result ≡ meaning.with_reference (Ok value) (λ place. Ok place) }
{
    match value {
        Pay::Num(_) => Err(Trouble::Kind),
        Pay::Ref(place) => Ok(place),
    }
}

/// What the operator gives, if it is one of 64 bits.
#[inline(always)]
pub(crate) fn applied(op: Op, a: i64, b: i64) -> Option<i64>
    ensures { MatchOption result (meaning.applied op a b ≡ Err Trouble.Arith)
        (λ n. meaning.applied op a b ≡ Ok (Pay.Num n)) }
{
    match op {
        Op::Plus => a.checked_add(b),
        Op::Minus => a.checked_sub(b),
        Op::Times => a.checked_mul(b),
        Op::Over => a.checked_div(b),
        Op::Rest => a.checked_rem(b),
    }
}

/// Whether the comparison holds.
#[inline(always)]
pub(crate) fn compares(rel: Rel, a: i64, b: i64) -> bool
    ensures { result ≡ meaning.compares rel a b }
{
    match rel {
        Rel::Eq => a == b,
        Rel::Ne => a != b,
        Rel::Lt => a < b,
        Rel::Le => a <= b,
        Rel::Gt => a > b,
        Rel::Ge => a >= b,
    }
}

/// The number with the other sign.
fn negated(n: i64) -> Result<Pay, Trouble>
    ensures { result ≡ meaning.exact (neg_ℤ n) }
{
    match n.checked_neg() {
        Some(m) => Ok(Pay::Num(m)),
        None => Err(Trouble::Arith),
    }
}
