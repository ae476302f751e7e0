//! Expressions that come to numbers, as most do. A number alone is handed back in registers, where a
//! value or a fault takes memory: only what comes to no number is computed again, for its value.
ghost use Rattle.std.specs.Prelude.{◌≡◌, Ok, map, IfSome};
ghost use Rattle.tj_base.specs.declared.value.Pay.TheVariants as pay;
ghost use Rattle.tj_syntax.specs.View.{expression, pair, pairs_of};
ghost use Rattle.tj_eval.specs.Expressions as meaning;

use crate::expression::{applied, compares, held};
use tj_base::Pay;
use tj_syntax::{Expr, Op};

/// The number that the expression comes to, if it is one. A variable, a number, and the operands of a
/// chain and of a comparison are read without a further call.
// It gives a number or nothing: a value or a fault takes memory, and is computed anew.
#[inline(always)]
pub(crate) fn quick(vars: &[Pay], e: &Expr) -> Option<i64>
    ensures { IfSome result (λ n. meaning.value vars.now (expression e.now) ≡ Ok (pay.Num n)) }
{
    match e {
        Expr::Num(n) => Some(*n),
        Expr::Var(x) => number_held(vars, *x),
        Expr::Chain(a, pairs) => {
            let Some(n) = operand(vars, a) else {
                return None;
            };
            Some(chained(vars, n, pairs)?)
        }
        Expr::Cmp(rel, a, b) => {
            let Some(n) = operand(vars, a) else {
                return None;
            };
            let Some(m) = operand(vars, b) else {
                return None;
            };
            Some(compares(*rel, n, m) as i64)
        }
        _ => computed(vars, e),
    }
}

/// The same, with a call for any operators.
#[cycle(computed)]
#[inline(always)]
fn operand(vars: &[Pay], e: &Expr) -> Option<i64>
    ensures { IfSome result (λ n. meaning.value vars.now (expression e.now) ≡ Ok (pay.Num n)) }
{
    match e {
        Expr::Num(n) => Some(*n),
        Expr::Var(x) => number_held(vars, *x),
        _ => computed(vars, e),
    }
}

/// The number that the variable holds, if it is one.
#[inline(always)]
fn number_held(vars: &[Pay], x: u32) -> Option<i64>
    ensures { IfSome result (λ n. meaning.held vars.now x ≡ pay.Num n) }
{
    match held(vars, x) {
        Pay::Num(n) => Some(n),
        Pay::Ref(_) => None,
    }
}

/// The number that the operators give, if there are any.
#[cycle(computed)]
fn computed(vars: &[Pay], e: &Expr) -> Option<i64>
    ensures { IfSome result (λ n. meaning.value vars.now (expression e.now) ≡ Ok (pay.Num n)) }
{
    match e {
        Expr::Num(_) | Expr::Var(_) | Expr::Me => None,
        Expr::Neg(a) => operand(vars, a)?.checked_neg(),
        Expr::Chain(a, pairs) => {
            let Some(n) = operand(vars, a) else {
                return None;
            };
            Some(chained(vars, n, pairs)?)
        }
        Expr::Cmp(rel, a, b) => {
            let Some(n) = operand(vars, a) else {
                return None;
            };
            let Some(m) = operand(vars, b) else {
                return None;
            };
            Some(compares(*rel, n, m) as i64)
        }
    }
}

/// The number of a chain whose operands so far have come to n, if it is one.
// By `?` the compiled loop would test twice whether there is a number.
#[cycle(computed)]
#[inline(always)]
fn chained(vars: &[Pay], n: i64, pairs: &[(Op, Expr)]) -> Option<i64>
    ensures { IfSome result (λ m.
        meaning.chained vars.now n (pairs_of (map pair pairs.now)) ≡ Ok (pay.Num m)) }
{
    let mut so_far = n;
    for (op, e) in pairs {
        let Some(m) = operand(vars, e) else {
            return None;
        };
        let Some(next) = applied(*op, so_far, m) else {
            return None;
        };
        so_far = next;
    }
    Some(so_far)
}
