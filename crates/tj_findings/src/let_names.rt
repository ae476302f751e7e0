//! The variable of the `let` that made a promise.
ghost use Rattle.std.specs.Prelude.{◌≡◌, IfOk, Some};
ghost use Rattle.std.specs.Option.{option_map};
ghost use Rattle.tj_syntax.specs.View as trees;
ghost use Rattle.tj_findings.specs.LetNames as spec;
ghost use Rattle.tj_findings.specs.Scenes.{view};

use crate::scene::Scene;
use crate::statements::statement_at;
use tj_base::Oom;
use tj_faults::joined;
use tj_syntax::{Call, Decl, Rhs, Stmt};
use tj_trace::Maker;

/// The variable that a statement declares for a new promise, if it does so.
fn let_variable(statement: &Stmt) -> Option<u32>
    ensures { result ≡ spec.let_variable (trees.statement statement.now) }
{
    match statement {
        Stmt::Let(x, Rhs::Call(Call::New)) => Some(*x),
        _ => None,
    }
}

/// The name of the variable that a statement of a declaration declares for a new promise.
fn variable_name<'s>(decl: &'s Decl, statement: &Stmt) -> Option<&'s [u8]>
    ensures { option_map (λ name. name.now) result
        ≡ spec.named_in (Some (trees.task decl.now)) (Some (trees.statement statement.now)) }
{
    let variable = let_variable(statement)?;
    let name = decl.vars.get(variable as usize)?;
    Some(name.bytes())
}

/// The name of the variable of the `let` that made a promise, if one made it.
pub fn let_name<'s>(scene: &Scene<'s>, maker: Maker) -> Option<&'s [u8]>
    ensures { option_map (λ name. name.now) result ≡ spec.let_name (view scene.now) maker }
{
    let decl = scene.script.tasks.get(maker.decl)?;
    let statement = statement_at(scene, maker.decl, maker.at)?;
    variable_name(decl, statement)
}

/// This name in front of what else is told of a promise.
pub fn let_text(scene: &Scene, maker: Maker) -> Result<Vec<u8>, Oom>
    ensures { IfOk result (λ text.
        text.items ≡ spec.let_text (spec.let_name (view scene.now) maker)) }
{
    match let_name(scene, maker) {
        Some(name) => joined(scene.alloc, &[name, b", "]),
        None => Ok(Vec::new(scene.alloc)),
    }
}
