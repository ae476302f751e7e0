//! The statements of a script by their numbers, in a table that is made once.
ghost use Rattle.std.specs.Prelude.{◌≡◌, ◌++◌, IfOk, OnOk, map, slice_get};
ghost use Rattle.std.specs.Option.{option_map};
ghost use Rattle.tj_syntax.specs.View as trees;
ghost use Rattle.tj_syntax.specs.Within.{inside, within};
ghost use Rattle.tj_findings.specs.Scenes as spec;

use crate::scene::Scene;
use std::alloc::Global;
use tj_base::Oom;
use tj_syntax::{Block, Script, Stmt};

/// The statements of each declaration, by their numbers.
pub fn statements_of<'s>(alloc: Global, script: &'s Script) -> Result<Vec<Vec<&'s Stmt>>, Oom>
    ensures { IfOk result (λ table.
        spec.view_table (map (λ d. map (λ q. q.now) d.items) table.items)
        ≡ spec.statements_of (trees.script script.now)) }
{
    let mut table = Vec::with_capacity(alloc, script.tasks.len())?;
    for task in &script.tasks {
        let mut statements = Vec::new(alloc);
        add_block(&task.body, &mut statements)?;
        table.push(statements)?;
    }
    Ok(table)
}

/// Adds a statement and those within it.
#[cycle(add)]
fn add_statement<'s>(statement: &'s Stmt, list: &mut Vec<&'s Stmt>) -> Result<(), Oom>
    ensures { OnOk result (map trees.statement (map (λ q. q.now) list.new.items)
        ≡ map trees.statement (map (λ q. q.now) list.old.items)
        ++ inside (trees.statement statement.now)) }
{
    list.push(statement)?;
    match statement {
        Stmt::If(_, body, Some(other)) => {
            add_block(body, list)?;
            add_block(other, list)
        }
        Stmt::If(_, body, None) | Stmt::While(_, body) => add_block(body, list),
        _ => Ok(()),
    }
}

/// Adds the statements of a block and those within them.
#[cycle(add)]
fn add_block<'s>(block: &'s Block, list: &mut Vec<&'s Stmt>) -> Result<(), Oom>
    ensures { OnOk result (map trees.statement (map (λ q. q.now) list.new.items)
        ≡ map trees.statement (map (λ q. q.now) list.old.items)
        ++ within (trees.block block.now)) }
{
    for statement in &block.stmts {
        add_statement(statement, list)?;
    }
    Ok(())
}

/// The statement with this number in the declaration with that one.
pub fn statement_at<'s>(scene: &Scene<'s>, decl: usize, at: usize) -> Option<&'s Stmt>
    ensures { option_map (λ q. trees.statement q.now) result
        ≡ spec.statement_at (spec.view scene.now) decl at }
{
    let statements = scene.statements.get(decl)?;
    let statement = statements.get(at)?;
    Some(*statement)
}
