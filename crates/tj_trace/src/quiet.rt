//! Which declarations have no `new`: their tasks make no promise.
ghost use Rattle.std.specs.Prelude.{◌≡◌, IfOk};
ghost use Rattle.tj_syntax.specs.View as view;
ghost use Rattle.tj_syntax.specs.Within.{inside, within};
ghost use Rattle.tj_trace.specs.Inner.Quiet.{are_quiet, quiet_of};

use std::alloc::Global;
use tj_base::Oom;
use tj_syntax::{Block, Call, Rhs, Script, Stmt};

/// Of each declaration whether it has no `new`.
pub fn quiet_tasks(alloc: Global, script: &Script) -> Result<Vec<bool>, Oom>
    ensures { IfOk result (λ quiet. quiet.items ≡ quiet_of (view.script script.now)) }
{
    let mut quiet = Vec::with_capacity(alloc, script.tasks.len())?;
    for task in &script.tasks {
        quiet.push(is_quiet_block(&task.body))?;
    }
    Ok(quiet)
}

/// Whether neither the statement nor one within it has the ask `new`.
#[cycle(quiet)]
fn is_quiet(stmt: &Stmt) -> bool
    ensures { result ≡ are_quiet (inside (view.statement stmt.now)) }
{
    match stmt {
        Stmt::Let(_, Rhs::Call(Call::New)) => false,
        Stmt::Assign(_, Rhs::Call(Call::New)) => false,
        Stmt::Do(Call::New) => false,
        Stmt::If(_, body, other) => match other {
            Some(other) => is_quiet_block(body) && is_quiet_block(other),
            None => is_quiet_block(body),
        },
        Stmt::While(_, body) => is_quiet_block(body),
        _ => true,
    }
}

/// Whether no statement of the block, and none within one, has the ask `new`.
#[cycle(quiet)]
fn is_quiet_block(block: &Block) -> bool
    ensures { result ≡ are_quiet (within (view.block block.now)) }
{
    for statement in &block.stmts {
        if !is_quiet(statement) {
            return false;
        }
    }
    true
}
