//! The canonical listing of a script: each task with its statements on lines of their own, two
//! spaces more for each block, and parentheses only where an operand's level needs them.
ghost use Rattle.std.specs.Prelude.{◌≡◌, ◌++◌, ◌∷◌, [], OnOk, IfOk, map, take, flat_map, List};
ghost use Rattle.std.specs.List.{AllByRecursion};
ghost use Rattle.tj_lex.specs.declared.token.Tok.{Tok};
ghost use Rattle.tj_syntax.specs.Back.{Says};
ghost use Rattle.tj_syntax.specs.Faults.{IsScript};
ghost use Rattle.tj_syntax.specs.Listing.{CanStand};
ghost use Rattle.tj_syntax.specs.Listing as listing;
ghost use Rattle.tj_syntax.specs.Listing.{text_of};
ghost use Rattle.tj_syntax.specs.View as view;

use crate::list_ask::Scope;
use crate::list_expr::put;
use crate::list_stmt::list_block;
use crate::script::{Decl, Script};
use std::alloc::Global;
use tj_base::Oom;
use tj_lex::Word;

/// Adds parameters behind others, with a comma before each.
#[tactic(auto, using(crate::proofs::Listed::Views::listing_steps))]
fn list_more_params(text: &mut Vec<u8>, params: &[Word]) -> Result<(), Oom>
    ensures { OnOk result (text.new.items ≡ text.old.items ++ text_of
        (listing.more_params params.now)) }
{
    for x in params {
        put(text, b", ")?;
        put(text, x.bytes())?;
    }
    Ok(())
}

#[tactic(auto, using(crate::proofs::Listed::Views::listing_steps))]
fn list_params(text: &mut Vec<u8>, params: &[Word]) -> Result<(), Oom>
    ensures { OnOk result (text.new.items ≡ text.old.items ++ text_of (listing.params params.now)) }
{
    match params {
        [] => Ok(()),
        [first, more @ ..] => {
            put(text, first.bytes())?;
            list_more_params(text, more)
        }
    }
}

/// The parameters of a task.
fn params_of(task: &Decl) -> &[Word]
    ensures { result.now ≡ take task.now.params task.now.vars.items }
{
    let vars = task.vars.as_slice();
    let count = task.params as usize;
    if count < vars.len() {
        &vars[..count]
    } else {
        vars
    }
}

#[tactic(auto, using(crate::proofs::Listed::Views::listing_steps))]
fn list_task(alloc: Global, text: &mut Vec<u8>, tasks: &[Decl], task: &Decl) -> Result<(), Oom>
    ensures { OnOk result (text.new.items ≡ text.old.items ++ text_of
        (listing.task (listing.names_of (map view.task tasks.now)) (view.task task.now))) }
{
    put(text, b"task ")?;
    put(text, task.name.bytes())?;
    put(text, b"(")?;
    list_params(text, params_of(task))?;
    put(text, b") ")?;
    let at = Scope {
        tasks,
        vars: task.vars.as_slice(),
        indent: b"",
    };
    list_block(alloc, text, at, &task.body)?;
    put(text, b"\n")
}

#[tactic(auto, using(crate::proofs::Listed::Views::listing_steps))]
fn script_text(alloc: Global, script: &Script) -> Result<Vec<u8>, Oom>
    ensures { IfOk result (λ text. text.items ≡ listing.listing (view.script script.now)) }
{
    let mut text = Vec::new(alloc);
    let tasks = script.tasks.as_slice();
    for task in tasks {
        list_task(alloc, &mut text, tasks, task)?;
    }
    Ok(text)
}

/// The canonical listing of a script.
// It has no condition: a name that isn't there is listed as no bytes.
pub fn list_text(alloc: Global, script: &Script) -> Result<Vec<u8>, Oom>
    // The text is the canonical listing of the script, byte for byte.
    ensures text { IfOk result (λ text. text.items ≡ listing.listing (view.script script.now)) }

    // Where some tokens that a text can have are the script, those of the listing are it too.
    ensures says { (tokens : List Tok) → AllByRecursion CanStand tokens
        → IsScript tokens (view.script script.now)
        → IfOk result (λ text. Says text.items (view.script script.now)) }
{
    script_text(alloc, script)
}
