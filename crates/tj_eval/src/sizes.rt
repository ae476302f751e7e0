//! How many statements stand within each statement of a script, counted once for each declaration.
ghost use Rattle.std.specs.Prelude.{◌≡◌, ◌++◌, ◌-◌, ◌<◌, ◌≤◌, ◌+◌, IfOk, OnOk};
ghost use Rattle.std.specs.Prelude.{Some, length, map, slice_get, slice_set};
ghost use Rattle.tj_syntax.specs.View as view;
ghost use Rattle.tj_eval.specs.declared.sizes.Size.{Size};
ghost use Rattle.tj_eval.specs.Sizes.{size_of, sizes_of};
ghost use Rattle.tj_eval.specs.Stands.{inside, within};

use std::alloc::Global;
use std::marker::Model;
use tj_base::Oom;
use tj_syntax::{Block, Script, Stmt};

/// How many statements a statement is with those within it, and how many of them stand in its first block.
#[derive(Clone, Copy)]
pub(crate) struct Size {
    pub(crate) whole: usize,
    pub(crate) first: usize,
}

/// The sizes of a script's statements. Each has its own, so that a number of a statement is an index.
// Counted once for a script: a loop over a large block that isn't taken would pay in each turn.
#[derive(Drop)]
pub struct Sizes {
    decls: Vec<Vec<Size>>,
}

impl Model for Sizes {
    ghost use Rattle.std.specs.Prelude.{List, map};
    ghost use Rattle.tj_eval.specs.declared.sizes.Size.{Size};

    ghost Value = { List (List Size) };

    ghost use Rattle.std.specs.Coded.{codes};

    ghost coded = { Prim.hlevel (codes) };

    ghost view = { λ s. map (λ d. d.items) s.decls.items };
}

impl Sizes {
    /// The sizes of the script's statements.
    pub fn of(alloc: Global, script: &Script) -> Result<Sizes, Oom>
        // The sizes are those of the script: of each statement of each declaration how many it is
        // with those within it, and how many of these stand in its first block.
        ensures { IfOk result (λ sizes. sizes ≡ sizes_of (view.script script.now)) }
    {
        let mut decls = Vec::with_capacity(alloc, script.tasks.len())?;
        for decl in &script.tasks {
            let mut sizes = Vec::new(alloc);
            count_block(&decl.body, &mut sizes)?;
            decls.push(sizes)?;
        }
        Ok(Sizes { decls })
    }

    /// The sizes of a declaration.
    pub(crate) fn of_task(&self, f: usize) -> &[Size]
        requires { f < length self.now }
        ensures { slice_get self.now f ≡ Some result.now }
    {
        self.decls[f].as_slice()
    }
}

/// Counts a statement and those within it, behind what was counted before.
#[cycle(count)]
fn count(stmt: &Stmt, sizes: &mut Vec<Size>) -> Result<(), Oom>
    ensures { OnOk result (sizes.new.items
        ≡ sizes.old.items ++ map size_of (inside (view.statement stmt.now))) }
{
    let n = sizes.len();
    sizes.push(Size { whole: 1, first: 0 })?;
    match stmt {
        Stmt::If(_, body, other) => {
            count_block(body, sizes)?;
            let end = sizes.len();
            match other {
                Some(other) => {
                    count_block(other, sizes)?;
                    close(sizes, n, end);
                    Ok(())
                }
                None => {
                    close(sizes, n, end);
                    Ok(())
                }
            }
        }
        Stmt::While(_, body) => {
            count_block(body, sizes)?;
            let end = sizes.len();
            close(sizes, n, end);
            Ok(())
        }
        _ => Ok(()),
    }
}

/// Counts the statements of a block and those within them.
#[cycle(count)]
fn count_block(body: &Block, sizes: &mut Vec<Size>) -> Result<(), Oom>
    ensures { OnOk result (sizes.new.items
        ≡ sizes.old.items ++ map size_of (within (view.block body.now))) }
{
    for s in &body.stmts {
        count(s, sizes)?;
    }
    Ok(())
}

/// Statement n ends behind the last one that was counted, and its first block behind number end.
fn close(sizes: &mut Vec<Size>, n: usize, end: usize)
    requires first { n < end }
    requires end { end ≤ length sizes.old.items }
    ensures { let whole = length sizes.old.items - n in
        let size : Size = record { whole = whole; first = end - (n + 1) } in
        sizes.new.items ≡ slice_set sizes.old.items n size }
{
    sizes[n] = Size {
        whole: sizes.len() - n,
        first: end - (n + 1),
    };
}
