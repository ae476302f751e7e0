//! Causes with what follows from them.
ghost use Rattle.std.specs.Prelude.{◌≡◌, ◌++◌, ◌∷◌, [], IfOk, map};
ghost use Rattle.tj_findings.specs.Forests as spec;

use crate::finding::Finding;
use std::alloc::Global;
use tj_base::Oom;

/// A cause with what follows from it, and its rank among the causes.
#[derive(Drop)]
pub struct Tree {
    pub rank: usize,
    pub root: Finding,
    pub below: Vec<Finding>,
}

/// Causes, and what follows from none of them.
#[derive(Drop)]
pub struct Forest {
    pub trees: Vec<Tree>,
    pub strays: Vec<Finding>,
}

impl Tree {
    /// A cause with nothing below it.
    pub fn bare(alloc: Global, rank: usize, root: Finding) -> Tree
        ensures rank { result.rank ≡ rank }
        ensures root { result.root ≡ root }
        ensures below { result.below.items ≡ [] }
    {
        Tree {
            rank,
            root,
            below: Vec::new(alloc),
        }
    }

    /// One finding more below the cause.
    fn put(&mut self, finding: Finding) -> Result<(), Oom>
        ensures { IfOk result (λ _. spec.view_tree self.new
            ≡ record { root = self.old.root; below = self.old.below.items ++ finding ∷ [] }) }
    {
        self.below.push(finding)?;
        Ok(())
    }
}

/// One finding more below the cause with this number, if there is one.
fn put_below(trees: &mut Vec<Tree>, number: usize, finding: Finding) -> Result<(), Oom>
    ensures { IfOk result (λ _. map spec.view_tree trees.new.items
        ≡ spec.put_below number finding (map spec.view_tree trees.old.items)) }
{
    if number < trees.len() {
        trees[number].put(finding)?;
    } else {
        leave(finding);
    }
    Ok(())
}

/// What has no place. It is dropped here, so that no other proof takes a finding apart for that.
fn leave(_finding: Finding) {}

impl Forest {
    /// One finding more: below the cause with this number, or among the strays.
    pub fn put(&mut self, number: Option<usize>, finding: Finding) -> Result<(), Oom>
        ensures { IfOk result (λ _. spec.view_forest self.new
            ≡ spec.put number finding (spec.view_forest self.old)) }
    {
        match number {
            Some(number) => put_below(&mut self.trees, number, finding),
            None => {
                self.strays.push(finding)?;
                Ok(())
            }
        }
    }
}
