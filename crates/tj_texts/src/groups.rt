//! Findings that are told on one line. A cause is put into the first group to which it belongs, and else
//! it begins one. That group is found by a key in an ordered map.
ghost use Rattle.std.specs.Prelude.{◌≡◌, ◌++◌, ◌∷◌, [], IfOk, cond, false, map, unwrap_or};
ghost use Rattle.tj_findings.specs.Forests.{view_tree};
ghost use Rattle.tj_findings.specs.Groups as spec;
ghost use Rattle.tj_texts.specs.Inner.GroupKeys.{AreNumbered, found};
ghost use Rattle.tj_texts.specs.Inner.GroupViews.{view, views};

use crate::group_keys::key_of;
use std::alloc::Global;
use std::collections::BTreeMap;
use tj_base::Oom;
use tj_findings::{Finding, Tree};

/// For each key of findings the number of the first group whose findings have it.
type Keys = BTreeMap<Vec<usize>, usize>;

/// Findings that are told on one line, and what follows from them.
#[derive(Drop)]
pub struct Group<'f> {
    pub members: Vec<&'f Finding>,
    pub below: Vec<&'f Finding>,
}

impl<'f> Group<'f> {
    /// No finding yet.
    fn empty(alloc: Global) -> Group<'f>
        ensures { view result ≡ record { members = []; below = [] } }
    {
        Group {
            members: Vec::new(alloc),
            below: Vec::new(alloc),
        }
    }

    /// One cause more, and what follows from it.
    fn put(&mut self, root: &'f Finding, below: &'f [Finding]) -> Result<(), Oom>
        ensures { IfOk result (λ _. view self.new
            ≡ spec.with_tree (record { root = root.now; below = below.now }) (view self.old)) }
    {
        self.members.push(root)?;
        for finding in below {
            self.below.push(finding)?;
        }
        Ok(())
    }
}

/// A cause by itself.
fn alone<'f>(alloc: Global, root: &'f Finding, below: &'f [Finding]) -> Result<Group<'f>, Oom>
    ensures { IfOk result (λ group. view group
        ≡ spec.alone (record { root = root.now; below = below.now })) }
{
    let mut group = Group::empty(alloc);
    group.put(root, below)?;
    Ok(group)
}

/// The number of the group of findings with this key, and else the number behind so many groups.
fn number_of(numbers: &Keys, key: &Vec<usize>, count: usize) -> usize
    ensures { result ≡ unwrap_or (found numbers.now key.now) count }
{
    numbers.get(key).copied().unwrap_or(count)
}

/// One cause more in the groups, and what follows from it.
fn put_grouped<'f>(
    alloc: Global,
    groups: &mut Vec<Group<'f>>,
    numbers: &mut Keys,
    root: &'f Finding,
    below: &'f [Finding],
) -> Result<(), Oom>
    requires numbers { AreNumbered groups.now.items numbers.now }
    ensures put { IfOk result (λ _. views groups.new.items ≡ spec.grouped
        (views groups.old.items) (record { root = root.now; below = below.now })) }
    ensures numbers { IfOk result (λ _. AreNumbered groups.new.items numbers.new) }
{
    let key = key_of(alloc, root)?;
    let number = number_of(numbers, &key, groups.len());
    if number < groups.len() {
        groups[number].put(root, below)?;
        return Ok(());
    }
    let group = alone(alloc, root, below)?;
    groups.push(group)?;
    numbers.insert(key, number)?;
    Ok(())
}

/// One cause more: where all is told by itself, and else in the groups.
fn put<'f>(
    alloc: Global,
    all: bool,
    groups: &mut Vec<Group<'f>>,
    numbers: &mut Keys,
    root: &'f Finding,
    below: &'f [Finding],
) -> Result<(), Oom>
    requires numbers { all ≡ false → AreNumbered groups.now.items numbers.now }
    ensures numbers { IfOk result (λ _.
        all ≡ false → AreNumbered groups.new.items numbers.new) }
    ensures put { IfOk result (λ _. views groups.new.items ≡ cond all
        (views groups.old.items ++ spec.alone (record { root = root.now; below = below.now }) ∷ [])
        (spec.grouped (views groups.old.items) (record { root = root.now; below = below.now }))) }
{
    if !all {
        return put_grouped(alloc, groups, numbers, root, below);
    }
    groups.push(alone(alloc, root, below)?)?;
    Ok(())
}

/// The groups of causes.
pub fn groups_of(alloc: Global, all: bool, trees: &[Tree]) -> Result<Vec<Group<'_>>, Oom>
    ensures { IfOk result (λ groups. views groups.items
        ≡ spec.groups all (map view_tree trees.now)) }
{
    let mut groups = Vec::new(alloc);
    let mut numbers = BTreeMap::new(alloc);
    for tree in trees {
        put(
            alloc,
            all,
            &mut groups,
            &mut numbers,
            &tree.root,
            tree.below.as_slice(),
        )?;
    }
    Ok(groups)
}

/// The groups of consequences.
pub fn leaf_groups<'f>(
    alloc: Global,
    all: bool,
    findings: &[&'f Finding],
) -> Result<Vec<Group<'f>>, Oom>
    ensures { IfOk result (λ groups. views groups.items
        ≡ spec.leaf_groups all (map (λ f. f.now) findings.now)) }
{
    let mut groups = Vec::new(alloc);
    let mut numbers = BTreeMap::new(alloc);
    for finding in findings {
        put(alloc, all, &mut groups, &mut numbers, *finding, &[])?;
    }
    Ok(groups)
}
