//! What is told of a forest of findings: of causes that are alike, and below them of what follows.
ghost use Rattle.std.specs.Prelude.{◌≡◌, ◌∷◌, [], IfOk, map};
ghost use Rattle.std.specs.List.{flat_map};
ghost use Rattle.tj_findings.specs.Forests.{view_forest, view_tree};
ghost use Rattle.tj_findings.specs.Groups as groups;
ghost use Rattle.tj_texts.specs.Inner.GroupViews as group_views;
ghost use Rattle.tj_findings.specs.Scenes.{view};
ghost use Rattle.tj_texts.specs.WhyTexts as spec;

use crate::cycle_lines::{deadlock, tasks_text};
use crate::debt_lines::owed_line;
use crate::echo_lines::echo_line;
use crate::failure_lines::failed_line;
use crate::groups::{Group, groups_of, leaf_groups};
use crate::wait_lines::behind_line;
use std::alloc::Global;
use tj_base::Oom;
use tj_faults::joined;
use tj_findings::{Finding, Forest, Scene, Tree};

/// What is told of findings that are alike, of which this is the first.
fn alike_text(
    scene: &Scene,
    all: bool,
    first: &Finding,
    findings: &[&Finding],
) -> Result<Vec<u8>, Oom>
    ensures { IfOk result (λ text. text.items ≡ spec.alike_text (view scene.now) all first.now
        (map (λ f. f.now) findings.now)) }
{
    match first {
        Finding::Cycle(waits) => deadlock(scene, all, findings, waits.items().len()),
        Finding::Behind(_) => behind_line(scene, findings),
        Finding::Failed { task, cause, about } => failed_line(scene, task, cause, *about, findings),
        Finding::Owed { promise, owner } => owed_line(scene, promise, owner, findings),
        Finding::Echo { task, cell, origin } => echo_line(scene, task, cell, origin, findings),
    }
}

/// What is told of findings that are alike, if there are any.
fn members_text(scene: &Scene, all: bool, findings: &[&Finding]) -> Result<Vec<u8>, Oom>
    ensures { IfOk result (λ text. text.items
        ≡ spec.members_text (view scene.now) all (map (λ f. f.now) findings.now)) }
{
    match findings {
        [] => Ok(Vec::new(scene.alloc)),
        [first, ..] => alike_text(scene, all, *first, findings),
    }
}

/// What is told of consequences that are alike, one level below their cause.
fn below_text(scene: &Scene, all: bool, group: &Group) -> Result<Vec<u8>, Oom>
    ensures { IfOk result (λ text. text.items
        ≡ spec.below_text (view scene.now) all (group_views.view group.now)) }
{
    let text = members_text(scene, all, group.members.as_slice())?;
    joined(scene.alloc, &[b"  ", text.as_slice()])
}

/// What is told of each of these groups of consequences.
fn each_below(scene: &Scene, all: bool, groups: &[Group]) -> Result<Vec<u8>, Oom>
    ensures { IfOk result (λ text. text.items
        ≡ flat_map (spec.below_text (view scene.now) all) (group_views.views groups.now)) }
{
    let mut text = Vec::new(scene.alloc);
    for group in groups {
        let added = below_text(scene, all, group)?;
        text.extend_from_slice(added.as_slice())?;
    }
    Ok(text)
}

/// What is told of each of these consequences.
fn consequences_text(scene: &Scene, all: bool, findings: &[&Finding]) -> Result<Vec<u8>, Oom>
    ensures { IfOk result (λ text. text.items ≡ flat_map (spec.below_text (view scene.now) all)
        (groups.leaf_groups all (map (λ f. f.now) findings.now))) }
{
    let groups = leaf_groups(scene.alloc, all, findings)?;
    each_below(scene, all, groups.as_slice())
}

/// What is told of causes that are alike, and below them of what follows from them.
fn group_text(scene: &Scene, all: bool, group: &Group) -> Result<Vec<u8>, Oom>
    ensures { IfOk result (λ text. text.items
        ≡ spec.group_text (view scene.now) all (group_views.view group.now)) }
{
    let causes = members_text(scene, all, group.members.as_slice())?;
    let below = consequences_text(scene, all, group.below.as_slice())?;
    joined(scene.alloc, &[causes.as_slice(), below.as_slice()])
}

/// What is told of each of these findings by itself.
fn strays_text(scene: &Scene, all: bool, findings: &[Finding]) -> Result<Vec<u8>, Oom>
    ensures { IfOk result (λ text. text.items
        ≡ flat_map (λ f. spec.members_text (view scene.now) all (f ∷ [])) findings.now) }
{
    let mut text = Vec::new(scene.alloc);
    for finding in findings {
        let added = members_text(scene, all, &[finding])?;
        text.extend_from_slice(added.as_slice())?;
    }
    Ok(text)
}

/// What is told of each of these groups of causes.
fn each_group(scene: &Scene, all: bool, groups: &[Group]) -> Result<Vec<u8>, Oom>
    ensures { IfOk result (λ text. text.items
        ≡ flat_map (spec.group_text (view scene.now) all) (group_views.views groups.now)) }
{
    let mut text = Vec::new(scene.alloc);
    for group in groups {
        let added = group_text(scene, all, group)?;
        text.extend_from_slice(added.as_slice())?;
    }
    Ok(text)
}

/// What is told of causes and of what follows from them.
fn trees_text(scene: &Scene, all: bool, trees: &[Tree]) -> Result<Vec<u8>, Oom>
    ensures { IfOk result (λ text. text.items ≡ flat_map (spec.group_text (view scene.now) all)
        (groups.groups all (map view_tree trees.now))) }
{
    let groups = groups_of(scene.alloc, all, trees)?;
    each_group(scene, all, groups.as_slice())
}

/// What is told of a forest of findings.
pub fn forest_text(scene: &Scene, all: bool, forest: &Forest) -> Result<Vec<u8>, Oom>
    // The text is the stated one of this forest.
    ensures { IfOk result (λ text. text.items
        ≡ spec.forest_text (view scene.now) all (view_forest forest.now)) }
{
    let trees = trees_text(scene, all, forest.trees.as_slice())?;
    let strays = strays_text(scene, all, forest.strays.as_slice())?;
    joined(scene.alloc, &[trees.as_slice(), strays.as_slice()])
}

/// Nothing went wrong with so many tasks.
pub fn fine_text(alloc: Global, count: usize) -> Result<Vec<u8>, Oom>
    ensures { IfOk result (λ text. text.items ≡ spec.fine_text count) }
{
    let tasks = tasks_text(alloc, count)?;
    let end = b" ended, each promise was set\n";
    joined(alloc, &[b"nothing is wrong: ", tasks.as_slice(), end])
}
