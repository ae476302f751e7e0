//! What went wrong with a run as objects of JSON: the causes, and behind each what follows from it.
ghost use Rattle.std.specs.Prelude.{◌≡◌, IfOk, map};
ghost use Rattle.std.specs.List.{flat_map};
ghost use Rattle.tj_findings.specs.Forests.{view_forest, view_tree};
ghost use Rattle.tj_json.specs.JsonTexts as spec;
ghost use Rattle.tj_findings.specs.Scenes.{view};

use crate::json::{finding_json, findings_json};
use tj_base::Oom;
use tj_faults::joined;
use tj_findings::{Forest, Scene, Tree};

/// A cause, and behind it what follows from it.
fn tree_json(scene: &Scene, tree: &Tree) -> Result<Vec<u8>, Oom>
    ensures { IfOk result (λ json.
        json.items ≡ spec.tree_json (view scene.now) (view_tree tree.now)) }
{
    let cause = finding_json(scene, 0, &tree.root)?;
    let below = findings_json(scene, 1, tree.below.as_slice())?;
    joined(scene.alloc, &[cause.as_slice(), below.as_slice()])
}

/// Each of these causes.
fn trees_json(scene: &Scene, trees: &[Tree]) -> Result<Vec<u8>, Oom>
    ensures { IfOk result (λ json. json.items
        ≡ flat_map (spec.tree_json (view scene.now)) (map view_tree trees.now)) }
{
    let mut json = Vec::new(scene.alloc);
    for tree in trees {
        let added = tree_json(scene, tree)?;
        json.extend_from_slice(added.as_slice())?;
    }
    Ok(json)
}

/// A forest of findings.
pub fn forest_json(scene: &Scene, forest: &Forest) -> Result<Vec<u8>, Oom>
    // The objects are the stated ones of this forest.
    ensures { IfOk result (λ json.
        json.items ≡ spec.forest_json (view scene.now) (view_forest forest.now)) }
{
    let trees = trees_json(scene, forest.trees.as_slice())?;
    let strays = findings_json(scene, 0, forest.strays.as_slice())?;
    joined(scene.alloc, &[trees.as_slice(), strays.as_slice()])
}
