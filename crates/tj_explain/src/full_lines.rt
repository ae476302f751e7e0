//! What is told of a run that needs more cells than the limit.
ghost use Rattle.std.specs.Prelude.{◌≡◌, ◌++◌, ◌+◌, codes, decimal, IfOk};
ghost use Rattle.tj_explain.specs.FullTexts as spec;
ghost use Rattle.tj_findings.specs.Scenes.{view};

use std::alloc::Global;
use tj_base::{Oom, add_count};
use tj_command::full_line;
use tj_faults::{begin_object, joined, quoted};
use tj_findings::{Scene, spot_text};
use tj_trace::Most;

/// How many of the first cells a statement made.
fn counts_text(alloc: Global, cells: u32, count: usize) -> Result<Vec<u8>, Oom>
    ensures { IfOk result (λ text. text.items
        ≡ codes "  " ++ decimal count ++ codes " of the first " ++ decimal (cells + 1)) }
{
    let mut text = Vec::new(alloc);
    add_count(&mut text, b"  ", count as u128)?;
    add_count(&mut text, b" of the first ", cells as u128 + 1)?;
    Ok(text)
}

/// The line that says that more are needed, and below it the statement that made most of the first.
pub fn full_text(scene: &Scene, cells: u32, most: Most) -> Result<Vec<u8>, Oom>
    ensures { IfOk result (λ text. text.items ≡ spec.full_text (view scene.now) cells most) }
{
    let line = full_line(scene.alloc, cells)?;
    let counts = counts_text(scene.alloc, cells, most.count)?;
    let spot = spot_text(scene, most.maker.decl, most.maker.at)?;
    joined(
        scene.alloc,
        &[
            line.as_slice(),
            counts.as_slice(),
            b" made at ",
            spot.as_slice(),
            b"\n",
        ],
    )
}

/// The numbers in its object.
fn counts_json(alloc: Global, cells: u32, count: usize) -> Result<Vec<u8>, Oom>
    ensures { IfOk result (λ json. json.items
        ≡ codes ",\"cells\":" ++ decimal cells ++ codes ",\"most\":" ++ decimal count) }
{
    let mut json = Vec::new(alloc);
    add_count(&mut json, b",\"cells\":", cells as u128)?;
    add_count(&mut json, b",\"most\":", count as u128)?;
    Ok(json)
}

/// The same as an object.
pub fn full_json(scene: &Scene, cells: u32, most: Most) -> Result<Vec<u8>, Oom>
    ensures { IfOk result (λ json. json.items ≡ spec.full_json (view scene.now) cells most) }
{
    let begin = begin_object(scene.alloc, b"full")?;
    let counts = counts_json(scene.alloc, cells, most.count)?;
    let spot = spot_text(scene, most.maker.decl, most.maker.at)?;
    let at = quoted(scene.alloc, spot.as_slice())?;
    joined(
        scene.alloc,
        &[
            begin.as_slice(),
            counts.as_slice(),
            b",\"at\":",
            at.as_slice(),
            b"}\n",
        ],
    )
}
