//! Where a promise went for which a task failed, as an object of JSON.
ghost use Rattle.std.specs.Prelude.{◌≡◌, IfOk};
ghost use Rattle.tj_findings.specs.Scenes.{view};
ghost use Rattle.tj_json.specs.JsonTexts as spec;

use crate::values::quoted_name;
use std::alloc::Global;
use tj_base::{Name, Oom};
use tj_faults::{begin_object, joined, quoted};
use tj_findings::{Scene, Went, child_named, spot_text};

/// The end of such an object: the position of a statement.
fn at_json(scene: &Scene, decl: usize, at: usize) -> Result<Vec<u8>, Oom>
    ensures { IfOk result (λ json. json.items ≡ spec.at_json (view scene.now) decl at) }
{
    let spot = spot_text(scene, decl, at)?;
    let spot = quoted(scene.alloc, spot.as_slice())?;
    joined(scene.alloc, &[b",\"at\":", spot.as_slice(), b"}"])
}

/// The failing task had set the promise there.
fn set_here(scene: &Scene, decl: usize, at: usize) -> Result<Vec<u8>, Oom>
    ensures { IfOk result (λ json. json.items ≡ spec.set_here (view scene.now) decl at) }
{
    let begin = begin_object(scene.alloc, b"set here")?;
    let at = at_json(scene, decl, at)?;
    joined(scene.alloc, &[begin.as_slice(), at.as_slice()])
}

/// The failing task, which has this name, had handed the promise to its thing with this number
/// there.
fn handed_here(
    scene: &Scene,
    by: &Name,
    thing: usize,
    decl: usize,
    at: usize,
) -> Result<Vec<u8>, Oom>
    ensures { IfOk result (λ json. json.items
        ≡ spec.handed_here (view scene.now) by.now thing decl at) }
{
    let begin = begin_object(scene.alloc, b"handed here")?;
    let name = child_named(scene.alloc, b"", by, thing)?;
    let name = quoted(scene.alloc, name.as_slice())?;
    let at = at_json(scene, decl, at)?;
    joined(
        scene.alloc,
        &[
            begin.as_slice(),
            b",\"to\":",
            name.as_slice(),
            at.as_slice(),
        ],
    )
}

/// The failing task owned the promise, and handed it twice.
fn handed_twice(alloc: Global) -> Result<Vec<u8>, Oom>
    ensures { IfOk result (λ json. json.items ≡ spec.handed_twice) }
{
    let begin = begin_object(alloc, b"handed twice")?;
    joined(alloc, &[begin.as_slice(), b"}"])
}

/// The task with this name set the promise there.
fn set_by(scene: &Scene, by: &Name, decl: usize, at: usize) -> Result<Vec<u8>, Oom>
    ensures { IfOk result (λ json. json.items ≡ spec.set_by (view scene.now) by.now decl at) }
{
    let begin = begin_object(scene.alloc, b"set")?;
    let name = quoted_name(scene.alloc, by)?;
    let at = at_json(scene, decl, at)?;
    joined(
        scene.alloc,
        &[
            begin.as_slice(),
            b",\"by\":",
            name.as_slice(),
            at.as_slice(),
        ],
    )
}

/// The task with this name owned the promise where it stopped.
fn owned_by(alloc: Global, by: &Name) -> Result<Vec<u8>, Oom>
    ensures { IfOk result (λ json. json.items ≡ spec.owned_by by.now) }
{
    let begin = begin_object(alloc, b"owned")?;
    let name = quoted_name(alloc, by)?;
    joined(
        alloc,
        &[begin.as_slice(), b",\"by\":", name.as_slice(), b"}"],
    )
}

/// Where the promise went for which a task of this declaration failed, if it failed so.
pub fn went_json(scene: &Scene, decl: usize, went: &Went) -> Result<Vec<u8>, Oom>
    ensures { IfOk result (λ json. json.items ≡ spec.went_json (view scene.now) decl went.now) }
{
    match went {
        Went::Nowhere => Ok(Vec::from_slice(scene.alloc, b"null")?),
        Went::SetHere(at) => set_here(scene, decl, *at),
        Went::HandedHere { by, thing, at } => handed_here(scene, by, *thing, decl, *at),
        Went::TwiceHere => handed_twice(scene.alloc),
        Went::SetBy { task, decl, at } => set_by(scene, task, *decl, *at),
        Went::OwnedBy(task) => owned_by(scene.alloc, task),
    }
}
