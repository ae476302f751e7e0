//! How a text tells a promise: by its name, the statement that made it, and who owns it.
ghost use Rattle.std.specs.Prelude.{◌≡◌, IfOk};
ghost use Rattle.tj_findings.specs.Scenes.{view};
ghost use Rattle.tj_findings.specs.PartTexts as spec;

use crate::finding::ToldCell;
use crate::labels::spot_text;
use crate::let_names::let_text;
use crate::scene::Scene;
use crate::texts::named;
use std::alloc::Global;
use tj_base::{Name, Oom, Sort};
use tj_faults::joined;
use tj_trace::Maker;

/// Who owns a promise, if somebody does.
pub fn owner_text(alloc: Global, owner: &Option<Name>) -> Result<Vec<u8>, Oom>
    ensures { IfOk result (λ text. text.items ≡ spec.owner_text owner.now) }
{
    let Some(name) = owner else {
        return Ok(Vec::new(alloc));
    };
    let mut text = named(alloc, b", which ", name)?;
    text.extend_from_slice(b" owns")?;
    Ok(text)
}

/// For which variable and where a promise was made.
pub fn made_text(scene: &Scene, maker: Option<Maker>) -> Result<Vec<u8>, Oom>
    ensures { IfOk result (λ text. text.items ≡ spec.made_text (view scene.now) maker) }
{
    let Some(maker) = maker else {
        return Ok(Vec::new(scene.alloc));
    };
    let variable = let_text(scene, maker)?;
    let spot = spot_text(scene, maker.decl, maker.at)?;
    joined(
        scene.alloc,
        &[
            b" (",
            variable.as_slice(),
            b"made at ",
            spot.as_slice(),
            b")",
        ],
    )
}

/// A promise with the statement that made it.
pub fn promise_text(scene: &Scene, promise: &ToldCell) -> Result<Vec<u8>, Oom>
    ensures { IfOk result (λ text. text.items ≡ spec.promise_text (view scene.now) promise.now) }
{
    let made = made_text(scene, promise.maker)?;
    let mut text = named(scene.alloc, b"the promise ", &promise.name)?;
    text.extend_from_slice(made.as_slice())?;
    Ok(text)
}

/// Whether a cell is a promise, by what made it.
pub fn is_promise(maker: Option<Maker>) -> bool
    ensures { result ≡ spec.is_promise maker }
{
    match maker {
        Some(maker) => is_promise_sort(maker.sort),
        None => false,
    }
}

/// Whether this is the sort of promises.
fn is_promise_sort(sort: Sort) -> bool
    ensures { result ≡ spec.is_promise_sort sort }
{
    match sort {
        Sort::Promise => true,
        Sort::Task => false,
    }
}
