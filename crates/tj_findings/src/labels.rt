//! How a text names a task and a position.
ghost use Rattle.std.specs.Prelude.{◌≡◌, IfOk, slice_get};
ghost use Rattle.tj_syntax.specs.View as trees;
ghost use Rattle.tj_findings.specs.Scenes as spec;

use crate::arguments::arguments_text;
use crate::finding::ToldTask;
use crate::scene::Scene;
use crate::texts::named;
use tj_base::Oom;
use tj_faults::{joined, place_text};
use tj_lex::Place;
use tj_syntax::Script;
use tj_trace::{Maker, ask_spot, spot};

/// Where the statement with this number in the declaration with that one is told to stand: at its
/// ask, if it has one.
pub fn told_spot(scene: &Scene, decl: usize, at: usize) -> Option<Place>
    ensures { result ≡ spec.told_spot (slice_get (spec.view scene.now).places decl) at }
{
    ask_spot(scene.places, decl, at).or(spot(scene.places, decl, at))
}

/// Its position.
pub fn spot_text(scene: &Scene, decl: usize, at: usize) -> Result<Vec<u8>, Oom>
    ensures { IfOk result (λ text. text.items ≡ spec.spot_text (spec.view scene.now) decl at) }
{
    match told_spot(scene, decl, at) {
        Some(place) => place_text(scene.alloc, place),
        None => Ok(Vec::from_slice(scene.alloc, b"?")?),
    }
}

/// The name of a declaration.
pub fn name_of(script: &Script, decl: usize) -> &[u8]
    ensures { result.now ≡ spec.name_of (slice_get (trees.script script.now) decl) }
{
    match script.tasks.get(decl) {
        Some(task) => task.name.bytes(),
        None => b"?",
    }
}

/// Where a task was forked.
fn forked_text(scene: &Scene, maker: Option<Maker>) -> Result<Vec<u8>, Oom>
    ensures { IfOk result (λ text. text.items ≡ spec.forked_text (spec.view scene.now) maker) }
{
    let Some(maker) = maker else {
        return Ok(Vec::new(scene.alloc));
    };
    let spot = spot_text(scene, maker.decl, maker.at)?;
    joined(scene.alloc, &[b", forked at ", spot.as_slice()])
}

/// A task with its declaration, its arguments and the fork that made it.
pub fn label(scene: &Scene, task: &ToldTask) -> Result<Vec<u8>, Oom>
    ensures { IfOk result (λ text. text.items ≡ spec.label (spec.view scene.now) task.now) }
{
    let forked = forked_text(scene, task.fork)?;
    let name = named(scene.alloc, b"", &task.name)?;
    let arguments = arguments_text(scene, task.decl, task.began.items())?;
    joined(
        scene.alloc,
        &[
            name.as_slice(),
            b" (task ",
            name_of(scene.script, task.decl),
            arguments.as_slice(),
            forked.as_slice(),
            b")",
        ],
    )
}

/// Where a task stopped.
pub fn stop_text(scene: &Scene, task: &ToldTask) -> Result<Vec<u8>, Oom>
    ensures { IfOk result (λ text. text.items ≡ spec.stop_text (spec.view scene.now) task.now) }
{
    spot_text(scene, task.decl, task.at)
}

/// A task, what it did, and where it stopped.
pub fn task_at(scene: &Scene, task: &ToldTask, did: &[u8]) -> Result<Vec<u8>, Oom>
    ensures { IfOk result (λ text.
        text.items ≡ spec.task_at (spec.view scene.now) task.now did.now) }
{
    let label = label(scene, task)?;
    let stop = stop_text(scene, task)?;
    joined(scene.alloc, &[label.as_slice(), did, stop.as_slice()])
}
