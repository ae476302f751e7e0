//! Where a promise went for which a task failed, as it is told.
ghost use Rattle.std.specs.Prelude.{◌≡◌, ◌++◌, IfOk, codes, map};
ghost use Rattle.std.specs.List.{list_all};
ghost use Rattle.tj_base.specs.ForkOrder.{child};
ghost use Rattle.tj_base.specs.Texts.{name_text};
ghost use Rattle.tj_findings.specs.Scenes as stands;
ghost use Rattle.tj_findings.specs.Scenes.{view};
ghost use Rattle.tj_findings.specs.Went as ways;
ghost use Rattle.tj_texts.specs.WentTexts as spec;
ghost use Rattle.tj_texts.specs.WhyTexts as texts;

use tj_base::{Name, Oom};
use tj_faults::joined;
use tj_findings::{Scene, ToldTask, Went, child_named, named, spot_text};

/// Where a promise went for which a task of this declaration failed.
fn went_text(scene: &Scene, decl: usize, went: &Went) -> Result<Vec<u8>, Oom>
    ensures { IfOk result (λ text. text.items ≡ spec.went_text (view scene.now) decl went.now) }
{
    let alloc = scene.alloc;
    match went {
        Went::Nowhere => Ok(Vec::new(alloc)),
        Went::TwiceHere => Ok(Vec::from_slice(alloc, b", handed twice here")?),
        Went::SetHere(at) => {
            let spot = spot_text(scene, decl, *at)?;
            joined(alloc, &[b", set at ", spot.as_slice()])
        }
        Went::HandedHere { by, thing, at } => handed_text(scene, by, *thing, decl, *at),
        Went::SetBy { task, decl, at } => set_text(scene, task, *decl, *at),
        Went::OwnedBy(task) => {
            let mut text = named(alloc, b", which ", task)?;
            text.extend_from_slice(b" owned where it stopped")?;
            Ok(text)
        }
    }
}

/// The task with this name had handed the promise to its thing with this number there.
fn handed_text(
    scene: &Scene,
    by: &Name,
    thing: usize,
    decl: usize,
    at: usize,
) -> Result<Vec<u8>, Oom>
    ensures { IfOk result (λ text. text.items ≡ codes ", handed to "
        ++ name_text (child by.now thing) ++ codes " at "
        ++ stands.spot_text (view scene.now) decl at) }
{
    let name = child_named(scene.alloc, b", handed to ", by, thing)?;
    let spot = spot_text(scene, decl, at)?;
    joined(scene.alloc, &[name.as_slice(), b" at ", spot.as_slice()])
}

/// The task with this name set the promise there.
fn set_text(scene: &Scene, by: &Name, decl: usize, at: usize) -> Result<Vec<u8>, Oom>
    ensures { IfOk result (λ text. text.items ≡ codes ", which " ++ name_text by.now
        ++ codes " set at " ++ stands.spot_text (view scene.now) decl at) }
{
    let name = named(scene.alloc, b", which ", by)?;
    let spot = spot_text(scene, decl, at)?;
    joined(
        scene.alloc,
        &[name.as_slice(), b" set at ", spot.as_slice()],
    )
}

/// Whether the promises went the same way.
fn same_went(first: &Went, second: &Went) -> bool
    ensures { result ≡ ways.same_went first.now second.now }
{
    match (first, second) {
        (Went::Nowhere, Went::Nowhere) | (Went::TwiceHere, Went::TwiceHere) => true,
        (Went::SetHere(at), Went::SetHere(other)) => *at == *other,
        (
            Went::HandedHere { by, thing, at },
            Went::HandedHere {
                by: task,
                thing: number,
                at: other,
            },
        ) => *by == *task && *thing == *number && *at == *other,
        (
            Went::SetBy { task, decl, at },
            Went::SetBy {
                task: by,
                decl: declared,
                at: other,
            },
        ) => *task == *by && *decl == *declared && *at == *other,
        (Went::OwnedBy(task), Went::OwnedBy(other)) => *task == *other,
        _ => false,
    }
}

/// Whether the promises for which these tasks failed went as that of this one.
fn of_way(went: &Went, tasks: &[&ToldTask]) -> bool
    ensures { result ≡ list_all (λ task. ways.same_went went.now task.went)
        (map (λ task. task.now) tasks.now) }
{
    tasks.iter().all(|task| same_went(went, &task.went))
}

/// Whether the tasks handed the promises on, or others set them, at the same statement, or others
/// owned them.
fn alike_went(first: &Went, second: &Went) -> bool
    ensures { result ≡ spec.alike_went first.now second.now }
{
    match (first, second) {
        (Went::HandedHere { at, .. }, Went::HandedHere { at: other, .. }) => *at == *other,
        (
            Went::SetBy { decl, at, .. },
            Went::SetBy {
                decl: declared,
                at: other,
                ..
            },
        ) => *decl == *declared && *at == *other,
        (Went::OwnedBy(_), Went::OwnedBy(_)) => true,
        _ => false,
    }
}

/// Whether the promises for which these tasks failed went as that of this one, but by several tasks.
fn of_several(went: &Went, tasks: &[&ToldTask]) -> bool
    ensures { result ≡ list_all (λ task. spec.alike_went went.now task.went)
        (map (λ task. task.now) tasks.now) }
{
    tasks.iter().all(|task| alike_went(went, &task.went))
}

/// Where promises went of which this is the first, and the others went alike.
fn each_text(scene: &Scene, decl: usize, went: &Went) -> Result<Vec<u8>, Oom>
    ensures { IfOk result (λ text. text.items ≡ spec.each_text (view scene.now) decl went.now) }
{
    let alloc = scene.alloc;
    match went {
        Went::Nowhere | Went::TwiceHere | Went::SetHere(_) => Ok(Vec::new(alloc)),
        Went::HandedHere { at, .. } => {
            let spot = spot_text(scene, decl, *at)?;
            joined(alloc, &[b", each handed on at ", spot.as_slice()])
        }
        Went::SetBy { decl, at, .. } => {
            let spot = spot_text(scene, *decl, *at)?;
            joined(alloc, &[b", each set by another at ", spot.as_slice()])
        }
        Went::OwnedBy(_) => {
            let text = b", each owned by another where it stopped";
            Ok(Vec::from_slice(alloc, text)?)
        }
    }
}

/// Where the promises went for which tasks failed that stand where this one does, if each handed its
/// own on, or each was set by another, at the same statement, or others owned them.
fn each_went(scene: &Scene, first: &ToldTask, tasks: &[&ToldTask]) -> Result<Vec<u8>, Oom>
    ensures { IfOk result (λ text. text.items
        ≡ texts.each_went (view scene.now) first.now (map (λ task. task.now) tasks.now)) }
{
    if of_several(&first.went, tasks) {
        each_text(scene, first.decl, &first.went)
    } else {
        Ok(Vec::new(scene.alloc))
    }
}

/// Where the promises went for which tasks failed that stand where this one does, if they went the
/// same way, or alike.
pub fn all_went(scene: &Scene, first: &ToldTask, tasks: &[&ToldTask]) -> Result<Vec<u8>, Oom>
    ensures { IfOk result (λ text. text.items
        ≡ texts.all_went (view scene.now) first.now (map (λ task. task.now) tasks.now)) }
{
    if of_way(&first.went, tasks) {
        went_text(scene, first.decl, &first.went)
    } else {
        each_went(scene, first, tasks)
    }
}
