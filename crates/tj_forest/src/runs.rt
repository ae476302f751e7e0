//! What a run's lines and cycles give: the forest of its findings, and a picture.
ghost use Rattle.std.specs.Prelude.{◌≡◌, IfOk};
ghost use Rattle.tj_mean.specs.Outcomes.{Ascend};
ghost use Rattle.tj_trace.specs.Traces.{names_of};
ghost use Rattle.tj_forest.specs.DotTexts as dots;
ghost use Rattle.tj_findings.specs.Forests as forests;
ghost use Rattle.tj_findings.specs.Scenes.{view};

use crate::consequences::forest_of;
use crate::dot::dot_text;
use crate::members::members_of;
use crate::owners::lookups_of;
use tj_base::Oom;
use tj_findings::{Forest, Scene};
use tj_mean::LinkList;
use tj_trace::TraceLine;

/// The forest of findings of a run with these lines of a trace and these cycles.
pub fn forest_of_run(scene: &Scene, lines: &[TraceLine], cycles: &[LinkList]) -> Result<Forest, Oom>
    requires { Ascend (names_of lines.now) }
    // The forest is the one of which the laws speak.
    ensures { IfOk result (λ forest. forests.view_forest forest
        ≡ forests.forest_of (view scene.now).places lines.now cycles.now) }
{
    let lookups = lookups_of(scene.alloc, lines)?;
    forest_of(scene, lookups, cycles)
}

/// The picture of such a run.
pub fn picture(scene: &Scene, lines: &[TraceLine], cycles: &[LinkList]) -> Result<Vec<u8>, Oom>
    requires { Ascend (names_of lines.now) }
    // The text is the stated one.
    ensures { IfOk result (λ text.
        text.items ≡ dots.dot_text (view scene.now) lines.now cycles.now) }
{
    let lookups = lookups_of(scene.alloc, lines)?;
    let members = members_of(scene.alloc, cycles)?;
    dot_text(scene, &lookups, &members)
}
