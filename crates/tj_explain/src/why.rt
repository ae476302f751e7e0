//! What is told of an outcome.
ghost use Rattle.std.specs.Prelude.{◌≡◌, IfOk};
ghost use Rattle.tj_mean.specs.Outcomes.{Ascend};
ghost use Rattle.tj_trace.specs.Traces.{names_of};
ghost use Rattle.tj_json.specs.JsonTexts as json;
ghost use Rattle.tj_findings.specs.Scenes.{view};
ghost use Rattle.tj_explain.specs.Tellings as tellings;
ghost use Rattle.tj_texts.specs.WhyTexts as spec;

use crate::telling::Telling;
use tj_base::Oom;
use tj_findings::Scene;
use tj_forest::{forest_of_run, picture};
use tj_json::{fine_json, forest_json};
use tj_mean::{Outcome, marked};
use tj_texts::{fine_text, forest_text};
use tj_trace::TraceLine;

/// What is told of the outcome of a script's run, with these lines of a trace.
pub fn why_text(
    scene: &Scene,
    lines: &[TraceLine],
    outcome: &Outcome,
    telling: Telling,
) -> Result<Vec<u8>, Oom>
    requires { Ascend (names_of lines.now) }
    ensures { IfOk result (λ text.
        text.items ≡ tellings.why_text (view scene.now) lines.now outcome.now telling) }
{
    match telling {
        Telling::Wrong => told_text(scene, lines, outcome, false),
        Telling::All => told_text(scene, lines, outcome, true),
        Telling::Dot => picture(scene, lines, outcome.cycles.items()),
        Telling::Json => told_json(scene, lines, outcome),
    }
}

/// What is told of an outcome, perhaps with all of each cycle.
fn told_text(
    scene: &Scene,
    lines: &[TraceLine],
    outcome: &Outcome,
    all: bool,
) -> Result<Vec<u8>, Oom>
    requires { Ascend (names_of lines.now) }
    ensures { IfOk result (λ text.
        text.items ≡ spec.told_text (view scene.now) lines.now outcome.now all) }
{
    if !marked(outcome) {
        return fine_text(scene.alloc, lines.len());
    }
    let forest = forest_of_run(scene, lines, outcome.cycles.items())?;
    forest_text(scene, all, &forest)
}

/// What is told of an outcome as objects of JSON.
fn told_json(scene: &Scene, lines: &[TraceLine], outcome: &Outcome) -> Result<Vec<u8>, Oom>
    requires { Ascend (names_of lines.now) }
    ensures { IfOk result (λ text.
        text.items ≡ json.told_json (view scene.now) lines.now outcome.now) }
{
    if !marked(outcome) {
        return fine_json(scene.alloc, lines.len());
    }
    let forest = forest_of_run(scene, lines, outcome.cycles.items())?;
    forest_json(scene, &forest)
}
