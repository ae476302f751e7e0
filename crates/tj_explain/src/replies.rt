//! What is told where there are no findings: of a text that is no script, of a run that needs more
//! cells, and of one in which nothing went wrong.
ghost use Rattle.std.specs.Prelude.{◌≡◌, IfOk};
ghost use Rattle.tj_syntax.specs.ScriptTexts.{IsMemory};
ghost use Rattle.tj_findings.specs.Scenes.{view};
ghost use Rattle.tj_explain.specs.Tellings as spec;

use crate::full_lines::{full_json, full_text};
use crate::telling::Telling;
use std::alloc::Global;
use tj_base::Oom;
use tj_faults::{fault_json, told_fault_text};
use tj_findings::Scene;
use tj_json::fine_json;
use tj_lex::Token;
use tj_syntax::NoScript;
use tj_texts::fine_text;
use tj_trace::Most;

/// Whether it is told as objects of JSON.
fn is_json(telling: Telling) -> bool
    ensures { result ≡ spec.is_json telling }
{
    matches!(telling, Telling::Json)
}

/// What is told where nothing went wrong with so many tasks.
pub fn fine_told(alloc: Global, telling: Telling, count: usize) -> Result<Vec<u8>, Oom>
    ensures { IfOk result (λ text. text.items ≡ spec.fine_told telling count) }
{
    if is_json(telling) {
        fine_json(alloc, count)
    } else {
        fine_text(alloc, count)
    }
}

/// What is told of a run that needs more cells than these, where this statement made most.
pub fn full_told(scene: &Scene, telling: Telling, cells: u32, most: Most) -> Result<Vec<u8>, Oom>
    ensures { IfOk result (λ text.
        text.items ≡ spec.full_told telling (view scene.now) cells most) }
{
    if is_json(telling) {
        full_json(scene, cells, most)
    } else {
        full_text(scene, cells, most)
    }
}

/// What is told of a text with this fault and these tokens. Want of memory has none.
pub fn fault_told(
    alloc: Global,
    telling: Telling,
    text: &[u8],
    tokens: &[Token],
    fault: NoScript,
) -> Result<Vec<u8>, Oom>
    ensures text { IfOk result (λ told.
        told.items ≡ spec.fault_told telling text.now tokens.now fault) }
    ensures none { IfOk result (λ _. ¬ IsMemory fault) }
{
    if is_json(telling) {
        fault_json(alloc, text, tokens, fault)
    } else {
        told_fault_text(alloc, text, tokens, fault)
    }
}
