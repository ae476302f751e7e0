//! Which joins of a script are of tasks that the joiner knew of.
ghost use Rattle.std.specs.Prelude.{◌≡◌, ◌⊎◌, false, ℕ, List, IfOk};
ghost use Rattle.tj_mean.specs.ActLines.{AreActLines};
ghost use Rattle.tj_known.specs.KnownLines.{AreTold, joins_in};
ghost use Rattle.tj_known.specs.KnownTexts as texts;
ghost use Rattle.tj_known.specs.declared.known.KnownLine.{KnownLine};
ghost use Rattle.tj_ports.specs.Reading.{IsWithin};
ghost use Rattle.tj_modes.specs.Inputs.{IsReadOf};
ghost use Rattle.tj_modes.specs.KnownRuns.{IsKnownOf, has_against};
ghost use Rattle.tj_modes.specs.Output.{IsRefused, IsStartOfText};
ghost use Rattle.tj_modes.specs.Runs as runs;
ghost use Rattle.tj_modes.specs.Runs.{Start, IsStartOf};
ghost use Rattle.tj_syntax.specs.ScriptTexts.{IsSomeScript};
ghost use Rattle.tj_command.specs.Limits.{AreLimits};
ghost use Rattle.tj_syntax.specs.ScriptTexts.{most_bytes};
ghost use Rattle.tj_syntax.specs.View as view;

use crate::plain_outputs::refused;
use crate::script_run::full;
use std::alloc::Global;
use tj_base::Oom;
use tj_command::{Output, script_of, status_of};
use tj_eval::main_body;
use tj_known::{How, KnownLine, known_joins, known_text};
use tj_mean::{ActLines, PlanFault, acts};
use tj_ports::ReadEnd;
use tj_syntax::Script;

/// What is told of the joins of the script that the input is, or the line of its fault.
pub fn joins_of(alloc: Global, input: &ReadEnd, cells: u32, steps: u32) -> Result<Output, Oom>
    requires limits { AreLimits (record { cells = cells; steps = steps; strict = false }) }
    requires within { IsWithin most_bytes input.now }
    ensures { IfOk result (λ output. (all : List ℕ) → IsReadOf all input.now
        → IsRefused all output.status output.text.items ⊎ ((start : Start)
        × IsStartOfText (record { cells = cells; steps = steps; strict = false }) all start
        × IsKnownOf start output.status output.text.items)) }
{
    match script_of(alloc, input) {
        Ok(script) => joins_in_script(alloc, &script, cells, steps),
        Err(fault) => refused(alloc, fault),
    }
}

/// What is told of the joins of the script, or that its meaning is full.
fn joins_in_script(alloc: Global, script: &Script, cells: u32, steps: u32) -> Result<Output, Oom>
    requires limits { AreLimits (record { cells = cells; steps = steps; strict = false }) }
    requires script { IsSomeScript (view.script script.now) }
    ensures { IfOk result (λ output. (start : Start)
        × IsStartOf (record { cells = cells; steps = steps; strict = false })
        (view.script script.now) start
        × IsKnownOf start output.status output.text.items) }
{
    let root = main_body(alloc, script, steps)?;
    match acts(alloc, &root, cells) {
        Ok(lines) => joins_told(alloc, &lines),
        Err(PlanFault::Full) => full(alloc, cells),
        Err(PlanFault::Oom) => Err(Oom),
    }
}

/// The text of the joins among these acts, which is marked where one is against the fork order.
fn joins_told(alloc: Global, lines: &ActLines) -> Result<Output, Oom>
    requires { AreActLines lines.now }
    ensures { IfOk result (λ output. (joins : List KnownLine)
        × AreTold lines.now (joins_in lines.now) joins
        × (output.status ≡ runs.status_of (has_against joins))
        × (output.text.items ≡ texts.known_text joins)) }
{
    let joins = known_joins(alloc, lines)?;
    Ok(Output {
        status: status_of(is_one_against(joins.items())),
        text: known_text(alloc, &joins)?,
    })
}

/// Whether one of the joins is against the fork order.
fn is_one_against(joins: &[KnownLine]) -> bool
    ensures { result ≡ has_against joins.now }
{
    joins.iter().any(|join| is_against(join.how))
}

/// Whether this is said of a join that is against the fork order.
fn is_against(how: How) -> bool
    ensures { result ≡ texts.is_against how }
{
    match how {
        How::Against => true,
        How::Known | How::Along => false,
    }
}
