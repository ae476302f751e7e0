//! Running a script: how its outcome is told, and the run on one thread.
ghost use Rattle.std.specs.Prelude.{◌≡◌, IfOk};
ghost use Rattle.tj_mean.specs.Outcomes.{is_marked};
ghost use Rattle.tj_modes.specs.Runs.{Start, IsRunOf, IsStartOf};
ghost use Rattle.tj_syntax.specs.ScriptTexts.{IsSomeScript};
ghost use Rattle.tj_command.specs.Limits.{AreLimits};
ghost use Rattle.tj_modes.specs.Runs as runs;
ghost use Rattle.tj_modes.specs.Texts as texts;
ghost use Rattle.tj_syntax.specs.View as view;

use crate::root_lines::root_line;
use std::alloc::Global;
use tj_base::Oom;
use tj_command::{Limits, Output, Status, full_line, status_of};
use tj_eval::main_body;
use tj_mean::{Outcome, PlanFault, marked, plan};
use tj_report::{report_text, summary_text};
use tj_syntax::Script;

/// How an outcome is told: by its report, by the summary of a generated script of a size, or by a
/// line of the root.
#[derive(Clone, Copy)]
pub enum Told {
    Report,
    Summary(u32),
    Root,
}

/// The outcome of a run of the script on one thread, or that it is full.
pub fn run_by_rounds(alloc: Global, script: &Script, limits: Limits) -> Result<Output, Oom>
    requires limits { AreLimits limits }
    requires script { IsSomeScript (view.script script.now) }
    ensures { IfOk result (λ output. (start : Start)
        × IsStartOf limits (view.script script.now) start
        × IsRunOf Told.Report start output.status output.text.items) }
{
    let root = main_body(alloc, script, limits.steps)?;
    match plan(alloc, &root, limits.cells, limits.strict) {
        Ok(outcome) => ended(alloc, Told::Report, &outcome),
        Err(PlanFault::Full) => full(alloc, limits.cells),
        Err(PlanFault::Oom) => Err(Oom),
    }
}

/// What is written of an outcome.
pub fn ended(alloc: Global, told: Told, outcome: &Outcome) -> Result<Output, Oom>
    // Of an outcome the status says whether it is marked, and the text is that of the outcome as it
    // is told.
    ensures status { IfOk result (λ output.
        output.status ≡ runs.status_of (is_marked outcome.now)) }
    ensures text { IfOk result (λ output. output.text.items ≡ runs.text_of told outcome.now) }
{
    Ok(Output {
        status: status_of(marked(outcome)),
        text: text_of(alloc, told, outcome)?,
    })
}

/// The text of an outcome.
pub fn text_of(alloc: Global, told: Told, outcome: &Outcome) -> Result<Vec<u8>, Oom>
    ensures { IfOk result (λ text. text.items ≡ runs.text_of told outcome.now) }
{
    match told {
        Told::Report => report_text(alloc, outcome),
        Told::Summary(size) => summary_text(alloc, size, outcome),
        Told::Root => root_line(alloc, outcome.lines.items()),
    }
}

/// What is written of a run that needs more cells than these.
pub fn full(alloc: Global, cells: u32) -> Result<Output, Oom>
    // Of a run that needs more cells the status is Full and the text is the line that says so.
    ensures status { IfOk result (λ output. output.status ≡ Status.Full) }
    ensures text { IfOk result (λ output. output.text.items ≡ texts.full_line cells) }
{
    Ok(Output {
        status: Status::Full,
        text: full_line(alloc, cells)?,
    })
}
