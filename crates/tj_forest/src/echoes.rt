//! Failures that only echo another: from which task's end they came.
ghost use Rattle.std.specs.Prelude.{◌≡◌};
ghost use Rattle.std.specs.Option.{option_map};
ghost use Rattle.tj_findings.specs.Echoes as spec;
ghost use Rattle.tj_forest.specs.Inner.Jumps.{AreJumps};
ghost use Rattle.tj_forest.specs.Inner.Numbers.{IsNumberOf, IsSearchable};

use crate::jumps::line_from;
use crate::lookups::Lookups;
use crate::searches::breaker;
use tj_base::{Cause, Name};
use tj_mean::Ending;
use tj_trace::TraceLine;

/// The cell whose being broken is the cause of a failure.
fn echoed(cause: &Cause) -> Option<&Name>
    ensures { option_map (λ name. name.now) result ≡ spec.echoed cause.now }
{
    match cause {
        Cause::Broken(name) => Some(name),
        Cause::Arith | Cause::Kind | Cause::Steps | Cause::Owner(_) | Cause::Order(_) => None,
    }
}

/// The same of what became of a task.
pub fn echoed_by(ending: &Ending) -> Option<&Name>
    ensures { option_map (λ name. name.now) result ≡ spec.echoed_by ending.now }
{
    match ending {
        Ending::Failed(cause) => echoed(cause),
        Ending::Done(_) | Ending::Waits(_) => None,
    }
}

/// The number of the line of the task from whose end the failure of this one came.
pub fn back(lookups: &Lookups, line: &TraceLine) -> Option<usize>
    requires lookups { IsSearchable lookups.now }
    ensures { IsNumberOf lookups.now.lines.now result
        (spec.back lookups.now.lines.now line.now) }
{
    breaker(lookups, echoed_by(&line.line.ending)?)
}

/// The line of the task from whose end the cell's being broken came at first.
#[tactic(auto, using(crate::proofs::JumpsDoubled::origin_is))]
pub fn origin<'t>(lookups: &Lookups<'t>, jumps: &[usize], cell: &Name) -> Option<&'t TraceLine>
    requires lookups { IsSearchable lookups.now }
    requires jumps { AreJumps lookups.now.lines.now (spec.back lookups.now.lines.now)
        spec.most_doublings jumps.now }
    ensures { option_map (λ line. line.now) result
        ≡ spec.origin lookups.now.lines.now cell.now }
{
    line_from(lookups.lines, jumps, breaker(lookups, cell))
}
