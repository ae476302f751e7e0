//! What findings say of their tasks, and whether two say the same.
ghost use Rattle.std.specs.Prelude.{◌≡◌};
ghost use Rattle.std.specs.Option.{option_map};
ghost use Rattle.tj_findings.specs.Groups as spec;

use tj_base::{Cause, Name};
use tj_findings::{Finding, ToldTask, Wait};
use tj_trace::Maker;

/// Whether the tasks stopped at the same statement.
pub fn same_stand(first: &ToldTask, second: &ToldTask) -> bool
    ensures { result ≡ spec.same_stand first.now second.now }
{
    first.decl == second.decl && first.at == second.at
}

/// Whether the same statement made both.
pub fn same_maker(first: Option<Maker>, second: Option<Maker>) -> bool
    ensures { result ≡ spec.same_maker first second }
{
    match (first, second) {
        (Some(first), Some(second)) => first.decl == second.decl && first.at == second.at,
        (None, None) => true,
        (Some(_), None) | (None, Some(_)) => false,
    }
}

/// Whether they are the same name.
pub fn same_name(first: Option<&Name>, second: Option<&Name>) -> bool
    ensures { result ≡ spec.same_name (option_map (λ x. x.now) first.entry)
        (option_map (λ x. x.now) second.entry) }
{
    match (first, second) {
        (Some(first), Some(second)) => *first == *second,
        (None, None) => true,
        (Some(_), None) | (None, Some(_)) => false,
    }
}

/// The wait of a task of which a finding tells: of a cycle, of its member with this number.
pub fn wait_at(number: usize, finding: &Finding) -> Option<&Wait>
    ensures { option_map (λ wait. wait.now) result ≡ spec.wait_at number finding.now }
{
    match finding {
        Finding::Cycle(waits) => waits.items().get(number),
        Finding::Behind(wait) => Some(wait),
        Finding::Failed { .. } | Finding::Owed { .. } | Finding::Echo { .. } => None,
    }
}

/// The task that failed, or that owed a promise.
pub fn task_told(finding: &Finding) -> Option<&ToldTask>
    ensures { option_map (λ task. task.now) result ≡ spec.task_told finding.now }
{
    match finding {
        Finding::Failed { task, .. } | Finding::Echo { task, .. } => Some(task),
        Finding::Owed { owner, .. } => Some(owner),
        Finding::Cycle(_) | Finding::Behind(_) => None,
    }
}

/// The cell which a cause names.
pub fn cell_named(cause: &Cause) -> Option<&Name>
    ensures { option_map (λ name. name.now) result ≡ spec.cell_named cause.now }
{
    match cause {
        Cause::Owner(name) | Cause::Broken(name) | Cause::Order(name) => Some(name),
        Cause::Arith | Cause::Kind | Cause::Steps => None,
    }
}

/// The cell for which a task failed, or that it owed.
pub fn cell_told(finding: &Finding) -> Option<&Name>
    ensures { option_map (λ name. name.now) result ≡ spec.cell_told finding.now }
{
    match finding {
        Finding::Failed { cause, .. } => cell_named(cause),
        Finding::Owed { promise, .. } => Some(&promise.name),
        Finding::Echo { cell, .. } => Some(&cell.name),
        Finding::Cycle(_) | Finding::Behind(_) => None,
    }
}

/// The statement that made that cell.
pub fn maker_told(finding: &Finding) -> Option<Maker>
    ensures { result ≡ spec.maker_told finding.now }
{
    match finding {
        Finding::Failed { about, .. } => *about,
        Finding::Owed { promise, .. } => promise.maker,
        Finding::Echo { cell, .. } => cell.maker,
        Finding::Cycle(_) | Finding::Behind(_) => None,
    }
}

/// The name of the task where an echo began.
pub fn origin_told(finding: &Finding) -> Option<&Name>
    ensures { option_map (λ name. name.now) result ≡ spec.origin_told finding.now }
{
    match finding {
        Finding::Echo { origin, .. } => Some(&origin.as_ref()?.name),
        _ => None,
    }
}
