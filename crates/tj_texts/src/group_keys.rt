//! Numbers that findings have in common which are told on one line, and only those.
ghost use Rattle.std.specs.Prelude.{◌≡◌, ◌∷◌, IfOk};
ghost use Rattle.tj_findings.specs.Groups as spec;
ghost use Rattle.tj_texts.specs.Inner.GroupKeys.{key, made_at, stands};

use std::alloc::Global;
use tj_base::{Cause, Oom};
use tj_findings::{Finding, Wait};
use tj_trace::Maker;

/// The number of a cause's word.
fn word_number(cause: &Cause) -> usize
    ensures { result ≡ spec.word_number cause.now }
{
    match cause {
        Cause::Arith => 0,
        Cause::Kind => 1,
        Cause::Steps => 2,
        Cause::Owner(_) => 3,
        Cause::Broken(_) => 4,
        Cause::Order(_) => 5,
    }
}

/// These numbers.
fn numbers(alloc: Global, numbers: &[usize]) -> Result<Vec<usize>, Oom>
    ensures { IfOk result (λ copy. copy.items ≡ numbers.now) }
{
    Ok(Vec::from_slice(alloc, numbers)?)
}

/// The key of a cycle with these waits: the statements at which they stand.
fn cycle_key(alloc: Global, waits: &[Wait]) -> Result<Vec<usize>, Oom>
    ensures { IfOk result (λ key. key.items ≡ 0 ∷ stands waits.now) }
{
    let mut key = numbers(alloc, &[0])?;
    for wait in waits {
        key.extend_from_slice(&[wait.task.decl, wait.task.at])?;
    }
    Ok(key)
}

/// The key of a promise that is owed, made by this statement.
fn owed_key(alloc: Global, maker: Option<Maker>) -> Result<Vec<usize>, Oom>
    ensures { IfOk result (λ key. key.items ≡ 3 ∷ made_at maker) }
{
    match maker {
        Some(maker) => numbers(alloc, &[3, maker.decl, maker.at]),
        None => numbers(alloc, &[3]),
    }
}

/// The key of a finding.
pub fn key_of(alloc: Global, finding: &Finding) -> Result<Vec<usize>, Oom>
    ensures { IfOk result (λ found. found.items ≡ key finding.now) }
{
    match finding {
        Finding::Cycle(waits) => cycle_key(alloc, waits.items()),
        Finding::Behind(wait) => numbers(alloc, &[1, wait.task.decl, wait.task.at]),
        Finding::Failed { task, cause, .. } => {
            numbers(alloc, &[2, task.decl, task.at, word_number(cause)])
        }
        Finding::Owed { promise, .. } => owed_key(alloc, promise.maker),
        Finding::Echo { task, .. } => numbers(alloc, &[4, task.decl, task.at]),
    }
}
