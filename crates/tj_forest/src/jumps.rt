//! Steps from line to line, by the numbers of the lines. Each time that they are doubled a jump leads
//! twice as far.
ghost use Rattle.std.specs.Prelude.{◌≡◌, IfOk, List, Option, map, option_and_then, slice_get};
ghost use Rattle.std.specs.Option.{option_map};
ghost use Rattle.tj_trace.specs.declared.line.TraceLine.{TraceLine};
ghost use Rattle.tj_findings.specs.Echoes.{most_doublings};
ghost use Rattle.std.specs.Prelude.{None, get_or, length, unwrap_or};
ghost use Rattle.tj_forest.specs.Inner.Jumps.{AreEach, AreJumps, jump};
ghost use Rattle.tj_forest.specs.Inner.Numbers.{AreSteps};

use std::alloc::Global;
use tj_base::Oom;
use tj_trace::TraceLine;

/// How often steps are doubled: a run of 2 ^ 20 cells has 2 ^ 21 + 1 rounds, and so many steps lead on.
const MOST_DOUBLINGS: usize = 21;

/// Where a step from this number leads, if there is one.
pub fn step(steps: &[Option<usize>], from: usize) -> Option<usize>
    ensures { result ≡ get_or steps.now from None }
{
    match steps.get(from) {
        Some(to) => *to,
        None => None,
    }
}

/// Where a jump from this number leads.
pub fn jump(jumps: &[usize], from: usize) -> usize
    ensures { result ≡ jump jumps.now from }
{
    match jumps.get(from) {
        Some(to) => *to,
        None => from,
    }
}

/// Jumps that lead as far as two of these.
fn doubled(alloc: Global, jumps: &[usize]) -> Result<Vec<usize>, Oom>
    ensures { IfOk result (λ more. more.items ≡ map (jump jumps.now) jumps.now) }
{
    let mut more = Vec::new(alloc);
    for to in jumps {
        more.push(jump(jumps, *to))?;
    }
    Ok(more)
}

/// The jumps of as many steps as there can be, where these are of one step. Jumps that lead no
/// further when they are doubled are those of more steps, too.
fn doubled_often(alloc: Global, single: Vec<usize>) -> Result<Vec<usize>, Oom>
    ensures { IfOk result (λ jumps. (lines : List TraceLine) (f : TraceLine → Option TraceLine)
        → AreJumps lines f 0 single.items → AreJumps lines f most_doublings jumps.items) }
{
    let mut jumps = single;
    let mut left = MOST_DOUBLINGS;
    while left > 0 {
        let more = doubled(alloc, jumps.as_slice())?;
        if more == jumps {
            return Ok(jumps);
        }
        jumps = more;
        left -= 1;
    }
    Ok(jumps)
}

/// The jumps of one step. Where no step leads on they stay.
fn single(alloc: Global, steps: &[Option<usize>]) -> Result<Vec<usize>, Oom>
    ensures { IfOk result (λ jumps. AreEach (λ n to. to ≡ unwrap_or (get_or steps.now n None) n)
        (λ n. n) (length steps.now) jumps.items) }
{
    let mut jumps = Vec::new(alloc);
    for (number, step) in steps.iter().enumerate() {
        jumps.push((*step).unwrap_or(number))?;
    }
    Ok(jumps)
}

/// The jumps of as many steps as there can be tasks or rounds, and more.
pub fn jumps_by(alloc: Global, steps: &[Option<usize>]) -> Result<Vec<usize>, Oom>
    ensures { IfOk result (λ jumps. (lines : List TraceLine) (f : TraceLine → Option TraceLine)
        → AreSteps lines f steps.now → AreJumps lines f most_doublings jumps.items) }
{
    let jumps = single(alloc, steps)?;
    doubled_often(alloc, jumps)
}

/// The line where a jump from this number leads.
pub fn line_from<'t>(
    lines: &'t [TraceLine],
    jumps: &[usize],
    number: Option<usize>,
) -> Option<&'t TraceLine>
    ensures { option_map (λ line. line.now) result
        ≡ option_and_then (λ n. slice_get lines.now (jump jumps.now n)) number }
{
    lines.get(jump(jumps, number?))
}

/// The line where a jump from the one with this number leads.
pub fn line_at<'t>(lines: &'t [TraceLine], jumps: &[usize], number: usize) -> Option<&'t TraceLine>
    ensures { option_map (λ line. line.now) result ≡ slice_get lines.now (jump jumps.now number) }
{
    lines.get(jump(jumps, number))
}
