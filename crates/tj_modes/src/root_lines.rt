//! The line that `watch` writes: what became of the root.
ghost use Rattle.std.specs.Prelude.{◌≡◌, IfOk};
ghost use Rattle.tj_mean.specs.declared.outcome.Ending.TheVariants as ending;
ghost use Rattle.tj_modes.specs.RootLines as spec;

use std::alloc::Global;
use tj_base::{Oom, Shown};
use tj_mean::{Ending, TaskLine};
use tj_report::add_shown;

/// The line of the root among these tasks.
pub fn root_line(alloc: Global, lines: &[TaskLine]) -> Result<Vec<u8>, Oom>
    ensures { IfOk result (λ line. line.items ≡ spec.root_line lines.now) }
{
    for line in lines {
        if line.name.depth() == 0 {
            return ending_line(alloc, &line.ending);
        }
    }
    Ok(Vec::new(alloc))
}

/// The line of a root with this ending.
fn ending_line(alloc: Global, ending: &Ending) -> Result<Vec<u8>, Oom>
    ensures { IfOk result (λ line. line.items ≡ spec.ending_line ending.now) }
{
    match ending {
        Ending::Done(value) => done_line(alloc, value),
        Ending::Failed(_) => Ok(Vec::from_slice(alloc, b"root broken\n")?),
        Ending::Waits(_) => Ok(Vec::from_slice(alloc, b"root waits\n")?),
    }
}

/// The line of a root that ended with this value.
pub fn done_line(alloc: Global, value: &Shown) -> Result<Vec<u8>, Oom>
    // The line of a root that ended with this value is the stated one.
    ensures { IfOk result (λ line. line.items ≡ spec.ending_line (ending.Done value.now)) }
{
    let mut line = Vec::from_slice(alloc, b"root ")?;
    add_shown(alloc, value, &mut line)?;
    line.push(b'\n')?;
    Ok(line)
}
