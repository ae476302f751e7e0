//! The line that `watch` writes: what became of the root.
ghost use Rattle.std.specs.Prelude.{◌≡◌, IfOk};
ghost use Rattle.tj_modes.specs.RootLines as spec;
ghost use Rattle.tj_program.specs.Inner.WatchTells.{ValueTells, WatchTells};

use std::alloc::Global;
use tj_base::{Oom, Shown};
use tj_future::Watched;
use tj_mean::Outcome;
use tj_modes::{Told, done_line, text_of};
use tj_words::Fill;

/// The line of a root of which this was told, where the run has this outcome.
pub fn watch_line(alloc: Global, watched: Watched, outcome: &Outcome) -> Result<Vec<u8>, Oom>
    requires { WatchTells watched outcome.now.lines }
    ensures { IfOk result (λ line. line.items ≡ spec.root_line outcome.now.lines) }
{
    match watched {
        Watched::Value(fill) => value_line(alloc, fill, outcome),
        Watched::Broken => Ok(Vec::from_slice(alloc, b"root broken\n")?),
        Watched::Rested => Ok(Vec::from_slice(alloc, b"root waits\n")?),
        Watched::Stopped(_) => unreachable!(),
    }
}

/// The same of a value. The name of a reference stands in the outcome.
fn value_line(alloc: Global, fill: Fill, outcome: &Outcome) -> Result<Vec<u8>, Oom>
    requires { ValueTells fill outcome.now.lines }
    ensures { IfOk result (λ line. line.items ≡ spec.root_line outcome.now.lines) }
{
    match fill {
        Fill::Num(number) => done_line(alloc, &Shown::Num(number)),
        Fill::Promise(_) | Fill::Task(_) => text_of(alloc, Told::Root, outcome),
    }
}
