//! The lines that `tj` alone writes in place of an output: where the words have no form, and where a
//! journal is refused.
ghost use Rattle.std.specs.Prelude.{◌≡◌, IfOk};
ghost use Rattle.tj_modes.specs.Texts as texts;

use std::alloc::Global;
use tj_base::Oom;
use tj_command::count_text;

/// What is written where the words have no form.
pub const USAGE_LINE: &[u8] =
    b"usage: tj run|plan|list|judge|gen|known|relay|watch [--workers N] [--cells N] [--steps N] [--size N] [--strict]\n";

/// The line of a fault of a journal.
pub fn journal_fault(alloc: Global, number: u32) -> Result<Vec<u8>, Oom>
    ensures { IfOk result (λ line. line.items ≡ texts.journal_fault number) }
{
    count_text(alloc, b"journal fault at line ", number as u128, b"\n")
}
