//! How a text tells a cause.
ghost use Rattle.std.specs.Prelude.{◌≡◌, IfOk};
ghost use Rattle.tj_mean.specs.ReportTexts as reports;
ghost use Rattle.tj_findings.specs.PartTexts as spec;

use crate::texts::named;
use std::alloc::Global;
use tj_base::{Cause, Oom};

/// Why a task failed, in the words of a report.
pub fn cause_text(alloc: Global, cause: &Cause) -> Result<Vec<u8>, Oom>
    ensures { IfOk result (λ text. text.items ≡ reports.cause_text cause.now) }
{
    match cause {
        Cause::Arith => Ok(Vec::from_slice(alloc, b"arith")?),
        Cause::Kind => Ok(Vec::from_slice(alloc, b"kind")?),
        Cause::Steps => Ok(Vec::from_slice(alloc, b"steps")?),
        Cause::Owner(name) => named(alloc, b"owner ", name),
        Cause::Broken(name) => named(alloc, b"broken ", name),
        Cause::Order(name) => named(alloc, b"order ", name),
    }
}

/// The word of a cause.
pub fn cause_word(cause: &Cause) -> &'static [u8]
    ensures { result.now ≡ spec.cause_word cause.now }
{
    match cause {
        Cause::Arith => b"arith",
        Cause::Kind => b"kind",
        Cause::Steps => b"steps",
        Cause::Owner(_) => b"owner",
        Cause::Broken(_) => b"broken",
        Cause::Order(_) => b"order",
    }
}
