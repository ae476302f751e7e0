//! A text with a name, with that of a child, and one of three.
ghost use Rattle.std.specs.Prelude.{◌≡◌, ◌++◌, IfOk};
ghost use Rattle.tj_base.specs.ForkOrder.{child};
ghost use Rattle.tj_base.specs.Texts.{name_text};
ghost use Rattle.tj_findings.specs.PartTexts as spec;

use crate::finding::Stop;
use std::alloc::Global;
use tj_base::{Name, Oom, add_count};

/// These bytes and the name of a cell.
pub fn named(alloc: Global, before: &[u8], name: &Name) -> Result<Vec<u8>, Oom>
    ensures { IfOk result (λ text. text.items ≡ before.now ++ name_text name.now) }
{
    let mut text = Vec::from_slice(alloc, before)?;
    name.text_into(alloc, &mut text)?;
    Ok(text)
}

/// These bytes and the name of the thing with this number of a task.
pub fn child_named(alloc: Global, before: &[u8], maker: &Name, thing: usize) -> Result<Vec<u8>, Oom>
    ensures { IfOk result (λ text.
        text.items ≡ before.now ++ name_text (child maker.now thing)) }
{
    let mut text = named(alloc, before, maker)?;
    add_count(&mut text, b".", thing as u128)?;
    Ok(text)
}

/// Of these three texts the one for how a task stopped: it ended, failed, or waits.
pub fn by_stop(
    stop: Stop,
    ended: &'static [u8],
    failed: &'static [u8],
    waits: &'static [u8],
) -> &'static [u8]
    ensures { result.now ≡ spec.by_stop stop ended.now failed.now waits.now }
{
    match stop {
        Stop::Ended => ended,
        Stop::Failed => failed,
        Stop::Waits => waits,
    }
}
