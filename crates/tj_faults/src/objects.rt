//! How an object of JSON begins, and a text in it.
ghost use Rattle.std.specs.Prelude.{◌≡◌, IfOk};
ghost use Rattle.tj_faults.specs.Objects as spec;

use crate::texts::joined;
use std::alloc::Global;
use tj_base::Oom;

/// A text in quotes.
pub fn quoted(alloc: Global, text: &[u8]) -> Result<Vec<u8>, Oom>
    ensures { IfOk result (λ json. json.items ≡ spec.quoted text.now) }
{
    joined(alloc, &[b"\"", text, b"\""])
}

/// The beginning of an object of this kind.
pub fn begin_object(alloc: Global, kind: &[u8]) -> Result<Vec<u8>, Oom>
    ensures { IfOk result (λ json. json.items ≡ spec.begin kind.now) }
{
    let kind = quoted(alloc, kind)?;
    joined(alloc, &[b"{\"kind\":", kind.as_slice()])
}
