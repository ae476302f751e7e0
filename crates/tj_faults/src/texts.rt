//! Texts put together, and the text of a position.
ghost use Rattle.std.specs.Prelude.{◌≡◌, IfOk, map};
ghost use Rattle.tj_faults.specs.JoinedTexts as spec;
ghost use Rattle.tj_faults.specs.Spots as spots;

use std::alloc::Global;
use tj_base::{Oom, add_count, add_number};
use tj_lex::Place;

/// These texts, one behind the other.
pub fn joined(alloc: Global, parts: &[&[u8]]) -> Result<Vec<u8>, Oom>
    ensures { IfOk result (λ text. text.items ≡ spec.joined (map (λ part. part.now) parts.now)) }
{
    let mut text = Vec::new(alloc);
    for part in parts {
        text.extend_from_slice(part)?;
    }
    Ok(text)
}

/// A position.
pub fn place_text(alloc: Global, place: Place) -> Result<Vec<u8>, Oom>
    ensures { IfOk result (λ text. text.items ≡ spots.place_text place) }
{
    let mut text = Vec::new(alloc);
    add_number(&mut text, place.line as u128)?;
    add_count(&mut text, b":", place.column as u128)?;
    Ok(text)
}
