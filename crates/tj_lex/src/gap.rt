//! Positions of a text, and what may stand between tokens: blanks and comments.
ghost use Rattle.std.specs.Prelude.{◌≡◌, ◌+◌, ◌^◌, ◌-◌, slice_index, ◌<◌, ◌≤◌, length, drop, IfSome, IfNone, false};
ghost use Rattle.tj_lex.specs.declared.place.Place.{Place};
ghost use Rattle.tj_lex.specs.Bytes.{is_gap_start, begins_with};
ghost use Rattle.tj_lex.specs.Inner.Spots.{IsSpot, AreApart};

use crate::bytes::{MAX_TEXT, line_len};
use crate::place::Place;

/// How far a text has been read: up to the byte at `next`, which stands at `at`.
#[derive(Clone, Copy)]
pub(crate) struct Spot {
    pub next: usize,
    pub at: Place,
}

impl Spot {
    /// The start of a text.
    pub(crate) fn start() -> Spot
        ensures next { result.next ≡ 0 }
        ensures line { result.at.line ≡ 1 }
        ensures column { result.at.column ≡ 1 }
    {
        Spot {
            next: 0,
            at: Place { line: 1, column: 1 },
        }
    }

    /// The spot `count` bytes further on the same line.
    pub(crate) fn along(self, count: usize) -> Spot
        requires index { self.next + count < 2 ^ 32 }
        requires column { self.at.column + count < 2 ^ 32 }
        ensures next { result.next ≡ self.next + count }
        ensures line { result.at.line ≡ self.at.line }
        ensures column { result.at.column ≡ self.at.column + count }
    {
        Spot {
            next: self.next + count,
            at: Place {
                line: self.at.line,
                column: self.at.column + count as u32,
            },
        }
    }

    /// The spot behind a line feed.
    pub(crate) fn on_next_line(self) -> Spot
        requires index { self.next < 2 ^ 32 - 1 }
        requires line { self.at.line < 2 ^ 32 - 1 }
        ensures next { result.next ≡ self.next + 1 }
        ensures line { result.at.line ≡ self.at.line + 1 }
        ensures column { result.at.column ≡ 1 }
    {
        Spot {
            next: self.next + 1,
            at: Place {
                line: self.at.line + 1,
                column: 1,
            },
        }
    }
}

/// The spot behind the blanks and comments that stand at a spot.
pub(crate) fn after_gap(text: &[u8], from: Spot) -> Spot
    requires short { length text.now ≤ MAX_TEXT }
    requires spot { IsSpot text.now from }
    ensures spot { IsSpot text.now result }
    ensures gap { AreApart text.now from.next result.next }
    ensures whole { begins_with is_gap_start (drop result.next text.now) ≡ false }
{
    let mut spot = from;
    while let Some(further) = after_piece(text, spot) {
        spot = further;
    }
    spot
}

/// The spot behind one blank or comment, where one stands at a spot.
fn after_piece(text: &[u8], spot: Spot) -> Option<Spot>
    requires short { length text.now ≤ MAX_TEXT }
    requires spot { IsSpot text.now spot }
    ensures spot { IfSome result (IsSpot text.now) }
    ensures piece { IfSome result (λ after. AreApart text.now spot.next after.next) }
    ensures further { IfSome result (λ after. spot.next < after.next) }
    ensures none { IfNone result (begins_with is_gap_start (drop spot.next text.now) ≡ false) }
{
    if spot.next == text.len() {
        return None;
    }
    match text[spot.next] {
        b'\n' => Some(spot.on_next_line()),
        b' ' | b'\t' | b'\r' => Some(spot.along(1)),
        b'#' => Some(after_comment(text, spot)),
        _ => None,
    }
}

/// The spot behind the comment that begins at a spot, and behind its line feed.
fn after_comment(text: &[u8], spot: Spot) -> Spot
    requires short { length text.now ≤ MAX_TEXT }
    requires spot { IsSpot text.now spot }
    requires some { spot.next < length text.now }
    requires comment { slice_index text.now spot.next ≡ 35 }
    ensures spot { IsSpot text.now result }
    ensures comment { AreApart text.now spot.next result.next }
    ensures further { spot.next < result.next }
{
    let end = spot.along(line_len(&text[spot.next..]));
    if end.next < text.len() {
        end.on_next_line()
    } else {
        end
    }
}
