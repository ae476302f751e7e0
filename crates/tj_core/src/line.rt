//! The event of the words of a line.
ghost use Rattle.std.specs.Prelude.{◌≡◌, ◌≢◌, ℕ, ◌<◌, ◌^◌, [], ◌∷◌, map, decimal, IfSome, IfNone};
ghost use Rattle.tj_events.specs.declared.event.Event.{Event};
ghost use Rattle.tj_core.specs.Journals.Lines.{verb_of, cells_of, HasSmallCells, Names};

use itoa::Buffer;
use std::str;
use tj_base::CellId;
use tj_events::Event;

/// The event of these words, the first of which is its own.
pub(crate) fn event_of(words: &[&[u8]]) -> Option<Event>
    ensures found { IfSome result (λ e. HasSmallCells e × Names (map (λ w. w.now) words.now) e) }
    ensures none { IfNone result ((e : Event) → HasSmallCells e
        → ¬ Names (map (λ w. w.now) words.now) e) }
{
    match words {
        [verb] => without_cells(verb),
        [verb, t] => of_two(verb, t),
        [verb, t, p] => of_three(verb, t, p),
        [verb, t, p, c] => of_four(verb, t, p, c),
        _ => None,
    }
}

/// The event of these two words.
fn of_two(verb: &[u8], t: &[u8]) -> Option<Event>
    ensures found { IfSome result (λ e. HasSmallCells e × Names (verb.now ∷ t.now ∷ []) e) }
    ensures none { IfNone result ((e : Event) → HasSmallCells e
        → ¬ Names (verb.now ∷ t.now ∷ []) e) }
{
    with_cell(verb, cell(t)?)
}

/// The event of these three words.
fn of_three(verb: &[u8], t: &[u8], p: &[u8]) -> Option<Event>
    ensures found { IfSome result (λ e.
        HasSmallCells e × Names (verb.now ∷ t.now ∷ p.now ∷ []) e) }
    ensures none { IfNone result ((e : Event) → HasSmallCells e
        → ¬ Names (verb.now ∷ t.now ∷ p.now ∷ []) e) }
{
    with_two_cells(verb, cell(t)?, cell(p)?)
}

/// The event of these four words.
fn of_four(verb: &[u8], t: &[u8], p: &[u8], c: &[u8]) -> Option<Event>
    ensures found { IfSome result (λ e.
        HasSmallCells e × Names (verb.now ∷ t.now ∷ p.now ∷ c.now ∷ []) e) }
    ensures none { IfNone result ((e : Event) → HasSmallCells e
        → ¬ Names (verb.now ∷ t.now ∷ p.now ∷ c.now ∷ []) e) }
{
    with_three_cells(verb, cell(t)?, cell(p)?, cell(c)?)
}

/// The event that names no cell.
fn without_cells(verb: &[u8]) -> Option<Event>
    ensures found { IfSome result (λ e. (verb_of e ≡ verb.now) × (cells_of e ≡ [])) }
    ensures none { IfNone result ((e : Event) → cells_of e ≡ [] → verb_of e ≢ verb.now) }
{
    match verb {
        b"lower" => Some(Event::Lower),
        _ => None,
    }
}

/// The event that names one cell.
fn with_cell(verb: &[u8], t: CellId) -> Option<Event>
    ensures found { IfSome result (λ e. (verb_of e ≡ verb.now) × (cells_of e ≡ t.0 ∷ [])) }
    ensures none { IfNone result ((e : Event) → cells_of e ≡ t.0 ∷ [] → verb_of e ≢ verb.now) }
{
    match verb {
        b"make" => Some(Event::Make(t)),
        b"fork" => Some(Event::Fork(t)),
        b"raise" => Some(Event::Raise(t)),
        b"others" => Some(Event::LoadOthers(t)),
        b"count" => Some(Event::LoadCount(t)),
        b"owner" => Some(Event::ReadOwner(t)),
        b"wait" => Some(Event::ReadWait(t)),
        b"again" => Some(Event::ReadOwnerAgain(t)),
        b"alarm" => Some(Event::Alarm(t)),
        b"settle" => Some(Event::Settle(t)),
        b"unwait" => Some(Event::Unwait(t)),
        _ => None,
    }
}

/// The event that names two cells.
fn with_two_cells(verb: &[u8], t: CellId, p: CellId) -> Option<Event>
    ensures found { IfSome result (λ e. (verb_of e ≡ verb.now) × (cells_of e ≡ t.0 ∷ p.0 ∷ [])) }
    ensures none { IfNone result ((e : Event) → cells_of e ≡ t.0 ∷ p.0 ∷ []
        → verb_of e ≢ verb.now) }
{
    match verb {
        b"close" => Some(Event::Close(t, p)),
        b"publish" => Some(Event::Publish(t, p)),
        _ => None,
    }
}

/// The event that names three cells.
fn with_three_cells(verb: &[u8], t: CellId, p: CellId, c: CellId) -> Option<Event>
    ensures found { IfSome result (λ e.
        (verb_of e ≡ verb.now) × (cells_of e ≡ t.0 ∷ p.0 ∷ c.0 ∷ [])) }
    ensures none { IfNone result ((e : Event) → cells_of e ≡ t.0 ∷ p.0 ∷ c.0 ∷ []
        → verb_of e ≢ verb.now) }
{
    match verb {
        b"hand" => Some(Event::Hand(t, p, c)),
        _ => None,
    }
}

/// The cell of a word: a number in decimal with no zero in front.
fn cell(word: &[u8]) -> Option<CellId>
    ensures found { IfSome result (λ c. (decimal c.0 ≡ word.now) × (c.0 < 2 ^ 32)) }
    ensures none { IfNone result ((n : ℕ) → n < 2 ^ 32 → decimal n ≢ word.now) }
{
    let Ok(text) = str::from_utf8(word) else {
        return None;
    };
    let Ok(number) = text.parse::<u32>() else {
        return None;
    };
    let mut buffer = Buffer::new();
    let printed = buffer.format(number).as_bytes();
    if printed == word {
        Some(CellId(number))
    } else {
        None
    }
}
