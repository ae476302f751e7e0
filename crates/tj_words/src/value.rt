//! What becomes of a cell, and the two words that stand for it: TAG, which is 0 until something has,
//! and BITS.
ghost use Rattle.std.specs.Prelude.{◌≡◌, ◌<◌, ◌≢◌, ◌⊎◌, ◌^◌, None};
ghost use Rattle.tj_words.specs.Words.Values as values;

use tj_base::CellId;
use tj_record::Fill;

/// TAG and BITS of a cell that is filled, or broken: BITS of a broken one is 0.
pub fn value_words(fill: Option<Fill>) -> (u64, u64)
    // TAG tells whether a cell is filled with a number, a promise or a task, or is broken.
    ensures tag { result.0 ≡ values.tag_word fill }
    // With it BITS tells the number or the cell.
    ensures bits { values.fill_in result.0 result.1 ≡ fill }
    // BITS of a broken cell is 0.
    ensures broken { fill ≡ None → result.1 ≡ 0 }
{
    match fill {
        Some(Fill::Num(number)) => (1, number.cast_unsigned()),
        Some(Fill::Promise(cell)) => (2, cell.0 as u64),
        Some(Fill::Task(cell)) => (3, cell.0 as u64),
        None => (4, 0),
    }
}

/// What TAG and BITS of a cell stand for of which something has become: `None` where it is broken.
pub fn value_of_words(tag: u64, bits: u64) -> Option<Fill>
    requires { values.NamesCell tag → bits < 2 ^ 32 }
    // What TAG and BITS of a closed cell stand for is what the definition says.
    ensures { result ≡ values.fill_in tag bits }
{
    match tag {
        1 => Some(Fill::Num(bits.cast_signed())),
        2 => Some(Fill::Promise(CellId(bits as u32))),
        3 => Some(Fill::Task(CellId(bits as u32))),
        _ => None,
    }
}
