//! The owner of a cell, and the word that stands for it.
ghost use Rattle.std.specs.Prelude.{◌≡◌, ◌≤◌, ◌^◌};
ghost use Rattle.tj_words.specs.Words.Owners.{owner_word, owner_in, owner_number};

use tj_base::CellId;

/// The word of an owner: nobody is 0.
pub(crate) fn word_of_owner(owner: Option<CellId>) -> u64
    ensures word { result ≡ owner_word (owner_number owner) }
    ensures back { owner_in result ≡ owner_number owner }
{
    match owner {
        None => 0,
        Some(task) => task.0 as u64 + 1,
    }
}

/// The owner that a word stands for.
pub(crate) fn owner_of_word(word: u64) -> Option<CellId>
    requires { word ≤ 2 ^ 32 }
    ensures owner { owner_number result ≡ owner_in word }
    ensures back { owner_word (owner_number result) ≡ word }
{
    if word == 0 {
        None
    } else {
        Some(CellId((word - 1) as u32))
    }
}
