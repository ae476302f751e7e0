//! The bytes of a name.
ghost use Rattle.std.specs.Prelude.{◌≡◌, IfOk};

use crate::room::Room;
use std::alloc::{AllocError, Global};
use std::marker::Model;

/// A name, as it stands in the text.
// A name of at most 30 bytes lies in the word itself: a script of 211 KB has 28,000 names.
#[derive(Drop)]
pub struct Word {
    room: Room,
}

impl Model for Word {
    ghost use Rattle.std.specs.Prelude.{ℕ, List};
    ghost use Rattle.tj_lex.specs.Inner.Rooms.{IsRoom, bytes_in};

    ghost Value = { List ℕ };

    ghost view = { λ word. bytes_in word.room };

    ghost invariant = { λ word. IsRoom word.room };
}

impl Word {
    /// The word of these bytes.
    pub fn of(bytes: Vec<u8>) -> Word
        // The word has the given bytes.
        ensures { result ≡ bytes.items }
    {
        Word {
            room: Room::Long(bytes),
        }
    }

    /// The word of a copy of these bytes.
    pub fn copied(alloc: Global, bytes: &[u8]) -> Result<Word, AllocError>
        // If it gives a word, it has the given bytes.
        ensures { IfOk result (λ word. word ≡ bytes.now) }
    {
        let room = Room::copied(alloc, bytes)?;
        Ok(Word { room })
    }

    /// The bytes.
    pub fn bytes(&self) -> &[u8]
        // It gives the bytes of the word.
        ensures { result.now ≡ self.now }
    {
        self.room.bytes()
    }
}
