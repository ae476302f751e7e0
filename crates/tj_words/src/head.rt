//! The head of a chain of waiters, and the word that stands for it. The word NEXT of a task has the
//! same form.
ghost use Rattle.std.specs.Prelude.{◌≡◌, ◌≤◌, ◌^◌};
ghost use Rattle.tj_words.specs.Words.Heads.{HasWord, head_word, head_in};

use tj_base::CellId;

/// How a chain of waiters begins.
#[derive(Clone, Copy, PartialEq, Eq)]
pub enum Head {
    /// Nobody waits.
    Empty,
    /// The task that was added last.
    Task(CellId),
    /// Nobody can be added any more.
    Shut,
}

impl Head {
    /// The word of the head.
    pub fn word(self) -> u64
        requires { HasWord self }
        // The word of a head is that of the definition.
        ensures word { result ≡ head_word self }
        // It stands for this head.
        ensures back { head_in result ≡ self }
    {
        match self {
            Head::Empty => 0,
            Head::Task(task) => task.0 as u64 + 1,
            Head::Shut => SHUT,
        }
    }

    /// The head that a word stands for.
    pub fn of_word(word: u64) -> Head
        requires { word ≤ 2 ^ 32 }
        // The head of a word is that of the definition.
        ensures head { result ≡ head_in word }
        // Its word is this word.
        ensures back { head_word result ≡ word }
    {
        match word {
            0 => Head::Empty,
            SHUT => Head::Shut,
            _ => Head::Task(CellId((word - 1) as u32)),
        }
    }
}

/// The word of a head that is shut.
const SHUT: u64 = 1 << 32;
