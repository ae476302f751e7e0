//! Why a run is to end, and the word STOP, which says it.
ghost use Rattle.std.specs.Prelude.{◌≡◌, ◌<◌, ◌≤◌, IfSome, None, Some};
ghost use Rattle.tj_words.specs.Words.StopWords.{stop_in, stop_word};

/// Why a run is to end.
#[derive(Clone, Copy)]
pub enum Stop {
    /// A draw found no cell left.
    Full,
    /// Memory is lacking.
    Memory,
}

impl Stop {
    /// The word STOP.
    #[inline(always)]
    pub fn word(self) -> u64
        // The word of a cause to stop is that of the definition.
        ensures word { result ≡ stop_word self }
        // It stands for this cause.
        ensures back { stop_in result ≡ Some self }
        // It isn't 0.
        ensures some { 0 < result }
        // It is 2 at most.
        ensures known { result ≤ 2 }
    {
        match self {
            Stop::Full => 1,
            Stop::Memory => 2,
        }
    }

    /// What the word STOP says, and nothing where the run goes on.
    #[inline(always)]
    pub fn of_word(word: u64) -> Option<Stop>
        requires { word ≤ 2 }
        // The cause that STOP says is that of the definition.
        ensures stop { result ≡ stop_in word }
        // There is none only where STOP is 0.
        ensures none { result ≡ None → word ≡ 0 }
        // Its word is this word.
        ensures back { IfSome result (λ why. stop_word why ≡ word) }
    {
        match word {
            0 => None,
            1 => Some(Stop::Full),
            _ => Some(Stop::Memory),
        }
    }
}
