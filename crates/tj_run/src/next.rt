//! How a task goes on, and what it waits for.
ghost use Rattle.std.specs.Prelude.{◌≡◌};

use tj_words::Finish;

/// How a task goes on after an ask or an answer.
#[derive(Clone, Copy)]
pub(crate) enum Next {
    /// Its body is to be given the record's answer.
    Runs,
    /// It waits for the cell at this place, of which nothing had become when it was looked at. Where
    /// `spare` is true a broken cell is answered.
    Waits { place: u32, spare: bool },
    /// It ends like this.
    Ends(Finish),
}

/// What a task waits for: the cell at this place. Where `spare` is true a broken cell is answered.
#[derive(Clone, Copy)]
pub(crate) struct Wanted {
    pub(crate) place: u32,
    pub(crate) spare: bool,
}

impl Wanted {
    /// A wait for the cell at the place.
    #[inline(always)]
    pub(crate) fn of(place: u32, spare: bool) -> Wanted
        ensures place { result.place ≡ place }
        ensures spare { result.spare ≡ spare }
    {
        Wanted { place, spare }
    }
}
