//! What is written: a text, and the status that belongs to it.
ghost use Rattle.std.specs.Prelude.{◌≡◌};
ghost use Rattle.tj_command.specs.Statuses as statuses;

use crate::status::Status;

/// A text, and the status that belongs to it.
#[derive(Drop)]
pub struct Output {
    pub status: Status,
    pub text: Vec<u8>,
}

/// The status of what is marked, and of what isn't.
pub fn status_of(marked: bool) -> Status
    // The status is Marked of what is marked, and else Clean.
    ensures { result ≡ statuses.status_of marked }
{
    if marked {
        Status::Marked
    } else {
        Status::Clean
    }
}
