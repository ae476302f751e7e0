//! Where the bytes of a name lie: a short name in place, any other in memory of its own.
ghost use Rattle.std.specs.Prelude.{◌≡◌, IfOk};
ghost use Rattle.tj_lex.specs.Inner.Rooms.{IsRoom, bytes_in};

use std::alloc::{AllocError, Global};

/// The most bytes that lie in place.
pub(crate) const SHORT: usize = 30;

/// The bytes of a name. A short one is the first so many of these.
#[derive(Drop)]
pub(crate) enum Room {
    Short(u8, [u8; SHORT]),
    Long(Vec<u8>),
}

impl Room {
    /// A copy of these bytes.
    pub(crate) fn copied(alloc: Global, bytes: &[u8]) -> Result<Room, AllocError>
        ensures bytes { IfOk result (λ room. bytes_in room ≡ bytes.now) }
        ensures room { IfOk result IsRoom }
    {
        if bytes.len() > SHORT {
            return Ok(Room::Long(Vec::from_slice(alloc, bytes)?));
        }
        let mut short = [0; SHORT];
        short[..bytes.len()].copy_from_slice(bytes);
        Ok(Room::Short(bytes.len() as u8, short))
    }

    /// The bytes.
    pub(crate) fn bytes(&self) -> &[u8]
        requires { IsRoom self.now }
        ensures { result.now ≡ bytes_in self.now }
    {
        match self {
            Room::Short(len, short) => &short[..*len as usize],
            Room::Long(bytes) => bytes.as_slice(),
        }
    }
}
