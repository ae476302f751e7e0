//! Where bytes go, and putting all of a text.
//!
//! A sink may tell the bytes that it holds, and counts its faults. It takes at least one byte a
//! call, or fails.
ghost use Rattle.std.specs.Prelude.{ℕ, ◌≡◌, ◌-◌, ◌<◌, ◌≤◌, List, Option, None, length, take, IsOk, IfOk, IsOkAnd, OnOk, OnErr};
ghost use Rattle.std.specs.Io.KnownBytes.{Appends, Keeps};
ghost use Rattle.tj_ports.specs.Faults.{HasFault, IsSound};
ghost use Rattle.tj_ports.specs.Putting.{GrowsByPart};

use crate::failed::Failed;

/// Where bytes go.
pub trait Sink {
    /// The bytes that it holds, where it tells them.
    ghost held: { Self → Option (List ℕ) } = { λ _. None };

    /// How often it has failed. The count never falls, and stands still at its last value.
    ghost faults: { Self → ℕ };

    /// It will take this many more bytes without a fault, however they are cut.
    ghost has_room: { Self → ℕ → Type 0 } = { λ _ _. ⊥ };

    /// Adds the first bytes of the piece, and says how many.
    fn put(&mut self, piece: &[u8]) -> Result<usize, Failed>
        requires { 0 < length piece.now }
        // A sink takes at least one byte.
        ensures some { IfOk result (λ n. 0 < n) }
        // It takes no more than the piece has.
        ensures bound { IfOk result (λ n. n ≤ length piece.now) }
        // It holds the first bytes of the piece more.
        ensures added { IfOk result (λ n. Appends (held self.old) (held self.new)
            (take n piece.now)) }
        // After a failure it holds what it held.
        ensures err { OnErr result (Keeps (held self.old) (held self.new)) }

        // The count of faults doesn't fall.
        ensures counted { faults self.old ≤ faults self.new }
        // An `Ok` counts no fault.
        ensures quiet { OnOk result (faults self.new ≡ faults self.old) }
        // A failure comes only where the count rose in this call, or stands at its last value.
        ensures failed { OnErr result (HasFault (faults self.old) (faults self.new)) }
        // A sink with room for the piece answers `Ok`, counts nothing and has room for the rest.
        ensures sound { (room : ℕ) → has_room self.old room → length piece.now ≤ room →
            IsOkAnd result (λ n. IsSound (faults self.old) (faults self.new)
            (has_room self.new (room - n))) };
}

/// Puts all the bytes. It takes no memory.
// It tries no call again after a fault: a contract couldn't say how often.
pub fn put_all<K: Sink>(sink: &mut K, bytes: &[u8]) -> Result<(), Failed>
    // After `Ok` the sink holds exactly the bytes more.
    ensures ok { OnOk result (Appends (K.held sink.old) (K.held sink.new) bytes.now) }
    // After a failure it holds a part of them more, and not all.
    ensures err { OnErr result (GrowsByPart (K.held sink.old) (K.held sink.new) bytes.now) }

    // The count of faults doesn't fall.
    ensures counted { K.faults sink.old ≤ K.faults sink.new }
    // An `Ok` counts no fault.
    ensures quiet { OnOk result (K.faults sink.new ≡ K.faults sink.old) }
    // A failure comes only where the count rose in this call, or stands at its last value.
    ensures failed { OnErr result (HasFault (K.faults sink.old) (K.faults sink.new)) }
    // A sink with room for the bytes answers `Ok`, counts nothing and has room for the rest.
    ensures sound { (room : ℕ) → K.has_room sink.old room → length bytes.now ≤ room →
        IsOk result × IsSound (K.faults sink.old) (K.faults sink.new)
        (K.has_room sink.new (room - length bytes.now)) }
{
    let mut count = 0;
    while count < bytes.len() {
        count += sink.put(&bytes[count..])?;
    }
    Ok(())
}
