//! Where bytes come from, and reading all of them.
//!
//! A source may tell the bytes that it has left, and counts its faults. It gives some bytes a
//! call, none only at their end.
ghost use Rattle.std.specs.Prelude.{ℕ, ◌≡◌, ◌≢◌, ◌+◌, ◌<◌, ◌≤◌, List, Option, Some, None, length, take, drop, IsOk, IfOk, IfSome, OnOk, OnErr, ◌++◌};
ghost use Rattle.std.specs.Io.KnownBytes.{Consumes, Keeps, IsAtEnd};
ghost use Rattle.tj_ports.specs.Faults.{HasFault, IsSound};
ghost use Rattle.tj_ports.specs.Reading.{read_of, IsWithin, TakesAtMost};
ghost use Rattle.tj_ports.specs.declared.source.ReadFault.TheVariants.{Failed, Oom};

use crate::failed::Failed;
use std::alloc::{AllocError, Global};
use std::error::Error;
use std::fmt;
use tj_base::ByteList;

/// Where bytes come from.
pub trait Source {
    /// The bytes that are left, where it tells them.
    ghost left: { Self → Option (List ℕ) } = { λ _. None };

    /// How often it has failed. The count never falls, and stands still at its last value.
    ghost faults: { Self → ℕ };

    /// It won't fail, however often it is called.
    ghost never_fails: { Self → Type 0 } = { λ _. ⊥ };

    /// Puts the next bytes at the front of `into`, and says how many.
    fn take(&mut self, into: &mut [u8]) -> Result<usize, Failed>
        requires { 0 < length into.old }
        // A source gives at most as many bytes as the buffer holds.
        ensures bound { IfOk result (λ n. n ≤ length into.new) }
        // The bytes given were the first that were left, and the others are left.
        ensures taken { IfOk result (λ n. Consumes (left self.old) (left self.new)
            (take n into.new)) }
        // It gives none only where none was left.
        ensures end { IfOk result (λ n. n ≡ 0 → IsAtEnd (left self.old)) }
        // After a failure the bytes left are as before.
        ensures err { OnErr result (Keeps (left self.old) (left self.new)) }

        // The count of faults doesn't fall.
        ensures counted { faults self.old ≤ faults self.new }
        // An `Ok` counts no fault.
        ensures quiet { OnOk result (faults self.new ≡ faults self.old) }
        // A failure comes only where the count rose in this call, or stands at its last value.
        ensures failed { OnErr result (HasFault (faults self.old) (faults self.new)) }
        // A source that never fails answers `Ok`, counts nothing and is still such a source.
        ensures sound { never_fails self.old →
            IsOk result × IsSound (faults self.old) (faults self.new) (never_fails self.new) };
}

/// What reading up to a limit gave.
#[derive(Drop)]
pub enum ReadEnd {
    /// All bytes. The end was seen.
    Whole(ByteList),
    /// The first bytes, as many as the limit. There were more.
    Long(ByteList),
}

/// Why reading gave nothing.
#[derive(Clone, Copy, Debug, PartialEq, Eq)]
pub enum ReadFault {
    Failed,
    Oom,
}

impl fmt::Display for ReadFault {
    fn fmt<W: fmt::Write>(&self, f: &mut fmt::Formatter<W>) -> fmt::Result {
        match self {
            ReadFault::Failed => f.write_str("reading failed"),
            ReadFault::Oom => f.write_str("out of memory"),
        }
    }
}

impl Error for ReadFault {}

impl From<Failed> for ReadFault {
    ghost from_gives = { λ _ fault. fault ≡ Failed };

    fn from(_failed: Failed) -> ReadFault {
        ReadFault::Failed
    }
}

impl From<AllocError> for ReadFault {
    ghost from_gives = { λ _ fault. fault ≡ Oom };

    fn from(_error: AllocError) -> ReadFault {
        ReadFault::Oom
    }
}

/// Reads to the end, or one byte past the limit, which shows that there are more.
pub fn read_all<S: Source>(alloc: Global, source: &mut S, limit: u32) -> Result<ReadEnd, ReadFault>
    // The answer is whole with all bytes that were left where they are within the limit, else long
    // with the first.
    ensures read { IfSome (S.left source.old) (λ bytes. IfOk result
        (λ end. end ≡ read_of limit bytes)) }
    // A whole text is within the limit, and a long one has as many bytes as the limit.
    ensures within { IfOk result (IsWithin limit) }
    // After `Ok` the bytes behind the limit and one more are left.
    ensures rest { OnOk result (IfSome (S.left source.old)
        (λ bytes. S.left source.new ≡ Some (drop (limit + 1) bytes))) }
    // It takes at most one byte more than the limit.
    ensures taken { TakesAtMost (limit + 1) (S.left source.old) (S.left source.new) }

    // The count of faults doesn't fall.
    ensures counted { S.faults source.old ≤ S.faults source.new }
    // Want of memory comes only where the count stood still.
    ensures oom { result ≡ Err ReadFault.Oom → S.faults source.new ≡ S.faults source.old }
    // An `Ok` counts no fault.
    ensures quiet { OnOk result (S.faults source.new ≡ S.faults source.old) }
    // A failed read is told only where the count rose in this call, or stands at its last value.
    ensures failed { result ≡ Err ReadFault.Failed
        → HasFault (S.faults source.old) (S.faults source.new) }
    // A source that never fails gives no failed read, and is still such a source.
    ensures sound { S.never_fails source.old → (result ≢ Err ReadFault.Failed)
        × IsSound (S.faults source.old) (S.faults source.new) (S.never_fails source.new) }
{
    let mut bytes = Vec::new(alloc);
    let mut buffer = [0u8; PIECE];
    let most = limit as usize + 1;
    while bytes.len() < most {
        let room = PIECE.min(most - bytes.len());
        let piece = &mut buffer[..room];
        let count = source.take(piece)?;
        if count == 0 {
            return Ok(ReadEnd::Whole(ByteList::of(bytes)));
        }
        bytes.extend_from_slice(&piece[..count])?;
    }
    bytes.truncate(limit as usize);
    Ok(ReadEnd::Long(ByteList::of(bytes)))
}

// How many bytes a call asks for.
const PIECE: usize = 4096;
