//! A source in memory, for tests and for other programs. It tells its bytes.
ghost use Rattle.std.specs.Prelude.{ℕ, ◌≡◌, ◌<◌, ◌≤◌, ◌↔◌, ◌++◌, Some, [], length, take, drop, min, IsOk, IsErr, IfOk, OnOk, OnErr};
ghost use Rattle.tj_ports.specs.Faults.{HasFault, IsSound};

use crate::calls::Calls;
use crate::failed::Failed;
use crate::source::Source;

/// Bytes in memory, given a few a call.
#[derive(Drop)]
pub struct MemSource {
    bytes: Vec<u8>,
    given: usize,
    most: u32,
    calls: Calls,
    ghost in_range: { given ≤ length bytes.items },
    ghost gives_some: { 0 < most },
}

impl MemSource {
    ghost use Rattle.tj_ports.specs.Calls.{fresh_calls};
    ghost use Rattle.tj_ports.specs.Memory.{source_bytes, source_calls, source_most};

    /// It gives at most `most` bytes a call. The calls with the numbers in `fails`, from 1, fail.
    pub fn new(bytes: Vec<u8>, most: u32, fails: Vec<u32>) -> MemSource
        requires { 0 < most }
        // A source in memory has the given bytes left.
        ensures bytes { source_bytes result ≡ bytes.items }
        // It gives at most `most` bytes a call.
        ensures most { source_most result ≡ most }
        // It has had no call, and the listed ones will fail.
        ensures calls { source_calls result ≡ fresh_calls fails }
    {
        MemSource {
            bytes,
            given: 0,
            most,
            calls: Calls::new(fails),
        }
    }

    /// The bytes that are left.
    pub fn left(&self) -> &[u8]
        // It gives the bytes that are left.
        ensures { result.now ≡ source_bytes self.now }
    {
        &self.bytes[self.given..]
    }
}

impl Source for MemSource {
    ghost use Rattle.tj_ports.specs.Calls.{IsNextListed, ListsNone};
    ghost use Rattle.tj_ports.specs.Memory.{source_bytes, source_calls, source_faults, source_most};

    ghost left = { λ s. Some (source_bytes s) };

    ghost faults = { source_faults };

    ghost never_fails = { λ s. ListsNone (source_calls s) };

    fn take(&mut self, into: &mut [u8]) -> Result<usize, Failed>
        requires { 0 < length into.old }
        // A call fails exactly where its number is listed.
        ensures listed { IsErr result ↔ IsNextListed (source_calls self.old) }
        // A call gives the least of the bytes left, the buffer's length and `most`.
        ensures count { IfOk result (λ n. n ≡ min (min (length (source_bytes self.old))
            (length into.old)) (source_most self.old)) }

        // What every source keeps.
        ensures bound { IfOk result (λ n. n ≤ length into.new) }
        ensures taken { IfOk result
            (λ n. source_bytes self.old ≡ take n into.new ++ source_bytes self.new) }
        ensures end { IfOk result (λ n. n ≡ 0 → source_bytes self.old ≡ []) }
        ensures err { OnErr result (source_bytes self.new ≡ source_bytes self.old) }
        ensures counted { source_faults self.old ≤ source_faults self.new }
        ensures quiet { OnOk result (source_faults self.new ≡ source_faults self.old) }
        ensures failed { OnErr result (HasFault (source_faults self.old) (source_faults self.new)) }
        ensures sound { ListsNone (source_calls self.old) →
            IsOk result × IsSound (source_faults self.old) (source_faults self.new)
            (ListsNone (source_calls self.new)) }
    {
        self.calls.begin()?;
        let left = &self.bytes[self.given..];
        let count = left.len().min(into.len()).min(self.most as usize);
        into[..count].copy_from_slice(&left[..count]);
        self.given += count;
        Ok(count)
    }
}
