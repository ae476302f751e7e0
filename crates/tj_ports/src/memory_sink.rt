//! A sink in memory, for tests and for other programs. It tells its bytes.
ghost use Rattle.std.specs.Prelude.{ℕ, ◌≡◌, ◌-◌, ◌<◌, ◌≤◌, ◌⊎◌, ◌++◌, Some, [], length, take, min, vec_len, vec_capacity, IsErr, IfOk, IsOkAnd, OnOk, OnErr};
ghost use Rattle.tj_ports.specs.Faults.{HasFault, IsSound};

use crate::calls::Calls;
use crate::failed::Failed;
use crate::sink::Sink;
use std::alloc::Global;
use tj_base::Oom;

/// Room in memory, filled a few bytes a call.
#[derive(Drop)]
pub struct MemSink {
    held: Vec<u8>,
    room: u32,
    most: u32,
    calls: Calls,
    ghost fits: { vec_len held ≤ room },
    ghost has_memory: { room ≤ vec_capacity held },
    ghost takes_some: { 0 < most },
}

impl MemSink {
    ghost use Rattle.tj_ports.specs.Calls.{fresh_calls};
    ghost use Rattle.tj_ports.specs.Memory.{sink_bytes, sink_room, sink_most, sink_calls};

    /// It takes memory for `room` bytes first, then at most `most` bytes a call. The calls with the
    /// numbers in `fails`, from 1, fail, and so does a call when the room is full.
    pub fn new(alloc: Global, room: u32, most: u32, fails: Vec<u32>) -> Result<MemSink, Oom>
        requires { 0 < most }
        // A sink in memory is empty.
        ensures bytes { IfOk result (λ sink. sink_bytes sink ≡ []) }
        // It has the given room.
        ensures room { IfOk result (λ sink. sink_room sink ≡ room) }
        // It takes at most `most` bytes a call.
        ensures most { IfOk result (λ sink. sink_most sink ≡ most) }
        // It has had no call, and the listed ones will fail.
        ensures calls { IfOk result (λ sink. sink_calls sink ≡ fresh_calls fails) }
    {
        let held = Vec::with_capacity(alloc, room as usize)?;
        Ok(MemSink {
            held,
            room,
            most,
            calls: Calls::new(fails),
        })
    }

    /// The bytes that it holds.
    pub fn bytes(&self) -> &[u8]
        // It gives the bytes that it holds.
        ensures { result.now ≡ sink_bytes self.now }
    {
        &self.held
    }
}

impl Sink for MemSink {
    ghost use Rattle.tj_ports.specs.Calls.{IsNextListed};
    ghost use Rattle.tj_ports.specs.Memory.{sink_bytes, sink_room, sink_most, sink_calls, sink_faults, SurelyTakes};

    ghost held = { λ s. Some (sink_bytes s) };

    ghost faults = { sink_faults };

    ghost has_room = { SurelyTakes };

    fn put(&mut self, piece: &[u8]) -> Result<usize, Failed>
        requires { 0 < length piece.now }
        // A listed call fails.
        ensures listed { IsNextListed (sink_calls self.old) → IsErr result }
        // A call fails when the room is full.
        ensures full { length (sink_bytes self.old) ≡ sink_room self.old → IsErr result }
        // A call fails only for these two causes.
        ensures causes { OnErr result (IsNextListed (sink_calls self.old)
            ⊎ (length (sink_bytes self.old) ≡ sink_room self.old)) }
        // A call takes the least of the piece's length, the room left and `most`.
        ensures count { IfOk result (λ n. n ≡ min (min (length piece.now)
            (sink_room self.old - length (sink_bytes self.old))) (sink_most self.old)) }

        // What every sink keeps.
        ensures some { IfOk result (λ n. 0 < n) }
        ensures bound { IfOk result (λ n. n ≤ length piece.now) }
        ensures added { IfOk result
            (λ n. sink_bytes self.new ≡ sink_bytes self.old ++ take n piece.now) }
        ensures err { OnErr result (sink_bytes self.new ≡ sink_bytes self.old) }
        ensures counted { sink_faults self.old ≤ sink_faults self.new }
        ensures quiet { OnOk result (sink_faults self.new ≡ sink_faults self.old) }
        ensures failed { OnErr result (HasFault (sink_faults self.old) (sink_faults self.new)) }
        ensures sound { (room : ℕ) → SurelyTakes self.old room → length piece.now ≤ room →
            IsOkAnd result (λ n. IsSound (sink_faults self.old) (sink_faults self.new)
            (SurelyTakes self.new (room - n))) }
    {
        self.calls.begin()?;
        let room = self.room as usize - self.held.len();
        let count = piece.len().min(room).min(self.most as usize);
        if count == 0 {
            return Err(self.calls.fail());
        }
        // `new` took the memory.
        self.held.extend_from_slice(&piece[..count]).unwrap();
        Ok(count)
    }
}
