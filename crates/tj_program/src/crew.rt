//! The workers of a run, and what they run with. What a command gives by a run over workers is told by
//! methods of theirs.
ghost use Rattle.std.specs.Prelude.{◌≡◌};

use std::alloc::Global;

/// So many workers, with the handle for waiting and for threads and the allocator that they have, and
/// the gate that each of them enters.
#[derive_where(Clone, Copy)]
pub struct Crew<'c, G, R> {
    pub rt: &'c R,
    pub alloc: Global,
    pub count: u32,
    pub gate: &'c G,
}

impl<'c, G, R> Crew<'c, G, R> {
    /// So many workers with these.
    pub fn new(rt: &'c R, alloc: Global, count: u32, gate: &'c G) -> Crew<'c, G, R>
        ensures { result.count ≡ count }
    {
        Crew {
            rt,
            alloc,
            count,
            gate,
        }
    }
}
