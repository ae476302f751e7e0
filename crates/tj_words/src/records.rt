//! The records of a closed table, each in the slot of its cell.
ghost use Rattle.std.specs.Prelude.{◌≡◌, ◌<◌, get_or, None};
ghost use Rattle.std.specs.Option.{option_map};
ghost use Rattle.std.specs.Slots.{IsFull, slots_items, slots_len};

use atomic_table::Closed;
use std::alloc::Global;
use tj_record::Rec;

pub(crate) struct Records<B: Drop> {
    pub(crate) table: Closed<Option<Rec<B>>, Global>,
    ghost full: { IsFull table.words × IsFull table.slots },
}

impl<B: Drop> Records<B> {
    /// The record that lies in a slot.
    pub(crate) fn get(&self, slot: usize) -> Option<&Rec<B>>
        requires { slot < slots_len self.now.table.slots }
        ensures { option_map (λ r. r.now) result
            ≡ get_or (slots_items self.now.table.slots) slot None }
    {
        self.table.slots.get(slot).as_ref()
    }
}

impl<B: Drop> Drop for Records<B> {
    fn drop(self) {
        let Self { mut table } = self;
        let mut slot = 0;
        while slot < table.slot_count() {
            drop(table.take(slot));
            slot += 1;
        }
        table.free();
    }
}
