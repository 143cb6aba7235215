ghost use Rattle.std.specs.Prelude.{◌≤◌, length};

use arrayvec::ArrayVec;
use tables::{MOST_ENTRIES, Stamp, Text};

// The place of one entry: its text and its stamp.
#[derive(Default, Drop)]
pub(crate) struct Slot {
    pub(crate) text: Text,
    pub(crate) stamp: Stamp,
}

// A store with a slot for each of its entries, which lie in the store itself.
#[derive(Drop)]
pub struct SlotStore {
    pub(crate) slots: ArrayVec<Slot, MOST_ENTRIES>,
    // there are no more entries than a store may have
    ghost few: { length slots.items ≤ 128 },
}
