ghost use Rattle.std.specs.Prelude.{◌≡◌, ◌<◌, ◌≤◌, replicate, Ok, Err};
ghost use Rattle.tables.specs.Tables.{blank};
ghost use Rattle.slots.specs.Meaning.{table_of};
ghost use Rattle.slots.specs.Laws.{table_lawful};

use super::slot::{Slot, SlotStore};
use arrayvec::ArrayVec;
use tables::{MOST_ENTRIES, Readable, Refusal, Stamp, Store, Text, fill_front};

impl SlotStore {
    // A store of `n` blank entries; refusal 22 where that is more than a store has.
    pub fn new(n: usize) -> Result<SlotStore, Refusal>
        ensures { elim result [ Ok s ↦ (n ≤ 128) × (table_of s ≡ replicate n blank) | Err f ↦ (f ≡ Refusal.CountHigh) × (128 < n) ] }
    {
        if n > MOST_ENTRIES {
            return Err(Refusal::CountHigh);
        }
        // these lines and no call that the page store's rows share: it would be longer than they are
        let mut slots = ArrayVec::new();
        for _ in 0..n {
            slots.push(Slot::default());
        }
        Ok(SlotStore { slots })
    }
}

// A slot store is read.
impl Readable for SlotStore {
    // the entries in its slots
    ghost table = { table_of };

    // what each slot and the store itself keep
    ghost lawful = { table_lawful };

    // The number of entries.
    fn count(&self) -> usize {
        self.slots.len()
    }

    // The edition and the hand in the entry's slot.
    fn stamp(&self, e: usize) -> Result<(u32, u32), Refusal> {
        let slot = self.slots.get(e).ok_or(Refusal::NoEntry)?;
        Ok((slot.stamp.edition, slot.stamp.hand))
    }

    // The text in the entry's slot.
    fn text(&self, e: usize, buf: &mut [u8]) -> Result<usize, Refusal> {
        let slot = self.slots.get(e).ok_or(Refusal::NoEntry)?;
        fill_front(buf, slot.text.as_bytes())
    }
}

// A slot store is written.
impl Store for SlotStore {
    // Replaces the entry's slot.
    fn put(&mut self, e: usize, text: &[u8], stamp: Stamp) -> Result<(), Refusal> {
        let slot = self.slots.get_mut(e).ok_or(Refusal::NoEntry)?;
        *slot = Slot {
            text: Text::try_from(text)?,
            stamp,
        };
        Ok(())
    }
}
