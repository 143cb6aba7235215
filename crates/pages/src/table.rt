ghost use Rattle.std.specs.Prelude.{◌≡◌, ◌<◌, ◌≤◌, replicate, Ok, Err};
ghost use Rattle.tables.specs.Tables.{blank};
ghost use Rattle.pages.specs.Entries.{table_of};
ghost use Rattle.pages.specs.Laws.{table_lawful};

use super::stock::Stock;
use super::store::{PageStore, Row};
use arrayvec::ArrayVec;
use tables::{LONGEST_TEXT, MOST_ENTRIES, Readable, Refusal, Stamp, Store, fill_front};

impl PageStore {
    // A store of `n` blank entries; refusal 22 where that is more than a store has.
    pub fn new(n: usize) -> Result<PageStore, Refusal>
        ensures { elim result [ Ok s ↦ (n ≤ 128) × (table_of s ≡ replicate n blank) | Err f ↦ (f ≡ Refusal.CountHigh) × (128 < n) ] }
    {
        if n > MOST_ENTRIES {
            return Err(Refusal::CountHigh);
        }
        // these lines and no call that the slot store's slots share: it would be longer than they are
        let mut rows = ArrayVec::new();
        for _ in 0..n {
            rows.push(Row::default());
        }
        Ok(PageStore {
            stock: Stock::new(n),
            rows,
        })
    }
}

// A page store is read.
impl Readable for PageStore {
    // the texts in its chains, with the stamps of its rows
    ghost table = { table_of };

    // what its rows and its stock keep
    ghost lawful = { table_lawful };

    // The number of entries.
    fn count(&self) -> usize {
        self.rows.len()
    }

    // The edition and the hand in the entry's row.
    fn stamp(&self, e: usize) -> Result<(u32, u32), Refusal> {
        let row = self.rows.get(e).ok_or(Refusal::NoEntry)?;
        Ok((row.stamp.edition, row.stamp.hand))
    }

    // The text in the entry's pages.
    fn text(&self, e: usize, buf: &mut [u8]) -> Result<usize, Refusal> {
        let row = self.rows.get(e).ok_or(Refusal::NoEntry)?;
        fill_front(buf, &self.stock.read(e)[..row.len])
    }
}

// A page store is written.
impl Store for PageStore {
    // Writes the text into pages, and its length and stamp into the entry's row.
    fn put(&mut self, e: usize, text: &[u8], stamp: Stamp) -> Result<(), Refusal> {
        let row = self.rows.get_mut(e).ok_or(Refusal::NoEntry)?;
        if text.len() > LONGEST_TEXT {
            return Err(Refusal::LongText);
        }
        self.stock.replace(e, text);
        *row = Row {
            len: text.len(),
            stamp,
        };
        Ok(())
    }
}
