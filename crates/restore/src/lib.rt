// Restoring a store from a readable table.
//
// Job: puts an entry, or every entry, of a readable table into a store.
// May use: `tables`, `fetch`.
// Main promise: where the two counts are equal the store's table is then the source's; where they differ the
// call is refused by 15 and the store is as it was. There is no other refusal.

#![tactic(auto)]

ghost use Rattle.std.specs.Prelude.{◌≡◌, ◌<◌, length, Ok};
ghost use Rattle.tables.specs.Tables.{entry};
ghost use Rattle.restore.specs.Restored.{EntryCopied, Restored};

use fetch::fetch_text;
use tables::{LONGEST_TEXT, Readable, Refusal, Stamp, Store};

// Puts every entry of `from` into `to`; refusal 15 where the counts differ.
pub fn restore<R: Readable, S: Store>(from: &R, to: &mut S) -> Result<(), Refusal>
    ensures { Restored (R.Readable.table from.now) (S.Readable.table to.old) result (S.Readable.table to.new) }
{
    let count = from.count();
    if count != to.count() {
        return Err(Refusal::CountsDiffer);
    }
    for e in 0..count {
        copy_entry(from, to, e)?;
    }
    Ok(())
}

// Puts entry `e` of `from` into `to`; refusal 2 where one of the two has no such entry.
pub fn copy_entry<R: Readable, S: Store>(from: &R, to: &mut S, e: usize) -> Result<(), Refusal>
    ensures { EntryCopied (R.Readable.table from.now) (S.Readable.table to.old) e result (S.Readable.table to.new) }
{
    let (edition, hand) = from.stamp(e)?;
    let stamp = Stamp::new(edition, hand)?;
    let mut text = [0; LONGEST_TEXT];
    let len = fetch_text(from, e, &mut text)?;
    to.put(e, &text[..len], stamp)
}
