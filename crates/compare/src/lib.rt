// Comparing two readable tables.
//
// Job: tells whether two readable tables are equal and, if not, where they first differ.
// May use: `tables`.
// Main promise: the answer is `Same` only of equal tables, `CountsDiffer` only of unequal counts, and
// `Entry(e)` only where the counts are equal and entry `e` is the first that differs.

#![tactic(auto)]

ghost use Rattle.std.specs.Prelude.{◌≡◌, ◌<◌, length, Decides};
ghost use Rattle.tables.specs.Tables.{entry};
ghost use Rattle.compare.specs.Compared.{Compared};

use tables::{LONGEST_TEXT, Readable};

// How two tables compare. An enum of its own: none of the three answers is a failure, and an Option would need a second
// enum for the two differences.
#[derive(Clone, Copy, PartialEq, Eq, Debug)]
pub enum Comparison {
    // the tables are equal
    Same,
    // the counts differ
    CountsDiffer,
    // the counts are equal, and this entry is the first that differs
    Entry(usize),
}

// Compares two tables, entry by entry.
pub fn compare_tables<L: Readable, R: Readable>(left: &L, right: &R) -> Comparison
    ensures { Compared (L.Readable.table left.now) (R.Readable.table right.now) result }
{
    let count = left.count();
    if count != right.count() {
        return Comparison::CountsDiffer;
    }
    (0..count)
        .find(|e| !same_entry(left, right, *e))
        .map_or(Comparison::Same, Comparison::Entry)
}

// Tells whether an entry that both tables have is the same in both.
fn same_entry<L: Readable, R: Readable>(left: &L, right: &R, e: usize) -> bool
    requires in_left { e < length (L.Readable.table left.now) }
    requires in_right { e < length (R.Readable.table right.now) }
    ensures { Decides result (entry (L.Readable.table left.now) e ≡ entry (R.Readable.table right.now) e) }
{
    left.stamp(e) == right.stamp(e) && same_text(left, right, e)
}

// Tells whether an entry that both tables have has the same text in both. Each text is read into a buffer of
// zeros, so that equal texts leave equal buffers.
fn same_text<L: Readable, R: Readable>(left: &L, right: &R, e: usize) -> bool
    requires in_left { e < length (L.Readable.table left.now) }
    requires in_right { e < length (R.Readable.table right.now) }
    ensures { Decides result ((entry (L.Readable.table left.now) e).text ≡ (entry (R.Readable.table right.now) e).text) }
{
    let mut left_text = [0; LONGEST_TEXT];
    let mut right_text = [0; LONGEST_TEXT];
    let left_len = left.text(e, &mut left_text);
    let right_len = right.text(e, &mut right_text);
    left_len == right_len && left_text == right_text
}
