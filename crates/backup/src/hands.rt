ghost use Rattle.std.specs.Prelude.{◌≡◌, ◌≤◌};
ghost use Rattle.rules.specs.Office.{greatest_hand};

use tables::Readable;

// The greatest hand in a table, 0 if it has no entry.
pub(crate) fn highest_hand<R: Readable>(table: &R) -> u32
    ensures greatest { result ≡ greatest_hand (R.Readable.table table.now) }
    ensures lawful { result ≤ 4000000000 }
{
    let mut highest = 0;
    for e in 0..table.count() {
        let (_, hand) = table.stamp(e).unwrap();
        highest = highest.max(hand);
    }
    highest
}
