ghost use Rattle.std.specs.Prelude.{◌≡◌, ◌<◌, ◌≤◌, [], length, Some, None};
ghost use Rattle.tables.specs.Tables.{Table, Lawful, entry};
ghost use Rattle.imageformat.specs.Format.{written};
ghost use Rattle.imagefile.specs.Shown.{head_count, file_row, file_body, shown, Accepted};
ghost use Rattle.imagefile.specs.Rules.{HeadRule, RowsRule, due};
ghost use Rattle.imagefile.specs.Laws.{shown_lawful};

use super::checks::check;
use imageformat::{HEAD_BYTES, ROW_BYTES, Row, u16_at};
use tables::{Readable, Refusal, fill_front};

// The file of the empty table: version 1 and count 0.
static EMPTY: [u8; 4] = [0, 1, 0, 0];

// A reader of a file that keeps all rules. It holds the file's bytes as they were lent, and nothing else.
#[derive(Clone, Copy)]
pub struct Reader<'a> {
    bytes: &'a [u8],
    // the rules of the head, of the rows, and of the file's end
    ghost head: { HeadRule bytes.now },
    ghost rows: { RowsRule bytes.now (head_count bytes.now) },
    ghost end: { due bytes.now (head_count bytes.now) ≡ length bytes.now },
}

impl<'a> Reader<'a> {
    // The reader of a file, or of the empty table's file where the check refuses the bytes.
    pub fn new(bytes: &'a [u8]) -> Reader<'a>
        ensures shows { (t : Table) → Lawful t → bytes.now ≡ written t → shown result.bytes.now ≡ t }
        ensures refused { (Accepted bytes.now → ⊥) → shown result.bytes.now ≡ [] }
        ensures back { Accepted bytes.now → (written (shown result.bytes.now) ≡ bytes.now) × (result.bytes.now ≡ bytes.now) }
    {
        match check(bytes) {
            Ok(()) => Reader { bytes },
            Err(_) => Reader { bytes: &EMPTY },
        }
    }

    // Row `e` of the file, if the file has so many.
    #[tactic(auto, using(crate::specs::Laws::shown_length, crate::specs::Laws::shown_entry))]
    fn row(&self, e: usize) -> Option<Row>
        ensures { elim result [ Some w ↦ (e < length (shown self.now.bytes.now)) × (w ≡ file_row self.now.bytes.now e) × (w.edition ≡ (entry (shown self.now.bytes.now) e).edition) × (w.hand ≡ (entry (shown self.now.bytes.now) e).hand) | None ↦ length (shown self.now.bytes.now) ≤ e ] }
    {
        if e >= self.count() {
            return None;
        }
        Row::read(self.bytes, HEAD_BYTES + ROW_BYTES * e)
    }

    // The text of an entry, as the part of the file in which it stands.
    pub fn body(&self, e: usize) -> Option<&'a [u8]>
        ensures { elim result [ Some s ↦ (e < length (shown self.now.bytes.now)) × (s.now ≡ (entry (shown self.now.bytes.now) e).text) × (s.now ≡ file_body self.now.bytes.now e) | None ↦ length (shown self.now.bytes.now) ≤ e ] }
    {
        let row = self.row(e)?;
        // `as`, since usize has no From<u32>
        let place = row.place as usize;
        let length = usize::from(row.length);
        Some(&self.bytes[place..place + length])
    }
}

impl<'a> Readable for Reader<'a> {
    ghost table = { λ s. shown s.bytes.now };

    ghost lawful = { λ s. shown_lawful s.bytes.now (s.head, s.rows, s.end) };

    #[tactic(auto, using(crate::specs::Laws::shown_length))]
    fn count(&self) -> usize {
        usize::from(u16_at(self.bytes, 2).unwrap())
    }

    fn stamp(&self, e: usize) -> Result<(u32, u32), Refusal> {
        let row = self.row(e).ok_or(Refusal::NoEntry)?;
        Ok((row.edition, row.hand))
    }

    fn text(&self, e: usize, buf: &mut [u8]) -> Result<usize, Refusal> {
        let body = self.body(e).ok_or(Refusal::NoEntry)?;
        fill_front(buf, body)
    }
}
