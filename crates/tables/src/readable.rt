ghost use Rattle.std.specs.Prelude.{◌≡◌, length};
ghost use Rattle.tables.specs.Tables.{Table, Lawful};
ghost use Rattle.tables.specs.Answers.{StampAnswer, TextAnswer};

use super::refusal::Refusal;

// A table that can be read. Its meaning is a table; a question changes nothing.
pub trait Readable {
    // the table that it shows
    ghost table: { Self → Table };

    // at most 128 entries, texts of at most 96 bytes, lawful stamps
    ghost lawful: { (s : Self) → Lawful (table s) };

    // The number of entries.
    fn count(&self) -> usize
        ensures { result ≡ length (table self.now) };

    // The edition and the hand of an entry; refusal 2.
    fn stamp(&self, e: usize) -> Result<(u32, u32), Refusal>
        ensures { StampAnswer (table self.now) e result };

    // The length of an entry's text, and the text at the front of the buffer; refusals 2 and 9.
    fn text(&self, e: usize, buf: &mut [u8]) -> Result<usize, Refusal>
        ensures { TextAnswer (table self.now) e buf.old result buf.new };
}
