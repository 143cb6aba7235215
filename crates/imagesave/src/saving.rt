ghost use Rattle.imagesave.specs.Saving.{WriteAnswer};

use fetch::fetch_text;
use imagewriter::Rows;
use tables::{LONGEST_TEXT, Readable, Refusal};

// Writes the file of a whole table into a buffer and answers the file's length; refusal 28 where the buffer
// is shorter than 4 + 110 × n.
pub fn write_table<R: Readable>(from: &R, buf: &mut [u8]) -> Result<usize, Refusal>
    ensures { WriteAnswer (R.Readable.table from.now) buf.old result buf.new }
{
    let count = from.count();
    let mut rows = Rows::begin(buf, count)?;
    for e in 0..count {
        let (edition, hand) = from.stamp(e)?;
        // of the text its row needs the length alone: into a buffer that nobody reads nothing is copied
        let length = from.text(e, &mut [0; LONGEST_TEXT])?;
        rows.row(buf, edition, hand, length)?;
    }
    let mut bodies = rows.turn().map_err(|(_, refusal)| refusal)?;
    let mut text = [0; LONGEST_TEXT];
    for e in 0..count {
        let length = fetch_text(from, e, &mut text)?;
        bodies.body(buf, &text[..length])?;
    }
    bodies.finish().map_err(|(_, refusal)| refusal)
}
