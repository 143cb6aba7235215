// Fetching an entry's text.
//
// Job: copies the text of an entry of any readable table, byte by byte, into a caller's buffer.
// May use: tables.
// Main promise: the answer, the refusals and the buffer are those of the table's own `text`.

#![tactic(auto)]

ghost use Rattle.std.specs.Prelude.{◌≡◌, ◌≤◌, ◌++◌, length, drop};
ghost use Rattle.tables.specs.Answers.{TextAnswer};

use tables::{LONGEST_TEXT, Readable, Refusal};

// Copies bytes one by one to the front of `out`, and keeps the rest.
fn copy_bytes(out: &mut [u8], bytes: &[u8])
    requires { length bytes.now ≤ length out.old }
    ensures { out.new ≡ bytes.now ++ drop (length bytes.now) out.old }
{
    // by index: of a buffer that a chain writes through iter_mut, a proof knows nothing afterwards
    for (i, byte) in bytes.iter().enumerate() {
        out[i] = *byte;
    }
}

// The length of an entry's text, and the text at the front of the buffer; refusals 2 and 9.
pub fn fetch_text<R: Readable>(from: &R, e: usize, out: &mut [u8]) -> Result<usize, Refusal>
    ensures { TextAnswer (R.Readable.table from.now) e out.old result out.new }
{
    let mut fetched = [0; LONGEST_TEXT];
    let len = from.text(e, &mut fetched)?;
    if out.len() < len {
        return Err(Refusal::ShortBuffer);
    }
    copy_bytes(out, &fetched[..len]);
    Ok(len)
}
