ghost use Rattle.std.specs.Prelude.{◌≡◌};
ghost use Rattle.tables.specs.Answers.{Front};

use super::refusal::Refusal;

// Puts a text at the front of a buffer, keeps the rest, and answers the text's length; refusal 9 where the
// buffer is shorter than the text.
pub fn fill_front(buf: &mut [u8], text: &[u8]) -> Result<usize, Refusal>
    ensures { Front text.now buf.old result buf.new }
{
    if buf.len() < text.len() {
        return Err(Refusal::ShortBuffer);
    }
    buf[0..text.len()].copy_from_slice(text);
    Ok(text.len())
}
