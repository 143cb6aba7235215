ghost use Rattle.std.specs.Prelude.{◌≡◌, ◌<◌, ◌≤◌, [], length, take};

use super::LONGEST_TEXT;
use super::buffer::fill_front;
use super::refusal::Refusal;

// A text of at most 96 bytes, kept in place: it stands in the first `len` of its bytes. An array with a length beside it
// and no `ArrayVec`, which is not `Copy`: a text is copied, and so is what has one.
#[derive(Clone, Copy)]
pub struct Text {
    bytes: [u8; LONGEST_TEXT],
    len: usize,
    ghost short: { length (take len bytes) ≤ 96 },
    ghost within: { len ≤ length bytes },
}

impl Text {
    ghost use Rattle.tables.specs.Texts.{bytes_of};

    // The bytes of the text.
    pub fn as_bytes(&self) -> &[u8]
        ensures { result.now ≡ bytes_of self.now }
    {
        &self.bytes[..self.len]
    }
}

// The empty text. By hand, as no derive gives a struct with a ghost field.
impl Default for Text {
    ghost use Rattle.tables.specs.Texts.{bytes_of};

    ghost is_default = { λ t. bytes_of t ≡ [] };

    fn default() -> Text {
        Text {
            bytes: [0; LONGEST_TEXT],
            len: 0,
        }
    }
}

// Bytes are a text where they are few enough; refusal 11 where not.
impl TryFrom<&[u8]> for Text {
    ghost use Rattle.tables.specs.Texts.{TextOf};

    type Error = Refusal;

    ghost try_from_gives = { λ s r. TextOf s.now r };

    fn try_from(text: &[u8]) -> Result<Text, Refusal> {
        let mut bytes = [0; LONGEST_TEXT];
        let len = fill_front(&mut bytes, text).map_err(|_| Refusal::LongText)?;
        Ok(Text { bytes, len })
    }
}
