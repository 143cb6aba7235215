// Words and numbers in lines of text.
//
// Job: cuts bytes at the first separator and texts into lines, and reads decimal numbers and bytes in
// hexadecimal digits.
// May use: std alone.
// Main promise: a cut answers exactly what stands before and after the first separator; a number is read
// exactly from one to nineteen decimal digits, and bytes exactly from two hexadecimal digits each.

#![tactic(auto)]

ghost use Rattle.std.specs.Prelude.{◌≡◌};
ghost use Rattle.std.specs.Option.{option_map};
ghost use Rattle.words.specs.Cuts.{before, after};
ghost use Rattle.words.specs.Numbers.{number_of};

pub mod hex;
pub mod text;

pub use hex::hex_bytes;
pub use text::{FirstLine, Lines, split_line};

// The most digits that a number may have: every such number fits 64 bits.
const MOST_DIGITS: usize = 19;

// Bytes cut at the first separator: what stands before it, and what stands after it, if it is there.
#[derive(Clone, Copy)]
pub struct Cut<'a> {
    pub front: &'a [u8],
    pub rest: Option<&'a [u8]>,
}

// Cuts bytes at the first one that equals `separator`.
pub fn cut_at(bytes: &[u8], separator: u8) -> Cut<'_>
    ensures front { result.front.now ≡ before separator bytes.now }
    ensures rest { option_map (λ x. x.now) result.rest ≡ after separator bytes.now }
{
    match bytes.iter().position(|b| *b == separator) {
        Some(i) => Cut {
            front: &bytes[..i],
            rest: Some(&bytes[i + 1..]),
        },
        None => Cut {
            front: bytes,
            rest: None,
        },
    }
}

// The number that a word of one to nineteen decimal digits writes. A loop of its own: the library reads numbers of text, and a
// word that is tested, made text of and read takes twice the time.
pub fn number(word: &[u8]) -> Option<u64>
    ensures { result ≡ number_of word.now }
{
    if word.is_empty() || word.len() > MOST_DIGITS {
        return None;
    }
    let mut n: u64 = 0;
    for b in word {
        let digit = char::from(*b).to_digit(10)?;
        n = n * 10 + u64::from(digit);
    }
    Some(n)
}
