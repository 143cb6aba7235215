ghost use Rattle.std.specs.Prelude.{◌≡◌};
ghost use Rattle.std.specs.Option.{option_map};
ghost use Rattle.script.specs.Fields.{short_number, field};

use words::{cut_at, number};

// The most digits that a number of a script has.
const MOST_DIGITS: usize = 9;

// The number that a word of one to nine decimal digits writes.
pub(crate) fn short_number(word: &[u8]) -> Option<usize>
    ensures { result ≡ short_number word.now }
{
    if word.len() > MOST_DIGITS {
        return None;
    }
    usize::try_from(number(word)?).ok()
}

// Splits a number and the space after it off the bytes: the number, and what stands after the space.
pub(crate) fn split_number(bytes: &[u8]) -> Option<(usize, &[u8])>
    ensures { option_map (λ x. (x.0, x.1.now)) result ≡ field bytes.now }
{
    let cut = cut_at(bytes, b' ');
    let rest = cut.rest?;
    let number = short_number(cut.front)?;
    Some((number, rest))
}
