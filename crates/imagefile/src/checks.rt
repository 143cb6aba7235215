ghost use Rattle.std.specs.Prelude.{◌≡◌, ◌+◌, ◌*◌, ◌<◌, ◌≤◌, length, Ok, Err, MatchResult};
ghost use Rattle.imagefile.specs.Shown.{head_count, file_row, Accepted};
ghost use Rattle.imagefile.specs.Rules.{HeadRule, RowRule};
ghost use Rattle.imagefile.specs.Faults.{RowFaulty, Faulty};

use super::faults::{FileFault, RowFault};
use imageformat::{HEAD_BYTES, ROW_BYTES, Row, VERSION, u16_at};
use tables::{LONGEST_TEXT, MOST_ENTRIES, Refusal, Stamp};

// The greatest count that a file's head may say.
const GREATEST_COUNT: usize = MOST_ENTRIES;

// The greatest length that a row may say.
const GREATEST_LENGTH: usize = LONGEST_TEXT;

// Row `k` of a file, where the row stands.
fn row_of(bytes: &[u8], k: usize) -> Row
    requires { 18 + 14 * k ≤ length bytes.now }
    ensures { result ≡ file_row bytes.now k }
{
    Row::read(bytes, HEAD_BYTES + ROW_BYTES * k).unwrap()
}

// The count that a file's head says, or what the file breaks before its first row.
fn check_head(bytes: &[u8]) -> Result<usize, Refusal>
    ensures { MatchResult result (λ n. (n ≡ head_count bytes.now) × HeadRule bytes.now) (λ f. Faulty bytes.now (FileFault.Whole f)) }
{
    let numbers = u16_at(bytes, 0).zip(u16_at(bytes, 2));
    let (version, count) = numbers.ok_or(Refusal::FileShort)?;
    if version != VERSION {
        return Err(Refusal::Version);
    }
    let count = usize::from(count);
    if count > GREATEST_COUNT {
        return Err(Refusal::CountHigh);
    }
    if bytes.len() < HEAD_BYTES + ROW_BYTES * count {
        return Err(Refusal::RowsShort);
    }
    Ok(count)
}

// The end of a row's body, which has to begin at `place`, or what the row breaks first.
fn check_row(row: Row, place: usize) -> Result<usize, Refusal>
    ensures { MatchResult result (λ end. (end ≡ row.place + row.length) × RowRule row place) (RowFaulty row place) }
{
    Stamp::new(row.edition, row.hand)?;
    let length = usize::from(row.length);
    if length > GREATEST_LENGTH {
        return Err(Refusal::RowLong);
    }
    // `as`, since usize has no From<u32>
    if row.place as usize != place {
        return Err(Refusal::BadPlace);
    }
    Ok(place + length)
}

// Whether the bytes are the file of a lawful table; if not, what they break first.
pub fn check(bytes: &[u8]) -> Result<(), FileFault>
    ensures { elim result [ Ok u ↦ Accepted bytes.now | Err f ↦ Faulty bytes.now f × ((g : FileFault) → Faulty bytes.now g → g ≡ f) × (Accepted bytes.now → ⊥) ] }
{
    let count = check_head(bytes).map_err(FileFault::Whole)?;
    let mut end = HEAD_BYTES + ROW_BYTES * count;
    for k in 0..count {
        end = check_row(row_of(bytes, k), end).map_err(move |refusal| RowFault {
            row: k,
            refusal,
        })?;
    }
    if end != bytes.len() {
        return Err(FileFault::Whole(Refusal::BadEnd));
    }
    Ok(())
}
