ghost use Rattle.std.specs.Prelude.{◌≡◌, Some, Ok, Err};
ghost use Rattle.std.specs.Option.{option_map};
ghost use Rattle.tables.specs.Tables.{of, LawfulStamp};
ghost use Rattle.listing.specs.Said.{said};
ghost use Rattle.listing.specs.Listing.{entry_of, listed_line};
ghost use Rattle.listing.specs.Shown.{line_fault_shown};
ghost use Rattle.listing.specs.declared.line.LineFault.TheVariants.{Refused};

pub use super::entry::Item;
use std::fmt;
use tables::{LONGEST_TEXT, Refusal, Stamp};
use words::{cut_at, number};

// Why a line is passed over.
#[derive(Clone, Copy)]
pub enum LineFault {
    // it is not a number, a space, a number, a space and a text
    Malformed,
    // its text is too long (11), or its two numbers are no stamp (24)
    Refused(Refusal),
}

// A refusal passes a line over.
impl From<Refusal> for LineFault {
    ghost from_gives = { λ x y. y ≡ Refused x };

    fn from(refusal: Refusal) -> LineFault {
        LineFault::Refused(refusal)
    }
}

// A fault is shown as what it finds in the line.
impl fmt::Display for LineFault {
    ghost output = { λ f. Some (line_fault_shown f) };

    fn fmt<W: fmt::Write>(&self, f: &mut fmt::Formatter<W>) -> fmt::Result {
        match self {
            LineFault::Malformed => write!(f, "it is not: edition, hand, text"),
            LineFault::Refused(refusal) => write!(f, "refusal {refusal}"),
        }
    }
}

// The two numbers and the text of a line, before they are judged.
#[derive(Clone, Copy)]
struct Fields<'a> {
    edition: u64,
    hand: u64,
    text: &'a [u8],
}

// Takes a line apart at its first two spaces.
fn split_fields(line: &[u8]) -> Option<Fields<'_>>
    ensures { option_map (λ x. of x.text.now x.edition x.hand) result ≡ said line.now }
{
    let first = cut_at(line, b' ');
    let second = cut_at(first.rest?, b' ');
    let text = second.rest?;
    let edition = number(first.front)?;
    let hand = number(second.front)?;
    Some(Fields {
        edition,
        hand,
        text,
    })
}

// The stamp of two numbers, or refusal 24.
fn judge_stamp(edition: u64, hand: u64) -> Result<Stamp, Refusal>
    ensures { elim result [ Ok s ↦ (s.edition ≡ edition) × (s.hand ≡ hand) | Err f ↦ (f ≡ Refusal.BadStamp) × (LawfulStamp edition hand → ⊥) ] }
{
    match (u32::try_from(edition), u32::try_from(hand)) {
        (Ok(edition), Ok(hand)) => Stamp::new(edition, hand),
        _ => Err(Refusal::BadStamp),
    }
}

// The entry of a line, or why there is none.
pub fn parse_line(line: &[u8]) -> Result<Item<'_>, LineFault>
    ensures { elim result [ Ok x ↦ listed_line line.now ≡ Ok (entry_of x) | Err f ↦ listed_line line.now ≡ Err f ] }
{
    let fields = split_fields(line).ok_or(LineFault::Malformed)?;
    let text = fields.text;
    if text.len() > LONGEST_TEXT {
        return Err(LineFault::Refused(Refusal::LongText));
    }
    let stamp = judge_stamp(fields.edition, fields.hand)?;
    Ok(Item { stamp, text })
}
