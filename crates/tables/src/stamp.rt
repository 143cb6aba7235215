ghost use Rattle.std.specs.Prelude.{◌≡◌, Ok, Err};
ghost use Rattle.tables.specs.Tables.{LawfulStamp};

use super::refusal::Refusal;

// The greatest hand that a stamp may have.
pub const GREATEST_HAND: u32 = 4_000_000_000;

// The stamp of an entry. `edition` rises by one with each commit that writes the entry; `hand` is the
// running number of the commit that last wrote it.
#[derive(Clone, Copy)]
pub struct Stamp {
    pub edition: u32,
    pub hand: u32,
    ghost lawful: { LawfulStamp edition hand },
}

impl Stamp {
    // The stamp of these two numbers, or refusal 24.
    pub fn new(edition: u32, hand: u32) -> Result<Stamp, Refusal>
        ensures { elim result [ Ok s ↦ (s.edition ≡ edition) × (s.hand ≡ hand) | Err f ↦ (f ≡ Refusal.BadStamp) × (LawfulStamp edition hand → ⊥) ] }
    {
        if edition <= hand && hand <= GREATEST_HAND {
            Ok(Stamp { edition, hand })
        } else {
            Err(Refusal::BadStamp)
        }
    }
}

// The stamp of an entry that nobody has written. By hand, as no derive gives a struct with a ghost field.
impl Default for Stamp {
    ghost is_default = { λ s. (s.edition ≡ 0) × (s.hand ≡ 0) };

    fn default() -> Stamp {
        Stamp {
            edition: 0,
            hand: 0,
        }
    }
}
