ghost use Rattle.std.specs.Prelude.{◌≡◌};
ghost use Rattle.script.specs.Openings.{kind_of, opening_of};

use super::fields::short_number;
use tables::MOST_ENTRIES;
use words::cut_at;

// The two kinds of modes, by the words that name them.
#[derive(Clone, Copy)]
pub enum KindName {
    Plain,
    Draft,
}

// What the first line of a script says: the kind of modes, and the number of entries.
#[derive(Clone, Copy)]
pub struct Opening {
    pub kind: KindName,
    pub entries: usize,
}

// The kind that a word names.
#[tactic(auto, unfolding(crate::specs::Fields::is_word))]
fn parse_kind(word: &str) -> Option<KindName>
    ensures { result ≡ kind_of word.now }
{
    match word {
        "plain" => Some(KindName::Plain),
        "draft" => Some(KindName::Draft),
        _ => None,
    }
}

// Reads the first line of a script; none where it is malformed.
pub fn parse_opening(line: &[u8]) -> Option<Opening>
    ensures { result ≡ opening_of line.now }
{
    let cut = cut_at(line, b' ');
    let rest = cut.rest?;
    let word = std::str::from_utf8(cut.front).ok()?;
    let kind = parse_kind(word)?;
    let entries = short_number(rest)?;
    if entries > MOST_ENTRIES {
        return None;
    }
    Some(Opening { kind, entries })
}
