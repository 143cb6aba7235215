ghost use Rattle.std.specs.Prelude.{◌≡◌, ℕ};
ghost use Rattle.std.specs.Option.{option_map};
ghost use Rattle.calls.specs.Calls.{asked};
ghost use Rattle.script.specs.Commands.{meant, claim_of, read_of, write_of, alone, followed, said};

use super::fields::{short_number, split_number};
use calls::Call;
use words::cut_at;

// What a later line of a script says.
#[derive(Clone, Copy)]
pub enum Command<'a> {
    // a call is made
    Call(Call<'a>),
    // the next entry of the round is asked for
    Next,
    // the image is asked for
    Image,
}

// Reads what follows `claim`.
fn parse_claim(bytes: &[u8]) -> Option<Call<'_>>
    ensures { (room : ℕ) → option_map (λ c. asked c room) result ≡ claim_of bytes.now }
{
    let (session, rest) = split_number(bytes)?;
    let (entry, rest) = split_number(rest)?;
    let mode = short_number(rest)?;
    Some(Call::Claim {
        session,
        entry,
        mode,
    })
}

// Reads what follows `read`.
fn parse_read(bytes: &[u8]) -> Option<Call<'_>>
    ensures { (room : ℕ) → option_map (λ c. asked c room) result ≡ read_of room bytes.now }
{
    let (session, rest) = split_number(bytes)?;
    let entry = short_number(rest)?;
    Some(Call::Read { session, entry })
}

// Reads what follows `write`.
fn parse_write(bytes: &[u8]) -> Option<Call<'_>>
    ensures { (room : ℕ) → option_map (λ c. asked c room) result ≡ write_of bytes.now }
{
    let (session, rest) = split_number(bytes)?;
    let (entry, text) = split_number(rest)?;
    Some(Call::Write {
        session,
        entry,
        text,
    })
}

// Reads a word that stands alone.
#[tactic(auto, unfolding(crate::specs::Fields::is_word))]
fn parse_alone<'a>(word: &str) -> Option<Command<'a>>
    ensures { (room : ℕ) → option_map (meant room) result ≡ alone word.now }
{
    match word {
        "begin" => Some(Command::Call(Call::Begin)),
        "open" => Some(Command::Call(Call::Open)),
        "drop" => Some(Command::Call(Call::Drop)),
        "next" => Some(Command::Next),
        "image" => Some(Command::Image),
        _ => None,
    }
}

// Reads a word, and what follows it after a space.
#[tactic(auto, unfolding(crate::specs::Fields::is_word))]
fn parse_followed<'a>(word: &str, bytes: &'a [u8]) -> Option<Call<'a>>
    ensures { (room : ℕ) → option_map (λ c. asked c room) result ≡ followed room word.now bytes.now }
{
    match word {
        "claim" => parse_claim(bytes),
        "read" => parse_read(bytes),
        "write" => parse_write(bytes),
        "commit" => short_number(bytes).map(|session| Call::Commit { session }),
        "leave" => short_number(bytes).map(|session| Call::Leave { session }),
        "copy" => short_number(bytes).map(|entry| Call::Copy { entry }),
        "work" => short_number(bytes).map(|limit| Call::Work { limit }),
        _ => None,
    }
}

// Reads a later line of a script; none where it is malformed.
pub fn parse_command(line: &[u8]) -> Option<Command<'_>>
    ensures { (room : ℕ) → option_map (meant room) result ≡ said room line.now }
{
    let cut = cut_at(line, b' ');
    let word = std::str::from_utf8(cut.front).ok()?;
    match cut.rest {
        None => parse_alone(word),
        Some(bytes) => parse_followed(word, bytes).map(Command::Call),
    }
}
