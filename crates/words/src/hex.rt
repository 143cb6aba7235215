ghost use Rattle.std.specs.Prelude.{◌≡◌, ℕ, ◌+◌, ◌*◌, ◌<◌, ◌≤◌, List, length, take, drop, Some, None, Decides, slice_index};
ghost use Rattle.std.specs.Char.{digit_value};
ghost use Rattle.words.specs.Hex.{Hex};

// The value of a hexadecimal digit. It asks for one, as the calls below do, and has no type for them: all digits of a text
// are tested before the first is read.
fn hex_digit(byte: u8) -> u8
    requires { digit_value byte < 16 }
    ensures { result ≡ digit_value byte }
{
    // `as`, which is proved to lose nothing: `try_from` would add a case that never comes
    char::from(byte).to_digit(16).unwrap() as u8
}

// The byte that two hexadecimal digits write.
fn hex_byte(high: u8, low: u8) -> u8
    requires high_digit { digit_value high < 16 }
    requires low_digit { digit_value low < 16 }
    ensures { result ≡ digit_value high * 16 + digit_value low }
{
    hex_digit(high) * 16 + hex_digit(low)
}

// Tells whether a text has hexadecimal digits alone.
fn all_hex(text: &[u8]) -> bool
    ensures { Decides result ((k : ℕ) → k < length text.now → digit_value (slice_index text.now k) < 16) }
{
    text.iter().all(|b| b.is_ascii_hexdigit())
}

// Puts the bytes that a text of hexadecimal digits writes, two digits a byte, at the front of a buffer, keeps
// the rest, and answers how many they are; none, and the buffer kept, where the text writes no bytes, or more
// than the buffer has.
pub fn hex_bytes(text: &[u8], out: &mut [u8]) -> Option<usize>
    ensures bytes { elim result [ Some n ↦ (n ≤ length out.old) × Hex text.now (take n out.new) | None ↦ ((bs : List ℕ) → Hex text.now bs → length bs ≤ length out.old → ⊥) ] }
    ensures rest { elim result [ Some n ↦ drop n out.new ≡ drop n out.old | None ↦ out.new ≡ out.old ] }
{
    let n = text.len() / 2;
    if text.len() % 2 != 0 || out.len() < n || !all_hex(text) {
        return None;
    }
    // by index: of a buffer that a chain writes through iter_mut, a proof knows nothing afterwards
    for (i, pair) in text.chunks_exact(2).enumerate() {
        out[i] = hex_byte(pair[0], pair[1]);
    }
    Some(n)
}
