ghost use Rattle.std.specs.Prelude.{◌≡◌, ℕ, List, Some, take};
ghost use Rattle.tables.specs.Tables.{of};
ghost use Rattle.calls.specs.Calls.{answered};
ghost use Rattle.script.specs.Shown.{with_line, shown_line, text_line, answer_line, next_line, bad_line, entry_line};

use calls::Answer;
use std::alloc::AllocError;
use std::fmt::Display;
use tables::Refusal;

// Appends the line of a word and a value, with a space between them.
fn push_shown<T: Display>(out: &mut Vec<u8>, word: &str, value: &T) -> Result<(), AllocError>
    ensures { (text : List ℕ) → T.output value.now ≡ Some text → out.new.items ≡ with_line result out.old.items (shown_line word.now text) }
{
    let line = format!(in *out.allocator(); "{word} {value}\n")?;
    out.extend_from_slice(line.as_bytes())
}

// Appends the line of a text, with what stands before it.
fn push_text(out: &mut Vec<u8>, head: &[u8], text: &[u8]) -> Result<(), AllocError>
    ensures { out.new.items ≡ with_line result out.old.items (text_line head.now text.now) }
{
    let mut line = Vec::from_slice(*out.allocator(), head)?;
    line.extend_from_slice(text)?;
    line.extend_from_slice(b"\n")?;
    out.extend_from_slice(&line)
}

// The first n bytes, or all where there are fewer.
fn front(bytes: &[u8], n: usize) -> &[u8]
    ensures { result.now ≡ take n bytes.now }
{
    bytes.get(..n).unwrap_or(bytes)
}

// Appends the line of an answer; `buf` is the buffer that the call was given.
// Where memory fails, nothing is appended.
pub fn push_answer(
    out: &mut Vec<u8>,
    answer: Result<Answer, Refusal>,
    buf: &[u8],
) -> Result<(), AllocError>
    ensures { out.new.items ≡ with_line result out.old.items (answer_line (answered answer buf.now)) }
{
    match answer {
        Ok(Answer::Done) => out.extend_from_slice(b"ok\n"),
        Ok(Answer::Number(n)) => push_shown(out, "ok", &n),
        Ok(Answer::Found(n)) => push_text(out, b"ok ", front(buf, n)),
        Ok(Answer::Counts(a, b)) => push_shown(out, "ok", &format_args!("{a} {b}")),
        Err(refusal) => push_shown(out, "no", &refusal),
    }
}

// Appends the line of the next entry of the round. Where memory fails, nothing is appended.
pub fn push_next(out: &mut Vec<u8>, next: Result<Option<usize>, Refusal>) -> Result<(), AllocError>
    ensures { out.new.items ≡ with_line result out.old.items (next_line next) }
{
    match next {
        Ok(Some(e)) => push_shown(out, "ok", &e),
        Ok(None) => out.extend_from_slice(b"ok none\n"),
        Err(refusal) => push_shown(out, "no", &refusal),
    }
}

// Appends the answer to a malformed line. Where memory fails, nothing is appended.
pub fn push_bad(out: &mut Vec<u8>) -> Result<(), AllocError>
    ensures { out.new.items ≡ with_line result out.old.items bad_line }
{
    out.extend_from_slice(b"bad\n")
}

// Appends the line of an entry, by the numbers that a table answers for it. Where memory fails, nothing is appended.
pub fn push_entry(
    out: &mut Vec<u8>,
    e: usize,
    edition: u32,
    hand: u32,
    text: &[u8],
) -> Result<(), AllocError>
    ensures { out.new.items ≡ with_line result out.old.items (entry_line e (of text.now edition hand)) }
{
    let head = format!(in *out.allocator(); "{e} {edition} {hand} ")?;
    push_text(out, head.as_bytes(), text)
}
