ghost use Rattle.std.specs.Prelude.{◌≡◌, ◌<◌, ◌≤◌, [], ◌∷◌, length};
ghost use Rattle.std.specs.Iterator.{YieldsFirstRef, item_count};
ghost use Rattle.words.specs.Cuts.{before, after_or_none};
ghost use Rattle.words.specs.Lines.{lines, lines_left};

use super::cut_at;

// The first line of a text, and the text after it.
#[derive(Clone, Copy)]
pub struct FirstLine<'a> {
    pub line: &'a [u8],
    pub rest: &'a [u8],
}

// Splits the first line off a text; none where the text is empty.
pub fn split_line(text: &[u8]) -> Option<FirstLine<'_>>
    ensures cut { elim result [ Some x ↦ (x.line.now ≡ before 10 text.now) × (x.rest.now ≡ after_or_none 10 text.now) | None ↦ text.now ≡ [] ] }
    ensures lines { elim result [ Some x ↦ (lines text.now ≡ x.line.now ∷ lines x.rest.now) × (length x.rest.now < length text.now) | None ↦ lines text.now ≡ [] ] }
{
    if text.is_empty() {
        return None;
    }
    let cut = cut_at(text, b'\n');
    Some(FirstLine {
        line: cut.front,
        rest: cut.rest.unwrap_or(&[]),
    })
}

// The lines of a text, one by one.
#[derive(Drop)]
pub struct Lines<'a> {
    rest: &'a [u8],
}

impl<'a> Lines<'a> {
    // The lines of a text, from the first on.
    #[tactic(auto, using(crate::proofs::Lining::lines_few))]
    pub fn new(text: &'a [u8]) -> Lines<'a>
        ensures all { lines_left result ≡ lines text.now }
        ensures few { length (lines_left result) ≤ length text.now }
    {
        Lines { rest: text }
    }
}

impl<'a> Iterator for Lines<'a> {
    type Item = &'a [u8];

    ghost next_gives = { YieldsFirstRef lines_left };

    ghost remaining = { item_count lines_left };

    fn next(&mut self) -> Option<&'a [u8]> {
        let first = split_line(self.rest)?;
        self.rest = first.rest;
        Some(first.line)
    }
}
