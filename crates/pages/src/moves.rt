ghost use Rattle.std.specs.Prelude.{◌≡◌, ℕ, ◌+◌, ◌/◌, ◌<◌, ◌≤◌, [], ◌∷◌, ◌++◌, length, take, drop, replicate, ◌≢◌};
ghost use Rattle.pages.specs.Blocks.{blocks, OthersKept, TextPut};

use super::page::{Chain, PAGE, Page};
use super::stock::Stock;

// The block of a piece of a text: its first bytes, filled up with zeros.
fn block(piece: &[u8]) -> [u8; PAGE]
    ensures { result ≡ take 16 (piece.now ++ replicate 16 0) }
{
    let mut bytes = [0; PAGE];
    let size = piece.len().min(PAGE);
    bytes[..size].copy_from_slice(&piece[..size]);
    bytes
}

// Each call with an entry asks that `e` is one's number: a type of its own for such numbers would have to name its stock.
impl Stock {
    // Moves the first page of chain `a` to the front of chain `b`, and writes a block into it.
    fn shift(&mut self, a: usize, b: usize, block: [u8; PAGE])
        requires a_in { a ≤ self.old.count }
        requires b_in { b ≤ self.old.count }
        requires apart { a ≢ b }
        requires some { 0 < length (blocks self.old a) }
        requires room { b < self.old.count → length (blocks self.old b) < 6 }
        ensures stays { self.new.count ≡ self.old.count }
        ensures from { blocks self.new a ≡ drop 1 (blocks self.old a) }
        ensures onto { blocks self.new b ≡ block ∷ blocks self.old b }
        ensures rest { (o : ℕ) → o ≤ self.old.count → (o ≢ a) → (o ≢ b) → blocks self.new o ≡ blocks self.old o }
    {
        let from = self.chains[a];
        let onto = self.chains[b];
        let p = from.first;
        let next = self.pages[p].next;
        self.pages[p] = Page {
            bytes: block,
            next: onto.first,
        };
        self.chains[a] = Chain {
            first: next,
            pages: from.pages - 1,
        };
        self.chains[b] = Chain {
            first: p,
            pages: onto.pages + 1,
        };
    }

    // Clears the pages of entry `e`, and moves them to the free chain. Then at least six pages are free, as no
    // entry has more.
    fn give_back(&mut self, e: usize)
        requires { e < self.old.count }
        ensures none { blocks self.new e ≡ [] }
        ensures room { 6 ≤ length (blocks self.new self.new.count) }
        ensures others { OthersKept self.old self.new e }
    {
        while self.chains[e].pages > 0 {
            self.shift(e, self.count, [0; PAGE]);
        }
    }

    // Writes a text into free pages, as the chain of entry `e`, which has none.
    fn fill(&mut self, e: usize, text: &[u8])
        requires within { e < self.old.count }
        requires short { length text.now ≤ 96 }
        requires none { blocks self.old e ≡ [] }
        requires room { 6 ≤ length (blocks self.old self.old.count) }
        ensures { TextPut self.old self.new e text.now }
    {
        for piece in text.chunks(PAGE).rev() {
            self.shift(self.count, e, block(piece));
        }
    }

    // Replaces the text of entry `e`. Its pages go back before new ones are taken, so that there are enough.
    pub(crate) fn replace(&mut self, e: usize, text: &[u8])
        requires within { e < self.old.count }
        requires short { length text.now ≤ 96 }
        ensures { TextPut self.old self.new e text.now }
    {
        self.give_back(e);
        self.fill(e, text);
    }
}
