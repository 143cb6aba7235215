ghost use Rattle.std.specs.Prelude.{◌≡◌, ◌≤◌, length};
ghost use Rattle.std.specs.Iterator.{YieldsFirstBy, item_count};
ghost use Rattle.words.specs.Lines.{lines};
ghost use Rattle.listing.specs.Listing.{entry_of, listed, entries_left};

use super::entry::Item;
use super::line::parse_line;
use words::Lines;

// The entries of a listing's good lines, one by one.
#[derive(Drop)]
pub struct Items<'a> {
    lines: Lines<'a>,
}

impl<'a> Items<'a> {
    // The entries of a listing, from the first on.
    #[tactic(auto, using(crate::proofs::LineByLine::listed_few))]
    pub fn new(listing: &'a [u8]) -> Items<'a>
        ensures all { entries_left result ≡ listed (lines listing.now) }
        ensures few { length (entries_left result) ≤ length listing.now }
    {
        Items {
            lines: Lines::new(listing),
        }
    }
}

impl<'a> Iterator for Items<'a> {
    type Item = Item<'a>;

    ghost next_gives = { YieldsFirstBy entry_of entries_left };

    ghost remaining = { item_count entries_left };

    fn next(&mut self) -> Option<Item<'a>> {
        // find_map does not say what is left once it has found nothing, and a `for` over by_ref has no name for it
        while let Some(line) = self.lines.next() {
            if let Ok(item) = parse_line(line) {
                return Some(item);
            }
        }
        None
    }
}
