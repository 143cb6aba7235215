ghost use Rattle.std.specs.Prelude.{◌≡◌, ◌≤◌, length};
ghost use Rattle.pages.specs.Chains.{Whole, Once, Counted, Small};

use super::page::{Chain, MOST_CHAINS, MOST_PAGES, Page};

// The stock: 6 × `count` pages, and the chains that they stand in. The chain of an entry has the entry's
// number; the chain of the free pages has the number `count`. Pages name one another by their numbers in one
// array, as a store has no allocator.
#[derive(Drop)]
pub(crate) struct Stock {
    pub(crate) pages: [Page; MOST_PAGES],
    pub(crate) chains: [Chain; MOST_CHAINS],
    pub(crate) count: usize,
    // the arrays have room for all pages and chains
    ghost lengths: { (length pages ≡ 768) × (length chains ≡ 129) × (count ≤ 128) },
    // every page has 16 bytes
    ghost whole: { Whole pages },
    // each of the pages stands in one chain, once
    ghost once: { Once pages chains count },
    // the chains have all the pages together
    ghost counted: { Counted chains count },
    // no entry has more pages than the longest text needs
    ghost small: { Small chains count },
}
