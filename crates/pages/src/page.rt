use tables::{LONGEST_TEXT, MOST_ENTRIES};

// The bytes that a page has.
pub(crate) const PAGE: usize = 16;

// The pages that a stock has for each entry: as many as the longest text needs.
pub(crate) const PAGES_EACH: usize = LONGEST_TEXT / PAGE;

// The most pages that a stock has.
pub(crate) const MOST_PAGES: usize = PAGES_EACH * MOST_ENTRIES;

// The most chains that a stock has: one for each entry, and one for the free pages.
pub(crate) const MOST_CHAINS: usize = MOST_ENTRIES + 1;

// A page: a block of a text, and the number of the page that follows it in its chain.
#[derive(Clone, Copy)]
pub(crate) struct Page {
    pub(crate) bytes: [u8; PAGE],
    pub(crate) next: usize,
}

// A chain: the number of its first page, and how many pages it has; the first means nothing where it has none. Pages are
// named by number, as a store has no allocator for boxes.
#[derive(Clone, Copy)]
pub(crate) struct Chain {
    pub(crate) first: usize,
    pub(crate) pages: usize,
}
