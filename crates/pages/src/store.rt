ghost use Rattle.std.specs.Prelude.{◌≡◌, length};
ghost use Rattle.pages.specs.Rows.{Fits};

use super::stock::Stock;
use arrayvec::ArrayVec;
use tables::{MOST_ENTRIES, Stamp};

// What an entry has beside its pages: the length of its text, which they do not show since the last one is filled
// up, and its stamp.
#[derive(Clone, Copy, Default)]
pub(crate) struct Row {
    pub(crate) len: usize,
    pub(crate) stamp: Stamp,
}

// A store that keeps the texts of its entries in the chains of a stock, and what else an entry has in a row.
#[derive(Drop)]
pub struct PageStore {
    pub(crate) stock: Stock,
    pub(crate) rows: ArrayVec<Row, MOST_ENTRIES>,
    // there is a row for every entry
    ghost counted: { length rows.items ≡ stock.count },
    // every text is short enough, and has as many pages as it needs
    ghost fits: { Fits stock.chains stock.count rows.items },
}
