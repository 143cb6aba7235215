// The page store: texts in chained pages out of one stock.
//
// Job: a store of n entries, at most 128, that cuts each text into pages of 16 bytes out of a stock of 6 × n
// pages, with no allocator. The pages of a replaced text go back to the stock and are used again.
// May use: `tables`, and arrayvec for the rows and for a text that is read.
// Main promise: the store reads and writes as the traits `Readable` and `Store` say of its table; a new store
// has blank entries; and every page stands in one chain, so that a put that is not refused never runs out.

#![tactic(auto)]

mod moves;
mod page;
mod reading;
mod start;
mod stock;
mod store;
mod table;

pub use store::PageStore;
