// The slot store: one place of 96 bytes for each entry.
//
// Job: a store of at most 128 entries that lie in the store itself, with no allocator.
// May use: `tables`, and arrayvec for the entries' places.
// Main promise: the store reads and writes as the traits `Readable` and `Store` say of its table, and a new
// store has blank entries.

#![tactic(auto)]

pub mod slot;
pub mod store;

pub use slot::SlotStore;
