// Modes of holding, by kinds.
//
// Job: the trait of the kinds of modes, and two kinds, plain and draft.
// May use: std alone.
// Main promise: a kind answers every question as its meaning says, which never changes and keeps the laws that
// every kind owes.

#![tactic(auto)]

pub mod draft;
pub mod modes;
pub mod plain;

pub use draft::Draft;
pub use modes::Modes;
pub use plain::Plain;
