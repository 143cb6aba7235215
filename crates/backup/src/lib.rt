// The catalogue office.
//
// Job: the office over a live store, an image store and a kind of modes, which it owns: sessions that claim, read,
// write and commit, and rounds that copy the entries into the image.
// May use: tables, modes, rules (its definitions), restore, keyed (its lemmas), sessions.
// Main promise: each call answers and leaves exactly what the rule of that call says, on the stores' own tables.

#![tactic(auto)]

mod commits;
mod hands;
pub mod office;
pub mod serves;
mod works;

pub use office::Office;
pub use serves::Serves;
