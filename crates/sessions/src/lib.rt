// The session table of a catalogue office.
//
// Job: the sessions, their holds and what they wrote, the numbers and hands given out, the round and its marks.
// May use: `tables`, `modes`, `rules`, `keyed`.
// Main promise: with any live table of its count and any image, the session table is an office of the rules,
// and each call answers and leaves exactly what the rule of that call says.

#![tactic(auto)]

pub mod calls;
pub mod claims;
pub mod commits;
mod free;
pub mod hold;
pub mod questions;
pub mod rounds;
pub mod session;
pub mod table;
pub mod texts;

pub use hold::Hold;
pub use table::SessionTable;
