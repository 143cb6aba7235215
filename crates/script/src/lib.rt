// The lines of a script.
//
// Job: reads the first line of a script and its later lines, and writes answers and entries as lines.
// May use: tables, words, rules, calls.
// Main promise: a line is read exactly as its words say, and any other line is malformed; an answer's line is
// exactly `ok` with its values or `no` with the refusal's number.

#![tactic(auto)]

pub mod answers;
pub mod command;
mod fields;
pub mod opening;

pub use answers::{push_answer, push_bad, push_entry, push_next};
pub use command::{Command, parse_command};
pub use opening::{KindName, Opening, parse_opening};
