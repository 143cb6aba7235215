// The writing of a whole table as an image file.
//
// Job: to write every row and every body of a readable table through the writer, into a caller's buffer.
// May use: tables, fetch, imageformat, imagewriter.
// Main promise: a buffer of at least 4 + 110 × n bytes gets the table's file at its front and keeps the rest;
// a shorter one is refused and stays as it is; nothing else is refused.

#![tactic(auto)]

pub mod saving;

pub use saving::write_table;
