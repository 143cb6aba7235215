// The writer of an image file.
//
// Job: to write a table's file into a caller's buffer, piece by piece: the head and the rows first (`Rows`),
// then the bodies (`Bodies`). Both are one `Writer`, whose stage is a type.
// May use: tables, imageformat.
// Main promise: where only the writer wrote the buffer, the finished file is the file of the table whose rows
// and bodies were offered; a refused call leaves the writer and the buffer as they were.

#![tactic(auto)]

pub mod writer;

pub use writer::{Bodies, Rows, TakesBodies, TakesRows, Writer};
