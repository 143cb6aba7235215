// The check of an image file, and the reader of one.
//
// Job: tell whether bytes are the file of a lawful table, and which rule they break first if not; show the
// table of a file, without a copy of it.
// May use: tables and imageformat.
// Main promise: of arbitrary bytes, exactly the written forms of lawful tables are accepted; any other
// bytes are refused by the first rule that they break, with the row where it is one of a row. A reader over
// a file shows the table that was written, and over any other bytes no entry.

#![tactic(auto)]

pub mod checks;
pub mod faults;
pub mod reader;

pub use checks::check;
pub use faults::{FileFault, RowFault};
pub use reader::Reader;
