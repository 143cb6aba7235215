// The bytes of an image file.
//
// Job: the definition of the file that a table is written as (specs/Format.antt), and the coding of its
// numbers: the head and the rows, to bytes and from bytes.
// May use: tables.
// Main promise: what is coded here are the bytes that the definition says, and what is read here is what was
// coded.

#![tactic(auto)]

pub mod row;

pub use row::{HEAD_BYTES, LONGEST_FILE, ROW_BYTES, Row, VERSION, head_bytes, u16_at};
