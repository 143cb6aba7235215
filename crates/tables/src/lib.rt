// What a table is, and what may be asked of one.
//
// Job: the one refusal type, stamps, texts, the trait of tables that can be read, the trait of stores that can
// also be written, and the filling of a caller's buffer.
// May use: std alone. Every crate that speaks of tables uses this one.
// Main promise: whatever implements the traits answers as its table says, and refuses only where, and by the
// number that, the rules name.

#![tactic(auto)]

// The most entries that a table has.
pub const MOST_ENTRIES: usize = 128;

// The most bytes that a text has.
pub const LONGEST_TEXT: usize = 96;

pub mod buffer;
pub mod readable;
pub mod refusal;
pub mod stamp;
pub mod store;
pub mod text;

pub use buffer::fill_front;
pub use readable::Readable;
pub use refusal::Refusal;
pub use stamp::Stamp;
pub use store::Store;
pub use text::Text;
