// A catalogue's listing.
//
// Job: reads a listing, one entry a line, and keeps its entries in a page store.
// May use: tables, words, pages.
// Main promise: the store holds exactly the entries that the listing's good lines say, in their order; every
// other line is told with its number and its fault, and changes nothing.

#![tactic(auto)]

pub mod entries;
pub mod entry;
pub mod line;
pub mod load;
pub mod survey;

pub use entries::Items;
pub use entry::Item;
pub use line::{LineFault, parse_line};
pub use load::{Catalogue, LoadFault, load_listing};
pub use survey::{BadLine, Survey, survey_listing};
