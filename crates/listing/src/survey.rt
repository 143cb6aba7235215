ghost use Rattle.std.specs.Prelude.{◌≡◌, length, IfOk};
ghost use Rattle.words.specs.Lines.{lines};
ghost use Rattle.listing.specs.Listing.{listed};
ghost use Rattle.listing.specs.Faults.{bad_lines};

use super::line::{LineFault, parse_line};
use std::alloc::{AllocError, Global};
use words::Lines;

// A line that is passed over: its number, from 1 on, and its fault.
#[derive(Clone, Copy)]
pub struct BadLine {
    pub line: usize,
    pub fault: LineFault,
}

// What a listing has: the number of its entries, and the lines that are passed over.
#[derive(Drop)]
pub struct Survey {
    pub entries: usize,
    pub bad: Vec<BadLine>,
}

// Goes through a listing once, and counts its entries and finds its bad lines. The entries are counted by hand: a second pass
// would parse each line again.
pub fn survey_listing(heap: Global, listing: &[u8]) -> Result<Survey, AllocError>
    ensures { IfOk result (λ s. (s.entries ≡ length (listed (lines listing.now))) × (s.bad.items ≡ bad_lines 1 (lines listing.now))) }
{
    let mut entries = 0;
    let mut bad = Vec::new(heap);
    for (k, line) in Lines::new(listing).enumerate() {
        match parse_line(line) {
            Ok(_) => entries += 1,
            Err(fault) => bad.push(BadLine { line: k + 1, fault })?,
        }
    }
    Ok(Survey { entries, bad })
}
