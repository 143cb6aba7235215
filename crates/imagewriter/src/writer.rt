ghost use Rattle.std.specs.Prelude.{◌+◌, ◌*◌, ◌≤◌};

use imageformat::ROW_BYTES;
use std::marker::PhantomData;
use tables::LONGEST_TEXT;

mod buffer;
mod stages;
mod writing_bodies;
mod writing_rows;

// The most bytes that an entry takes in a file: its row and its body.
const MOST_ENTRY_BYTES: usize = ROW_BYTES + LONGEST_TEXT;

// The stage in which a writer takes rows.
#[derive(Drop)]
pub struct TakesRows;

// The stage in which it takes bodies.
#[derive(Drop)]
pub struct TakesBodies;

// A writer for `count` entries: of its stage's rows or bodies the first `standing` are written, and the body
// of the next one begins at `place`. Plain numbers, as the buffer is the caller's.
#[derive(Drop)]
pub struct Writer<Stage> {
    count: usize,
    standing: usize,
    place: usize,
    stage: PhantomData<Stage>,
    // what the calls keep: few entries, no more of them standing than there are, no body above 96 bytes
    ghost few: { count ≤ 128 },
    ghost within: { standing ≤ count },
    ghost bounded: { place ≤ 4 + 14 * count + 96 * standing },
}

// A writer that takes rows.
pub type Rows = Writer<TakesRows>;

// A writer that takes bodies: all rows are written.
pub type Bodies = Writer<TakesBodies>;
