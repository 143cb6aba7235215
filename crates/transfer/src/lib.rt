// Carrying a table through an image file.
//
// Job: writes a table's file into a buffer, reads it back, restores it into a store and compares the two
// tables, as one call that tells its figures.
// May use: tables, restore, compare and the crates of the image file.
// Main promise: the buffer then begins with the table's file, and the store holds the table.

#![tactic(auto)]

ghost use Rattle.std.specs.Prelude.{◌≡◌};
ghost use Rattle.transfer.specs.Transferred.{Transferred};
ghost use Rattle.transfer.specs.declared.fault.TransferFault.{TransferFault};

use compare::{Comparison, compare_tables};
use imagefile::Reader;
use imagerestore::restore_file;
use imagesave::write_table;
use tables::{Readable, Store};

pub mod fault;

pub use fault::TransferFault;

// The figures of a transfer: the length of the file, the entries that its reader shows, and how the source and
// the store compare afterwards.
#[derive(Clone, Copy, PartialEq, Eq, Debug)]
pub struct Transfer {
    pub file_length: usize,
    pub entries: usize,
    pub compared: Comparison,
}

// Writes the table of `from` into `file`, and restores it from there into `to`.
pub fn transfer_table<R: Readable, S: Store>(
    from: &R,
    file: &mut [u8],
    to: &mut S,
) -> Result<Transfer, TransferFault>
    ensures { Transferred (R.Readable.table from.now) file.old (S.Readable.table to.old) result file.new (S.Readable.table to.new) }
{
    let file_length = write_table(from, file)?;
    let bytes = &file[..file_length];
    restore_file(bytes, to)?;
    Ok(Transfer {
        file_length,
        entries: Reader::new(bytes).count(),
        compared: compare_tables(from, to),
    })
}
