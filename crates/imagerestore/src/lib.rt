// Restoring a store from an image file.
//
// Job: puts the table of an image file into a store of equal count.
// May use: tables, imageformat, imagefile and restore.
// Main promise: the file of a lawful table of equal count is in the store afterwards; any other bytes are
// refused, by the file's fault before the difference of the counts, and the store is as it was.

#![tactic(auto)]

ghost use Rattle.imagerestore.specs.Outcome.{Outcome};

use imagefile::{Reader, check};
use restore::restore;
use tables::Store;

pub mod fault;

pub use fault::RestoreFault;

// Puts the table of a file into a store; the file's fault, or refusal 15 where the counts differ.
pub fn restore_file<S: Store>(bytes: &[u8], to: &mut S) -> Result<(), RestoreFault>
    ensures { Outcome bytes.now (S.Readable.table to.old) result (S.Readable.table to.new) }
{
    check(bytes)?;
    restore(&Reader::new(bytes), to)?;
    Ok(())
}
