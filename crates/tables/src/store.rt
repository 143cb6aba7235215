ghost use Rattle.std.specs.Prelude.{◌≡◌};
ghost use Rattle.tables.specs.Answers.{PutAnswer};

use super::readable::Readable;
use super::refusal::Refusal;
use super::stamp::Stamp;

// A readable table that can also be written.
pub trait Store: Readable {
    // Replaces text and stamp of one entry; refusals 2 and 11.
    fn put(&mut self, e: usize, text: &[u8], stamp: Stamp) -> Result<(), Refusal>
        ensures { PutAnswer (Self.Readable.table self.old) e text.now stamp.edition stamp.hand result (Self.Readable.table self.new) };
}
