ghost use Rattle.modes.specs.Kind.{draft};
ghost use Rattle.std.specs.Prelude.{refl};
ghost use Rattle.std.proofs.Common.{arith};
ghost use Rattle.modes.specs.Checked.{checked};

use super::modes::Modes;

// The draft kind: a mode that reads, a mode that reads and keeps others from writing or reserving, and a
// mode that writes. A kind of its own beside the plain one: they differ in what conflicts, which is listed mode by
// mode, and one formula over both would have to be decoded; what they have alike is three answers of a line.
#[derive(Clone, Copy)]
pub struct Draft;

impl Draft {
    // The code of the mode that only reads.
    pub const READ: u8 = 0;
    // The code of the mode that reads, and conflicts with every mode but read.
    pub const RESERVE: u8 = 1;
    // The code of the mode that writes.
    pub const WRITE: u8 = 2;
    // The number of modes.
    const MODES: u8 = 3;
}

// The draft kind is a kind of modes.
impl Modes for Draft {
    // the draft kind's answers
    ghost kind = { draft };

    // the draft kind passes the tests of its laws, and mode 2 writes
    ghost lawful = { checked draft 2 (omega arith) (omega arith) refl refl };

    // Read, reserve and write.
    fn modes(&self) -> u8 {
        Draft::MODES
    }

    // All three modes read.
    fn reads(&self, _mode: u8) -> bool {
        true
    }

    // Only write writes.
    fn writes(&self, mode: u8) -> bool {
        mode == Draft::WRITE
    }

    // Only read with read, and read with reserve either way round, do not conflict.
    fn conflict(&self, a: u8, b: u8) -> bool {
        !matches!(
            (a, b),
            (Draft::READ, Draft::READ)
                | (Draft::READ, Draft::RESERVE)
                | (Draft::RESERVE, Draft::READ)
        )
    }

    // The greater code.
    fn join(&self, a: u8, b: u8) -> u8 {
        a.max(b)
    }
}
