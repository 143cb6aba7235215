ghost use Rattle.modes.specs.Kind.{plain};
ghost use Rattle.std.specs.Prelude.{refl};
ghost use Rattle.std.proofs.Common.{arith};
ghost use Rattle.modes.specs.Checked.{checked};

use super::modes::Modes;

// The plain kind: a mode that reads, and a mode that writes.
#[derive(Clone, Copy)]
pub struct Plain;

impl Plain {
    // The code of the mode that only reads.
    pub const READ: u8 = 0;
    // The code of the mode that writes.
    pub const WRITE: u8 = 1;
    // The number of modes.
    const MODES: u8 = 2;
}

// The plain kind is a kind of modes.
impl Modes for Plain {
    // the plain kind's answers
    ghost kind = { plain };

    // the plain kind passes the tests of its laws, and mode 1 writes
    ghost lawful = { checked plain 1 (omega arith) (omega arith) refl refl };

    // Read and write.
    fn modes(&self) -> u8 {
        Plain::MODES
    }

    // Both modes read.
    fn reads(&self, _mode: u8) -> bool {
        true
    }

    // Only write writes.
    fn writes(&self, mode: u8) -> bool {
        mode == Plain::WRITE
    }

    // Only read with read does not conflict.
    fn conflict(&self, a: u8, b: u8) -> bool {
        !(a == Plain::READ && b == Plain::READ)
    }

    // The greater code.
    fn join(&self, a: u8, b: u8) -> u8 {
        a.max(b)
    }
}
