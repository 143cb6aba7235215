ghost use Rattle.std.specs.Prelude.{◌≡◌};
ghost use Rattle.imagefile.specs.Faults.{fault_row, fault_refusal};
ghost use Rattle.imagefile.specs.declared.faults.FileFault.{FileFault};

use tables::Refusal;

// What is wrong in a row: which row, and by which refusal.
#[derive(Clone, Copy, PartialEq, Eq, Debug)]
pub struct RowFault {
    pub row: usize,
    pub refusal: Refusal,
}

// What is wrong in a file: something of the file as a whole, or of a row.
#[derive(Clone, Copy, PartialEq, Eq, Debug)]
pub enum FileFault {
    // a fault of the file as a whole: 20 to 23, or 27
    Whole(Refusal),
    // a fault of a row: 24 to 26
    Row(RowFault),
}

impl FileFault {
    // The row that the fault is in, if it is in one.
    pub fn row(&self) -> Option<usize>
        ensures { result ≡ fault_row self.now }
    {
        match self {
            FileFault::Whole(_) => None,
            FileFault::Row(fault) => Some(fault.row),
        }
    }

    // The refusal that the fault gives.
    pub fn refusal(&self) -> Refusal
        ensures { result ≡ fault_refusal self.now }
    {
        match self {
            FileFault::Whole(refusal) => *refusal,
            FileFault::Row(fault) => fault.refusal,
        }
    }
}

// A fault of a row is a fault of its file.
impl From<RowFault> for FileFault {
    ghost from_gives = { λ x y. y ≡ FileFault.Row x };

    fn from(of_row: RowFault) -> FileFault {
        FileFault::Row(of_row)
    }
}
