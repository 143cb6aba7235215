ghost use Rattle.std.specs.Prelude.{◌≡◌};
ghost use Rattle.imagerestore.specs.Faults.{fault_row, fault_refusal};
ghost use Rattle.imagerestore.specs.declared.fault.RestoreFault.{RestoreFault};

use imagefile::FileFault;
use tables::Refusal;

// Why a file is not restored: a fault of the file, or the refusal of its table.
#[derive(Clone, Copy, PartialEq, Eq, Debug)]
pub enum RestoreFault {
    File(FileFault),
    Table(Refusal),
}

// No trait for the two questions that a file's fault answers too: no call is generic over faults.
impl RestoreFault {
    // The row that the fault is in, if it is in one.
    pub fn row(&self) -> Option<usize>
        ensures { result ≡ fault_row self.now }
    {
        match self {
            RestoreFault::File(fault) => fault.row(),
            RestoreFault::Table(_) => None,
        }
    }

    // The refusal that the fault gives.
    pub fn refusal(&self) -> Refusal
        ensures { result ≡ fault_refusal self.now }
    {
        match self {
            RestoreFault::File(fault) => fault.refusal(),
            RestoreFault::Table(refusal) => *refusal,
        }
    }
}

// A fault of the file is a fault of its restore.
impl From<FileFault> for RestoreFault {
    ghost from_gives = { λ x y. y ≡ RestoreFault.File x };

    fn from(of_file: FileFault) -> RestoreFault {
        RestoreFault::File(of_file)
    }
}

// So is the refusal of its table.
impl From<Refusal> for RestoreFault {
    ghost from_gives = { λ x y. y ≡ RestoreFault.Table x };

    fn from(of_table: Refusal) -> RestoreFault {
        RestoreFault::Table(of_table)
    }
}
