ghost use Rattle.std.specs.Prelude.{◌≡◌};
ghost use Rattle.transfer.specs.declared.fault.TransferFault.{TransferFault};

use imagerestore::RestoreFault;
use tables::Refusal;

// Why a transfer ends early: the file was not written, or not restored.
#[derive(Clone, Copy, PartialEq, Eq, Debug)]
pub enum TransferFault {
    Write(Refusal),
    Restore(RestoreFault),
}

// The writer's refusal ends a transfer.
impl From<Refusal> for TransferFault {
    ghost from_gives = { λ x y. y ≡ TransferFault.Write x };

    fn from(refusal: Refusal) -> TransferFault {
        TransferFault::Write(refusal)
    }
}

// The restore's fault ends a transfer.
impl From<RestoreFault> for TransferFault {
    ghost from_gives = { λ x y. y ≡ TransferFault.Restore x };

    fn from(of_restore: RestoreFault) -> TransferFault {
        TransferFault::Restore(of_restore)
    }
}
