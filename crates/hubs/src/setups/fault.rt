//! Why a setup or a tape is refused.

ghost use Rattle.std.specs.Prelude.{◌≡◌};
ghost use Rattle.hubs.specs.SetupsWords.SetupFaults.{setup_fault_number};
ghost use Rattle.hubs.specs.declared.setups.fault.SetupFault.TheVariants.{Memory};

use std::alloc::{AllocError, AllocFailed};
use thiserror::Error;

/// Why a part of a setup is refused.
#[derive(Clone, Copy, Debug, PartialEq, Eq, Error)]
pub enum SetupFault {
    /// A wire's first hub is no exit in range: fault 51.
    #[error("the first hub of the wire is no exit")]
    NotExit,
    /// A wire's second hub is no entry in range, and its first is an exit: fault 52.
    #[error("the second hub of the wire is no entry")]
    NotEntry,
    /// A wire of a carry that can't go that way, and the hubs are an exit and an entry: fault 53. A carry exit leads to one carry
    /// entry at most and to nothing else, and a carry entry is fed by one carry exit at most and by nothing else; both are of one
    /// counter group, or of two groups of 8 positions, and three groups are never joined.
    #[error("no carry can go that way")]
    CarryRing,
    /// A carriage tape with a number out of range, or with a stop twice: fault 54.
    #[error("no carriage tape has these lines and stops")]
    TapeFault,
    /// No memory was left.
    #[error("out of memory")]
    Memory,
}

impl SetupFault {
    /// The number by which the fault is told, 51 to 54; none where no memory was left.
    pub fn number(self) -> Option<u8>
        ensures { result ≡ setup_fault_number self }
    {
        match self {
            SetupFault::NotExit => Some(51),
            SetupFault::NotEntry => Some(52),
            SetupFault::CarryRing => Some(53),
            SetupFault::TapeFault => Some(54),
            SetupFault::Memory => None,
        }
    }
}

impl From<AllocError> for SetupFault {
    ghost from_gives = { λ _ fault. fault ≡ Memory };

    fn from(_failed: AllocError) -> SetupFault {
        SetupFault::Memory
    }
}

impl<T: Drop> From<AllocFailed<T>> for SetupFault {
    ghost from_gives = { λ _ fault. fault ≡ Memory };

    fn from(_failed: AllocFailed<T>) -> SetupFault {
        SetupFault::Memory
    }
}
