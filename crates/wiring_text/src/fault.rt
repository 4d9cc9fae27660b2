//! Why a wiring chart is refused.

ghost use Rattle.std.specs.Prelude.{◌≡◌};
ghost use Rattle.wiring_text.specs.WiringFaultNumbers.{wiring_fault_number, faulty_line, cause_number};
ghost use Rattle.wiring_text.specs.declared.fault.WiringFault.TheVariants.{Memory};

use hubs::setups::SetupFault;
use std::alloc::AllocError;
use thiserror::Error;

/// Why a text is no wiring chart. Lines are numbered from 1.
#[derive(Clone, Copy, Debug, PartialEq, Eq, Error)]
pub enum WiringFault {
    /// More than 1,000,000 lines, or a line of more than 60 bytes: fault 71.
    #[error("the text is too large")]
    TooLarge,
    /// Line 1 is neither `WIRING407 1` nor `WIRING407 2`, or line 2 not `FORM` with three numbers: fault 72.
    #[error("the text does not begin as a wiring chart")]
    NoFirstLine,
    /// The lowest line at fault is none of a wiring chart, or stands after END: fault 73.
    #[error("line {line} is no line of a wiring chart")]
    NotALine {
        /// Its number.
        line: u32,
    },
    /// The lowest line at fault says again what a line before it said: fault 74.
    #[error("line {line} stood before")]
    LineTwice {
        /// Its number.
        line: u32,
    },
    /// The lowest line at fault names a wire, a stop or a form that the panel can't have: fault 75.
    #[error("line {line} can't be wired")]
    Unfit {
        /// Its number.
        line: u32,
        /// Why: `NotExit`, `NotEntry`, `CarryRing` or `TapeFault`.
        fault: SetupFault,
    },
    /// No line is END: fault 76.
    #[error("the text has no END")]
    NoEnd,
    /// No memory was left.
    #[error("out of memory")]
    Memory,
}

impl WiringFault {
    /// The number by which the fault is told, 71 to 76; none where no memory was left.
    pub fn number(self) -> Option<u8>
        ensures { result ≡ wiring_fault_number self }
    {
        match self {
            WiringFault::TooLarge => Some(71),
            WiringFault::NoFirstLine => Some(72),
            WiringFault::NotALine { .. } => Some(73),
            WiringFault::LineTwice { .. } => Some(74),
            WiringFault::Unfit { .. } => Some(75),
            WiringFault::NoEnd => Some(76),
            WiringFault::Memory => None,
        }
    }

    /// The number of the line at fault, from 1; none where the fault is one of the whole text.
    pub fn line(self) -> Option<u32>
        ensures { result ≡ faulty_line self }
    {
        match self {
            WiringFault::NotALine { line }
            | WiringFault::LineTwice { line }
            | WiringFault::Unfit { line, .. } => Some(line),
            WiringFault::TooLarge
            | WiringFault::NoFirstLine
            | WiringFault::NoEnd
            | WiringFault::Memory => None,
        }
    }

    /// The number of the setup's fault that is the cause, 51 to 54, where the panel can't have what a line says; none elsewhere.
    pub fn cause_number(self) -> Option<u8>
        ensures { result ≡ cause_number self }
    {
        match self {
            WiringFault::Unfit { fault, .. } => fault.number(),
            _ => None,
        }
    }
}

impl From<AllocError> for WiringFault {
    ghost from_gives = { λ _ fault. fault ≡ Memory };

    fn from(_failed: AllocError) -> WiringFault {
        WiringFault::Memory
    }
}
