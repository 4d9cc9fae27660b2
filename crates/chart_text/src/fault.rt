//! What can be wrong with the text of a chart.

ghost use Rattle.std.specs.Prelude.{◌≡◌};
ghost use Rattle.chart_text.specs.declared.fault.TextFault.TheVariants.{Memory};

use std::alloc::{AllocError, AllocFailed};
use thiserror::Error;

/// Why a text is no chart: the first of its text rules that is broken. Or memory was refused.
#[derive(Clone, Copy, Debug, PartialEq, Eq, Error)]
pub enum TextFault {
    /// The text has more than 500 lines, or a line of more than 200 bytes.
    #[error("the text has more than 500 lines, or a line of more than 200 bytes")]
    TooLarge,
    /// Line 1 is neither `CHART407 1` nor `CHART407 2`.
    #[error("line 1 is neither `CHART407 1` nor `CHART407 2`")]
    NoFirstLine,
    /// A line is no form of a chart of its version, or stands after END. It is the lowest such line.
    #[error("line {line} is no form of a chart")]
    NotALine {
        /// Its number, from 2.
        line: u16,
    },
    /// No line is END.
    #[error("there is no line END")]
    NoEnd,
    /// Memory was refused.
    #[error("out of memory")]
    Memory,
}

impl TextFault {
    ghost use Rattle.std.specs.Prelude.{◌≡◌};
    ghost use Rattle.chart_text.specs.TextFaults.{fault_number};

    /// Its number in the catalogue of faults, 11 to 14; want of memory has none.
    pub fn number(self) -> Option<u8>
        ensures { result ≡ fault_number self }
    {
        match self {
            TextFault::TooLarge => Some(11),
            TextFault::NoFirstLine => Some(12),
            TextFault::NotALine { .. } => Some(13),
            TextFault::NoEnd => Some(14),
            TextFault::Memory => None,
        }
    }
}

impl From<AllocError> for TextFault {
    ghost from_gives = { λ _ fault. fault ≡ Memory };

    fn from(_refused: AllocError) -> TextFault {
        TextFault::Memory
    }
}

impl<T: Drop> From<AllocFailed<T>> for TextFault {
    ghost from_gives = { λ _ fault. fault ≡ Memory };

    fn from(_refused: AllocFailed<T>) -> TextFault {
        TextFault::Memory
    }
}
