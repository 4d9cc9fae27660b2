//! Why a streamed run stops.

ghost use Rattle.std.specs.Prelude.{◌≡◌};
ghost use Rattle.report_runs.specs.declared.fault.StreamCause.TheVariants as cause;

use chart_rules::CardFault;
use report_misfits::Misfit;
use report_streams::card_lines::ReadFault;
use report_writer::WriteFault;
use std::alloc::AllocError;
use thiserror::Error;

/// Why a streamed run stops: the first cause that it meets.
#[derive(Clone, Copy, Debug, PartialEq, Eq)]
pub enum StreamCause {
    /// The next card could not be read, or the next line is none: causes 1 to 4.
    Card {
        /// What is wrong with it.
        fault: ReadFault,
    },
    /// The next card is not valid for the chart: 41 or 42.
    Invalid {
        /// Its first field that is not valid.
        fault: CardFault,
        /// The number of the card, from 1.
        card: u32,
    },
    /// A total has more digits than its total line has room for: 43.
    Misfit {
        /// The first such total of the cards read so far.
        misfit: Misfit,
    },
    /// The pages could not be written: 91.
    Write,
    /// A growth was refused.
    Memory,
}

impl StreamCause {
    ghost use Rattle.std.specs.Prelude.{◌≡◌};
    ghost use Rattle.report_runs.specs.Causes.{cause_number};

    /// Its number in the catalogue of faults: 1 to 4, 41 to 43 or 91 in what a run tells, 5 for `ReadFault::Failed`; none where memory was
    /// refused.
    pub fn number(self) -> Option<u8>
        ensures { result ≡ cause_number self }
    {
        match self {
            StreamCause::Card { fault } => fault.number(),
            StreamCause::Invalid { fault, .. } => Some(fault.number()),
            StreamCause::Misfit { .. } => Some(43),
            StreamCause::Write => Some(91),
            StreamCause::Memory => None,
        }
    }
}

impl From<ReadFault> for StreamCause {
    ghost from_gives = { λ fault told. told ≡ cause.Card fault };

    fn from(fault: ReadFault) -> StreamCause {
        StreamCause::Card { fault }
    }
}

impl From<WriteFault> for StreamCause {
    ghost from_gives = { λ _ told. told ≡ cause.Write };

    fn from(_failed: WriteFault) -> StreamCause {
        StreamCause::Write
    }
}

impl From<AllocError> for StreamCause {
    ghost from_gives = { λ _ told. told ≡ cause.Memory };

    fn from(_refused: AllocError) -> StreamCause {
        StreamCause::Memory
    }
}

/// What stopped a streamed run, and how much it had written.
#[derive(Clone, Copy, Debug, PartialEq, Eq, Error)]
#[error("the run stopped after {written} bytes: {cause:?}")]
pub struct StreamFault {
    /// Why.
    pub cause: StreamCause,
    /// How many bytes were written.
    pub written: u64,
}

impl From<WriteFault> for StreamFault {
    ghost from_gives = { λ fault told. (told.cause ≡ cause.Write) × (told.written ≡ fault.written) };

    fn from(fault: WriteFault) -> StreamFault {
        StreamFault {
            cause: StreamCause::Write,
            written: fault.written,
        }
    }
}
