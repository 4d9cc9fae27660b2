//! Why a card could not be read.

ghost use Rattle.std.specs.Prelude.{◌≡◌};
ghost use Rattle.report_streams.specs.CardLines.Faults.{read_fault_number};
ghost use Rattle.report_streams.specs.declared.card_lines.fault.ReadFault.TheVariants as read;

use card_code::DeckFault;
use thiserror::Error;

/// Why a card of a stream was not read.
#[derive(Clone, Copy, Debug, PartialEq, Eq, Error)]
pub enum ReadFault {
    /// The next line is refused, or is line 1,000,000. Want of memory is never among these.
    #[error("{fault}")]
    Deck { fault: DeckFault },
    /// The source failed while line `line`, from 1, was read.
    #[error("card {line} could not be read")]
    Read { line: u32 },
    /// A fault was told before; nothing is read after it.
    #[error("the reading of cards has ended with a fault")]
    Failed,
}

impl ReadFault {
    /// Its number in the catalogue of faults: 1 to 3 of a line, 4 of a read, 5 after a fault.
    pub fn number(self) -> Option<u8>
        ensures { result ≡ read_fault_number self }
    {
        match self {
            ReadFault::Deck { fault } => fault.number(),
            ReadFault::Read { .. } => Some(4),
            ReadFault::Failed => Some(5),
        }
    }
}

impl From<DeckFault> for ReadFault {
    ghost from_gives = { λ fault told. told ≡ read.Deck fault };

    fn from(fault: DeckFault) -> ReadFault {
        ReadFault::Deck { fault }
    }
}
