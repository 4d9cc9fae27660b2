//! What can be wrong with a deck of cards for a chart.

ghost use Rattle.std.specs.Prelude.{◌≡◌};
ghost use Rattle.fault_lines.specs.declared.faults.deck.RunFault.TheVariants as deck;

use chart_lines::charts::{Level, Name};
use chart_rules::CardFault;
use std::alloc::AllocError;
use thiserror::Error;

/// Why a deck is refused. A later cause is told only where no earlier one is there.
#[derive(Clone, Copy, Debug, PartialEq, Eq, Error)]
pub enum RunFault {
    /// There are more than 999,999 cards.
    #[error("more than 999,999 cards")]
    TooManyCards,
    /// A text of the card with this number, from 1, holds something that is neither a print character nor blank.
    #[error("card {card} has no text in the field from column {column} on")]
    NotText {
        /// The number of the first invalid card.
        card: u32,
        /// The first column of its first invalid field.
        column: u16,
    },
    /// An amount of the card with this number, from 1, is no number.
    #[error("card {card} has no amount in the field from column {column} on")]
    NotAmount {
        /// The number of the first invalid card.
        card: u32,
        /// The first column of its first invalid field.
        column: u16,
    },
    /// A total has more digits than its total line has room for: the first such total, by its group's last card, then by its level, then by
    /// its line of the chart.
    #[error("a total that ends with card {card} has too many digits")]
    DoesNotFit {
        /// The level of the total line.
        level: Level,
        /// The name of the amount.
        name: Name,
        /// The number of the last card of the total's group, from 1.
        card: u32,
    },
    /// A growth was refused.
    #[error("out of memory")]
    Memory,
}

impl RunFault {
    ghost use Rattle.std.specs.Prelude.{◌≡◌};
    ghost use Rattle.fault_lines.specs.FaultsWords.FaultNumbers.{run_fault_number};
    ghost use Rattle.fault_lines.specs.FaultsWords.ToldFaults.{of_card};

    /// The fault of the card with a number, from 1, that is not valid.
    pub fn of_card(fault: CardFault, card: u32) -> RunFault
        ensures { result ≡ of_card fault card }
    {
        match fault {
            CardFault::NotText { column } => RunFault::NotText { card, column },
            CardFault::NotAmount { column } => RunFault::NotAmount { card, column },
        }
    }

    /// The number by which the fault is told, 3 or 41 to 43; none where memory was refused.
    pub fn number(self) -> Option<u8>
        ensures { result ≡ run_fault_number self }
    {
        match self {
            RunFault::TooManyCards => Some(3),
            RunFault::NotText { .. } => Some(41),
            RunFault::NotAmount { .. } => Some(42),
            RunFault::DoesNotFit { .. } => Some(43),
            RunFault::Memory => None,
        }
    }
}

impl From<AllocError> for RunFault {
    ghost from_gives = { λ _ fault. fault ≡ deck.Memory };

    fn from(_refused: AllocError) -> RunFault {
        RunFault::Memory
    }
}
