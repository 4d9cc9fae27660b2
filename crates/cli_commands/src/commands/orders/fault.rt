//! What can be wrong with the text of orders.

ghost use Rattle.std.specs.Prelude.{◌≡◌};
ghost use Rattle.cli_commands.specs.declared.commands.orders.fault.OrdersFault.TheVariants.{Memory};

use std::alloc::{AllocError, AllocFailed};
use thiserror::Error;

/// Why a text gives no orders. Or memory was refused.
#[derive(Clone, Copy, Debug, PartialEq, Eq, Error)]
pub enum OrdersFault {
    /// A line is no order: it doesn't have the numbers of the 45 units, each once, divided by spaces. It is the lowest such line.
    #[error("line {line} is no order of the 45 units")]
    NotAnOrder {
        /// Its number, from 1.
        line: usize,
    },
    /// There is no line.
    #[error("there is no order")]
    NoOrders,
    /// Memory was refused.
    #[error("out of memory")]
    Memory,
}

impl From<AllocError> for OrdersFault {
    ghost from_gives = { λ _ fault. fault ≡ Memory };

    fn from(_refused: AllocError) -> OrdersFault {
        OrdersFault::Memory
    }
}

impl<T: Drop> From<AllocFailed<T>> for OrdersFault {
    ghost from_gives = { λ _ fault. fault ≡ Memory };

    fn from(_refused: AllocFailed<T>) -> OrdersFault {
        OrdersFault::Memory
    }
}
