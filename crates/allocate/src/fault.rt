//! Why a chart has no plan.

ghost use Rattle.std.specs.Prelude.{◌≡◌};
ghost use Rattle.allocate.specs.declared.fault.CapacityFault.TheVariants.{Memory};

use chart_lines::charts::ControlLevel;
use std::alloc::{AllocError, AllocFailed};
use thiserror::Error;

/// Why a chart has no plan: the first capacity of the machine that it exceeds. Or memory was refused.
#[derive(Clone, Copy, Debug, PartialEq, Eq, Error)]
pub enum CapacityFault {
    /// Totals want more counter groups of a width, or wider ones, than the machine has: fault 61.
    #[error("{wanted} counter groups of {width} positions or more are wanted, and there are {there}")]
    Counters {
        /// The first such width of 8, 6, 4 and 3.
        width: u8,
        /// How many groups are wanted: one for each total of that class or a wider one, and a second one for each that
        /// needs more than 8 positions.
        wanted: usize,
        /// How many groups have that width or a greater one.
        there: u32,
    },
    /// More signed amounts are shown than the machine has pilots: fault 62.
    #[error("{wanted} pilots are wanted, and there are {there}")]
    Pilots {
        /// How many pilots the chart wants.
        wanted: usize,
        /// How many there are.
        there: u32,
    },
    /// The CONTROL lines name more columns, a field of two levels twice, than the machine has comparing positions: fault 63.
    #[error("{wanted} comparing positions are wanted, and there are {there}")]
    Comparing {
        /// How many comparing positions the chart wants.
        wanted: usize,
        /// How many there are.
        there: u32,
    },
    /// A text on a total line has more than the 16 columns of a storage unit: fault 64.
    #[error("the text on total line {line} has more than 16 columns")]
    StorageWidth {
        /// The number of the lowest such line in the chart.
        line: u16,
    },
    /// More texts stand on total lines than the machine has storage units: fault 65.
    #[error("{wanted} storage units are wanted, and there are {there}")]
    StorageUnits {
        /// How many storage units the chart wants.
        wanted: usize,
        /// How many there are.
        there: u32,
    },
    /// More amounts on DETAIL lines have their sign over one of their own columns than the machine has splits: fault 66.
    #[error("{wanted} column splits are wanted, and there are {there}")]
    Splits {
        /// How many splits the chart wants.
        wanted: usize,
        /// How many there are.
        there: u32,
    },
    /// The INDICATE items of a level have more columns than the machine has positions for it: fault 67.
    #[error("{wanted} indicate positions of level {} are wanted, and there are {there}", level.number())]
    Indicate {
        /// The lowest such level.
        level: ControlLevel,
        /// How many positions the chart wants.
        wanted: usize,
        /// How many there are.
        there: u32,
    },
    /// Memory was refused.
    #[error("out of memory")]
    Memory,
}

impl CapacityFault {
    ghost use Rattle.std.specs.Prelude.{◌≡◌};
    ghost use Rattle.allocate.specs.Exceeded.{fault_number};

    /// Its number in the catalogue of faults, 61 to 67; want of memory has none.
    pub fn number(self) -> Option<u8>
        ensures { result ≡ fault_number self }
    {
        match self {
            CapacityFault::Counters { .. } => Some(61),
            CapacityFault::Pilots { .. } => Some(62),
            CapacityFault::Comparing { .. } => Some(63),
            CapacityFault::StorageWidth { .. } => Some(64),
            CapacityFault::StorageUnits { .. } => Some(65),
            CapacityFault::Splits { .. } => Some(66),
            CapacityFault::Indicate { .. } => Some(67),
            CapacityFault::Memory => None,
        }
    }
}

impl From<AllocError> for CapacityFault {
    ghost from_gives = { λ _ fault. fault ≡ Memory };

    fn from(_refused: AllocError) -> CapacityFault {
        CapacityFault::Memory
    }
}

impl<T: Drop> From<AllocFailed<T>> for CapacityFault {
    ghost from_gives = { λ _ fault. fault ≡ Memory };

    fn from(_refused: AllocFailed<T>) -> CapacityFault {
        CapacityFault::Memory
    }
}
