//! What the program says on standard error, and the status that it ends with.

ghost use Rattle.std.specs.Prelude.{◌≡◌, ◌≢◌, ◌⊎◌};
ghost use Rattle.std.specs.IoError.{error_kind};

use crate::faults::chart::ChartFault;
use crate::faults::deck::RunFault;
use allocate::CapacityFault;
use card_code::DeckFault;
use std::alloc::AllocError;
use std::io;
use std::io::ErrorKind;
use wiring_text::WiringFault;

/// Why a command was not carried out. Each is told on one line.
#[derive(Clone, Copy)]
pub enum Fault<'a> {
    /// A numbered fault of a whole text: a chart, a deck, a wiring chart or orders.
    Whole {
        number: u8,
    },
    /// A numbered fault of a line, from 1, of a chart, a wiring chart or orders.
    Line {
        number: u8,
        line: u32,
    },
    /// A numbered fault of a line of the wiring chart, from 1, and the number of its cause.
    Cause {
        number: u8,
        line: u32,
        cause: u8,
    },
    /// A numbered fault of a card, from 1.
    Card {
        number: u8,
        card: u32,
    },
    /// A numbered fault of a card and its column.
    Column {
        number: u8,
        card: u32,
        column: u32,
    },
    /// A numbered capacity, the counter groups of a width and wider ones: the width, how many are wanted, and how many are there.
    Counters {
        number: u8,
        width: u8,
        wanted: usize,
        there: u32,
    },
    /// A numbered capacity of the machine that the chart exceeds: how many are wanted, and how many are there.
    Capacity {
        number: u8,
        wanted: usize,
        there: u32,
    },
    /// A numbered capacity, the indicate positions of a level: the level, how many are wanted, and how many are there.
    Indicate {
        number: u8,
        level: u8,
        wanted: usize,
        there: u32,
    },
    /// A numbered fault of a total: its level, the name of its amount, filled with blanks, and its group's last card, from 1.
    Total {
        number: u8,
        level: u8,
        name: [u8; 8],
        card: u32,
    },
    /// A word that is no command.
    Unknown {
        word: &'a str,
    },
    /// A file that can't be read.
    File {
        path: &'a str,
    },
    /// A card of a deck, by its number from 1, at which its reader failed.
    Unread {
        card: u32,
    },
    /// The output can't be written.
    Write,
    /// Memory ran out.
    Memory,
}

impl Fault<'_> {
    ghost use Rattle.std.specs.Prelude.{◌≡◌};
    ghost use Rattle.fault_lines.specs.FaultsWords.Status.{status_of};

    /// The status of the program: 2 for a command that there isn't, 3 for refused input, 4 for a file or a deck that can't be read and for the output, 5 for memory.
    pub fn status(&self) -> u8
        ensures { result ≡ status_of self.now }
    {
        match self {
            Fault::Unknown { .. } => 2,
            Fault::File { .. } | Fault::Unread { .. } | Fault::Write => 4,
            Fault::Memory => 5,
            Fault::Whole { .. }
            | Fault::Line { .. }
            | Fault::Cause { .. }
            | Fault::Card { .. }
            | Fault::Column { .. }
            | Fault::Counters { .. }
            | Fault::Capacity { .. }
            | Fault::Indicate { .. }
            | Fault::Total { .. } => 3,
        }
    }
}

impl From<ChartFault> for Fault<'_> {
    ghost use Rattle.std.specs.Prelude.{◌≡◌};
    ghost use Rattle.fault_lines.specs.FaultsWords.ToldFaults.{chart_told};

    ghost from_gives = { λ fault told. told ≡ chart_told fault };

    fn from(fault: ChartFault) -> Self {
        let Some(number) = fault.number() else {
            return Fault::Memory;
        };
        match fault {
            ChartFault::NotALine { line } | ChartFault::Rule { line, .. } => {
                let line = u32::from(line);
                Fault::Line { number, line }
            }
            ChartFault::Capacity { fault } => fault.into(),
            ChartFault::TooLarge
            | ChartFault::NoFirstLine
            | ChartFault::NoEnd
            | ChartFault::Memory => Fault::Whole { number },
        }
    }
}

impl From<WiringFault> for Fault<'_> {
    ghost use Rattle.std.specs.Prelude.{◌≡◌};
    ghost use Rattle.fault_lines.specs.FaultsWords.ToldFaults.{wiring_told};

    ghost from_gives = { λ fault told. told ≡ wiring_told fault };

    fn from(fault: WiringFault) -> Self {
        let Some(number) = fault.number() else {
            return Fault::Memory;
        };
        match (fault.line(), fault.cause_number()) {
            (Some(line), Some(cause)) => Fault::Cause {
                number,
                line,
                cause,
            },
            (Some(line), None) => Fault::Line { number, line },
            (None, _) => Fault::Whole { number },
        }
    }
}

impl From<AllocError> for Fault<'_> {
    ghost use Rattle.std.specs.Prelude.{◌≡◌};
    ghost use Rattle.fault_lines.specs.declared.faults.fault.Fault.TheVariants.{Memory};

    ghost from_gives = { λ _ told. told ≡ Memory };

    fn from(_failed: AllocError) -> Self {
        Fault::Memory
    }
}

impl From<DeckFault> for Fault<'_> {
    ghost use Rattle.std.specs.Prelude.{◌≡◌};
    ghost use Rattle.fault_lines.specs.FaultsWords.ToldFaults.{deck_told};

    ghost from_gives = { λ fault told. told ≡ deck_told fault };

    fn from(fault: DeckFault) -> Self {
        let Some(number) = fault.number() else {
            return Fault::Memory;
        };
        match fault {
            DeckFault::CardTooLong { line: card } => Fault::Card { number, card },
            DeckFault::NoSuchCharacter { line: card, column } => Fault::Column {
                number,
                card,
                column,
            },
            DeckFault::TooManyCards | DeckFault::Memory => Fault::Whole { number },
        }
    }
}

impl From<RunFault> for Fault<'_> {
    ghost use Rattle.std.specs.Prelude.{◌≡◌};
    ghost use Rattle.fault_lines.specs.FaultsWords.ToldFaults.{run_told};

    ghost from_gives = { λ fault told. told ≡ run_told fault };

    fn from(fault: RunFault) -> Self {
        let Some(number) = fault.number() else {
            return Fault::Memory;
        };
        match &fault {
            RunFault::NotText { card, column } | RunFault::NotAmount { card, column } => {
                Fault::Column {
                    number,
                    card: *card,
                    column: u32::from(*column),
                }
            }
            RunFault::DoesNotFit { level, name, card } => Fault::Total {
                number,
                level: level.number(),
                name: name.characters(),
                card: *card,
            },
            RunFault::TooManyCards | RunFault::Memory => Fault::Whole { number },
        }
    }
}

impl From<CapacityFault> for Fault<'_> {
    ghost use Rattle.std.specs.Prelude.{◌≡◌};
    ghost use Rattle.fault_lines.specs.FaultsWords.ToldFaults.{capacity_told};

    ghost from_gives = { λ fault told. told ≡ capacity_told fault };

    fn from(fault: CapacityFault) -> Self {
        let Some(number) = fault.number() else {
            return Fault::Memory;
        };
        match fault {
            CapacityFault::Counters {
                width,
                wanted,
                there,
            } => Fault::Counters {
                number,
                width,
                wanted,
                there,
            },
            CapacityFault::Pilots { wanted, there }
            | CapacityFault::Comparing { wanted, there }
            | CapacityFault::StorageUnits { wanted, there }
            | CapacityFault::Splits { wanted, there } => Fault::Capacity {
                number,
                wanted,
                there,
            },
            CapacityFault::StorageWidth { line } => Fault::Line {
                number,
                line: u32::from(line),
            },
            CapacityFault::Indicate {
                level,
                wanted,
                there,
            } => Fault::Indicate {
                number,
                level: level.number(),
                wanted,
                there,
            },
            CapacityFault::Memory => Fault::Whole { number },
        }
    }
}

/// What is told where something can't be printed.
pub fn unprinted(error: &io::Error) -> Fault<'static>
    ensures memory { error_kind error.now ≡ ErrorKind.OutOfMemory → result ≡ Fault.Memory }
    ensures others { error_kind error.now ≢ ErrorKind.OutOfMemory → result ≡ Fault.Write }
    ensures told { (result ≡ Fault.Memory) ⊎ (result ≡ Fault.Write) }
{
    match error.kind() {
        ErrorKind::OutOfMemory => Fault::Memory,
        _ => Fault::Write,
    }
}
