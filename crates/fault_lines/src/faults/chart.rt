//! What can be wrong with a chart.

ghost use Rattle.std.specs.Prelude.{◌≡◌};
ghost use Rattle.fault_lines.specs.declared.faults.chart.ChartFault.TheVariants as chart;

use allocate::CapacityFault;
use chart_rules::{Rule, RuleFault};
use chart_text::TextFault;
use std::alloc::AllocError;
use thiserror::Error;

/// Why a chart is refused. A later cause is told only where no earlier one is there.
#[derive(Clone, Copy, Debug, PartialEq, Eq, Error)]
pub enum ChartFault {
    /// The text has more than 500 lines, or a line of more than 200 bytes.
    #[error("the chart is too large")]
    TooLarge,
    /// The first line is neither `CHART407 1` nor `CHART407 2`.
    #[error("the chart begins neither with CHART407 1 nor with CHART407 2")]
    NoFirstLine,
    /// A line is no form of a chart of its version, or stands after END. It is the lowest such line.
    #[error("line {line} is no line of a chart")]
    NotALine {
        /// Its number, from 2.
        line: u16,
    },
    /// There is no line END.
    #[error("the chart has no END")]
    NoEnd,
    /// A rule is broken.
    #[error("line {line} breaks rule {rule:?}")]
    Rule {
        /// The lowest rule that is broken.
        rule: Rule,
        /// The number of the lowest line that breaks it.
        line: u16,
    },
    /// The chart is good, and the machine has too little of something for it.
    #[error("{fault}")]
    Capacity {
        /// The first capacity that it exceeds.
        fault: CapacityFault,
    },
    /// A growth was refused.
    #[error("out of memory")]
    Memory,
}

impl ChartFault {
    ghost use Rattle.std.specs.Prelude.{◌≡◌};
    ghost use Rattle.fault_lines.specs.FaultsWords.FaultNumbers.{chart_fault_number};

    /// The number by which the fault is told, 11 to 67; none where memory was refused.
    pub fn number(self) -> Option<u8>
        ensures { result ≡ chart_fault_number self }
    {
        match self {
            ChartFault::TooLarge => Some(11),
            ChartFault::NoFirstLine => Some(12),
            ChartFault::NotALine { .. } => Some(13),
            ChartFault::NoEnd => Some(14),
            ChartFault::Rule { rule, .. } => Some(rule.number()),
            ChartFault::Capacity { fault } => fault.number(),
            ChartFault::Memory => None,
        }
    }
}

impl From<AllocError> for ChartFault {
    ghost from_gives = { λ _ fault. fault ≡ chart.Memory };

    fn from(_refused: AllocError) -> ChartFault {
        ChartFault::Memory
    }
}

impl From<TextFault> for ChartFault {
    ghost use Rattle.fault_lines.specs.FaultsWords.ChartCauses.{of_text};

    ghost from_gives = { λ text fault. fault ≡ of_text text };

    fn from(fault: TextFault) -> ChartFault {
        match fault {
            TextFault::TooLarge => ChartFault::TooLarge,
            TextFault::NoFirstLine => ChartFault::NoFirstLine,
            TextFault::NotALine { line } => ChartFault::NotALine { line },
            TextFault::NoEnd => ChartFault::NoEnd,
            TextFault::Memory => ChartFault::Memory,
        }
    }
}

impl From<RuleFault> for ChartFault {
    ghost use Rattle.fault_lines.specs.FaultsWords.ChartCauses.{of_rule};

    ghost from_gives = { λ broken fault. fault ≡ of_rule broken };

    fn from(fault: RuleFault) -> ChartFault {
        match fault {
            RuleFault::Rule { rule, line } => ChartFault::Rule { rule, line },
            RuleFault::Memory => ChartFault::Memory,
        }
    }
}

impl From<CapacityFault> for ChartFault {
    ghost use Rattle.fault_lines.specs.FaultsWords.ChartCauses.{of_capacity};

    ghost from_gives = { λ exceeded fault. fault ≡ of_capacity exceeded };

    fn from(fault: CapacityFault) -> ChartFault {
        match fault {
            CapacityFault::Memory => ChartFault::Memory,
            other => ChartFault::Capacity { fault: other },
        }
    }
}
