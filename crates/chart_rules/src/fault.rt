//! What can be wrong with a chart.

ghost use Rattle.std.specs.Prelude.{◌≡◌};
ghost use Rattle.chart_rules.specs.declared.fault.RuleFault.TheVariants.{Memory};

use crate::rule::Rule;
use std::alloc::AllocError;
use thiserror::Error;

/// Why a chart is refused.
#[derive(Clone, Copy, Debug, PartialEq, Eq, Error)]
pub enum RuleFault {
    /// A rule is broken.
    #[error("line {line} breaks the rule {rule:?}")]
    Rule {
        /// The lowest rule that is broken.
        rule: Rule,
        /// The number of the lowest line that breaks it: the line END where PRINT or FORM is missing.
        line: u16,
    },
    /// Memory was refused.
    #[error("out of memory")]
    Memory,
}

impl RuleFault {
    ghost use Rattle.std.specs.Prelude.{◌≡◌};
    ghost use Rattle.chart_rules.specs.RuleFaults.{fault_number};

    /// Its number in the catalogue of faults, that of the rule, 21 to 38; want of memory has none.
    pub fn number(self) -> Option<u8>
        ensures { result ≡ fault_number self }
    {
        match self {
            RuleFault::Rule { rule, .. } => Some(rule.number()),
            RuleFault::Memory => None,
        }
    }
}

impl From<AllocError> for RuleFault {
    ghost from_gives = { λ _ fault. fault ≡ Memory };

    fn from(_refused: AllocError) -> RuleFault {
        RuleFault::Memory
    }
}
