//! What is told of a wheel.

ghost use Rattle.std.specs.Prelude.{◌≡◌, ◌≢◌, IfErr, IfOk};
ghost use Rattle.fault_lines.specs.declared.faults.fault.Fault.TheVariants.{Memory};
ghost use Rattle.cli_commands.specs.PanelGuides.LedgerCalls.Tellings.{TellsWheel};
ghost use Rattle.cli_commands.specs.PanelGuides.Explained.{IsUnexplained};
ghost use Rattle.cli_commands.specs.declared.panel_guides.unexplained.Unexplained.TheVariants.{Failed};

use crate::panel_guides::ledger_calls::answers::told_ledger;
use crate::panel_guides::ledger_calls::explaining::explained_with_basis;
use crate::panel_guides::{Place, Unexplained};
use std::alloc::Global;

/// What is told of a wheel of a line.
#[derive(Clone, Copy, Debug, PartialEq, Eq)]
pub enum Question {
    /// The ledger of the figure on it, as [`told_ledger`] tells it: all entries of a long one, or those at both ends.
    Ledger { all: bool },
    /// Its explanation with all that it is printed of, as [`explained_with_basis`] tells it: ledgers down to the holes of cards, or to their
    /// entries.
    Explanation { whole: bool },
}

/// What is asked for of a wheel of a line.
///
/// # Errors
///
/// As [`told_ledger`] and [`explained_with_basis`], which refuse the same.
pub fn told_wheel<'a>(
    alloc: Global,
    text: &[u8],
    deck: &[u8],
    place: Place,
    question: Question,
) -> Result<Vec<u8>, Unexplained<'a>>
    ensures told { IfOk result (λ answer. TellsWheel question text.now deck.now place answer.items) }
    ensures refused { IfErr result (λ told. told ≢ Failed Memory → IsUnexplained text.now deck.now place told) }
{
    match question {
        Question::Ledger { all } => told_ledger(alloc, text, deck, place, all),
        Question::Explanation { whole } => explained_with_basis(alloc, text, deck, place, whole),
    }
}
