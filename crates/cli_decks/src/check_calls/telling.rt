//! What is told of a check of a deck, and its status.

ghost use Rattle.std.specs.Prelude.{◌≡◌, ◌≢◌, ◌≤◌, ◌&&◌, false, true, IfErr, OnOk};
ghost use Rattle.cli_decks.specs.CheckCalls.Telling.{heads_list};
ghost use Rattle.fault_lines.specs.FaultsWords.Lines.{IsTold};
ghost use Rattle.fault_lines.specs.FaultsWords.Status.{status_of};

use fault_lines::faults::{Ending, Fault, tell};
use std::io::Write;

// Whether a fault is one with which the list of a deck begins.
fn heads_list(fault: Fault) -> bool
    ensures { result ≡ heads_list fault.entry }
{
    matches!(
        fault,
        Fault::Card { .. } | Fault::Column { .. } | Fault::Total { .. }
    )
}

/// Tells on one line of `faults` why a check of a deck isn't `ok`. If a card is bad or a total doesn't fit, what the check has printed begins with
/// this line: `shows_both` says that a terminal shows that and `faults`, and then the line isn't told once more.
///
/// The statuses are 0 if the check is `ok`, and then nothing is told, 3 if the chart or the deck is refused, 4 if the deck can't be read or the
/// output can't be written, 5 for memory.
pub fn tell_checked<V: Write>(
    checked: Result<(), Fault>,
    shows_both: bool,
    faults: &mut V,
) -> Ending
    ensures fine { OnOk checked.entry ((result.status ≡ 0) × (faults.new ≡ faults.old)) }
    ensures refused { IfErr checked.entry (λ told. result.status ≡ status_of told) }
    ensures told { IfErr checked.entry (λ told. (shows_both && heads_list told) ≡ false
        → IsTold told result.is_told (V.contents faults.old) (V.contents faults.new)) }
    ensures once { IfErr checked.entry (λ told. (shows_both && heads_list told) ≡ true
        → (result.is_told ≡ true) × (faults.new ≡ faults.old)) }
    ensures statuses { (result.status ≢ 1) × (result.status ≤ 5) }
{
    let Err(fault) = checked else {
        return Ending {
            status: 0,
            is_told: true,
        };
    };
    if shows_both && heads_list(fault) {
        return Ending {
            status: fault.status(),
            is_told: true,
        };
    }
    tell(&fault, faults)
}
