//! The command that tells of a wheel, over any reader and writers.

ghost use Rattle.std.specs.Prelude.{◌≡◌, ◌≢◌, ◌≤◌, ◌⊎◌, IfErr, OnOk, Some};
ghost use Rattle.fault_lines.specs.FaultsWords.Lines.{IsTold};
ghost use Rattle.cli_commands.specs.PanelGuides.LedgerCalls.LedgerEnds.{PrintsTelling};
ghost use Rattle.cli_commands.specs.PanelGuides.Panels.{HasPanel};
ghost use Rattle.cli_commands.specs.PanelGuides.ExplainEnds.{LeavesUnexplained, StopsExplanation};
ghost use Rattle.cli_commands.specs.PanelGuides.Unexplained.{IsToldUnexplained};
ghost use Rattle.fault_lines.specs.ProgramIo.Fronts.{WritesFront};

use crate::panel_guides::ledger_calls::telling::{Question, told_wheel};
use crate::panel_guides::{Place, Unexplained, check_panel, tell_unexplained};
use fault_lines::faults::{Ending, Fault};
use fault_lines::program_io::{put, read_whole};
use std::alloc::Global;
use std::io::{Read, Write};

// Prints what is asked for of a wheel of a line that is printed of a deck in memory.
fn print_told<'a, W: Write>(
    alloc: Global,
    text: &[u8],
    deck: &[u8],
    place: Place,
    question: Question,
    out: &mut W,
) -> Result<(), Unexplained<'a>>
    ensures printed { OnOk result (PrintsTelling text.now (Some deck.now) question place (W.contents out.old) (W.contents out.new)) }
    ensures stopped { IfErr result (λ told. (unreadable : Fault)
        → StopsExplanation text.now (Some deck.now) place told unreadable (out.new ≡ out.old)) }
    ensures front { (out.new ≡ out.old)
        ⊎ WritesFront (PrintsTelling text.now (Some deck.now) question place) (W.contents out.old) (W.contents out.new) }
{
    let answer = told_wheel(alloc, text, deck, place, question)?;
    put(out, answer.as_slice())?;
    Ok(())
}

/// Prints what is asked for of a wheel of a line. `path` names the deck in what is told of one that can't be read.
///
/// # Errors
///
/// As [`told_wheel`] tells, and nothing is printed; of a deck that can't be read a fault of the text comes before. `Memory` if a growth
/// was refused and `Write` if the output can't be written, and then the front of the text may have been printed.
pub fn print_telling<'a, R: Read + Drop, W: Write>(
    alloc: Global,
    text: &[u8],
    path: &'a str,
    deck: R,
    place: Place,
    question: Question,
    out: &mut W,
) -> Result<(), Unexplained<'a>>
    ensures printed { OnOk result
        (PrintsTelling text.now (R.remaining deck) question place (W.contents out.old) (W.contents out.new)) }
    ensures stopped { IfErr result (λ told.
        StopsExplanation text.now (R.remaining deck) place told (Fault.File path.entry) (out.new ≡ out.old)) }
    ensures front { (out.new ≡ out.old)
        ⊎ WritesFront (PrintsTelling text.now (R.remaining deck) question place) (W.contents out.old) (W.contents out.new) }
{
    match read_whole(alloc, deck, path) {
        Ok(bytes) => print_told(alloc, text, bytes.as_slice(), place, question, out),
        Err(unread) => {
            check_panel(alloc, text)?;
            Err(Unexplained::Failed { fault: unread })
        }
    }
}

/// Prints what is asked for of a wheel of a line, and tells on one line of `faults` why there is nothing to tell.
///
/// The text is a planning chart, of whose report of the deck the line is one, or a wiring chart, of whose pages of the deck it is one.
/// `path` names the deck in what is told of one that can't be read, after a fault of the text. The statuses are 0 done, and then nothing
/// is told, 3 refused input, a line or a wheel that there isn't among it, 4 file fault, 5 memory. Nothing is printed by status 3, nor
/// if the deck can't be read. If the output can't be written or memory runs out, the front of the text may have been.
pub fn tell_to_end<R: Read + Drop, W: Write, V: Write>(
    alloc: Global,
    text: &[u8],
    path: &str,
    deck: R,
    place: Place,
    question: Question,
    out: &mut W,
    faults: &mut V,
) -> Ending
    ensures done { result.status ≡ 0
        → PrintsTelling text.now (R.remaining deck) question place (W.contents out.old) (W.contents out.new)
        × (faults.new ≡ faults.old) }
    ensures refused { result.status ≡ 3 → (told : Unexplained) × LeavesUnexplained text.now (R.remaining deck) place told
        × (out.new ≡ out.old) × IsToldUnexplained told result.is_told (V.contents faults.old) (V.contents faults.new) }
    ensures device { result.status ≡ 4 → ((out.new ≡ out.old) × HasPanel text.now
        × IsTold (Fault.File path.entry) result.is_told (V.contents faults.old) (V.contents faults.new))
        ⊎ IsTold Fault.Write result.is_told (V.contents faults.old) (V.contents faults.new) }
    ensures memory { result.status ≡ 5 → IsTold Fault.Memory result.is_told (V.contents faults.old) (V.contents faults.new) }
    ensures front { (out.new ≡ out.old)
        ⊎ WritesFront (PrintsTelling text.now (R.remaining deck) question place) (W.contents out.old) (W.contents out.new) }
    ensures statuses { (result.status ≡ 0) ⊎ (3 ≤ result.status × result.status ≤ 5) }
{
    match print_telling(alloc, text, path, deck, place, question, out) {
        Ok(()) => Ending {
            status: 0,
            is_told: true,
        },
        Err(told) => tell_unexplained(&told, faults),
    }
}
