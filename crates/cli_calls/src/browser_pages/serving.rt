//! The command that writes the page, over any reader and writers.

ghost use Rattle.std.specs.Prelude.{◌≡◌, ◌≤◌, ◌⊎◌, IfErr, OnOk, Some};
ghost use Rattle.fault_lines.specs.FaultsWords.Lines.{IsTold};
ghost use Rattle.cli_commands.specs.PanelGuides.Panels.{HasPanel};
ghost use Rattle.cli_commands.specs.PanelGuides.Unexplained.{IsToldUnexplained};
ghost use Rattle.fault_lines.specs.ProgramIo.Fronts.{WritesFront};
ghost use Rattle.cli_calls.specs.BrowserPages.ShowEnds.{LeavesUnshown, PrintsPage, PrintsPageOf, StopsShow};

use crate::browser_pages::pages::page_of;
use cli_commands::panel_guides::{Unexplained, check_panel, tell_unexplained};
use fault_lines::faults::{Ending, Fault};
use fault_lines::program_io::{put, read_whole};
use std::alloc::Global;
use std::io::{Read, Write};

// Writes the page of a text and a deck in memory.
fn print_shown<'a, W: Write>(
    alloc: Global,
    text: &[u8],
    deck: &[u8],
    around: Option<u32>,
    out: &mut W,
) -> Result<(), Unexplained<'a>>
    ensures printed { OnOk result (PrintsPageOf text.now deck.now around (W.contents out.old) (W.contents out.new)) }
    ensures stopped { IfErr result (λ told. (unreadable : Fault)
        → StopsShow text.now (Some deck.now) around told unreadable (out.new ≡ out.old)) }
    ensures front { (out.new ≡ out.old)
        ⊎ WritesFront (PrintsPageOf text.now deck.now around) (W.contents out.old) (W.contents out.new) }
{
    let page = page_of(alloc, text, deck, around)?;
    put(out, page.as_bytes())?;
    Ok(())
}

/// Writes the page for a browser of a text and a deck, around a page of the report or none, as [`page_of`] makes it. `path` names the deck
/// in what is told of one that can't be read.
///
/// # Errors
///
/// As [`page_of`] tells, and nothing is written; of a deck that can't be read a fault of the text comes before. `Memory` where a growth
/// was refused and `Write` where the output can't be written, and then the front of the page may have been written.
pub fn print_page<'a, R: Read + Drop, W: Write>(
    alloc: Global,
    text: &[u8],
    path: &'a str,
    deck: R,
    around: Option<u32>,
    out: &mut W,
) -> Result<(), Unexplained<'a>>
    ensures printed { OnOk result (PrintsPage text.now (R.remaining deck) around (W.contents out.old) (W.contents out.new)) }
    ensures stopped { IfErr result (λ told.
        StopsShow text.now (R.remaining deck) around told (Fault.File path.entry) (out.new ≡ out.old)) }
    ensures front { (out.new ≡ out.old)
        ⊎ WritesFront (PrintsPage text.now (R.remaining deck) around) (W.contents out.old) (W.contents out.new) }
{
    match read_whole(alloc, deck, path) {
        Ok(bytes) => print_shown(alloc, text, bytes.as_slice(), around, out),
        Err(unread) => {
            check_panel(alloc, text)?;
            Err(Unexplained::Failed { fault: unread })
        }
    }
}

/// Writes the page for a browser of a text and a deck, and tells on one line of `faults` why there is none.
///
/// The text is a planning chart, whose report of the deck is shown, or a wiring chart, whose pages of the deck are, around a page or none, as
/// [`page_of`] tells. `path` names the deck in what is told of one that can't be read, after a fault of the text. The statuses are 0 done,
/// and then nothing is told, 3 refused input, a page that the report doesn't have among it, 4 file fault, 5 memory. Nothing is written by
/// status 3, nor where the deck can't be read. Where the output can't be written or memory runs out, the front of the page may have been.
pub fn show_to_end<R: Read + Drop, W: Write, V: Write>(
    alloc: Global,
    text: &[u8],
    path: &str,
    deck: R,
    around: Option<u32>,
    out: &mut W,
    faults: &mut V,
) -> Ending
    ensures done { result.status ≡ 0 → PrintsPage text.now (R.remaining deck) around (W.contents out.old) (W.contents out.new)
        × (faults.new ≡ faults.old) }
    ensures refused { result.status ≡ 3 → (told : Unexplained) × LeavesUnshown text.now (R.remaining deck) around told
        × (out.new ≡ out.old) × IsToldUnexplained told result.is_told (V.contents faults.old) (V.contents faults.new) }
    ensures device { result.status ≡ 4 → ((out.new ≡ out.old) × HasPanel text.now
        × IsTold (Fault.File path.entry) result.is_told (V.contents faults.old) (V.contents faults.new))
        ⊎ IsTold Fault.Write result.is_told (V.contents faults.old) (V.contents faults.new) }
    ensures memory { result.status ≡ 5 → IsTold Fault.Memory result.is_told (V.contents faults.old) (V.contents faults.new) }
    ensures front { (out.new ≡ out.old)
        ⊎ WritesFront (PrintsPage text.now (R.remaining deck) around) (W.contents out.old) (W.contents out.new) }
    ensures statuses { (result.status ≡ 0) ⊎ (3 ≤ result.status × result.status ≤ 5) }
{
    match print_page(alloc, text, path, deck, around, out) {
        Ok(()) => Ending {
            status: 0,
            is_told: true,
        },
        Err(told) => tell_unexplained(&told, faults),
    }
}
