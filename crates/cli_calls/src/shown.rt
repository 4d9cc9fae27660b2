//! The faults of a chart, or else the bad cards of a deck, each shown.

ghost use Rattle.std.specs.Prelude.{◌≡◌, [], Some};
ghost use Rattle.fault_lines.specs.FaultsWords.Lines.{IsTold};
ghost use Rattle.fault_lines.specs.FaultsWords.Status.{status_of};
ghost use Rattle.fault_lists.specs.TextLists.Endings.{EndsText};
ghost use Rattle.cli_calls.specs.Does.{ShowsCards, ShowsDeck, deck_of_wiring};
ghost use Rattle.cli_calls.specs.Ends.{IsWordsTold};

use cli_commands::panel_guides::is_wiring_text;
use cli_decks::check_calls::{print_shown, tell_checked};
use fault_lines::faults::{Ending, Fault, tell};
use fault_lines::program_io::put;
use fault_lists::text_lists::list_text;
use std::alloc::Global;
use std::io::{Read, Write};

/// The status of words that can't be obeyed.
const USAGE: u8 = 2;

/// What is told where a deck is to be checked by a wiring chart.
const DECK_OF_WIRING: &str =
    "error: a wiring chart is checked without a deck; the columns of cards are checked with a planning chart\n";

// Tells that a wiring chart is checked without a deck: only a planning chart says which cards are good. Where the line can't be written, the
// status alone tells of it.
fn tell_deck_of_wiring<V: Write>(faults: &mut V) -> Ending
    ensures status { result.status ≡ 2 }
    ensures line { IsWordsTold deck_of_wiring result.is_told (V.contents faults.old) (V.contents faults.new) }
{
    let told = faults.write_all(DECK_OF_WIRING.as_bytes());
    Ending {
        status: USAGE,
        is_told: told.is_ok(),
    }
}

// Prints the list of a text with faults, and tells the one fault of the text.
fn tell_listed<W: Write, V: Write>(
    text: &[u8],
    listed: &[u8],
    fault: Fault,
    out: &mut W,
    faults: &mut V,
) -> Ending
    requires { EndsText text.now (Some []) (Some listed.now) fault }
    ensures { (told : Fault) × (result.status ≡ status_of told) × EndsText text.now (W.contents out.old) (W.contents out.new) told
        × IsTold told result.is_told (V.contents faults.old) (V.contents faults.new) }
{
    match put(out, listed) {
        Ok(()) => tell(&fault, faults),
        Err(unwritten) => tell(&unwritten, faults),
    }
}

// Prints all cards of a deck that a chart can't be run with, each shown.
fn show_cards<R: Read + Drop, W: Write, V: Write>(
    alloc: Global,
    text: &[u8],
    path: &str,
    deck: R,
    shows_both: bool,
    out: &mut W,
    faults: &mut V,
) -> Ending
    ensures { ShowsCards (W.contents out.old) (W.contents out.new) (V.contents faults.old) (V.contents faults.new)
        (out.new ≡ out.old) (faults.new ≡ faults.old) result text.now (R.remaining deck)
        (Fault.File path.entry) shows_both }
{
    let checked = print_shown(alloc, text, path, deck, out);
    tell_checked(checked, shows_both, faults)
}

/// Lists every fault of a planning chart, or, if it has none, all cards of a deck that it can't be run with, each shown. Of a wiring chart in its
/// place the faults are listed, or else it is told that it takes no deck, with status 2. No byte of the deck is read where the text has faults,
/// nor by a wiring chart.
pub fn show_deck<R: Read + Drop, W: Write, V: Write>(
    alloc: Global,
    text: &[u8],
    path: &str,
    deck: R,
    shows_both: bool,
    out: &mut W,
    faults: &mut V,
) -> Ending
    ensures { ShowsDeck (W.contents out.old) (W.contents out.new) (V.contents faults.old) (V.contents faults.new)
        (out.new ≡ out.old) (faults.new ≡ faults.old) result text.now (R.remaining deck)
        (Fault.File path.entry) shows_both }
{
    let mut listed = Vec::new(alloc);
    match list_text(alloc, text, &mut listed) {
        Err(fault) => tell_listed(text, listed.as_slice(), fault, out, faults),
        Ok(()) if is_wiring_text(text) => tell_deck_of_wiring(faults),
        Ok(()) => show_cards(alloc, text, path, deck, shows_both, out, faults),
    }
}
