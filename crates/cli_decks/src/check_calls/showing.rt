//! The command that shows all cards of a deck that a chart can't be run with, over any reader and writer.

ghost use Rattle.std.specs.Prelude.{◌≡◌, IfErr, OnOk};
ghost use Rattle.cli_decks.specs.CheckCalls.Showing.{ShowsOk, StopsShowing};

use crate::check_calls::deck_checks::show_cards;
use crate::check_calls::large::put_large;
use compile407::compile;
use fault_lines::faults::Fault;
use fault_lines::program_io::{put, read_whole};
use std::alloc::Global;
use std::io::{Read, Write};

/// Compiles a chart, reads a deck whole, and prints all its cards that the chart can't be run with, each shown as it stands below its line, and
/// how large the totals are that their lines have no room for; or, if nothing is wrong, `ok` and which cards there are. `path` names the deck in
/// what is told of one that can't be read.
///
/// # Errors
///
/// The fault of the chart, else `File` of a deck that can't be read, else `Whole` with number 3 for one of more than 999,999 cards, and nothing is
/// printed. Else the fault of the first card that is shown. `Memory` where a growth was refused and `Write` where the output can't be written:
/// then a part may have been printed.
pub fn print_shown<'a, R: Read + Drop, W: Write>(
    alloc: Global,
    chart: &[u8],
    path: &'a str,
    deck: R,
    out: &mut W,
) -> Result<(), Fault<'a>>
    ensures fine { OnOk result (ShowsOk chart.now (R.remaining deck) (W.contents out.old) (W.contents out.new)) }
    ensures stops { IfErr result (λ told. StopsShowing chart.now (R.remaining deck) (W.contents out.old) (W.contents out.new) told
        (Fault.File path.entry) (out.new ≡ out.old)) }
{
    let compiled = compile(alloc, chart)?;
    let bytes = read_whole(alloc, deck, path)?;
    let chart = compiled.chart();
    let cards = bytes.as_slice();
    let shown = show_cards(alloc, chart, cards)?;
    put(out, shown.text.as_slice())?;
    match shown.first {
        None => Ok(()),
        Some(fault) => {
            put_large(alloc, chart, cards, out)?;
            Err(fault)
        }
    }
}
