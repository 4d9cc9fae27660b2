//! The command that checks a chart and all cards of a deck, over any reader and writer.

ghost use Rattle.std.specs.Prelude.{◌≡◌, IfErr, OnOk};
ghost use Rattle.cli_decks.specs.CheckCalls.CheckEnds.{PrintsOk, StopsCheck};

use crate::check_calls::deck_checks::check_cards;
use compile407::compile;
use fault_lines::faults::Fault;
use std::alloc::Global;
use std::io::{Read, Write};

/// Compiles a chart, and then lists all cards of a deck that it can't be run with, a line for each, or, where there is none, prints `ok`, how
/// many cards there are, and the first and the last one. No byte of the deck is read before the chart has compiled.
///
/// # Errors
///
/// The fault of the chart, or `Memory` where a growth was refused for it, and nothing is printed. Else the fault that was listed first, once
/// the whole deck was read; `Unread` where the deck can't be read further and `Whole` with number 3 at line 1,000,000,
/// behind what was listed before; `Memory` where a growth was refused and `Write` where the output can't be written, and then the front of the
/// listing may have been printed.
pub fn print_check<'a, R: Read + Drop, W: Write>(
    alloc: Global,
    chart: &[u8],
    deck: R,
    out: &mut W,
) -> Result<(), Fault<'a>>
    ensures fine { OnOk result (PrintsOk chart.now (R.remaining deck) (W.contents out.old) (W.contents out.new)) }
    ensures stops { IfErr result (λ told.
        StopsCheck chart.now (R.remaining deck) (W.contents out.old) (W.contents out.new) told (out.new ≡ out.old)) }
{
    let compiled = compile(alloc, chart)?;
    check_cards(alloc, compiled.chart(), deck, out)
}
