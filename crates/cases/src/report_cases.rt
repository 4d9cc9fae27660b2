//! Compiles planning charts, runs their decks, and prints of each the wiring chart and the pages.
//!
//! The file `index` names the charts whose wiring is known, one a line, and `pages_index` those of which the pages alone are. Where
//! a deck is refused, the line of its fault stands in place of its pages: what is printed before it is asked by `run_cases`.
//! The last nine charts of `pages_index` are the examples of `docs/GALLERY.md`, where their pages and faults are worked out by hand. The
//! machine wired as the written wiring chart says must print the same pages; where it doesn't, the program ends with a fault.

use crate::answered::Served;
use crate::case_files::Case;
use anyhow::{Result, bail};
use cli_tasks::Task;
use std::alloc::Global;
use std::io::Write;

// The wiring chart of a chart.
fn wired(alloc: Global, case: &Case) -> Served {
    Served::of(alloc, Task::Wire, case.text.as_slice(), b"".as_slice())
}

// Whether the machine that is wired as a wiring chart says prints these pages.
fn prints(alloc: Global, wiring: &[u8], deck: &[u8], pages: &[u8]) -> bool {
    let replayed = Served::of(alloc, Task::Replay, wiring, deck);
    replayed.status == 0 && replayed.output.as_slice() == pages
}

// Writes what is printed or told of the deck of a chart.
fn write_printed<W: Write>(alloc: Global, out: &mut W, case: &Case, wiring: &[u8]) -> Result<()> {
    let deck = case.deck.as_slice();
    let printed = Served::of(alloc, Task::Run, case.text.as_slice(), deck);
    if printed.status != 0 {
        out.write_all(printed.told.as_slice())?;
        return Ok(());
    }
    printed.write(out)?;
    if !prints(alloc, wiring, deck, printed.output.as_slice()) {
        bail!("the wiring chart prints other pages");
    }
    Ok(())
}

/// Writes the wiring chart of a chart, and what is printed or told of its deck.
pub fn write_report<W: Write>(rt: &HostRuntime, out: &mut W, name: &str) -> Result<()> {
    let case = Case::read(rt, "reports", name, "chart")?;
    let wired = wired(rt.alloc(), &case);
    wired.write(out)?;
    write_printed(rt.alloc(), out, &case, wired.output.as_slice())
}

/// Writes what is printed or told of the deck of a chart.
pub fn write_pages<W: Write>(rt: &HostRuntime, out: &mut W, name: &str) -> Result<()> {
    let case = Case::read(rt, "reports", name, "chart")?;
    let wired = wired(rt.alloc(), &case);
    write_printed(rt.alloc(), out, &case, wired.output.as_slice())
}
