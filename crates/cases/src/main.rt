//! Runs all cases whose answers are known: charts, wiring charts, wired panels with decks, and with orders too, wiring charts in both versions, panels beside charts, panels that are read back, charts with decks, decks with a fault, commands, hostile texts, explanations, and pages for a browser.
//!
//! Each kind has a folder of `data`, and its file here says what is told of its cases; `kinds` goes over them. What this program must
//! print was made outside of this repository or worked out by hand, never by the program.
//!
//! It costs minutes of the processor in the gate. What all commands say is loaded to prove it, and it runs twice, over more than two
//! thousand cases: decks of a million cards, a wiring chart of 870,944 wires, and some 2,100 texts that are cut or changed by a byte.
#![tactic(auto)]

mod answered;
mod case_files;
mod command_cases;
mod explained_cases;
mod hostile_cases;
mod kinds;
mod match_cases;
mod read_back_cases;
mod report_cases;
mod run_cases;
mod shown_cases;
mod upgrade_cases;
mod walked_ledgers;
mod walked_lines;
mod walked_pages;
mod walked_texts;
mod walked_ways;
mod wiring_cases;

use anyhow::Result;
use std::io::{BufWriter, Write};

fn main(rt: HostRuntime) -> Result<()> {
    let mut out = BufWriter::new(rt.alloc(), rt.stdout())?;
    kinds::write_all(&rt, &mut out)?;
    out.flush()?;
    Ok(())
}
