//! Matches wired panels with planning charts, and prints of each what is printed and told, and the status.
//!
//! The file `index` has a line for each: the name of the wiring chart, which stands in `matches`, the path of the planning chart, and that of
//! a deck where one is run too, or `(hint)` where a hint is told, divided by `|`. Of some wiring charts copies stand beside, in which the counter groups have other numbers, or
//! all other parts; of others copies from which a wire, a jack or the form was taken, or in which one is more, or another.

use crate::answered::Served;
use crate::case_files::read_case;
use anyhow::Result;
use cli_tasks::Task;
use std::fs;
use std::io::Write;

// What a match with a chart gives.
fn matched(rt: &HostRuntime, task: Task, wiring: &[u8], chart: &str) -> Result<Served> {
    let chart = fs::read(rt, chart)?;
    Ok(Served::on(rt.alloc(), task, chart.as_slice(), wiring, b"".as_slice()))
}

// What a match with a chart and a deck gives.
fn matched_deck(rt: &HostRuntime, wiring: &[u8], chart: &str, deck: &str) -> Result<Served> {
    let chart = fs::read(rt, chart)?;
    let cards = fs::read(rt, deck)?;
    Ok(Served::on(
        rt.alloc(),
        Task::MatchDeck,
        chart.as_slice(),
        wiring,
        cards.as_slice(),
    ))
}

// Writes what is found of a panel, beside a chart or a chart and a deck.
fn write_found<W: Write>(rt: &HostRuntime, out: &mut W, name: &str, given: &str) -> Result<()> {
    let wiring = read_case(rt, "matches", name, "wiring")?;
    let served = match given.split_once('|') {
        Some((chart, "(hint)")) => matched(rt, Task::MatchHints, wiring.as_slice(), chart),
        Some((chart, deck)) => matched_deck(rt, wiring.as_slice(), chart, deck),
        None => matched(rt, Task::Match, wiring.as_slice(), given),
    };
    served?.write_with_status(out)
}

/// Writes what is found of the panel that a row names.
pub fn write_match<W: Write>(rt: &HostRuntime, out: &mut W, row: &str) -> Result<()> {
    match row.split_once('|') {
        Some((name, given)) => write_found(rt, out, name, given),
        None => Ok(()),
    }
}
