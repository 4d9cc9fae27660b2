//! Explains each wheel of each page of the gallery, and walks each explanation through the wiring chart, and the ledger of each sum down to
//! the holes of its cards.
//!
//! The files `charts` and `panels` name planning charts of the reports and wired panels, one a line. Each explanation is walked by texts
//! alone: the wiring chart, the legend, the deck, the pages, and the card code as `docs/MACHINE.md` has it, in the file `card_code`. Where
//! one isn't right, the program ends with a fault. The counts that are written were made from the charts, the decks, the pages and the card
//! code.

use crate::answered::Served;
use crate::case_files::read_text;
use crate::walked_ledgers::{Sums, walk_ledgers};
use crate::walked_pages::{Walked, explain_pages};
use crate::walked_ways::Ground;
use anyhow::Result;
use card_code::read_deck;
use cli_tasks::Task;
use compile407::{Compiled, compile};
use hubs::setups::Setup;
use std::alloc::Global;
use std::fs;
use std::io::Write;
use wire_chart::read_setup;
use wiring_legend::line_setups;

// A chart of either kind, and a deck, as texts.
#[derive(Drop)]
struct Example {
    text: String,
    deck: String,
}

impl Example {
    fn read(rt: &HostRuntime, kind: &str, name: &str, holding: &str) -> Result<Example> {
        Ok(Example {
            text: read_text(rt, kind, name, holding)?,
            deck: read_text(rt, kind, name, "deck")?,
        })
    }
}

// What is printed of an example, its wiring chart, and its legend.
#[derive(Drop)]
struct Printed {
    pages: String,
    wiring: String,
    legend: String,
}

impl Printed {
    fn of(alloc: Global, example: &Example) -> Result<Printed> {
        let chart = example.text.as_bytes();
        Ok(Printed {
            pages: text_of(alloc, Task::Run, chart, example.deck.as_bytes())?,
            wiring: text_of(alloc, Task::Wire, chart, b"")?,
            legend: text_of(alloc, Task::Legend, chart, b"")?,
        })
    }
}

// What a task gives on a text and a deck, as a text.
fn text_of(alloc: Global, task: Task, text: &[u8], deck: &[u8]) -> Result<String> {
    Ok(String::from_utf8(Served::of(alloc, task, text, deck).output)?)
}

fn write_walked<W: Write>(out: &mut W, name: &str, walked: Walked) -> Result<()> {
    let Walked {
        pages,
        lines,
        characters,
        ways,
    } = walked;
    writeln!(
        out,
        "{name}: pages {pages}, lines {lines}, characters {characters}, ways {ways}"
    )?;
    Ok(())
}

fn write_sums<W: Write>(out: &mut W, name: &str, sums: Sums) -> Result<()> {
    let Sums {
        figures,
        entries,
        holes,
    } = sums;
    writeln!(
        out,
        "{name}: ledgers of {figures} figures, entries {entries}, holes {holes}"
    )?;
    Ok(())
}

// Explains pages on a panel.
fn walk_pages(
    alloc: Global,
    setup: &Setup,
    asked: &[(String, Setup)],
    ground: &Ground,
    pages: &str,
) -> Result<Walked> {
    let cards = read_deck(alloc, ground.deck.as_bytes())?;
    explain_pages(alloc, setup, asked, cards.as_slice(), ground, pages)
}

// Explains the pages of a planning chart that is compiled.
fn walk_compiled(
    alloc: Global,
    compiled: &Compiled,
    ground: &Ground,
    pages: &str,
) -> Result<Walked> {
    let text = ground.chart.as_bytes();
    let asked = line_setups(alloc, compiled.chart(), compiled.plan(), text)?;
    walk_pages(alloc, compiled.setup(), asked.as_slice(), ground, pages)
}

// Compiles a planning chart, and explains its pages.
fn walk_chart(alloc: Global, ground: &Ground, pages: &str) -> Result<Walked> {
    let compiled = compile(alloc, ground.chart.as_bytes())?;
    walk_compiled(alloc, &compiled, ground, pages)
}

// Reads a wiring chart, and explains its pages.
fn walk_panel(alloc: Global, ground: &Ground, pages: &str) -> Result<Walked> {
    let setup = read_setup(alloc, ground.wiring.as_bytes())?;
    walk_pages(alloc, &setup, &[], ground, pages)
}

fn explain_chart(alloc: Global, example: &Example, code: &str) -> Result<(Walked, Sums)> {
    let printed = Printed::of(alloc, example)?;
    let ground = Ground {
        wiring: printed.wiring.as_str(),
        chart: example.text.as_str(),
        legend: printed.legend.as_str(),
        deck: example.deck.as_str(),
        code,
    };
    let pages = printed.pages.as_str();
    let walked = walk_chart(alloc, &ground, pages)?;
    Ok((walked, walk_ledgers(alloc, &ground, pages)?))
}

fn explain_panel(alloc: Global, example: &Example, code: &str) -> Result<Walked> {
    let pages = text_of(
        alloc,
        Task::Replay,
        example.text.as_bytes(),
        example.deck.as_bytes(),
    )?;
    let ground = Ground {
        wiring: example.text.as_str(),
        chart: "",
        legend: "",
        deck: example.deck.as_str(),
        code,
    };
    walk_panel(alloc, &ground, pages.as_str())
}

fn read_code(rt: &HostRuntime) -> Result<String> {
    Ok(fs::read_to_string(rt, "explained/card_code")?)
}

/// Explains the pages of a planning chart and the sums on them, and writes how much was explained.
pub fn write_chart<W: Write>(rt: &HostRuntime, out: &mut W, name: &str) -> Result<()> {
    let code = read_code(rt)?;
    let example = Example::read(rt, "reports", name, "chart")?;
    let (walked, sums) = explain_chart(rt.alloc(), &example, code.as_str())?;
    write_walked(out, name, walked)?;
    write_sums(out, name, sums)
}

/// Explains the pages of a wired panel, and writes how much was explained.
pub fn write_panel<W: Write>(rt: &HostRuntime, out: &mut W, name: &str) -> Result<()> {
    let code = read_code(rt)?;
    let example = Example::read(rt, "panels", name, "wiring")?;
    write_walked(
        out,
        name,
        explain_panel(rt.alloc(), &example, code.as_str())?,
    )
}
