//! The kinds of cases, in the order in which they are told.

use crate::command_cases::{write_row, write_told};
use crate::explained_cases::{write_chart, write_panel};
use crate::hostile_cases::{Given, Trial, write_trial};
use crate::match_cases::write_match;
use crate::read_back_cases::{write_read_back, write_wired_back};
use crate::report_cases::{write_pages, write_report};
use crate::run_cases::{write_checked, write_replay, write_run, write_served};
use crate::shown_cases::write_shown;
use crate::upgrade_cases::write_upgrade;
use crate::wiring_cases::write_wiring;
use anyhow::Result;
use std::fs;
use std::io::Write;

// What is told of a case after the line of the index that names it.
#[derive(Clone, Copy)]
enum Named {
    Panel,
    Served,
    Upgrade,
    Report,
    Pages,
    Stream,
    Match,
    ReadBack,
    WiredBack,
    Command,
    Shown,
}

// What is told of a case that a line of an index names.
#[derive(Clone, Copy)]
enum Kind {
    Checked,
    Wiring,
    Named(Named),
    ExplainedChart,
    ExplainedPanel,
}

// What is told one after the other.
#[derive(Clone, Copy)]
enum Part {
    // A line.
    Heading(&'static str),
    // The cases that the lines of a file name.
    Cases(&'static str, Kind),
    // The lines that no text brings.
    Told,
    // The text of a file, changed in many ways.
    Trial(&'static str, Trial),
}

#[rattlefmt::skip]
static PARTS: [Part; 45] = [
    Part::Heading("== charts"),
    Part::Cases("charts/index", Kind::Checked),
    Part::Heading("== wirings"),
    Part::Cases("wirings/index", Kind::Wiring),
    Part::Heading("== panels"),
    Part::Cases("panels/index", Kind::Named(Named::Panel)),
    Part::Heading("== served"),
    Part::Cases("served/index", Kind::Named(Named::Served)),
    Part::Heading("== upgrades"),
    Part::Cases("upgrades/index", Kind::Named(Named::Upgrade)),
    Part::Heading("== reports"),
    Part::Cases("reports/index", Kind::Named(Named::Report)),
    Part::Cases("reports/pages_index", Kind::Named(Named::Pages)),
    Part::Heading("== streams"),
    Part::Cases("streams/index", Kind::Named(Named::Stream)),
    Part::Heading("== matches"),
    Part::Cases("matches/index", Kind::Named(Named::Match)),
    Part::Heading("== read back"),
    Part::Cases("read_back/panels", Kind::Named(Named::ReadBack)),
    Part::Cases("read_back/charts", Kind::Named(Named::WiredBack)),
    Part::Heading("== commands"),
    Part::Cases("commands/rows", Kind::Named(Named::Command)),
    Part::Told,
    Part::Heading("== hostile"),
    Part::Heading("bolts.chart cut after each byte"),
    Part::Trial("commands/bolts.chart", Trial::Cut { given: Given::Check, deck: "" }),
    Part::Heading("three-levels-and-a-grand-total.chart cut after each byte"),
    Part::Trial("reports/three-levels-and-a-grand-total.chart", Trial::Cut { given: Given::Check, deck: "" }),
    Part::Heading("one_total.wiring cut after each byte"),
    Part::Trial("panels/one_total.wiring", Trial::Cut { given: Given::Replay, deck: "005\n" }),
    Part::Heading("hand_wiring_with_a_pilot_loop.wiring cut after each byte"),
    Part::Trial("panels/hand_wiring_with_a_pilot_loop.wiring", Trial::Cut { given: Given::Replay, deck: "12\n" }),
    Part::Heading("bolts.chart and each byte"),
    Part::Trial("commands/bolts.chart", Trial::Behind { given: Given::Check, after: "" }),
    Part::Heading("CHART407, each byte, 1 and the end"),
    Part::Trial("hostile/first_word", Trial::Behind { given: Given::Check, after: "1\nEND\n" }),
    Part::Heading("one_total.wiring and each byte"),
    Part::Trial("panels/one_total.wiring", Trial::Behind { given: Given::Replay, after: "" }),
    Part::Heading("a card of each byte"),
    Part::Trial("commands/bolts.chart", Trial::Card),
    Part::Heading("== explained"),
    Part::Cases("explained/charts", Kind::ExplainedChart),
    Part::Cases("explained/panels", Kind::ExplainedPanel),
    Part::Heading("== shown"),
    Part::Cases("shown/index", Kind::Named(Named::Shown)),
];

// Writes a line.
fn write_line<W: Write>(out: &mut W, line: &str) -> Result<()> {
    writeln!(out, "{line}")?;
    Ok(())
}

// Writes the line that names a case, and what is told of it.
fn write_named<W: Write>(rt: &HostRuntime, out: &mut W, named: Named, line: &str) -> Result<()> {
    write_line(out, line)?;
    match named {
        Named::Panel => write_replay(rt, out, line),
        Named::Served => write_served(rt, out, line),
        Named::Upgrade => write_upgrade(rt, out, line),
        Named::Report => write_report(rt, out, line),
        Named::Pages => write_pages(rt, out, line),
        Named::Stream => write_run(rt, out, line),
        Named::Match => write_match(rt, out, line),
        Named::ReadBack => write_read_back(rt, out, line),
        Named::WiredBack => write_wired_back(rt, out, line),
        Named::Command => write_row(rt, out, line),
        Named::Shown => write_shown(rt, out, line),
    }
}

// Writes what is told of the case that a line names.
fn write_case<W: Write>(rt: &HostRuntime, out: &mut W, kind: Kind, line: &str) -> Result<()> {
    match kind {
        Kind::Checked => write_checked(rt, out, line),
        Kind::Wiring => write_wiring(rt, out, line),
        Kind::Named(named) => write_named(rt, out, named, line),
        Kind::ExplainedChart => write_chart(rt, out, line),
        Kind::ExplainedPanel => write_panel(rt, out, line),
    }
}

// Writes what is told of each case that the lines of an index name.
fn write_each<W: Write>(rt: &HostRuntime, out: &mut W, kind: Kind, index: &str) -> Result<()> {
    for line in index.lines() {
        write_case(rt, out, kind, line)?;
    }
    Ok(())
}

// Writes what is told of each case of a kind, by the file that names them.
fn write_cases<W: Write>(rt: &HostRuntime, out: &mut W, kind: Kind, path: &str) -> Result<()> {
    let index = fs::read_to_string(rt, path)?;
    write_each(rt, out, kind, index.as_str())
}

fn write_part<W: Write>(rt: &HostRuntime, out: &mut W, part: Part) -> Result<()> {
    match part {
        Part::Heading(heading) => write_line(out, heading),
        Part::Cases(path, kind) => write_cases(rt, out, kind, path),
        Part::Told => write_told(rt.alloc(), out),
        Part::Trial(path, trial) => write_trial(rt, out, path, trial),
    }
}

fn write_parts<W: Write>(rt: &HostRuntime, out: &mut W, parts: &[Part]) -> Result<()> {
    for part in parts {
        write_part(rt, out, *part)?;
    }
    Ok(())
}

/// Writes what is told of all cases.
pub fn write_all<W: Write>(rt: &HostRuntime, out: &mut W) -> Result<()> {
    write_parts(rt, out, &PARTS)
}
