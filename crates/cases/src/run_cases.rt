//! Checks planning charts, and runs planning charts and wired panels over their decks, and prints of each what is printed and told of it.
//!
//! The files `index` of `charts`, `panels`, `streams` and `served` name the cases, one a line: a planning chart; a wiring chart and a
//! deck; a planning chart and a deck, many of these with a fault somewhere; a wiring chart, orders and a deck, where the units are served
//! by orders, of which is also told how many rounds were taken and how many hubs were seen. Where a card or a total stops the run, what
//! was printed before stands before the line of the fault.

use crate::answered::Served;
use crate::case_files::{Case, read_case};
use anyhow::Result;
use cli_tasks::Task;
use std::io::Write;

/// Writes the name of a chart, and what is told of it by the rules and then by the capacities of the standard machine.
pub fn write_checked<W: Write>(rt: &HostRuntime, out: &mut W, name: &str) -> Result<()> {
    let chart = read_case(rt, "charts", name, "chart")?;
    write!(out, "{name} ")?;
    Served::of(rt.alloc(), Task::Check, chart.as_slice(), b"".as_slice()).write(out)
}

/// Writes the pages of a panel.
pub fn write_replay<W: Write>(rt: &HostRuntime, out: &mut W, name: &str) -> Result<()> {
    write_printed(
        rt,
        out,
        Task::Replay,
        &Case::read(rt, "panels", name, "wiring")?,
    )
}

/// Writes the pages of a chart.
pub fn write_run<W: Write>(rt: &HostRuntime, out: &mut W, name: &str) -> Result<()> {
    write_printed(
        rt,
        out,
        Task::Run,
        &Case::read(rt, "streams", name, "chart")?,
    )
}

fn write_printed<W: Write>(rt: &HostRuntime, out: &mut W, task: Task, case: &Case) -> Result<()> {
    let text = case.text.as_slice();
    Served::of(rt.alloc(), task, text, case.deck.as_slice()).write(out)
}

/// Writes the pages of a panel whose units are served by orders, and what was counted.
pub fn write_served<W: Write>(rt: &HostRuntime, out: &mut W, name: &str) -> Result<()> {
    let case = Case::read(rt, "served", name, "wiring")?;
    let orders = read_case(rt, "served", name, "orders")?;
    Served::on(
        rt.alloc(),
        Task::ReplayByOrders,
        case.text.as_slice(),
        orders.as_slice(),
        case.deck.as_slice(),
    )
    .write(out)
}
