//! Writes wiring charts of both versions in version 2, and runs the panels over their decks: as they were wired before, and as they are then.
//!
//! The file `index` names the wiring charts, one a line. Those that are refused have no deck, and the line of their fault stands in
//! place of the text.

use crate::answered::Served;
use crate::case_files::read_case;
use anyhow::Result;
use cli_tasks::Task;
use std::alloc::Global;
use std::io::Write;

// Writes the pages of a panel, as it was wired before and as it is wired then.
fn write_replays<W: Write>(
    alloc: Global,
    out: &mut W,
    before: &[u8],
    then: &[u8],
    deck: &[u8],
) -> Result<()> {
    Served::of(alloc, Task::Replay, before, deck).write(out)?;
    Served::of(alloc, Task::Replay, then, deck).write(out)
}

// Writes what an upgrade of a wiring chart gives, and its pages twice where it is not refused.
fn write_upgraded<W: Write>(
    rt: &HostRuntime,
    out: &mut W,
    name: &str,
    wiring: &[u8],
) -> Result<()> {
    let upgraded = Served::of(rt.alloc(), Task::Upgrade, wiring, b"".as_slice());
    upgraded.write(out)?;
    if upgraded.status != 0 {
        return Ok(());
    }
    let deck = read_case(rt, "upgrades", name, "deck")?;
    let then = upgraded.output.as_slice();
    write_replays(rt.alloc(), out, wiring, then, deck.as_slice())
}

/// Writes a wiring chart in version 2, and its pages twice.
pub fn write_upgrade<W: Write>(rt: &HostRuntime, out: &mut W, name: &str) -> Result<()> {
    let wiring = read_case(rt, "upgrades", name, "wiring")?;
    write_upgraded(rt, out, name, wiring.as_slice())
}
