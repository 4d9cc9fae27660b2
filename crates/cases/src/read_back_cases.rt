//! Reads panels back, and prints of each the planning chart, what is told, and the status.
//!
//! The file `panels` names wiring charts that stand in `read_back`, one a line; their charts were worked out by hand. The file `charts` has the
//! paths of planning charts, one a line: each is wired, the panel is read back, and the status alone is printed.

use crate::answered::{Served, write_status};
use crate::case_files::read_case;
use anyhow::Result;
use cli_tasks::Task;
use std::fs;
use std::io::Write;

/// Writes what is read of the panel of a name.
pub fn write_read_back<W: Write>(rt: &HostRuntime, out: &mut W, name: &str) -> Result<()> {
    let wiring = read_case(rt, "read_back", name, "wiring")?;
    Served::of(rt.alloc(), Task::Chart, wiring.as_slice(), b"".as_slice()).write_with_status(out)
}

/// Writes the status with which the panel of a chart is read back.
pub fn write_wired_back<W: Write>(rt: &HostRuntime, out: &mut W, path: &str) -> Result<()> {
    let chart = fs::read(rt, path)?;
    let wired = Served::of(rt.alloc(), Task::Wire, chart.as_slice(), b"".as_slice());
    let read = Served::of(
        rt.alloc(),
        Task::Chart,
        wired.output.as_slice(),
        b"".as_slice(),
    );
    write_status(out, read.status)
}
