//! Reads wiring charts, and tells of each which fault it has, or writes it again.
//!
//! The file `index` names the charts, one a line.

use crate::case_files::read_case;
use anyhow::Result;
use cli_commands::commands::{Fault, write_line};
use std::alloc::Global;
use std::io::Write;
use wire_chart::{read_setup, write_setup};

// Writes that a wiring chart is good and the text that its setup is written as, or its fault.
fn write_answer<W: Write>(alloc: Global, out: &mut W, name: &str, text: &[u8]) -> Result<()> {
    write!(out, "{name} ")?;
    match read_setup(alloc, text) {
        Ok(setup) => {
            out.write_all(b"ok\n")?;
            out.write_all(write_setup(alloc, &setup)?.as_bytes())?;
        }
        Err(fault) => write_line(&Fault::from(fault), out)?,
    }
    Ok(())
}

/// Writes the answer to a wiring chart.
pub fn write_wiring<W: Write>(rt: &HostRuntime, out: &mut W, name: &str) -> Result<()> {
    let text = read_case(rt, "wirings", name, "wiring")?;
    write_answer(rt.alloc(), out, name, text.as_slice())
}
