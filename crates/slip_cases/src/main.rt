//! Lists the faults of charts and wiring charts with the slips that beginners make, and prints of each its entries and the line that is told.
//!
//! The file `index` of `data` names the charts, one a line, and `wiring_index` the wiring charts: a good one with one line changed, or
//! several. What is printed was worked out by hand.
#![tactic(auto)]

use anyhow::Result;
use fault_lists::text_lists::list_text_to_end;
use std::fs;
use std::io::{BufWriter, Write};

// Writes the name of a text, the entries of its faults and the line that is told. Its file bears the name with an ending.
fn write_listed<W: Write>(rt: &HostRuntime, out: &mut W, name: &str, ending: &str) -> Result<()> {
    let text = fs::read(rt, [name, ending].concat(rt.alloc())?.as_str())?;
    let mut told = Vec::new(rt.alloc());
    writeln!(out, "{name}")?;
    list_text_to_end(rt.alloc(), text.as_slice(), out, &mut told);
    out.write_all(told.as_slice())?;
    Ok(())
}

// Writes what is listed of each text that an index names.
fn write_all_listed<W: Write>(
    rt: &HostRuntime,
    out: &mut W,
    index: &str,
    ending: &str,
) -> Result<()> {
    let names = fs::read_to_string(rt, index)?;
    for name in names.lines() {
        write_listed(rt, out, name, ending)?;
    }
    Ok(())
}

fn main(rt: HostRuntime) -> Result<()> {
    let mut out = BufWriter::new(rt.alloc(), rt.stdout())?;
    write_all_listed(&rt, &mut out, "index", ".chart")?;
    write_all_listed(&rt, &mut out, "wiring_index", ".wiring")?;
    out.flush()?;
    Ok(())
}
