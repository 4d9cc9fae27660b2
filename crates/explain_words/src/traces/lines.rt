//! The line of a cycle.

ghost use Rattle.std.specs.Prelude.{◌≡◌, ◌++◌, ◌-◌, OnOk, codes, length, replicate};
ghost use Rattle.explain_ledgers.specs.LedgersWords.LedgerText.Names.{cycle_name};
ghost use Rattle.explain_words.specs.TracesWords.Lines.{put_behind, reading_told, units_told};

use crate::traces::groups::write_groups;
use crate::traces::places::write_pilots;
use crate::traces::storage::write_storages;
use explain_ledgers::ledgers::ledger_text::write_cycle_name;
use machine::SteppedMachine;
use net::Cycle;
use std::io;
use std::io::Write;

/// Where what is told of a cycle begins, three spaces more.
const NAME_WIDTH: usize = 16;

// What the run-in reads.
fn write_reading(text: &mut Vec<u8>, cycle: Cycle) -> io::Result<()>
    ensures { OnOk result (text.new.items ≡ text.old.items ++ reading_told cycle) }
{
    match cycle {
        Cycle::RunIn => text.write_all(b"   card 1 at first reading"),
        Cycle::Card | Cycle::Prog(_, _) | Cycle::Head(_) => Ok(()),
    }
}

// What the units do in a cycle. The machine stands behind its points.
pub(crate) fn write_units(
    text: &mut Vec<u8>,
    cycle: Cycle,
    machine: &SteppedMachine,
) -> io::Result<()>
    ensures { OnOk result (text.new.items ≡ text.old.items ++ units_told cycle machine.now.machine) }
{
    write_reading(text, cycle)?;
    write_groups(text, cycle, machine.groups())?;
    write_storages(text, cycle, machine.storage())?;
    write_pilots(text, machine.pilots())
}

// Spaces behind a name, so that what follows begins at the same place on every line.
fn pad(line: &mut Vec<u8>) -> io::Result<()>
    ensures { OnOk result (line.new.items ≡ line.old.items ++ replicate (16 - length line.old.items) 32) }
{
    if line.len() < NAME_WIDTH {
        line.resize(NAME_WIDTH, b' ')?;
    }
    Ok(())
}

// Puts a line into the place of another: the name of a cycle, and what is told of it.
pub(crate) fn make_line(line: &mut Vec<u8>, cycle: Cycle, card: u32, told: &[u8]) -> io::Result<()>
    ensures { OnOk result (line.new.items ≡ put_behind (cycle_name cycle card) told.now ++ codes "\n") }
{
    line.clear();
    write_cycle_name(line, cycle, card)?;
    if !told.is_empty() {
        pad(line)?;
        line.write_all(told)?;
    }
    line.write_all(b"\n")
}
