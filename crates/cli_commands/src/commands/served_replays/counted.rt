//! The line of what was counted.

ghost use Rattle.std.specs.Prelude.{◌≡◌, ◌⊎◌, OnOk};
ghost use Rattle.std.specs.Io.KnownBytes.{Appends};
ghost use Rattle.cli_commands.specs.CommandsWords.ServedReplays.Counted.{counts_line, EndsCounted};

use chart_numerals::write_numbered;
use fault_lines::faults::{Ending, unprinted};
use machine_served::served_runs::Counts;
use std::io;
use std::io::Write;

/// Writes the line of what was counted, and LF: `rounds R seen S`.
///
/// # Errors
///
/// Where the writer fails. It may then have taken a part of the line.
pub fn write_counts<V: Write>(counts: &Counts, out: &mut V) -> io::Result<()>
    ensures { OnOk result (Appends (V.contents out.old) (V.contents out.new) (counts_line counts.now)) }
{
    write_numbered(out, "rounds ", counts.rounds)?;
    write_numbered(out, " seen ", counts.seen)?;
    out.write_all(b"\n")
}

// Tells what was counted: the program has done what it was asked for. Where the line can't be written it ends as where its output can't
// be, and tells no more, since it has nowhere else to tell it.
pub(crate) fn tell_counts<V: Write>(counts: &Counts, out: &mut V) -> Ending
    ensures { EndsCounted counts.now result.status result.is_told (V.contents out.old) (V.contents out.new) }
{
    match write_counts(counts, out) {
        Ok(()) => Ending {
            status: 0,
            is_told: true,
        },
        Err(error) => Ending {
            status: unprinted(&error).status(),
            is_told: false,
        },
    }
}
