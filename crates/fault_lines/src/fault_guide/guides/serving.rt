//! The command that prints the entry of a fault, over any writers.

ghost use Rattle.std.specs.Prelude.{◌≡◌, ◌≢◌, ◌≤◌, ◌⊎◌, false, IfErr, OnOk};
ghost use Rattle.std.specs.Io.KnownBytes.{Appends};
ghost use Rattle.fault_lines.specs.FaultGuide.Numbered.{is_numbered};
ghost use Rattle.fault_lines.specs.FaultsWords.Lines.{IsTold};
ghost use Rattle.fault_lines.specs.FaultGuide.GuideTexts.EntryText.{entry_text};
ghost use Rattle.fault_lines.specs.FaultGuide.GuideTexts.Printed.{PrintsEntry};
ghost use Rattle.fault_lines.specs.FaultGuide.GuideTexts.Unknown.{IsUnknownTold, unknown_line};
ghost use Rattle.fault_lines.specs.ProgramIo.Fronts.{AppendsFront, WritesFront};

use crate::fault_guide::guides::entries::entry_text;
use crate::fault_guide::{FaultEntry, fault_entry};
use crate::faults::{Ending, Fault, tell};
use crate::program_io::put;
use chart_numerals::write_between;
use std::alloc::Global;
use std::io;
use std::io::Write;

/// The status where no fault has the number, as where the words of the command line can't be read.
const USAGE: u8 = 2;

// Writes the line that no fault has the number.
fn write_unknown<V: Write>(number: u8, out: &mut V) -> io::Result<()>
    ensures { OnOk result (Appends (V.contents out.old) (V.contents out.new) (unknown_line number)) }
{
    write_between(out, "error: no fault has the number ", number, "\n")
}

/// Tells on one line that no fault has the number: the program ends as where words can't be read, with status 2. Where the line can't be
/// written, the status alone tells of it.
pub fn tell_unknown<V: Write>(number: u8, faults: &mut V) -> Ending
    ensures status { result.status ≡ 2 }
    ensures line { IsUnknownTold number result.is_told (V.contents faults.old) (V.contents faults.new) }
{
    let is_told = write_unknown(number, faults).is_ok();
    Ending {
        status: USAGE,
        is_told,
    }
}

// Prints an entry.
fn print_entry<'a, W: Write>(
    alloc: Global,
    entry: &FaultEntry,
    out: &mut W,
) -> Result<(), Fault<'a>>
    ensures printed { OnOk result (Appends (W.contents out.old) (W.contents out.new) (entry_text entry.now)) }
    ensures front { (out.new ≡ out.old) ⊎ AppendsFront (W.contents out.old) (W.contents out.new) (entry_text entry.now) }
    ensures told { IfErr result (λ told. (told ≡ Fault.Memory) ⊎ (told ≡ Fault.Write)) }
{
    let text = entry_text(alloc, entry)?;
    put(out, text.as_bytes())
}

/// Prints the entry of the fault with a number: its name, its cause, its cure and an example.
///
/// The statuses are 0 done, and then nothing is told, 2 where no fault has the number, 4 where the output can't be written, 5 memory.
/// Nothing is printed by status 2. Where the output can't be written or memory runs out, the front of the entry may have been.
pub fn fault_to_end<W: Write, V: Write>(
    alloc: Global,
    number: u8,
    out: &mut W,
    faults: &mut V,
) -> Ending
    ensures done { result.status ≡ 0
        → PrintsEntry number (W.contents out.old) (W.contents out.new) × (faults.new ≡ faults.old) }
    ensures unknown { is_numbered number ≡ false → (result.status ≡ 2) × (out.new ≡ out.old)
        × IsUnknownTold number result.is_told (V.contents faults.old) (V.contents faults.new) }
    ensures mistaken { result.status ≡ 2 → is_numbered number ≡ false }
    ensures output { result.status ≡ 4 → IsTold Fault.Write result.is_told (V.contents faults.old) (V.contents faults.new) }
    ensures memory { result.status ≡ 5 → IsTold Fault.Memory result.is_told (V.contents faults.old) (V.contents faults.new) }
    ensures front { (out.new ≡ out.old) ⊎ WritesFront (PrintsEntry number) (W.contents out.old) (W.contents out.new) }
    ensures statuses { (result.status ≤ 5) × (result.status ≢ 1) × (result.status ≢ 3) }
{
    let Some(entry) = fault_entry(number) else {
        return tell_unknown(number, faults);
    };
    match print_entry(alloc, &entry, out) {
        Ok(()) => Ending {
            status: 0,
            is_told: true,
        },
        Err(fault) => tell(&fault, faults),
    }
}
