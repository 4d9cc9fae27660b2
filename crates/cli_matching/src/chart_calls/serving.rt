//! The command that reads a panel back, over any writers.

ghost use Rattle.std.specs.Prelude.{◌≡◌, ◌≤◌, ◌⊎◌, IfErr, None, OnOk, Option};
ghost use Rattle.cli_matching.specs.ChartCalls.ReadBack.{LeavesUnread, PrintsChart, StopsChart};
ghost use Rattle.fault_lines.specs.FaultsWords.Lines.{IsTold};
ghost use Rattle.cli_matching.specs.Unmatched.{IsToldUnmatched};
ghost use Rattle.cli_matching.specs.declared.match_texts.counts.Counts.{Counts};
ghost use Rattle.fault_lines.specs.ProgramIo.Fronts.{WritesFront};

use crate::chart_calls::found::found_of;
use crate::{Unmatched, tell_unmatched};
use fault_lines::faults::{Ending, Fault};
use fault_lines::program_io::put;
use std::alloc::Global;
use std::io::Write;

/// Prints the planning chart that the panel of a wiring chart is read back as: a text that compiles.
///
/// # Errors
///
/// The fault of the wiring chart, and nothing is printed; else `Unwired` where the panel is wired for the
/// chart by no plan, and the chart is printed all the same. `Memory` where a growth was refused and `Write` where the output can't be
/// written, and then the front of the chart may have been printed.
pub fn print_chart<'a, W: Write>(
    alloc: Global,
    wiring: &[u8],
    out: &mut W,
) -> Result<(), Unmatched<'a>>
    ensures printed { OnOk result (PrintsChart wiring.now None (W.contents out.old) (W.contents out.new)) }
    ensures stopped { IfErr result (λ told.
        StopsChart wiring.now told (W.contents out.old) (W.contents out.new) (out.new ≡ out.old)) }
    ensures front { (out.new ≡ out.old)
        ⊎ ((counts : Option Counts) × WritesFront (PrintsChart wiring.now counts) (W.contents out.old) (W.contents out.new)) }
{
    let found = found_of(alloc, wiring)?;
    put(out, found.text.as_bytes())?;
    match found.counts {
        None => Ok(()),
        Some(counts) => Err(Unmatched::Unwired { counts }),
    }
}

/// Reads a panel back: prints the planning chart whose wiring it is, and tells on one line of `faults` why it is that of no chart.
///
/// The statuses are 0 exactly if the panel is wired for the chart that was printed by some plan, and then nothing is told, and the machine
/// prints the chart's report on it of every deck that can be run; 3 where it is not, and `fault 94 missing A extra B` is told, or where the
/// wiring chart is refused, and nothing is printed; 4 where the output can't be written, 5 memory, and then the front of the chart
/// may have been printed.
pub fn chart_to_end<W: Write, V: Write>(
    alloc: Global,
    wiring: &[u8],
    out: &mut W,
    faults: &mut V,
) -> Ending
    ensures wired { result.status ≡ 0
        → PrintsChart wiring.now None (W.contents out.old) (W.contents out.new) × (faults.new ≡ faults.old) }
    ensures unread { result.status ≡ 3 → (told : Unmatched)
        × LeavesUnread wiring.now told (W.contents out.old) (W.contents out.new) (out.new ≡ out.old)
        × IsToldUnmatched told result.is_told (V.contents faults.old) (V.contents faults.new) }
    ensures output { result.status ≡ 4 → IsTold Fault.Write result.is_told (V.contents faults.old) (V.contents faults.new) }
    ensures memory { result.status ≡ 5 → IsTold Fault.Memory result.is_told (V.contents faults.old) (V.contents faults.new) }
    ensures front { (out.new ≡ out.old)
        ⊎ ((counts : Option Counts) × WritesFront (PrintsChart wiring.now counts) (W.contents out.old) (W.contents out.new)) }
    ensures statuses { (result.status ≡ 0) ⊎ (3 ≤ result.status × result.status ≤ 5) }
{
    match print_chart(alloc, wiring, out) {
        Ok(()) => Ending {
            status: 0,
            is_told: true,
        },
        Err(told) => tell_unmatched(&told, faults),
    }
}
