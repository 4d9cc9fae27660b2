//! The command that matches a panel with a chart, over any writers.

ghost use Rattle.std.specs.Prelude.{◌≡◌, ◌≤◌, ◌⊎◌, IfErr, OnOk, Option};
ghost use Rattle.fault_lines.specs.FaultsWords.Lines.{IsTold};
ghost use Rattle.cli_matching.specs.Found.{IsWiredText, Prints, PrintsFound};
ghost use Rattle.cli_matching.specs.Matched.{LeavesUnmatched, StopsMatch};
ghost use Rattle.cli_matching.specs.Unmatched.{IsToldUnmatched};
ghost use Rattle.cli_matching.specs.declared.match_texts.counts.Counts.{Counts};
ghost use Rattle.fault_lines.specs.ProgramIo.Fronts.{WritesFront};

use crate::found::found_of;
use crate::match_texts::Telling;
use crate::panels::panels_of;
use crate::unmatched::{Unmatched, tell_unmatched};
use fault_lines::faults::{Ending, Fault};
use fault_lines::program_io::put;
use std::alloc::Global;
use std::io::Write;

/// Prints whether a panel is wired for a chart: `ok` and the plan by which it is; else what is missing and extra, by the plan that
/// is told, each under its heading where there is any, spelled in the version in which the wiring chart is read, and which lines of the wiring
/// chart are extra and which lines of the chart are done; or in place of all that a hint, which names no wire.
///
/// # Errors
///
/// The fault of the planning chart, else that of the wiring chart, and nothing is printed; else `Unwired` where no plan is found by
/// which the panel is wired for the chart, and what is missing and extra is printed. `Memory` where a growth was refused and `Write`
/// where the output can't be written, and then the front of it may have been printed.
pub fn print_match<'a, W: Write>(
    alloc: Global,
    telling: Telling,
    chart: &[u8],
    wiring: &[u8],
    out: &mut W,
) -> Result<(), Unmatched<'a>>
    ensures printed { OnOk result (Prints chart.now wiring.now (λ _. IsWiredText) (W.contents out.old) (W.contents out.new)) }
    ensures stopped { IfErr result (λ told.
        StopsMatch telling chart.now wiring.now told (W.contents out.old) (W.contents out.new) (out.new ≡ out.old)) }
    ensures front { (out.new ≡ out.old) ⊎ ((counts : Option Counts)
        × WritesFront (PrintsFound telling chart.now wiring.now counts) (W.contents out.old) (W.contents out.new)) }
{
    let panels = panels_of(alloc, chart, wiring)?;
    let found = found_of(alloc, telling, &panels, wiring)?;
    put(out, found.text.as_bytes())?;
    match found.counts {
        None => Ok(()),
        Some(counts) => Err(Unmatched::Unwired { counts }),
    }
}

/// Matches a panel with a planning chart: prints whether it is wired for the chart, and by which plan, or else what is missing and extra
/// and how far the panel is, or a hint; and tells on one line of `faults` why it doesn't match. A plan is found wherever there is one.
///
/// Where the panel is wired for the chart, the machine prints the chart's report of every deck that can be run, and not only of those that
/// were tried. The statuses are 0 where it is, and then nothing is told; 3 where it is not, and `fault 94 missing A extra B` is told, or
/// where a text is refused, and nothing is printed; 4 where the output can't be written, 5 memory, and then the front of it may have been printed.
pub fn match_to_end<W: Write, V: Write>(
    alloc: Global,
    telling: Telling,
    chart: &[u8],
    wiring: &[u8],
    out: &mut W,
    faults: &mut V,
) -> Ending
    ensures wired { result.status ≡ 0
        → Prints chart.now wiring.now (λ _. IsWiredText) (W.contents out.old) (W.contents out.new) × (faults.new ≡ faults.old) }
    ensures unmatched { result.status ≡ 3 → (told : Unmatched)
        × LeavesUnmatched telling chart.now wiring.now told (W.contents out.old) (W.contents out.new) (out.new ≡ out.old)
        × IsToldUnmatched told result.is_told (V.contents faults.old) (V.contents faults.new) }
    ensures output { result.status ≡ 4 → IsTold Fault.Write result.is_told (V.contents faults.old) (V.contents faults.new) }
    ensures memory { result.status ≡ 5 → IsTold Fault.Memory result.is_told (V.contents faults.old) (V.contents faults.new) }
    ensures front { (out.new ≡ out.old) ⊎ ((counts : Option Counts)
        × WritesFront (PrintsFound telling chart.now wiring.now counts) (W.contents out.old) (W.contents out.new)) }
    ensures statuses { (result.status ≡ 0) ⊎ (3 ≤ result.status × result.status ≤ 5) }
{
    match print_match(alloc, telling, chart, wiring, out) {
        Ok(()) => Ending {
            status: 0,
            is_told: true,
        },
        Err(told) => tell_unmatched(&told, faults),
    }
}
