//! The layout of a planning chart.

ghost use Rattle.std.specs.Prelude.{◌≡◌, ◌≢◌, ◌≤◌, ◌⊎◌, IfErr, IfOk, OnOk};
ghost use Rattle.fault_lines.specs.FaultsWords.Lines.{IsTold};
ghost use Rattle.fault_lines.specs.FaultsWords.Status.{status_of};
ghost use Rattle.fault_lines.specs.ProgramIo.Fronts.{WritesFront};
ghost use Rattle.cli_sheets.specs.SheetsWords.Layout.{layout};
ghost use Rattle.cli_sheets.specs.SheetsWords.SheetCalls.Layouts.{PrintsLayout, StopsLayout};

use crate::sheets::sheet_calls::charts_read::lawful_chart;
use crate::sheets::write_layout;
use chart_rules::Chart;
use fault_lines::faults::{Ending, Fault, tell, unprinted};
use fault_lines::program_io::put;
use std::alloc::Global;
use std::io::Write;

// The layout of a chart.
fn layout_of<'a>(alloc: Global, chart: &Chart) -> Result<Vec<u8>, Fault<'a>>
    ensures layout { IfOk result (λ text. text.items ≡ layout chart.now.lines) }
    ensures told { IfErr result (λ told. (told ≡ Fault.Memory) ⊎ (told ≡ Fault.Write)) }
{
    let mut text = Vec::new(alloc);
    match write_layout(alloc, &mut text, chart) {
        Ok(()) => Ok(text),
        Err(error) => Err(unprinted(&error)),
    }
}

/// Prints the layout of a planning chart: each line of its report under a ruler of the wheels, with its items where they stand and below.
///
/// # Errors
///
/// The fault of the chart, and nothing is printed; `Memory` where a growth was refused and `Write` where the output can't be written, and
/// then the front of the layout may have been printed.
pub fn print_layout<'a, W: Write>(alloc: Global, chart: &[u8], out: &mut W) -> Result<(), Fault<'a>>
    ensures printed { OnOk result (PrintsLayout chart.now (W.contents out.old) (W.contents out.new)) }
    ensures stopped { IfErr result (λ told. StopsLayout chart.now told (out.new ≡ out.old)) }
    ensures front { (out.new ≡ out.old) ⊎ WritesFront (PrintsLayout chart.now) (W.contents out.old) (W.contents out.new) }
{
    let planned = lawful_chart(alloc, chart)?;
    let answer = layout_of(alloc, &planned)?;
    put(out, answer.as_slice())
}

/// Prints the layout of a planning chart, and tells on one line of `faults` why there is none.
///
/// The statuses are 0 done, and then nothing is told, 3 where the chart is refused, 4 where the output can't be written, 5 memory.
/// Nothing is printed by status 3. Where the output can't be written or memory runs out, the front of the layout may have been.
pub fn layout_to_end<W: Write, V: Write>(
    alloc: Global,
    chart: &[u8],
    out: &mut W,
    faults: &mut V,
) -> Ending
    ensures done { result.status ≡ 0
        → PrintsLayout chart.now (W.contents out.old) (W.contents out.new) × (faults.new ≡ faults.old) }
    ensures stopped { (result.status ≡ 0) ⊎ ((told : Fault) × (result.status ≡ status_of told)
        × StopsLayout chart.now told (out.new ≡ out.old)
        × IsTold told result.is_told (V.contents faults.old) (V.contents faults.new)) }
    ensures front { (out.new ≡ out.old) ⊎ WritesFront (PrintsLayout chart.now) (W.contents out.old) (W.contents out.new) }
    ensures statuses { (result.status ≢ 1) × (result.status ≤ 5) }
{
    match print_layout(alloc, chart, out) {
        Ok(()) => Ending {
            status: 0,
            is_told: true,
        },
        Err(fault) => tell(&fault, faults),
    }
}
