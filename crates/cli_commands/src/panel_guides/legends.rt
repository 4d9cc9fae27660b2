//! The legend of a planning chart: what each of its lines asks for on the panel.

ghost use Rattle.std.specs.Prelude.{◌≡◌, ◌≢◌, ◌≤◌, ◌⊎◌, IfErr, IfOk, OnOk};
ghost use Rattle.cli_commands.specs.CommandsWords.Refusals.{RefusesChart};
ghost use Rattle.fault_lines.specs.FaultsWords.Lines.{IsTold};
ghost use Rattle.cli_commands.specs.PanelGuides.Legends.{IsLegendOf, IsSpelledLegend, PrintsLegend, StopsLegend};
ghost use Rattle.fault_lines.specs.ProgramIo.Fronts.{WritesFront};

use compile407::{Compiled, compile};
use fault_lines::faults::{Ending, Fault, tell};
use fault_lines::program_io::put;
use std::alloc::Global;
use std::io::Write;
use wire_chart::version_of;
use wiring_legend::{legend, lines_make_the_setup};

// The legend of a compiled chart, whose lines stand in this text, in the version in which the wiring chart of its panel is printed.
fn written_legend<'a>(
    alloc: Global,
    compiled: &Compiled,
    source: &[u8],
) -> Result<Vec<u8>, Fault<'a>>
    ensures legend { IfOk result (λ text. IsSpelledLegend compiled.now source.now text.items) }
    ensures memory { IfErr result (λ told. told ≡ Fault.Memory) }
{
    let chart = compiled.chart();
    let plan = compiled.plan();
    let version = version_of(compiled.setup());
    Ok(legend(alloc, version, chart, plan, source)?)
}

/// The legend of a planning chart: each line of the chart, and under it a sentence and the stops, jacks and wires that the line asks for
/// on the panel, spelled as in the wiring chart that `wire` prints.
///
/// # Errors
///
/// The fault of the chart, or `Memory` where a growth was refused.
pub fn legend_of<'a>(alloc: Global, chart: &[u8]) -> Result<Vec<u8>, Fault<'a>>
    ensures legend { IfOk result (λ answer. IsLegendOf chart.now answer.items) }
    ensures refused { IfErr result (λ told. told ≢ Fault.Memory → RefusesChart chart.now told) }
{
    let compiled = compile(alloc, chart)?;
    lines_make_the_setup();
    written_legend(alloc, &compiled, chart)
}

/// Prints the legend of a planning chart, as [`legend_of`] answers it.
///
/// # Errors
///
/// The fault of the chart, and nothing is printed; `Memory` where a growth was refused and `Write` where the output can't be written, and
/// then the front of the legend may have been printed.
pub fn print_legend<'a, W: Write>(alloc: Global, chart: &[u8], out: &mut W) -> Result<(), Fault<'a>>
    ensures printed { OnOk result (PrintsLegend chart.now (W.contents out.old) (W.contents out.new)) }
    ensures stopped { IfErr result (λ told. StopsLegend chart.now told (out.new ≡ out.old)) }
    ensures front { (out.new ≡ out.old) ⊎ WritesFront (PrintsLegend chart.now) (W.contents out.old) (W.contents out.new) }
{
    let answer = legend_of(alloc, chart)?;
    put(out, answer.as_slice())
}

/// Prints the legend of a planning chart, and tells on one line of `faults` why there is none.
///
/// The statuses are 0 done, and then nothing is told, 3 where the chart is refused, 4 where the output can't be written, 5 memory.
/// Nothing is printed by status 3. Where the output can't be written or memory runs out, the front of the legend may have been.
pub fn legend_to_end<W: Write, V: Write>(
    alloc: Global,
    chart: &[u8],
    out: &mut W,
    faults: &mut V,
) -> Ending
    ensures done { result.status ≡ 0
        → PrintsLegend chart.now (W.contents out.old) (W.contents out.new) × (faults.new ≡ faults.old) }
    ensures refused { result.status ≡ 3 → (told : Fault) × RefusesChart chart.now told × (out.new ≡ out.old)
        × IsTold told result.is_told (V.contents faults.old) (V.contents faults.new) }
    ensures output { result.status ≡ 4 → IsTold Fault.Write result.is_told (V.contents faults.old) (V.contents faults.new) }
    ensures memory { result.status ≡ 5 → IsTold Fault.Memory result.is_told (V.contents faults.old) (V.contents faults.new) }
    ensures front { (out.new ≡ out.old) ⊎ WritesFront (PrintsLegend chart.now) (W.contents out.old) (W.contents out.new) }
    ensures statuses { (result.status ≡ 0) ⊎ (3 ≤ result.status × result.status ≤ 5) }
{
    match print_legend(alloc, chart, out) {
        Ok(()) => Ending {
            status: 0,
            is_told: true,
        },
        Err(fault) => tell(&fault, faults),
    }
}
