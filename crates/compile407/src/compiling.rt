//! Compiling a chart: from its text to a setup of the panel.

ghost use Rattle.std.specs.Prelude.{◌≡◌, ◌≢◌, IfOk, IfErr};
ghost use Rattle.chart_text.specs.ChartText.{Reads};
ghost use Rattle.compile407.specs.Compilation.{IsCompiled};
ghost use Rattle.compile407.specs.ChartFaults.{HasChartFault};
ghost use Rattle.fault_lines.specs.declared.faults.chart.ChartFault.TheVariants as chart;
ghost use Rattle.report_runs.specs.PrintPromises.Promises.{BeginsReport, PrintsReport};

use crate::compiled::Compiled;
use allocate::allocate;
use capacity::Profile;
use chart_rules::check;
use chart_text::read_chart;
use fault_lines::faults::ChartFault;
use std::alloc::Global;
use wire_gen::wire;

/// The chart of a text with its plan on the standard machine and the setup that is wired for it.
///
/// For every deck of at most 999,999 valid cards whose totals fit, the pages that the machine prints in that setup are byte by byte the
/// chart's report. For every deck of at most 999,999 valid cards, what it prints before the first card at which a total doesn't fit is the
/// report up to there.
///
/// # Errors
///
/// `TooLarge`, `NoFirstLine`, `NotALine` or `NoEnd` where the text is no chart, else `Rule` where the chart breaks a
/// rule, else `Capacity` where the machine has too little of something for the chart; `Memory` where a growth was refused.
pub fn compile(alloc: Global, bytes: &[u8]) -> Result<Compiled, ChartFault>
    ensures read { IfOk result (λ compiled. Reads bytes.now compiled.chart) }
    ensures compiled { IfOk result IsCompiled }
    ensures prints { IfOk result (λ compiled. PrintsReport compiled.chart compiled.setup) }
    ensures begins { IfOk result (λ compiled. BeginsReport compiled.chart compiled.setup) }
    ensures refused { IfErr result (λ fault. fault ≢ chart.Memory → HasChartFault bytes.now fault) }
{
    let raw = read_chart(alloc, bytes)?;
    let chart = check(alloc, raw)?;
    // What is known of the lines of every chart is told with them.
    let _lines = chart.lines();
    let plan = allocate(alloc, &chart, &Profile::standard())?;
    let setup = wire(alloc, &chart, &plan)?;
    Ok(Compiled::of(chart, plan, setup))
}
