//! Who asks for the wires of a panel: the lines of its chart.

ghost use Rattle.std.specs.Prelude.{◌≡◌, length, IfErr, IfOk};
ghost use Rattle.fault_lines.specs.declared.faults.fault.Fault.TheVariants.{Memory};
ghost use Rattle.wiring_legend.specs.LineSetups.{AreLineSetups};
ghost use Rattle.readback_charts.specs.KnownCharts.{known_in};
ghost use Rattle.cli_commands.specs.PanelGuides.Known.{AreAsked, IsServed};
ghost use Rattle.chart_plans.specs.PlansWords.Plans.{ServesChart};

use chart_plans::plans::Plan;
use compile407::Compiled;
use fault_lines::faults::Fault;
use hubs::setups::Setup;
use readback_charts::PanelChart;
use std::alloc::{AllocError, Global};
use wiring_legend::line_setups;

// Words for each line of a compiled chart, whose text this is, and what the line asks for by a plan.
fn lines_asking(
    alloc: Global,
    compiled: &Compiled,
    plan: &Plan,
    source: &[u8],
) -> Result<Vec<(String, Setup)>, AllocError>
    requires { ServesChart compiled.now.chart.lines plan.now }
    ensures { IfOk result (λ all. AreLineSetups compiled.now.chart.lines plan.now source.now (length compiled.now.chart.lines) all.items) }
{
    let chart = compiled.chart();
    line_setups(alloc, chart, plan, source)
}

/// Words for each line of a compiled chart, whose text this is, and what the line asks for.
pub(crate) fn asked_by_lines<'a>(
    alloc: Global,
    compiled: &Compiled,
    source: &[u8],
) -> Result<Vec<(String, Setup)>, Fault<'a>>
    ensures lines { IfOk result (λ all. AreLineSetups compiled.now.chart.lines compiled.now.plan source.now (length compiled.now.chart.lines) all.items) }
    ensures memory { IfErr result (λ told. told ≡ Memory) }
{
    let plan = compiled.plan();
    Ok(lines_asking(alloc, compiled, plan, source)?)
}

/// Words for each line of the chart that was read off a panel, and what the line asks for; nothing if none was.
pub(crate) fn asked_on_panel<'a>(
    alloc: Global,
    read: &Option<PanelChart>,
) -> Result<Vec<(String, Setup)>, Fault<'a>>
    requires { IsServed (known_in read.now) }
    ensures asked { IfOk result (λ all. AreAsked (known_in read.now) all.items) }
    ensures memory { IfErr result (λ told. told ≡ Memory) }
{
    match read {
        Some(chart) => Ok(lines_asking(
            alloc,
            &chart.compiled,
            chart.plan(),
            chart.text.as_bytes(),
        )?),
        None => Ok(Vec::new(alloc)),
    }
}
