//! Which line of a chart asks for a wire.

ghost use Rattle.std.specs.Prelude.{◌≡◌, IfOk};
ghost use Rattle.chart_plans.specs.PlansWords.Plans.{ServesChart};
ghost use Rattle.show_sections.specs.ChartPanels.Asking.{AreAsked, AreChartWires, IsAsked, IsLineOf};

use chart_plans::plans::Plan;
use chart_rules::Chart;
use hubs::Hub;
use hubs::setups::Setup;
use show_drawings::drawings::panel_drawing::PanelWire;
use std::alloc::{AllocError, Global};
use wire_gen::line_setup;

// The number of the first line of a chart that asks for a wire; 0 where none does.
fn asking_line(
    alloc: Global,
    chart: &Chart,
    plan: &Plan,
    exit: Hub,
    entry: Hub,
) -> Result<u16, AllocError>
    requires { ServesChart chart.now.lines plan.now }
    ensures { IfOk result (IsLineOf chart.now.lines plan.now exit entry) }
{
    for line in chart.lines() {
        let setup = line_setup(alloc, chart, plan, line)?;
        if setup.has(exit, entry) {
            return Ok(line.number);
        }
    }
    Ok(0)
}

// A wire with the line that asks for it.
fn asked(
    alloc: Global,
    chart: &Chart,
    plan: &Plan,
    pair: (Hub, Hub),
) -> Result<PanelWire, AllocError>
    requires { ServesChart chart.now.lines plan.now }
    ensures { IfOk result (IsAsked chart.now.lines plan.now pair) }
{
    let line = asking_line(alloc, chart, plan, pair.0, pair.1)?;
    Ok(PanelWire {
        exit: pair.0,
        entry: pair.1,
        line,
    })
}

// The wires with the lines that ask for them.
fn all_asked(
    alloc: Global,
    chart: &Chart,
    plan: &Plan,
    pairs: &[(Hub, Hub)],
) -> Result<Vec<PanelWire>, AllocError>
    requires { ServesChart chart.now.lines plan.now }
    ensures { IfOk result (λ wires. AreAsked chart.now.lines plan.now pairs.now wires.items) }
{
    let mut wires = Vec::new(alloc);
    for pair in pairs {
        let wire = asked(alloc, chart, plan, *pair)?;
        wires.push(wire)?;
    }
    Ok(wires)
}

/// The wires of a setup, each once, by the number of the exit and then that of the entry, and with each the number of the first line of
/// the chart that asks for it; 0 where none does, as may be where the setup isn't wired for the chart. Fails only where no memory is left.
pub fn chart_wires(
    alloc: Global,
    chart: &Chart,
    plan: &Plan,
    setup: &Setup,
) -> Result<Vec<PanelWire>, AllocError>
    requires { ServesChart chart.now.lines plan.now }
    ensures { IfOk result (λ wires. AreChartWires chart.now.lines plan.now setup.now wires.items) }
{
    let pairs = setup.wires(alloc)?;
    all_asked(alloc, chart, plan, &pairs)
}
