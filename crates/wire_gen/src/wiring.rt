//! Wiring a setup for a chart and its plan.

ghost use Rattle.std.specs.Prelude.{IfOk};
ghost use Rattle.chart_plans.specs.PlansWords.Plans.{ServesChart};
ghost use Rattle.wiring_lines.specs.Below.wiring_table.WiredFor.{WiredFor};

use crate::lines::wire_lines;
use chart_plans::plans::Plan;
use chart_rules::Chart;
use hubs::setups::Setup;
use std::alloc::{AllocError, Global};
use wiring_lines::jacks_and_tape::{plug_jacks, tape_of};

/// The setup that is wired for a chart by its plan: exactly the wires, jacks and tape that they ask for. Its only refusal is
/// memory.
pub fn wire(alloc: Global, chart: &Chart, plan: &Plan) -> Result<Setup, AllocError>
    requires { ServesChart chart.now.lines plan.now }
    ensures { IfOk result (WiredFor chart.now.lines plan.now) }
{
    // What is known of the lines of every chart is told with them.
    let _lines = chart.lines();
    let mut setup = Setup::new(alloc, tape_of(chart));
    plug_jacks(&mut setup, chart);
    wire_lines(&mut setup, chart, plan)?;
    Ok(setup)
}
