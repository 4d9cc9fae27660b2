//! The wires of one line of a chart.

ghost use Rattle.std.specs.Prelude.{Contains, IfOk};
ghost use Rattle.chart_plans.specs.PlansWords.Plans.{ServesChart};
ghost use Rattle.wire_gen.specs.OfLine.{IsSetupOfLine};

use crate::lines::wire_line;
use chart_lines::charts::Line;
use chart_plans::plans::Plan;
use chart_rules::Chart;
use hubs::setups::Setup;
use std::alloc::{AllocError, Global};
use wiring_lines::jacks_and_tape::{line_tape, plug_line_jacks};

/// The setup of one line of a chart alone: exactly the wires, the jacks and the stops that the line asks for, on the chart's form. Its
/// only refusal is memory.
pub fn line_setup(
    alloc: Global,
    chart: &Chart,
    plan: &Plan,
    line: &Line,
) -> Result<Setup, AllocError>
    requires plan { ServesChart chart.now.lines plan.now }
    requires listed { Contains chart.now.lines line.now }
    ensures { IfOk result (IsSetupOfLine chart.now.lines plan.now line.now) }
{
    // What is known of the lines of every chart is told with them.
    let _lines = chart.lines();
    let mut setup = Setup::new(alloc, line_tape(chart, line));
    plug_line_jacks(&mut setup, chart, line);
    wire_line(&mut setup, chart, plan, line)?;
    Ok(setup)
}
