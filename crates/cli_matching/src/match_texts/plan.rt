//! Writing a plan.

ghost use Rattle.std.specs.Prelude.{◌≡◌, ◌++◌, OnOk};
ghost use Rattle.std.specs.String.{string_bytes};
ghost use Rattle.cli_matching.specs.MatchTexts.PlanText.{counter_words, group_words, plan_line, plan_text};

use capacity::CounterGroup;
use chart_lines::charts::Line;
use chart_numerals::push_numbered;
use chart_plans::plans::{Plan, TotalCounter};
use chart_rules::Chart;
use std::alloc::AllocError;

/// Writes a counter group: its width, a point and its number.
pub(crate) fn write_group(text: &mut String, group: CounterGroup) -> Result<(), AllocError>
    ensures { OnOk result (string_bytes text.new ≡ string_bytes text.old ++ group_words group) }
{
    push_numbered(text, " ", group.width)?;
    push_numbered(text, ".", group.number)
}

// Writes the groups of a counter.
fn write_groups(text: &mut String, counter: TotalCounter) -> Result<(), AllocError>
    ensures { OnOk result (string_bytes text.new ≡ string_bytes text.old ++ counter_words counter) }
{
    match counter {
        TotalCounter::Single { group } => write_group(text, group),
        TotalCounter::Coupled { lower, upper } => {
            write_group(text, lower)?;
            write_group(text, upper)
        }
    }
}

// Writes the line of a plan for the total on a line of the chart, if one stands there.
fn write_counter(
    text: &mut String,
    chart: &Chart,
    plan: &Plan,
    line: &Line,
) -> Result<(), AllocError>
    ensures { OnOk result (string_bytes text.new ≡ string_bytes text.old ++ plan_line chart.now.lines plan.now line.now) }
{
    let Some(counter) = plan.counter_on(chart, line.number) else {
        return Ok(());
    };
    push_numbered(text, "line ", line.number)?;
    text.push_str(": counter")?;
    write_groups(text, counter)?;
    text.push_str("\n")
}

/// Writes a plan of a chart: a line for each total, with the groups that serve it. Its only refusal is memory.
pub(crate) fn write_plan(text: &mut String, chart: &Chart, plan: &Plan) -> Result<(), AllocError>
    ensures { OnOk result (string_bytes text.new ≡ string_bytes text.old ++ plan_text chart.now.lines plan.now) }
{
    for line in chart.lines() {
        write_counter(text, chart, plan, line)?;
    }
    Ok(())
}
