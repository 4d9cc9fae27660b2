//! The legend as markup.

ghost use Rattle.std.specs.Prelude.{◌≡◌, ◌++◌, Contains, OnOk};
ghost use Rattle.std.specs.String.{string_bytes};
ghost use Rattle.show_drawings.specs.MarkupWords.Pieces.{GainsEach, GainsOne};
ghost use Rattle.chart_plans.specs.PlansWords.Plans.{ServesChart};
ghost use Rattle.show_sections.specs.ChartPanels.Legends.{IsLegendSection, legend_colour, legend_name, legend_section};

use chart_lines::charts::Line;
use chart_numerals::{push_between, push_numbered};
use chart_plans::plans::Plan;
use chart_rules::Chart;
use show_drawings::markup::push_escaped;
use std::alloc::{AllocError, Global};
use wiring_legend::write_group;
use wiring_text::Version;

// The front of an element.
fn write_name(text: &mut String, number: u16) -> Result<(), AllocError>
    ensures { OnOk result (string_bytes text.new ≡ string_bytes text.old ++ legend_name number) }
{
    push_numbered(text, "<pre id=\"line", number)
}

// Its colour.
fn write_colour(text: &mut String, number: u16) -> Result<(), AllocError>
    ensures { OnOk result (string_bytes text.new ≡ string_bytes text.old ++ legend_colour number) }
{
    push_between(text, "\" class=\"c", number % 12, "\">")
}

#[tactic(auto, unfolding(crate::specs::ChartPanels::Legends::legend_section))]
/// Writes an element with a text, which is escaped. It has the id `line` with the number, and one of twelve colours, that of the wires of
/// this number in the drawing of the panel. Fails only where no memory is left.
pub fn write_legend_section(text: &mut String, number: u16, words: &[u8]) -> Result<(), AllocError>
    ensures { OnOk result (string_bytes text.new ≡ string_bytes text.old ++ legend_section number words.now) }
{
    write_name(text, number)?;
    write_colour(text, number)?;
    push_escaped(text, words)?;
    text.push_str("</pre>\n")
}

// The element of a line of the chart.
fn write_line(
    alloc: Global,
    text: &mut String,
    version: Version,
    chart: &Chart,
    plan: &Plan,
    source: &[u8],
    line: &Line,
) -> Result<(), AllocError>
    requires plan { ServesChart chart.now.lines plan.now }
    requires listed { Contains chart.now.lines line.now }
    ensures { OnOk result (GainsOne (IsLegendSection version chart.now.lines plan.now source.now line.now) (string_bytes text.old) (string_bytes text.new)) }
{
    let mut group = Vec::new(alloc);
    write_group(alloc, &mut group, version, chart, plan, source, line)?;
    write_legend_section(text, line.number, &group)
}

/// Writes the legend of a chart with its plan: for each of its lines an element with the line's group of the legend, in a version of the
/// language of wiring charts. `source` is the text of the chart. Fails only where no memory is left; a front of the legend may then have
/// been written.
pub fn write_legend(
    alloc: Global,
    text: &mut String,
    version: Version,
    chart: &Chart,
    plan: &Plan,
    source: &[u8],
) -> Result<(), AllocError>
    requires { ServesChart chart.now.lines plan.now }
    ensures { OnOk result (GainsEach (IsLegendSection version chart.now.lines plan.now source.now) chart.now.lines (string_bytes text.old) (string_bytes text.new)) }
{
    for line in chart.lines() {
        write_line(alloc, text, version, chart, plan, source, line)?;
    }
    Ok(())
}
