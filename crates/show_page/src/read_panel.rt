//! The page of a panel by the chart that is read off it.

ghost use Rattle.std.specs.Prelude.{◌≡◌, ◌≤◌, ◌++◌, IfOk, OnOk, length};
ghost use Rattle.std.specs.String.{string_bytes};
ghost use Rattle.card_code.specs.MostCards.{most_cards};
ghost use Rattle.chart_plans.specs.PlansWords.Plans.{ServesChart};
ghost use Rattle.show_page.specs.ReadPanel.{GainsReadLegend, ShowsRead, given_open, given_text, read_open};

use crate::frame::write_wiring_close;
use crate::show::page;
use card_code::Card;
use chart_plans::plans::Plan;
use chart_rules::Chart;
use explain_wheel_ledgers::totals_of;
use hubs::setups::Setup;
use show_drawings::markup::push_escaped;
use show_sections::chart_panels::{chart_wires, write_legend};
use std::alloc::{AllocError, Global};
use wiring_legend::line_setups;
use wiring_text::Version;

#[tactic(auto, unfolding(crate::specs::ReadPanel::read_open))]
// What stands before the legend of a chart that is read off a panel.
fn write_read_open(text: &mut String) -> Result<(), AllocError>
    ensures { OnOk result (string_bytes text.new ≡ string_bytes text.old ++ read_open) }
{
    text.push_str(
        "</div>\n<h2 id=\"chart\">The chart for which the panel is wired</h2>\n<p>It was read off the wires, jacks and stops of <a href=\"#wiring\">the wiring chart</a> below. A wire has the colour of the first line that asks for it.</p>\n<div class=\"legend\">\n",
    )
}

#[tactic(auto, unfolding(crate::specs::ReadPanel::given_open))]
// What stands between the legend and the text of the wiring chart.
fn write_given_open(text: &mut String) -> Result<(), AllocError>
    ensures { OnOk result (string_bytes text.new ≡ string_bytes text.old ++ given_open) }
{
    text.push_str(
        "</div>\n<h2 id=\"wiring\">The wiring chart</h2>\n<div class=\"legend\">\n<pre class=\"c0\">",
    )
}

#[tactic(auto, unfolding(crate::specs::ReadPanel::given_text))]
// Writes the text of the wiring chart, behind the legend.
fn write_given(text: &mut String, wiring: &[u8]) -> Result<(), AllocError>
    ensures { OnOk result (string_bytes text.new ≡ string_bytes text.old ++ given_text wiring.now) }
{
    write_given_open(text)?;
    push_escaped(text, wiring)?;
    write_wiring_close(text)
}

// Writes the legend of a chart that is read off a panel, and behind it the text of the panel's wiring chart. `source` is the text of the
// chart.
fn write_read_legend(
    alloc: Global,
    text: &mut String,
    version: Version,
    chart: &Chart,
    plan: &Plan,
    source: &[u8],
    wiring: &[u8],
) -> Result<(), AllocError>
    requires { ServesChart chart.now.lines plan.now }
    ensures { OnOk result (GainsReadLegend version chart.now.lines plan.now source.now wiring.now (string_bytes text.old) (string_bytes text.new)) }
{
    write_read_open(text)?;
    write_legend(alloc, text, version, chart, plan, source)?;
    write_given(text, wiring)
}

/// The page of a panel by a chart that is read off it and the plan by which the panel is wired for it, and of a deck of at most 999,999
/// cards, as [`show_chart`](crate::show_chart) gives that of a chart: with the chart's heading, its legend, and the wires in the colours of its
/// lines. Behind the legend stands the panel's wiring chart, whose text is `wiring`. `source` is the text of the chart. Its only refusal is
/// memory.
pub fn show_read(
    alloc: Global,
    version: Version,
    chart: &Chart,
    plan: &Plan,
    setup: &Setup,
    source: &[u8],
    wiring: &[u8],
    cards: &[Card],
    around: Option<u32>,
) -> Result<String, AllocError>
    requires plan { ServesChart chart.now.lines plan.now }
    requires few { length cards.now ≤ most_cards }
    ensures { IfOk result (λ text.
        ShowsRead version chart.now.lines plan.now setup.now source.now wiring.now cards.now around (string_bytes text)) }
{
    let wires = chart_wires(alloc, chart, plan, setup)?;
    let mut legend = String::new(alloc);
    write_read_legend(alloc, &mut legend, version, chart, plan, source, wiring)?;
    let asked = line_setups(alloc, chart, plan, source)?;
    let totals = totals_of(alloc, chart, plan)?;
    page(
        alloc,
        setup,
        &asked,
        &totals,
        cards,
        chart.lines(),
        &wires,
        &legend,
        around,
    )
}
