//! What is found of a wiring chart.

ghost use Rattle.std.specs.Prelude.{◌≡◌, ◌≢◌, IfErr, IfOk, string_bytes};
ghost use Rattle.cli_matching.specs.ChartCalls.ReadBack.{IsChartOf};
ghost use Rattle.readback_charts.specs.KnownCharts.{IsReadFirst};
ghost use Rattle.readback_charts.specs.PanelChart.{IsReadBack};
ghost use Rattle.fault_lines.specs.ProgramIo.Refusals.{RefusesWiring};
ghost use Rattle.wire_chart.specs.Below.wiring_text.WiringText.{ReadsAs};

use crate::match_texts::{Counts, told_counts};
use compile407::{wired_setups_begin_reports, wired_setups_print_reports};
use fault_lines::faults::Fault;
use hubs::setups::Setup;
use readback_charts::PanelChart;
use readback_charts::nearest_charts::nearest_chart;
use std::alloc::Global;
use wire_chart::read_setup;

/// The chart that a panel is read back as.
#[derive(Drop)]
pub(crate) struct Found {
    /// Its text.
    pub(crate) text: String,
    /// How much is missing and extra, where the panel is not wired for the chart.
    pub(crate) counts: Option<Counts>,
}

// The panel of a wiring chart.
fn setup_of<'a>(alloc: Global, wiring: &[u8]) -> Result<Setup, Fault<'a>>
    ensures reads { IfOk result (ReadsAs wiring.now) }
    ensures refused { IfErr result (λ told. told ≢ Fault.Memory → RefusesWiring wiring.now told) }
{
    Ok(read_setup(alloc, wiring)?)
}

// The chart of a panel.
fn chart_of<'a>(alloc: Global, setup: &Setup) -> Result<PanelChart, Fault<'a>>
    ensures read { IfOk result (λ panel. IsReadBack setup.now (string_bytes panel.text) panel.compiled panel.matching) }
    ensures first { IfOk result (λ panel. IsReadFirst setup.now (string_bytes panel.text)) }
    ensures memory { IfErr result (λ told. told ≡ Fault.Memory) }
{
    Ok(nearest_chart(alloc, setup)?)
}

/// The chart that the panel of a wiring chart is read back as.
///
/// # Errors
///
/// The fault of the wiring chart; `Memory` where a growth was refused.
pub(crate) fn found_of<'a>(alloc: Global, wiring: &[u8]) -> Result<Found, Fault<'a>>
    ensures found { IfOk result (λ found. IsChartOf wiring.now found.counts (string_bytes found.text)) }
    ensures refused { IfErr result (λ told. told ≢ Fault.Memory → RefusesWiring wiring.now told) }
{
    // What is known of every setup that is wired for a chart by a plan of it.
    wired_setups_print_reports();
    wired_setups_begin_reports();
    let setup = setup_of(alloc, wiring)?;
    let chart = chart_of(alloc, &setup)?;
    let counts = told_counts(&chart.matching);
    Ok(Found {
        text: chart.into_text(),
        counts,
    })
}
