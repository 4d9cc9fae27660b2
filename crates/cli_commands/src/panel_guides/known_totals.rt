//! The totals that are known of a panel.

ghost use Rattle.std.specs.Prelude.{◌≡◌, IfErr, IfOk};
ghost use Rattle.fault_lines.specs.declared.faults.fault.Fault.TheVariants.{Memory};
ghost use Rattle.readback_charts.specs.KnownCharts.{known_in};
ghost use Rattle.cli_commands.specs.PanelGuides.Known.{totals_known};
ghost use Rattle.explain_wheel_ledgers.specs.Totals.{AreAccounts, totals_in};

use compile407::Compiled;
use explain_wheel_ledgers::{TitledAccount, totals_of};
use fault_lines::faults::Fault;
use readback_charts::PanelChart;
use std::alloc::Global;

/// The totals of the chart that was read off a panel; none if none was.
pub(crate) fn totals_on_panel<'a>(
    alloc: Global,
    read: &Option<PanelChart>,
) -> Result<Vec<TitledAccount>, Fault<'a>>
    ensures value { IfOk result (λ totals. totals.items ≡ totals_known (known_in read.now)) }
    ensures accounts { IfOk result (λ totals. AreAccounts totals.items) }
    ensures memory { IfErr result (λ told. told ≡ Memory) }
{
    match read {
        Some(chart) => Ok(totals_of(alloc, chart.compiled.chart(), chart.plan())?),
        None => Ok(Vec::new(alloc)),
    }
}

/// The totals of a compiled chart.
pub(crate) fn totals_by_chart<'a>(
    alloc: Global,
    compiled: &Compiled,
) -> Result<Vec<TitledAccount>, Fault<'a>>
    ensures value { IfOk result (λ totals. totals.items ≡ totals_in compiled.now.chart.lines compiled.now.plan compiled.now.chart.lines) }
    ensures accounts { IfOk result (λ totals. AreAccounts totals.items) }
    ensures memory { IfErr result (λ told. told ≡ Memory) }
{
    Ok(totals_of(alloc, compiled.chart(), compiled.plan())?)
}
