//! The chart that a panel is read back as.

ghost use Rattle.std.specs.Prelude.{◌≡◌, IfErr, IfOk, IfSome, string_bytes};
ghost use Rattle.fault_lines.specs.declared.faults.chart.ChartFault.TheVariants as chart;
ghost use Rattle.readback_charts.specs.PanelChart.{IsChart, IsFound, IsReadBack};

use crate::lawful::{ChartText, chart_text_of, whole_text};
use chart_plans::plans::Plan;
use compile407::{ChartFault, Compiled};
use hubs::setups::Setup;
use match_panels::matching::{Matching, match_setup};
use std::alloc::{AllocError, Global};

/// The chart that a panel is read back as.
pub struct PanelChart {
    /// Its text.
    pub text: String,
    /// The chart, compiled.
    pub compiled: Compiled,
    /// What is found of the panel beside the chart.
    pub matching: Matching,
}

// By hand, so that a function that drops one calls this, and doesn't drop its parts one by one.
impl Drop for PanelChart {
    fn drop(self) {
        let PanelChart {
            text: _text,
            compiled: _compiled,
            matching: _matching,
        } = self;
    }
}

impl PanelChart {
    ghost use Rattle.std.specs.Prelude.{◌≡◌, false, true};
    ghost use Rattle.match_panels.specs.MatchingWords.Answers.{IsMatched, plan_told};

    /// Whether the panel is wired for the chart.
    pub(crate) fn is_wired(&self) -> bool
        ensures wired { result ≡ true → IsMatched self.now.matching }
        ensures unwired { result ≡ false → ¬ IsMatched self.now.matching }
    {
        match &self.matching {
            Matching::Matched { .. } => true,
            Matching::Differs { .. } => false,
        }
    }

    /// The plan of the chart that is told.
    pub fn plan(&self) -> &Plan
        ensures { result.now ≡ plan_told self.now.matching }
    {
        match &self.matching {
            Matching::Matched { plan } | Matching::Differs { plan, .. } => plan,
        }
    }

    /// Its text alone.
    pub fn into_text(self) -> String
        ensures { result ≡ self.text }
    {
        let PanelChart {
            text,
            compiled: _compiled,
            matching: _matching,
        } = self;
        text
    }
}

// What is found of a panel beside a chart.
fn found_of(alloc: Global, compiled: &Compiled, setup: &Setup) -> Result<Matching, AllocError>
    ensures { IfOk result (IsFound setup.now compiled.now) }
{
    match_setup(alloc, compiled.chart(), compiled.plan(), setup)
}

/// A chart, and what is found of a panel beside it. Its only refusal is memory.
pub(crate) fn chart_beside(
    alloc: Global,
    chart: ChartText,
    setup: &Setup,
) -> Result<PanelChart, AllocError>
    requires { IsChart (string_bytes chart.text) chart.compiled }
    ensures read { IfOk result (λ panel. IsReadBack setup.now (string_bytes panel.text) panel.compiled panel.matching) }
    ensures text { IfOk result (λ panel. panel.text ≡ chart.text) }
{
    let (text, compiled) = chart.into_parts();
    let matching = found_of(alloc, &compiled, setup)?;
    Ok(PanelChart {
        text,
        compiled,
        matching,
    })
}

/// The chart that a panel is read back as: a text that compiles, and what is found of the panel beside it. If that is `Matched`, the panel
/// is wired for the chart by the plan that is told, and so the machine prints the chart's reports on it. If it `Differs`, the panel is wired
/// for this chart by no plan, and exactly what is missing and what is extra by the plan that is told is told too.
///
/// # Errors
///
/// `Memory`, if a growth was refused. If nothing is left of what was read, the smallest chart is answered, which prints a blank line behind the
/// last card: it compiles.
pub fn read_back(alloc: Global, setup: &Setup) -> Result<PanelChart, ChartFault>
    ensures read { IfOk result (λ panel. IsReadBack setup.now (string_bytes panel.text) panel.compiled panel.matching) }
    ensures refused { IfErr result (λ fault. fault ≡ chart.Memory) }
{
    let chart = chart_text_of(alloc, setup)?;
    Ok(chart_beside(alloc, chart, setup)?)
}

/// The chart of a panel at once, no line left out, and what is found of another panel beside it; none where it doesn't compile, or has the
/// text that is known. Its only refusal is memory.
pub fn read_beside(
    alloc: Global,
    read: &Setup,
    setup: &Setup,
    known: &str,
) -> Result<Option<PanelChart>, AllocError>
    ensures { IfOk result (λ found. IfSome found (λ panel. IsReadBack setup.now (string_bytes panel.text) panel.compiled panel.matching)) }
{
    let Some(chart) = whole_text(alloc, read, known)? else {
        return Ok(None);
    };
    Ok(Some(chart_beside(alloc, chart, setup)?))
}
