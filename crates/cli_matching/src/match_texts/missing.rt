//! Writing what is missing, and what is extra.

ghost use Rattle.std.specs.Prelude.{◌≡◌, ◌++◌, Contains, IfOk, OnOk, length};
ghost use Rattle.std.specs.String.{string_bytes};
ghost use Rattle.match_panels.specs.DifferencesWords.PanelProgress.Forms.{form_beside};
ghost use Rattle.cli_matching.specs.MatchTexts.Helper.{GainsLacking, GainsMissing, GainsSurplus, IsSurplus};
ghost use Rattle.cli_matching.specs.MatchTexts.Missing.{AreLacking, LacksOnLine, line_heading, missing_form};
ghost use Rattle.chart_plans.specs.PlansWords.Plans.{ServesChart};

use chart_lines::charts::{Line, Statement};
use chart_numerals::push_numbered;
use chart_plans::plans::Plan;
use chart_rules::Chart;
use hubs::setups::{Setup, Tape};
use match_panels::differences::difference;
use match_panels::differences::panel_progress::is_same_form;
use std::alloc::{AllocError, Global};
use wire_chart::{Version, write_form, write_parts};
use wire_gen::line_setup;
use wiring_legend::LegendRow;

/// Writes the form of a tape, where another has another.
pub(crate) fn write_form_beside(
    text: &mut String,
    tape: &Tape,
    other: &Tape,
) -> Result<(), AllocError>
    ensures { OnOk result (string_bytes text.new ≡ string_bytes text.old ++ form_beside tape.now other.now) }
{
    if is_same_form(tape, other) {
        Ok(())
    } else {
        write_form(text, tape)
    }
}

// Writes the form under the FORM line, where the setup has another.
fn write_missing_form(
    text: &mut String,
    statement: &Statement,
    wanted: &Tape,
    its: &Tape,
) -> Result<(), AllocError>
    ensures { OnOk result (string_bytes text.new ≡ string_bytes text.old ++ missing_form statement.now wanted.now its.now) }
{
    match statement {
        Statement::Form { .. } => write_form_beside(text, wanted, its),
        _ => Ok(()),
    }
}

#[tactic(auto, using(crate::proofs::MatchTexts::Whole::line_lacks))]
// What a line of the chart asks for and the setup has not.
fn lacking_on(
    alloc: Global,
    version: Version,
    chart: &Chart,
    plan: &Plan,
    line: &Line,
    setup: &Setup,
) -> Result<String, AllocError>
    requires plan { ServesChart chart.now.lines plan.now }
    requires listed { Contains chart.now.lines line.now }
    ensures { IfOk result (λ text. LacksOnLine version chart.now.lines plan.now setup.now line.now (string_bytes text)) }
{
    let wanted = line_setup(alloc, chart, plan, line)?;
    let lacking = difference(alloc, &wanted, setup)?;
    let mut text = String::new(alloc);
    write_missing_form(&mut text, &line.statement, wanted.tape(), setup.tape())?;
    write_parts(&mut text, version, &lacking)?;
    Ok(text)
}

// Writes the number of a line of the chart and the sentence of its row.
fn write_heading(text: &mut String, chart: &Chart, line: &Line) -> Result<(), AllocError>
    ensures { OnOk result (string_bytes text.new ≡ string_bytes text.old ++ line_heading chart.now.lines line.now) }
{
    push_numbered(text, "line ", line.number)?;
    text.push_str(": ")?;
    text.push_str(LegendRow::of(chart, &line.statement).sentence())?;
    text.push_str("\n")
}

#[tactic(auto, using(crate::proofs::MatchTexts::Lacking::nothing_lacks, crate::proofs::MatchTexts::Lacking::something_lacks))]
// Writes what a line of the chart asks for and the setup has not, under a heading; nothing, where nothing is missing.
fn write_line_part(
    alloc: Global,
    text: &mut String,
    version: Version,
    chart: &Chart,
    plan: &Plan,
    line: &Line,
    setup: &Setup,
) -> Result<(), AllocError>
    requires plan { ServesChart chart.now.lines plan.now }
    requires listed { Contains chart.now.lines line.now }
    ensures { OnOk result
        (GainsLacking version chart.now.lines plan.now setup.now line.now (string_bytes text.old) (string_bytes text.new)) }
{
    let lacking = lacking_on(alloc, version, chart, plan, line, setup)?;
    if lacking.is_empty() {
        return Ok(());
    }
    write_heading(text, chart, line)?;
    text.push_str(lacking.as_str())
}

#[tactic(auto, using(crate::proofs::MatchTexts::Lacking::lacking_none, crate::proofs::MatchTexts::Lacking::lacking_more))]
// Writes what a chart asks for by a plan and a setup has not, line by line of the chart.
fn write_missing(
    alloc: Global,
    text: &mut String,
    version: Version,
    chart: &Chart,
    plan: &Plan,
    setup: &Setup,
) -> Result<(), AllocError>
    requires plan { ServesChart chart.now.lines plan.now }
    ensures { OnOk result (GainsMissing version chart.now.lines plan.now setup.now (string_bytes text.old) (string_bytes text.new)) }
{
    for line in chart.lines() {
        write_line_part(alloc, text, version, chart, plan, line, setup)?;
    }
    Ok(())
}

#[tactic(auto, using(crate::proofs::MatchTexts::Whole::missing_alone))]
/// What a chart asks for by a plan and a setup has not, line by line of the chart. Its only refusal is memory.
pub(crate) fn missing_text(
    alloc: Global,
    version: Version,
    chart: &Chart,
    plan: &Plan,
    setup: &Setup,
) -> Result<String, AllocError>
    requires plan { ServesChart chart.now.lines plan.now }
    ensures { IfOk result (λ text. AreLacking version chart.now.lines plan.now setup.now (length chart.now.lines) (string_bytes text)) }
{
    let mut text = String::new(alloc);
    write_missing(alloc, &mut text, version, chart, plan, setup)?;
    Ok(text)
}

#[tactic(auto, using(crate::proofs::MatchTexts::Whole::surplus_gained))]
// Writes what a setup has and a chart does not ask for.
fn write_surplus(
    text: &mut String,
    version: Version,
    missing: &Setup,
    extra: &Setup,
) -> Result<(), AllocError>
    ensures { OnOk result (GainsSurplus version missing.now.tape extra.now (string_bytes text.old) (string_bytes text.new)) }
{
    write_form_beside(text, extra.tape(), missing.tape())?;
    write_parts(text, version, extra)
}

#[tactic(auto, using(crate::proofs::MatchTexts::Whole::surplus_alone))]
/// What a setup has and a chart does not ask for: `missing` and `extra` are the two differences. Its only refusal is memory.
pub(crate) fn surplus_text(
    alloc: Global,
    version: Version,
    missing: &Setup,
    extra: &Setup,
) -> Result<String, AllocError>
    ensures { IfOk result (λ text. IsSurplus version missing.now.tape extra.now (string_bytes text)) }
{
    let mut text = String::new(alloc);
    write_surplus(&mut text, version, missing, extra)?;
    Ok(text)
}
