//! Writing a legend.

ghost use Rattle.std.specs.Prelude.{◌≡◌, ◌++◌, Contains, IfOk, OnOk, length, map};
ghost use Rattle.std.specs.String.{string_bytes};
ghost use Rattle.card_code.specs.Deck.{line_at};
ghost use Rattle.wiring_legend.specs.Helper.{GainsGroup, IsUnder};
ghost use Rattle.wiring_legend.specs.Legend.{IsLegend, form_part, heading};
ghost use Rattle.wiring_legend.specs.LineSetups.{AreLineSetups, line_words, place_words, plain};
ghost use Rattle.chart_plans.specs.PlansWords.Plans.{ServesChart};
ghost use Rattle.wire_chart.specs.WrittenText.{ended};

use crate::row::LegendRow;
use crate::wording;
use card_code::next_line;
use chart_lines::charts::{Line, Statement};
use chart_numerals::push_between;
use chart_plans::plans::Plan;
use chart_rules::Chart;
use hubs::setups::Setup;
use std::alloc::{AllocError, Global};
use wire_chart::{Version, write_form, write_parts};
use wire_gen::line_setup;

// The line of a text with a number, from 1; an empty one past its end.
fn line_numbered(source: &[u8], number: u16) -> &[u8]
    ensures { result.now ≡ line_at source.now number }
{
    let mut rest = source;
    for passed in 0..number.saturating_sub(1) {
        let Some((_, after)) = next_line(rest) else {
            return &[];
        };
        rest = after;
    }
    match next_line(rest) {
        Some((line, _)) => line,
        None => &[],
    }
}

// Writes the number and the text of a line of a chart.
fn write_heading(
    alloc: Global,
    legend: &mut Vec<u8>,
    source: &[u8],
    number: u16,
) -> Result<(), AllocError>
    ensures { OnOk result (legend.new.items ≡ legend.old.items ++ ended (heading source.now number)) }
{
    let mut numbered = String::new(alloc);
    push_between(&mut numbered, "line ", number, ": ")?;
    legend.extend_from_slice(numbered.as_bytes())?;
    legend.extend_from_slice(line_numbered(source, number))?;
    legend.extend_from_slice(b"\n")
}

// What stands under a line of a chart: the sentence of its row, the form under FORM, and what its setup has.
fn under(
    alloc: Global,
    version: Version,
    chart: &Chart,
    statement: &Statement,
    setup: &Setup,
) -> Result<String, AllocError>
    ensures { IfOk result (λ text. IsUnder version chart.now.lines statement.now setup.now (string_bytes text)) }
{
    let mut text = String::from_str(alloc, LegendRow::of(chart, statement).sentence())?;
    text.push_str("\n")?;
    write_form_part(&mut text, statement, setup)?;
    write_parts(&mut text, version, setup)?;
    text.push_str("\n")?;
    Ok(text)
}

// Writes the form under the FORM line.
fn write_form_part(
    text: &mut String,
    statement: &Statement,
    setup: &Setup,
) -> Result<(), AllocError>
    ensures { OnOk result (string_bytes text.new ≡ string_bytes text.old ++ form_part statement.now setup.now.tape) }
{
    match statement {
        Statement::Form { .. } => write_form(text, setup.tape()),
        _ => Ok(()),
    }
}

/// Writes the group of a line of a chart with its plan behind what a legend has. Its only refusal is memory; a part of the group may then
/// have been written.
pub fn write_group(
    alloc: Global,
    legend: &mut Vec<u8>,
    version: Version,
    chart: &Chart,
    plan: &Plan,
    source: &[u8],
    line: &Line,
) -> Result<(), AllocError>
    requires plan { ServesChart chart.now.lines plan.now }
    requires listed { Contains chart.now.lines line.now }
    ensures { OnOk result (GainsGroup version chart.now.lines plan.now source.now line.now legend.old.items legend.new.items) }
{
    let setup = line_setup(alloc, chart, plan, line)?;
    write_heading(alloc, legend, source, line.number)?;
    let text = under(alloc, version, chart, &line.statement, &setup)?;
    legend.extend_from_slice(text.as_bytes())?;
    Ok(())
}

/// The legend of a chart with its plan: for each of its lines the line itself with its number, the sentence of its row, the form under the
/// FORM line, and the stops, the jacks and the wires that the line asks for, as a wiring chart in a version of the language spells them;
/// an empty line ends each group. `source` is the text of the chart, from which the lines are taken. Its only refusal is memory.
pub fn legend(
    alloc: Global,
    version: Version,
    chart: &Chart,
    plan: &Plan,
    source: &[u8],
) -> Result<Vec<u8>, AllocError>
    requires { ServesChart chart.now.lines plan.now }
    ensures { IfOk result (λ text. IsLegend version chart.now.lines plan.now source.now text.items) }
{
    let mut text = Vec::new(alloc);
    for line in chart.lines() {
        write_group(alloc, &mut text, version, chart, plan, source, line)?;
    }
    Ok(text)
}

/// For each line of a chart with its plan, in their order, words for it, as `TOTAL 1 1 AMT (line 4 of the chart)`, and a setup with the
/// wires, the jacks and the stops that it asks for. `source` is the text of the chart. Its only refusal is memory.
pub fn line_setups(
    alloc: Global,
    chart: &Chart,
    plan: &Plan,
    source: &[u8],
) -> Result<Vec<(String, Setup)>, AllocError>
    requires { ServesChart chart.now.lines plan.now }
    ensures { IfOk result (λ all. AreLineSetups chart.now.lines plan.now source.now (length chart.now.lines) all.items) }
{
    let mut all = Vec::new(alloc);
    for line in chart.lines() {
        let words = line_words(alloc, source, line.number)?;
        all.push((words, line_setup(alloc, chart, plan, line)?))?;
    }
    Ok(all)
}

// Words for the line of a chart with a number.
fn line_words(alloc: Global, source: &[u8], number: u16) -> Result<String, AllocError>
    ensures { IfOk result (λ words. string_bytes words ≡ line_words source.now number) }
{
    let mut words = String::new(alloc);
    write_plain(&mut words, line_numbered(source, number))?;
    write_place(&mut words, number)?;
    Ok(words)
}

// Writes where the line with a number stands.
fn write_place(words: &mut String, number: u16) -> Result<(), AllocError>
    ensures { OnOk result (string_bytes words.new ≡ string_bytes words.old ++ place_words number) }
{
    push_between(
        words,
        wording::BEFORE_THE_NUMBER,
        number,
        wording::BEHIND_THE_NUMBER,
    )
}

// Writes bytes as characters, with a question mark for each that is none.
fn write_plain(words: &mut String, bytes: &[u8]) -> Result<(), AllocError>
    ensures { OnOk result (string_bytes words.new ≡ string_bytes words.old ++ map plain bytes.now) }
{
    for byte in bytes {
        words.push(char::from(if *byte < 128 { *byte } else { b'?' }))?;
    }
    Ok(())
}
