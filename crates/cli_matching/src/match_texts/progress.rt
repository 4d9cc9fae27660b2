//! Writing how far a panel is.

ghost use Rattle.std.specs.Prelude.{◌≡◌, ◌++◌, IfOk, OnOk, length};
ghost use Rattle.std.specs.String.{string_bytes};
ghost use Rattle.cli_matching.specs.MatchTexts.Progress.{AreNarrow, IsHintText, IsProgressText, IsToldText, ListsExtra, TellsWires, extra_line, narrow_words};
ghost use Rattle.match_panels.specs.MatchingWords.Answers.{IsMatchingOf};

use crate::match_texts::counts::counts_of;
use crate::match_texts::missing::write_form_beside;
use crate::match_texts::numbers::{extra_numbers, write_numbers};
use crate::match_texts::plan::write_group;
use crate::match_texts::telling::Telling;
use crate::match_texts::text::{match_text, write_under_heading, write_wired};
use chart_numerals::push_between;
use chart_rules::Chart;
use hubs::setups::Setup;
use match_panels::differences::panel_progress::{
    extra_lines, line_counts, write_counts, write_standings,
};
use match_panels::matching::Matching;
use match_plans::{Narrow, narrow_group};
use std::alloc::{AllocError, Global};
use wire_chart::Version;

#[tactic(auto, using(crate::proofs::MatchTexts::Far::extra_listed))]
// The lines of a wiring chart that are extra; `missing` and `extra` are the two differences.
fn extra_text(
    alloc: Global,
    version: Version,
    missing: &Setup,
    extra: &Setup,
    wiring: &[u8],
) -> Result<String, AllocError>
    ensures { IfOk result (λ text. ListsExtra version missing.now.tape extra.now wiring.now (string_bytes text)) }
{
    let mut form = String::new(alloc);
    write_form_beside(&mut form, extra.tape(), missing.tape())?;
    let mut text = String::new(alloc);
    write_under_heading(&mut text, "line 2: ", &form)?;
    let lines = extra_lines(alloc, version, extra, wiring)?;
    text.push_str(lines.as_str())?;
    Ok(text)
}

// Writes that a group is too narrow for the total on the line with a number, if one is.
fn write_narrow(text: &mut String, number: u16, found: Option<Narrow>) -> Result<(), AllocError>
    ensures { OnOk result (string_bytes text.new ≡ string_bytes text.old ++ narrow_words number found) }
{
    let Some(narrow) = found else {
        return Ok(());
    };
    push_between(text, "line ", number, ": group")?;
    write_group(text, narrow.group)?;
    push_between(
        text,
        " is too narrow: ",
        narrow.need,
        " positions are needed\n",
    )
}

#[tactic(auto, using(crate::proofs::MatchTexts::Far::narrow_none, crate::proofs::MatchTexts::Far::narrow_more))]
// The counter groups that are named for totals of a chart and are too narrow for them, a line for each.
fn narrow_text(alloc: Global, chart: &Chart, setup: &Setup) -> Result<String, AllocError>
    ensures { IfOk result (λ text. AreNarrow chart.now.lines setup.now (length chart.now.lines) (string_bytes text)) }
{
    let mut text = String::new(alloc);
    for line in chart.lines() {
        write_narrow(&mut text, line.number, narrow_group(chart, setup, line))?;
    }
    Ok(text)
}

#[tactic(auto, using(crate::proofs::MatchTexts::Far::progress_told))]
// How far a panel is, by what was found of it: which lines of its wiring chart are extra, and which lines of the chart are done. Nothing
// of one that is wired for the chart.
fn progress_text(
    alloc: Global,
    version: Version,
    chart: &Chart,
    setup: &Setup,
    wiring: &[u8],
    matching: &Matching,
) -> Result<String, AllocError>
    requires { IsMatchingOf chart.now.lines setup.now matching.now }
    ensures { IfOk result (λ text. IsProgressText version chart.now.lines setup.now wiring.now matching.now (string_bytes text)) }
{
    match matching {
        Matching::Matched { .. } => Ok(String::new(alloc)),
        Matching::Differs {
            plan,
            missing,
            extra,
        } => {
            let surplus = extra_text(alloc, version, missing, extra, wiring)?;
            let narrow = narrow_text(alloc, chart, setup)?;
            let counts = line_counts(alloc, chart, plan, setup)?;
            let mut text = String::new(alloc);
            write_under_heading(&mut text, "extra in the wiring chart\n", &surplus)?;
            text.push_str(narrow.as_str())?;
            write_standings(alloc, &mut text, counts.as_slice())?;
            Ok(text)
        }
    }
}

#[tactic(auto, using(crate::proofs::MatchTexts::Far::wires_told))]
// What is found, with what is missing and extra, and how far the panel is.
fn wires_text(
    alloc: Global,
    version: Version,
    chart: &Chart,
    setup: &Setup,
    wiring: &[u8],
    matching: &Matching,
) -> Result<String, AllocError>
    requires { IsMatchingOf chart.now.lines setup.now matching.now }
    ensures { IfOk result (λ text. TellsWires version chart.now.lines setup.now wiring.now matching.now (string_bytes text)) }
{
    let mut text = match_text(alloc, version, chart, setup, matching)?;
    let progress = progress_text(alloc, version, chart, setup, wiring, matching)?;
    text.push_str(progress.as_str())?;
    Ok(text)
}

// Writes how much is extra, if anything is.
fn write_extra(text: &mut String, extra: u32) -> Result<(), AllocError>
    ensures { OnOk result (string_bytes text.new ≡ string_bytes text.old ++ extra_line extra) }
{
    if extra == 0 {
        return Ok(());
    }
    push_between(text, "extra: ", extra, "\n")
}

// What is found, in lines and counts alone.
fn hint_text(
    alloc: Global,
    version: Version,
    chart: &Chart,
    setup: &Setup,
    wiring: &[u8],
    matching: &Matching,
) -> Result<String, AllocError>
    requires { IsMatchingOf chart.now.lines setup.now matching.now }
    ensures { IfOk result (λ text. IsHintText version chart.now.lines setup.now wiring.now matching.now (string_bytes text)) }
{
    match matching {
        Matching::Matched { plan } => {
            let mut text = String::new(alloc);
            write_wired(&mut text, chart, plan)?;
            Ok(text)
        }
        Matching::Differs {
            plan,
            missing,
            extra,
        } => {
            let narrow = narrow_text(alloc, chart, setup)?;
            let counts = line_counts(alloc, chart, plan, setup)?;
            let numbers = extra_numbers(alloc, version, missing, extra, wiring)?;
            let mut text = String::new(alloc);
            write_counts(&mut text, counts.as_slice())?;
            write_extra(&mut text, counts_of(matching).extra)?;
            write_numbers(&mut text, "extra in the wiring chart: ", numbers.as_slice())?;
            text.push_str(narrow.as_str())?;
            write_standings(alloc, &mut text, counts.as_slice())?;
            Ok(text)
        }
    }
}

/// What is found of a setup beside a chart, as text. `matching` is what was found, and `wiring` the text of the setup.
///
/// With wires it is what [`match_text`] tells, and, if the setup is not wired for the chart, how far it is: under `extra in the wiring chart`
/// each line of `wiring` that is extra, as `line 14: WIRE FR.5 GE.4.3.1`, then each counter group that is named for a total and too narrow
/// for it, as `line 8: group 3.1 is too narrow: 4 positions are needed`, and then which lines of the chart are `done`, `begun` and `not begun`.
/// A hint tells of such a setup how much each line of the chart lacks, as `line 8: missing 2 of 27`, how much is extra, on which lines of
/// `wiring`, as `extra in the wiring chart: line 14`, and the same of groups and of lines of the chart. Its only refusal is memory.
pub fn told_text(
    alloc: Global,
    telling: Telling,
    version: Version,
    chart: &Chart,
    setup: &Setup,
    wiring: &[u8],
    matching: &Matching,
) -> Result<String, AllocError>
    requires { IsMatchingOf chart.now.lines setup.now matching.now }
    ensures { IfOk result (λ text.
        IsToldText telling wiring.now version chart.now.lines setup.now matching.now (string_bytes text)) }
{
    match telling {
        Telling::Wires => wires_text(alloc, version, chart, setup, wiring, matching),
        Telling::Hints => hint_text(alloc, version, chart, setup, wiring, matching),
    }
}
