//! Writing what is found.

ghost use Rattle.std.specs.Prelude.{◌≡◌, ◌++◌, IfOk, OnOk, codes};
ghost use Rattle.std.specs.String.{string_bytes};
ghost use Rattle.cli_matching.specs.MatchTexts.MatchText.{IsMatchText};
ghost use Rattle.cli_matching.specs.MatchTexts.Missing.{under_heading};
ghost use Rattle.cli_matching.specs.MatchTexts.PlanText.{plan_text};
ghost use Rattle.match_panels.specs.MatchingWords.Answers.{IsMatchingOf};

use crate::match_texts::missing::{missing_text, surplus_text};
use crate::match_texts::plan::write_plan;
use chart_plans::plans::Plan;
use chart_rules::Chart;
use hubs::setups::Setup;
use match_panels::matching::Matching;
use std::alloc::{AllocError, Global};
use wire_chart::Version;

#[tactic(auto, using(crate::proofs::MatchTexts::Whole::nothing_headed, crate::proofs::MatchTexts::Whole::something_headed))]
/// Writes a heading and what stands under it; nothing, where nothing would.
pub(crate) fn write_under_heading(
    text: &mut String,
    heading: &str,
    body: &String,
) -> Result<(), AllocError>
    ensures { OnOk result (string_bytes text.new ≡ string_bytes text.old ++ under_heading heading.now (string_bytes body.now)) }
{
    if body.is_empty() {
        return Ok(());
    }
    text.push_str(heading)?;
    text.push_str(body.as_str())
}

/// Writes that a panel is wired for a chart, and by which plan.
pub(crate) fn write_wired(text: &mut String, chart: &Chart, plan: &Plan) -> Result<(), AllocError>
    ensures { OnOk result (string_bytes text.new ≡ string_bytes text.old ++ codes "ok\n" ++ plan_text chart.now.lines plan.now) }
{
    text.push_str("ok\n")?;
    write_plan(text, chart, plan)
}

#[tactic(auto, using(crate::proofs::MatchTexts::Whole::difference_told))]
/// What is found of a setup beside a chart, as text. Where the setup is wired for the chart: `ok`, and a line for each total with its
/// counter by the plan, as `line 12: counter 6.1`. Else those lines, then `missing` and under it, for each line of the chart that asks for
/// something that the setup has not, its number and the sentence of its row, the form if it is another, and these stops, jacks and wires;
/// then `extra` and the form, stops, jacks and wires that the chart does not ask for. A heading under which nothing would stand is left
/// out. A wire that several lines ask for stands under each. They are spelled as in a wiring chart in a version of the language. `matching`
/// is what was found of the setup and the chart. Its only refusal is memory.
pub fn match_text(
    alloc: Global,
    version: Version,
    chart: &Chart,
    setup: &Setup,
    matching: &Matching,
) -> Result<String, AllocError>
    requires { IsMatchingOf chart.now.lines setup.now matching.now }
    ensures { IfOk result (λ text. IsMatchText version chart.now.lines setup.now matching.now (string_bytes text)) }
{
    let mut text = String::new(alloc);
    match matching {
        Matching::Matched { plan } => write_wired(&mut text, chart, plan)?,
        Matching::Differs {
            plan,
            missing,
            extra,
        } => {
            write_plan(&mut text, chart, plan)?;
            let lacking = missing_text(alloc, version, chart, plan, setup)?;
            write_under_heading(&mut text, "missing\n", &lacking)?;
            let surplus = surplus_text(alloc, version, missing, extra)?;
            write_under_heading(&mut text, "extra\n", &surplus)?;
        }
    }
    Ok(text)
}
