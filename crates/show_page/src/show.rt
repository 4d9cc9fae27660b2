//! The whole page.

ghost use Rattle.std.specs.Prelude.{◌≡◌, ◌≤◌, ◌<◌, ◌+◌, ◌^◌, ◌++◌, IfOk, OnOk, length, map};
ghost use Rattle.std.specs.String.{string_bytes};
ghost use Rattle.card_code.specs.MostCards.{most_cards};
ghost use Rattle.chart_plans.specs.PlansWords.Plans.{ServesChart};
ghost use Rattle.explain_wheel_ledgers.specs.Totals.{AreAccounts};
ghost use Rattle.show_page.specs.Helper.{GainsBody};
ghost use Rattle.show_page.specs.Page.{IsPage, ShowsChart, ShowsPanel, unasked, wiring_text};

use crate::begin::write_begin;
use crate::choice::{cycles_shown, lines_shown, traced};
use crate::cycle_steps::{write_step_links, write_step_sections};
use crate::cycles::write_shown_cycles;
use crate::frame::{
    write_document_close, write_legend_open, write_stage_open, write_wiring_close,
    write_wiring_open,
};
use crate::head::{RunCounts, heading_of, write_head};
use crate::page::{write_cards_part, write_sheets_part};
use crate::shown::{shown_cards, shown_run};
use card_code::Card;
use chart_lines::charts::Line;
use chart_plans::plans::Plan;
use chart_rules::Chart;
use explain_wheel_ledgers::{TitledAccount, totals_of};
use explain_wheels::explanations::FoundLine;
use explain_words::explanation_text::ToldWheel;
use explain_words::traces::TracePart;
use hubs::Hub;
use hubs::setups::Setup;
use show_drawings::drawings::panel_drawing::{PanelWire, write_drawing};
use show_drawings::markup::push_escaped;
use show_links::ShownRun;
use show_links::sum_places::SumPlace;
use show_sections::chart_panels::{chart_wires, write_legend};
use show_sections::wheel_sections::{told_wheels, write_told_sections};
use show_sections::wire_sections::write_wire_sections;
use show_sums::card_sections::write_card_sections;
use show_sums::sum_sections::{PageSum, page_sums, sum_places, write_sum_sections};
use std::alloc::{AllocError, Global};
use wiring_legend::line_setups;
use wiring_text::Version;

// The page behind its cards, of which these are shown: the drawing of these wires, this legend, what is told of these wheels, of the sums,
// which stand at these places, of the cards and of the wires, the cycles of a part of the trace, and the points of those that printed these
// lines.
fn write_body(
    alloc: Global,
    text: &mut String,
    setup: &Setup,
    chart: &[Line],
    run: ShownRun,
    cards: &[Card],
    part: &TracePart,
    wires: &[PanelWire],
    legend: &str,
    totals: &[TitledAccount],
    told: &[ToldWheel],
    sums: &[PageSum],
    places: &[SumPlace],
    found: &[FoundLine],
) -> Result<(), AllocError>
    requires cards { run.cards.first + length cards.now < 2 ^ 64 }
    requires cycles { run.cycles.first ≤ 2 ^ 32 }
    requires accounts { AreAccounts totals.now }
    requires part { part.now.before < 2 ^ 32 }
    ensures { OnOk result (GainsBody setup.now found.now chart.now run cards.now part.now wires.now legend.now totals.now told.now sums.now places.now (string_bytes text.old) (string_bytes text.new)) }
{
    write_drawing(text, wires)?;
    text.push_str(legend)?;
    write_stage_open(text)?;
    write_begin(text, told, sums, run.cards.first, cards, wires, part)?;
    write_told_sections(text, run.cards, places, totals, told)?;
    write_sum_sections(alloc, text, run.cards, sums)?;
    write_card_sections(alloc, text, chart, run, &part.text, sums, cards)?;
    write_wire_sections(alloc, text, wires, told, places)?;
    write_shown_cycles(alloc, text, part)?;
    write_step_links(text, found)?;
    write_step_sections(alloc, text, setup, wires, found)?;
    write_document_close(text)
}

// The page of a setup and a deck, with those who ask for wires, the totals that are known, the heading and the fields of a chart, these wires
// and this legend, around a page of the report or none.
pub(crate) fn page(
    alloc: Global,
    setup: &Setup,
    asked: &[(String, Setup)],
    totals: &[TitledAccount],
    cards: &[Card],
    chart: &[Line],
    wires: &[PanelWire],
    legend: &str,
    around: Option<u32>,
) -> Result<String, AllocError>
    requires few { length cards.now ≤ most_cards }
    requires accounts { AreAccounts totals.now }
    ensures { IfOk result (λ text. IsPage setup.now asked.now totals.now cards.now chart.now wires.now legend.now around (string_bytes text)) }
{
    let shown = lines_shown(alloc, setup, cards, around)?;
    let choice = cycles_shown(around, cards.len(), &shown.found);
    let part = traced(alloc, setup, cards, choice)?;
    let told = told_wheels(alloc, setup, asked, cards, &shown.lines, &shown.found)?;
    let sums = page_sums(alloc, setup, totals, cards, &told)?;
    let places = sum_places(alloc, &sums)?;
    let counts = RunCounts {
        cards: cards.len(),
        lines: part.lines,
        wires: wires.len(),
    };
    let run = shown_run(choice, cards.len(), &part);
    let cards_shown = shown_cards(choice, cards);
    let form_lines = u32::from(setup.tape().lines());
    let mut text = String::new(alloc);
    write_head(&mut text, heading_of(chart), counts, &shown.lines)?;
    write_sheets_part(
        &mut text,
        run.cards,
        around,
        cards.len(),
        &shown.lines,
        &shown.found,
        form_lines,
    )?;
    write_cards_part(alloc, &mut text, chart, run.cards, cards_shown)?;
    write_body(
        alloc,
        &mut text,
        setup,
        chart,
        run,
        cards_shown,
        &part,
        wires,
        legend,
        totals,
        &told,
        &sums,
        &places,
        &shown.found,
    )?;
    Ok(text)
}

/// The page of a chart with its plan and its setup, and a deck of at most 999,999 cards, as a file of XHTML: the chart's first heading as
/// the title, with how many cards, lines and wires there are; the pages that the machine prints, wired so, each line with a word for its
/// cycle; the cards with their holes and the chart's fields; the drawing of the panel with each wire of the setup once; the legend of the
/// chart, in a version of the language of wiring charts; for each printed character its explanation, which names the lines of the chart that
/// ask for its wires; for each figure that comes from a counter the sum behind it; for each card its cycles, the sums it went into and what
/// its fields hold, for each wire what came through it, for each cycle of the run what happened in it, and for each line which wires carried
/// an impulse at the points of its cycle. `source` is the text of the chart.
///
/// With `around` a page of the report is shown, the one before it and the one behind it, and the cards and cycles from the card before that
/// of their first line to that of their last one, at most 200 cards and 1000 cycles. Without it all is shown, but of a deck of more than 200 cards the first
/// two pages, the first 200 cards and the first 200 cycles. Where not all is shown, the page says so. Its only refusal is memory.
pub fn show_chart(
    alloc: Global,
    version: Version,
    chart: &Chart,
    plan: &Plan,
    setup: &Setup,
    source: &[u8],
    cards: &[Card],
    around: Option<u32>,
) -> Result<String, AllocError>
    requires plan { ServesChart chart.now.lines plan.now }
    requires few { length cards.now ≤ most_cards }
    ensures { IfOk result (λ text. ShowsChart version chart.now.lines plan.now setup.now source.now cards.now around (string_bytes text)) }
{
    let wires = chart_wires(alloc, chart, plan, setup)?;
    let mut legend = String::new(alloc);
    write_legend_open(&mut legend)?;
    write_legend(alloc, &mut legend, version, chart, plan, source)?;
    let asked = line_setups(alloc, chart, plan, source)?;
    let totals = totals_of(alloc, chart, plan)?;
    page(
        alloc,
        setup,
        &asked,
        &totals,
        cards,
        chart.lines(),
        &wires,
        &legend,
        around,
    )
}

// A wire that no line of a chart asks for.
fn unasked(pair: (Hub, Hub)) -> PanelWire
    ensures { result ≡ unasked pair }
{
    PanelWire {
        exit: pair.0,
        entry: pair.1,
        line: 0,
    }
}

// The wires of a panel, none of which a line of a chart asks for.
fn unasked_wires(alloc: Global, pairs: &[(Hub, Hub)]) -> Result<Vec<PanelWire>, AllocError>
    ensures { IfOk result (λ wires. wires.items ≡ map unasked pairs.now) }
{
    let mut wires = Vec::new(alloc);
    for pair in pairs {
        wires.push(unasked(*pair))?;
    }
    Ok(wires)
}

#[tactic(auto, unfolding(crate::specs::Page::wiring_text))]
// Writes the text of a wiring chart, in place of a legend.
fn write_wiring(text: &mut String, source: &[u8]) -> Result<(), AllocError>
    ensures { OnOk result (string_bytes text.new ≡ string_bytes text.old ++ wiring_text source.now) }
{
    write_wiring_open(text)?;
    push_escaped(text, source)?;
    write_wiring_close(text)
}

/// The page of a panel that is wired as a wiring chart says, and a deck of at most 999,999 cards, as [`show_chart`] gives that of a chart:
/// the title tells how many cards there are, no line of a chart asks for the wires, no fields are marked on the cards, and the wiring chart
/// stands in place of the legend. `source` is its text. Its only refusal is memory.
pub fn show_panel(
    alloc: Global,
    setup: &Setup,
    source: &[u8],
    cards: &[Card],
    around: Option<u32>,
) -> Result<String, AllocError>
    requires { length cards.now ≤ most_cards }
    ensures { IfOk result (λ text. ShowsPanel setup.now source.now cards.now around (string_bytes text)) }
{
    let pairs = setup.wires(alloc)?;
    let wires = unasked_wires(alloc, &pairs)?;
    let mut legend = String::new(alloc);
    write_wiring(&mut legend, source)?;
    page(alloc, setup, &[], &[], cards, &[], &wires, &legend, around)
}
