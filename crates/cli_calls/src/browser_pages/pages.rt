//! The page of a text and a deck.

ghost use Rattle.std.specs.Prelude.{◌≡◌, ◌≢◌, ◌≤◌, false, length, true, IfErr, IfOk};
ghost use Rattle.std.specs.String.{string_bytes};
ghost use Rattle.card_code.specs.MostCards.{most_cards};
ghost use Rattle.fault_lines.specs.declared.faults.fault.Fault.TheVariants.{Memory};
ghost use Rattle.readback_charts.specs.KnownCharts.{known_by, known_in};
ghost use Rattle.cli_commands.specs.PanelGuides.Known.{IsServed};
ghost use Rattle.cli_commands.specs.PanelGuides.Panels.{is_wiring_text};
ghost use Rattle.cli_commands.specs.declared.panel_guides.unexplained.Unexplained.TheVariants.{Failed};
ghost use Rattle.show_page.specs.Page.{ShowsPanel};
ghost use Rattle.cli_calls.specs.BrowserPages.Shown.{IsShown, IsUnshown, ShowsCompiled, ShowsKnown, ShowsReadOff, ShowsWired};

use crate::browser_pages::asked::check_asked;
use card_code::Card;
use cli_commands::panel_guides::{Unexplained, is_wiring_text, planned_run, wired_run};
use compile407::Compiled;
use fault_lines::faults::Fault;
use hubs::setups::Setup;
use readback_charts::{PanelChart, wired_chart};
use show_page::{show_chart, show_panel, show_read};
use std::alloc::Global;
use wire_chart::{version_of, version_of_text};

// The page of a panel that is wired as a wiring chart says, and of cards.
fn panel_page<'a>(
    alloc: Global,
    setup: &Setup,
    wiring: &[u8],
    cards: &[Card],
    around: Option<u32>,
) -> Result<String, Fault<'a>>
    requires { length cards.now ≤ most_cards }
    ensures shows { IfOk result (λ text. ShowsPanel setup.now wiring.now cards.now around (string_bytes text)) }
    ensures memory { IfErr result (λ told. told ≡ Fault.Memory) }
{
    Ok(show_panel(alloc, setup, wiring, cards, around)?)
}

// The page of a panel that is wired as a wiring chart says, and of cards, by a chart for which the panel is wired. The legend is in the version
// of the wiring chart.
fn read_page<'a>(
    alloc: Global,
    setup: &Setup,
    chart: &PanelChart,
    wiring: &[u8],
    cards: &[Card],
    around: Option<u32>,
) -> Result<String, Fault<'a>>
    requires few { length cards.now ≤ most_cards }
    requires served { IsServed (Some (known_by chart.now)) }
    ensures shows { IfOk result (λ text.
        ShowsReadOff setup.now (known_by chart.now) wiring.now cards.now around (string_bytes text)) }
    ensures memory { IfErr result (λ told. told ≡ Fault.Memory) }
{
    let page = show_read(
        alloc,
        version_of_text(wiring),
        chart.compiled.chart(),
        chart.plan(),
        setup,
        chart.text.as_bytes(),
        wiring,
        cards,
        around,
    )?;
    Ok(page)
}

// The page of a panel that is wired as a wiring chart says, and of cards: by the chart that was read off it, or by its wires alone if none was.
fn known_page<'a>(
    alloc: Global,
    setup: &Setup,
    read: &Option<PanelChart>,
    wiring: &[u8],
    cards: &[Card],
    around: Option<u32>,
) -> Result<String, Fault<'a>>
    requires few { length cards.now ≤ most_cards }
    requires served { IsServed (known_in read.now) }
    ensures shows { IfOk result (λ text.
        ShowsKnown setup.now (known_in read.now) wiring.now cards.now around (string_bytes text)) }
    ensures memory { IfErr result (λ told. told ≡ Fault.Memory) }
{
    match read {
        Some(chart) => read_page(alloc, setup, chart, wiring, cards, around),
        None => panel_page(alloc, setup, wiring, cards, around),
    }
}

// The page of a panel that is wired as a wiring chart says, and of cards: the chart is read off the panel once.
fn wired_page<'a>(
    alloc: Global,
    setup: &Setup,
    wiring: &[u8],
    cards: &[Card],
    around: Option<u32>,
) -> Result<String, Fault<'a>>
    requires { length cards.now ≤ most_cards }
    ensures shows { IfOk result (λ text. ShowsWired setup.now wiring.now cards.now around (string_bytes text)) }
    ensures memory { IfErr result (λ told. told ≡ Fault.Memory) }
{
    let read = wired_chart(alloc, setup)?;
    known_page(alloc, setup, &read, wiring, cards, around)
}

// The page of a compiled chart and of cards; its legend is in the version in which the wiring chart of its panel is printed.
fn chart_page<'a>(
    alloc: Global,
    compiled: &Compiled,
    chart: &[u8],
    cards: &[Card],
    around: Option<u32>,
) -> Result<String, Fault<'a>>
    requires { length cards.now ≤ most_cards }
    ensures shows { IfOk result (λ text. ShowsCompiled compiled.now chart.now cards.now around (string_bytes text)) }
    ensures memory { IfErr result (λ told. told ≡ Fault.Memory) }
{
    let page = show_chart(
        alloc,
        version_of(compiled.setup()),
        compiled.chart(),
        compiled.plan(),
        compiled.setup(),
        chart,
        cards,
        around,
    )?;
    Ok(page)
}

// The page of a wiring chart and a deck.
fn page_by_wiring<'a>(
    alloc: Global,
    wiring: &[u8],
    deck: &[u8],
    around: Option<u32>,
) -> Result<String, Unexplained<'a>>
    requires { is_wiring_text wiring.now ≡ true }
    ensures shown { IfOk result (λ page. IsShown wiring.now deck.now around (string_bytes page)) }
    ensures refused { IfErr result (λ told. told ≢ Failed Memory → IsUnshown wiring.now deck.now around told) }
{
    let wired = wired_run(alloc, wiring, deck)?;
    let cards = wired.cards.as_slice();
    check_asked(alloc, &wired.setup, cards, around)?;
    let page = wired_page(alloc, &wired.setup, wiring, cards, around)?;
    Ok(page)
}

// The page of a chart and a deck.
fn page_by_chart<'a>(
    alloc: Global,
    chart: &[u8],
    deck: &[u8],
    around: Option<u32>,
) -> Result<String, Unexplained<'a>>
    requires { is_wiring_text chart.now ≡ false }
    ensures shown { IfOk result (λ page. IsShown chart.now deck.now around (string_bytes page)) }
    ensures refused { IfErr result (λ told. told ≢ Failed Memory → IsUnshown chart.now deck.now around told) }
{
    let planned = planned_run(alloc, chart, deck)?;
    let cards = planned.cards.as_slice();
    check_asked(alloc, planned.compiled.setup(), cards, around)?;
    let page = chart_page(alloc, &planned.compiled, chart, cards, around)?;
    Ok(page)
}

/// The page for a browser of a text and a deck, a file of XHTML: of a planning chart and its report of the deck, or of a panel wired by a
/// wiring chart and its pages of the deck, as [`is_wiring_text`] tells them apart. The printed pages, the drawing of the panel, the legend
/// of the chart, for each printed character that is shown its explanation, for each wire and each of their hubs what came through it, and the
/// cycles of the run. The page of a wiring chart has its text, and the legend is that of the chart which is read off the panel; there is none
/// if the panel isn't wired for what is read. `around` is the number of a page of the report: this page is shown, and those before and behind
/// it, as `show_page` tells. Without it, of a deck of more than 200 cards the first two pages and the first 200 cycles are shown. If not all is
/// shown, the page says so.
///
/// # Errors
///
/// As `explain` refuses texts: the fault of the chart, else of the deck's text, else of its cards for the chart, or the fault of the wiring
/// chart, else of the deck's text; else `NoSuchLine` with the page of `around` and line 1 where the report ends before that page. `Memory`
/// where a growth was refused.
pub fn page_of<'a>(
    alloc: Global,
    text: &[u8],
    deck: &[u8],
    around: Option<u32>,
) -> Result<String, Unexplained<'a>>
    ensures shown { IfOk result (λ page. IsShown text.now deck.now around (string_bytes page)) }
    ensures refused { IfErr result (λ told. told ≢ Failed Memory → IsUnshown text.now deck.now around told) }
{
    if is_wiring_text(text) {
        page_by_wiring(alloc, text, deck, around)
    } else {
        page_by_chart(alloc, text, deck, around)
    }
}
