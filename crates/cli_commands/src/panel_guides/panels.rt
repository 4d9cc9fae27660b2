//! The run that a text and a deck ask for.

ghost use Rattle.std.specs.Prelude.{◌≡◌, ◌≢◌, ◌≤◌, ℕ, List, false, length, take, true, IfErr, IfOk, OnOk};
ghost use Rattle.std.specs.List.{prefix_len};
ghost use Rattle.card_code.specs.Deck.{Deck};
ghost use Rattle.cli_commands.specs.CommandsWords.Answers.{CompilesAs};
ghost use Rattle.cli_commands.specs.CommandsWords.Refusals.{RefusesReplay, RefusesRun};
ghost use Rattle.compile407.specs.Runnable.{IsRunnable};
ghost use Rattle.chart_lines.specs.TokensWords.Dividing.{is_space};
ghost use Rattle.wiring_text.specs.WiringText.{ReadsAs};
ghost use Rattle.cli_commands.specs.PanelGuides.Explained.{RefusesTexts};
ghost use Rattle.cli_commands.specs.PanelGuides.Panels.{HasPanel, is_wiring_text};

use crate::commands::check;
use card_code::{Card, read_deck};
use chart_lines::tokens::is;
use compile407::{Compiled, check_run, compile};
use fault_lines::faults::Fault;
use hubs::setups::Setup;
use std::alloc::Global;
use wire_chart::read_setup;

// How many spaces a text begins with.
fn spaces_before(text: &[u8]) -> usize
    ensures value { result ≡ prefix_len is_space text.now }
    ensures within { result ≤ length text.now }
{
    text.iter().take_while(|byte| **byte == b' ').count()
}

// The first nine bytes of a text, or all of a shorter one.
fn first_nine(text: &[u8]) -> &[u8]
    ensures { result.now ≡ take 9 text.now }
{
    if text.len() < 9 { text } else { &text[..9] }
}

/// Whether a text is taken for a wiring chart: its first line begins with the word `WIRING407`, before which spaces may stand. Any other
/// text is taken for a planning chart.
pub fn is_wiring_text(text: &[u8]) -> bool
    ensures { result ≡ is_wiring_text text.now }
{
    let (_, rest) = text.split_at(spaces_before(text));
    is(first_nine(rest), b"WIRING407")
}

/// A panel that is wired as a wiring chart says, and the cards of a deck.
pub struct WiredRun {
    /// The panel.
    pub setup: Setup,
    /// The cards.
    pub cards: Vec<Card>,
}

// By hand, so that a function that drops one calls this, and doesn't drop its parts one by one.
impl Drop for WiredRun {
    fn drop(self) {
        let WiredRun {
            setup: _setup,
            cards: _cards,
        } = self;
    }
}

/// A compiled chart, and the cards of a deck that it can be run with.
pub struct PlannedRun {
    /// The chart with its plan and its setup.
    pub compiled: Compiled,
    /// The cards.
    pub cards: Vec<Card>,
}

// By hand, so that a function that drops one calls this, and doesn't drop its parts one by one.
impl Drop for PlannedRun {
    fn drop(self) {
        let PlannedRun {
            compiled: _compiled,
            cards: _cards,
        } = self;
    }
}

/// The panel and the cards of a wiring chart and a deck.
///
/// # Errors
///
/// The fault of the wiring chart, else of the deck's text, or `Memory` where a growth was refused.
pub fn wired_run<'a>(alloc: Global, wiring: &[u8], deck: &[u8]) -> Result<WiredRun, Fault<'a>>
    ensures reads { IfOk result (λ run. ReadsAs wiring.now run.setup) }
    ensures deck { IfOk result (λ run. Deck deck.now run.cards.items) }
    ensures refused { IfErr result (λ told. told ≢ Fault.Memory → RefusesReplay wiring.now deck.now told) }
{
    let setup = read_setup(alloc, wiring)?;
    let cards = read_deck(alloc, deck)?;
    Ok(WiredRun { setup, cards })
}

/// The compiled chart and the cards of a chart and a deck with which it can be run.
///
/// # Errors
///
/// The fault of the chart, else of the deck's text, else of its cards for the chart, or `Memory` where a growth was refused.
pub fn planned_run<'a>(alloc: Global, chart: &[u8], deck: &[u8]) -> Result<PlannedRun, Fault<'a>>
    ensures compiles { IfOk result (λ run. CompilesAs chart.now run.compiled) }
    ensures deck { IfOk result (λ run. Deck deck.now run.cards.items) }
    ensures runnable { IfOk result (λ run. IsRunnable run.compiled.chart run.cards.items) }
    ensures refused { IfErr result (λ told. told ≢ Fault.Memory → RefusesRun chart.now deck.now told) }
{
    let compiled = compile(alloc, chart)?;
    let cards = read_deck(alloc, deck)?;
    check_run(&compiled, cards.as_slice())?;
    Ok(PlannedRun { compiled, cards })
}

// Whether a wiring chart reads: else its fault, whatever the deck is.
fn check_wired<'a>(alloc: Global, text: &[u8]) -> Result<(), Fault<'a>>
    requires { is_wiring_text text.now ≡ true }
    ensures good { OnOk result (HasPanel text.now) }
    ensures refused { IfErr result (λ told. told ≢ Fault.Memory → (deck : List ℕ) → RefusesTexts text.now deck told) }
{
    read_setup(alloc, text)?;
    Ok(())
}

// Whether a planning chart compiles: else its fault, whatever the deck is.
fn check_planned<'a>(alloc: Global, text: &[u8]) -> Result<(), Fault<'a>>
    requires { is_wiring_text text.now ≡ false }
    ensures good { OnOk result (HasPanel text.now) }
    ensures refused { IfErr result (λ told. told ≢ Fault.Memory → (deck : List ℕ) → RefusesTexts text.now deck told) }
{
    check(alloc, text)
}

/// Whether a text has a panel.
///
/// # Errors
///
/// The fault of the wiring chart, or of the planning chart, whatever the deck is, or `Memory` where a growth was refused.
pub fn check_panel<'a>(alloc: Global, text: &[u8]) -> Result<(), Fault<'a>>
    ensures good { OnOk result (HasPanel text.now) }
    ensures refused { IfErr result (λ told. told ≢ Fault.Memory → (deck : List ℕ) → RefusesTexts text.now deck told) }
{
    if is_wiring_text(text) {
        check_wired(alloc, text)
    } else {
        check_planned(alloc, text)
    }
}
