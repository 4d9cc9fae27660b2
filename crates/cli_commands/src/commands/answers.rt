//! What each command answers, from the bytes of its texts.

ghost use Rattle.std.specs.Prelude.{◌≡◌, ◌≢◌, ℕ, List, IfOk, IfErr, OnOk, string_bytes};
ghost use Rattle.wire_chart.specs.WrittenText.{IsWritten, IsWrittenIn};
ghost use Rattle.wiring_text.specs.WiringText.{ReadsAs};
ghost use Rattle.wiring_text.specs.declared.statement.Version.TheVariants.{Second};
ghost use Rattle.cli_commands.specs.CommandsWords.Answers.{ArePagesOf, ArePagesOn, AreReplayedPages, Compiles, CompilesAs, IsUpgradeOf, IsWiringChartOf, PrintAlike};
ghost use Rattle.cli_commands.specs.CommandsWords.Refusals.{RefusesChart, RefusesReplay, RefusesRun};
ghost use Rattle.fault_lines.specs.ProgramIo.Refusals.{RefusesDeck, RefusesWiring};

use card_code::read_deck;
use compile407::{Compiled, compile, run};
use fault_lines::faults::Fault;
use hubs::setups::Setup;
use machine::simulate;
use page_text::page_bytes;
use std::alloc::Global;
use wire_chart::{read_setup, write_setup, write_setup_2};

// A planning chart with the setup that is wired for it.
pub(crate) fn compilation<'a>(alloc: Global, chart: &[u8]) -> Result<Compiled, Fault<'a>>
    ensures compiles { IfOk result (λ compiled. CompilesAs chart.now compiled) }
    ensures refused { IfErr result (λ told. told ≢ Fault.Memory → RefusesChart chart.now told) }
{
    Ok(compile(alloc, chart)?)
}

/// Whether a planning chart compiles.
///
/// # Errors
///
/// The fault of the chart, or `Memory` where a growth was refused.
pub fn check<'a>(alloc: Global, chart: &[u8]) -> Result<(), Fault<'a>>
    ensures compiles { OnOk result (Compiles chart.now) }
    ensures refused { IfErr result (λ told. told ≢ Fault.Memory → RefusesChart chart.now told) }
{
    compilation(alloc, chart)?;
    Ok(())
}

// The wiring chart of a setup.
fn written<'a>(alloc: Global, setup: &Setup) -> Result<String, Fault<'a>>
    ensures written { IfOk result (λ text. IsWritten setup.now (string_bytes text)) }
    ensures memory { IfErr result (λ told. told ≡ Fault.Memory) }
{
    Ok(write_setup(alloc, setup)?)
}

/// The wiring chart of a planning chart.
///
/// # Errors
///
/// The fault of the chart, or `Memory` where a growth was refused.
pub fn wiring_chart<'a>(alloc: Global, chart: &[u8]) -> Result<String, Fault<'a>>
    ensures written { IfOk result (λ text. IsWiringChartOf chart.now (string_bytes text)) }
    ensures refused { IfErr result (λ told. told ≢ Fault.Memory → RefusesChart chart.now told) }
{
    let compiled = compilation(alloc, chart)?;
    written(alloc, compiled.setup())
}

// The report of a deck for a compiled chart, whatever text compiles to it.
fn reported<'a>(alloc: Global, compiled: &Compiled, deck: &[u8]) -> Result<Vec<u8>, Fault<'a>>
    ensures pages { IfOk result (λ pages. (text : List ℕ) → CompilesAs text compiled.now
        → ArePagesOf text deck.now pages.items) }
    ensures refused { IfErr result (λ told. told ≢ Fault.Memory → (text : List ℕ) → CompilesAs text compiled.now
        → RefusesRun text deck.now told) }
{
    let cards = read_deck(alloc, deck)?;
    Ok(run(alloc, compiled, cards.as_slice())?)
}

/// The pages of a planning chart and a deck.
///
/// # Errors
///
/// The fault of the chart, else of the deck's text, else of its cards for this chart, or `Memory` where a growth was refused.
pub fn pages<'a>(alloc: Global, chart: &[u8], deck: &[u8]) -> Result<Vec<u8>, Fault<'a>>
    ensures pages { IfOk result (λ pages. ArePagesOf chart.now deck.now pages.items) }
    ensures refused { IfErr result (λ told. told ≢ Fault.Memory → RefusesRun chart.now deck.now told) }
{
    let compiled = compilation(alloc, chart)?;
    reported(alloc, &compiled, deck)
}

// The pages that the machine prints of a deck, wired as this setup.
fn printed<'a>(alloc: Global, setup: &Setup, deck: &[u8]) -> Result<Vec<u8>, Fault<'a>>
    ensures pages { IfOk result (λ pages. ArePagesOn setup.now deck.now pages.items) }
    ensures refused { IfErr result (λ told. told ≢ Fault.Memory → RefusesDeck deck.now told) }
{
    let cards = read_deck(alloc, deck)?;
    let lines = simulate(alloc, setup, cards.as_slice())?;
    let long = setup.tape().lines();
    Ok(page_bytes(alloc, lines.as_slice(), u32::from(long))?)
}

/// The pages of a wiring chart and a deck: what the machine prints of the deck, wired so, whatever is on its cards.
///
/// # Errors
///
/// The fault of the wiring chart, else of the deck's text, or `Memory` where a growth was refused.
pub fn replayed<'a>(alloc: Global, wiring: &[u8], deck: &[u8]) -> Result<Vec<u8>, Fault<'a>>
    ensures pages { IfOk result (λ pages. AreReplayedPages wiring.now deck.now pages.items) }
    ensures refused { IfErr result (λ told. told ≢ Fault.Memory → RefusesReplay wiring.now deck.now told) }
{
    let setup = read_setup(alloc, wiring)?;
    printed(alloc, &setup, deck)
}

// The wiring chart of a setup in version 2.
fn rewritten<'a>(alloc: Global, setup: &Setup) -> Result<String, Fault<'a>>
    ensures written { IfOk result (λ text. IsWrittenIn Second setup.now (string_bytes text)) }
    ensures reads_back { IfOk result (λ text. ReadsAs (string_bytes text) setup.now) }
    ensures memory { IfErr result (λ told. told ≡ Fault.Memory) }
{
    Ok(write_setup_2(alloc, setup)?)
}

/// A wiring chart of either version in version 2: the text of the setup that it reads as. It prints the same pages, for every deck.
///
/// # Errors
///
/// The fault of the wiring chart, or `Memory` where a growth was refused.
pub fn upgraded<'a>(alloc: Global, wiring: &[u8]) -> Result<String, Fault<'a>>
    ensures upgraded { IfOk result (λ text. IsUpgradeOf wiring.now (string_bytes text)) }
    ensures same_pages { IfOk result (λ text. PrintAlike wiring.now (string_bytes text)) }
    ensures refused { IfErr result (λ told. told ≢ Fault.Memory → RefusesWiring wiring.now told) }
{
    let setup = read_setup(alloc, wiring)?;
    rewritten(alloc, &setup)
}
