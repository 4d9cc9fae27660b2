//! Replays, printed card by card.

ghost use Rattle.std.specs.Prelude.{◌≡◌, ◌⊎◌, ℕ, IfErr, OnErr, OnOk};
ghost use Rattle.card_code.specs.Deck.{IsDeckText};
ghost use Rattle.cli_commands.specs.CommandsWords.Refusals.{RefusesReplay};
ghost use Rattle.cli_commands.specs.CommandsWords.CommandEnds.{PrintsReplay};
ghost use Rattle.fault_lines.specs.ProgramIo.Fronts.{WritesFront};
ghost use Rattle.fault_lines.specs.ProgramIo.Stops.{Stops};
ghost use Rattle.fault_lines.specs.FaultsWords.Status.{status_of};
ghost use Rattle.cli_commands.specs.CommandsWords.DeckReplays.Replays.{GainsFront, GainsPages};

use crate::commands::replays::{ReplayCause, Replayed, replay};
use card_code::check_deck;
use fault_lines::faults::Fault;
use fault_lines::program_io::LentWriter;
use hubs::setups::Setup;
use std::alloc::Global;
use std::io::Write;
use wire_chart::read_setup;

// What is told where the pages could not all be written.
fn told_of<'a>(cause: ReplayCause, unwritten: Fault<'a>) -> Fault<'a>
    requires { (unwritten ≡ Fault.Memory) ⊎ (unwritten ≡ Fault.Write) }
    ensures { (result ≡ Fault.Memory) ⊎ (result ≡ Fault.Write) }
{
    match cause {
        ReplayCause::Memory => Fault::Memory,
        ReplayCause::Write => unwritten,
    }
}

// Prints the pages of a deck on a panel that is wired so, card by card.
fn print_deck<'a, W: Write>(
    alloc: Global,
    setup: &Setup,
    deck: &[u8],
    out: &mut W,
) -> Result<(), Fault<'a>>
    requires { IsDeckText deck.now }
    ensures pages { OnOk result (GainsPages setup.now deck.now (W.contents out.old) (W.contents out.new)) }
    ensures front { OnErr result ((count : ℕ) × GainsFront setup.now deck.now count (W.contents out.old) (W.contents out.new)) }
    ensures told { IfErr result (λ told. (told ≡ Fault.Memory) ⊎ (told ≡ Fault.Write)) }
{
    let Replayed { sink, written } = replay(alloc, setup, deck, LentWriter::new(out));
    let unwritten = sink.told();
    // The lent output is handed back, so that it is known what was written: that saves a caller to give it away.
    let _out = sink.into_writer();
    match written {
        Ok(()) => Ok(()),
        Err(fault) => Err(told_of(fault.cause, unwritten)),
    }
}

/// Prints the pages of a wiring chart and a deck, card by card: what the machine prints of the deck, wired so, whatever is on its cards.
///
/// # Errors
///
/// The fault of the wiring chart, else of the deck's text, and nothing is printed; `Memory` where a growth was refused and `Write` where
/// the output can't be written, and then the front of the pages may have been printed.
pub fn print_replay<'a, W: Write>(
    alloc: Global,
    wiring: &[u8],
    deck: &[u8],
    out: &mut W,
) -> Result<(), Fault<'a>>
    ensures pages { OnOk result (PrintsReplay wiring.now deck.now (W.contents out.old) (W.contents out.new)) }
    ensures refused { IfErr result (λ told. status_of told ≡ 3 → RefusesReplay wiring.now deck.now told × (out.new ≡ out.old)) }
    ensures stopped { IfErr result (λ told. (unreadable : Fault) → Stops told unreadable (out.new ≡ out.old)) }
    ensures front { (out.new ≡ out.old) ⊎ WritesFront (PrintsReplay wiring.now deck.now) (W.contents out.old) (W.contents out.new) }
{
    let setup = read_setup(alloc, wiring)?;
    check_deck(deck)?;
    print_deck(alloc, &setup, deck, out)
}
