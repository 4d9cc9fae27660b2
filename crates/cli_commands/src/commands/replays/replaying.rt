//! A whole replay.

ghost use Rattle.std.specs.Prelude.{◌≡◌, ℕ, List, true, IfErr, MatchResult, OnOk};
ghost use Rattle.card_code.specs.Deck.{Deck, IsDeckText};
ghost use Rattle.cli_commands.specs.CommandsWords.DeckReplays.HelperStanding.{Ends, IsUnbegun, Stops};
ghost use Rattle.cli_commands.specs.CommandsWords.DeckReplays.Replays.{GainsFront, GainsPages};
ghost use Rattle.cli_commands.specs.declared.commands.replays.fault.ReplayCause.TheVariants as cause;
ghost use Rattle.hubs.specs.SetupsWords.Tapes.{IsCarriageTape};

use crate::commands::replays::fault::{ReplayCause, ReplayFault};
use crate::commands::replays::feeding::print_feed;
use card_code::next_card;
use hubs::setups::Setup;
use machine::Machine;
use report_streams::devices::Sink;
use report_writer::PageWriter;
use std::alloc::Global;

// Runs a deck to its end, but for what ends the last page.
fn print_deck<S: Sink + Drop>(
    alloc: Global,
    setup: &Setup,
    deck: &[u8],
    pages: &mut PageWriter<S>,
) -> Result<(), ReplayCause>
    requires deck { IsDeckText deck.now }
    requires form { IsCarriageTape setup.now.tape }
    requires unbegun { IsUnbegun setup.now pages.old }
    ensures run { (cards : List (List ℕ)) × Deck deck.now cards
        × MatchResult result (λ _. Ends S.held setup.now cards pages.old.out pages.new)
        (Stops S.held S.has_failed setup.now cards pages.old.out pages.new) }
    ensures same { S.borrow pages.new.out.sink ≡ S.borrow pages.old.out.sink }
{
    let mut machine = Machine::new(alloc, setup)?;
    let mut lines = Vec::new(alloc);
    let mut text = deck;
    while let Some(next) = next_card(text) {
        let (card, rest) = next;
        print_feed(&mut machine, &Some(card), &mut lines, pages)?;
        text = rest;
    }
    print_feed(&mut machine, &None, &mut lines, pages)
}

// Runs a deck to its end, and ends the last page.
fn write_deck<S: Sink + Drop>(
    alloc: Global,
    setup: &Setup,
    deck: &[u8],
    pages: &mut PageWriter<S>,
) -> Result<(), ReplayFault>
    requires deck { IsDeckText deck.now }
    requires form { IsCarriageTape setup.now.tape }
    requires unbegun { IsUnbegun setup.now pages.old }
    ensures pages { OnOk result (GainsPages setup.now deck.now (S.held pages.old.out.sink) (S.held pages.new.out.sink)) }
    ensures front { IfErr result (λ fault. GainsFront setup.now deck.now fault.written (S.held pages.old.out.sink)
        (S.held pages.new.out.sink)) }
    ensures flushed { OnOk result (S.is_flushed pages.new.out.sink ≡ true) }
    ensures failed { IfErr result (λ fault. fault.cause ≡ cause.Write → S.has_failed pages.new.out.sink ≡ true) }
    ensures same { S.borrow pages.new.out.sink ≡ S.borrow pages.old.out.sink }
{
    match print_deck(alloc, setup, deck, pages) {
        Ok(()) => match pages.end() {
            Ok(()) => Ok(()),
            Err(fault) => Err(ReplayFault {
                cause: ReplayCause::Write,
                written: fault.written,
            }),
        },
        Err(cause) => {
            let written = pages.written();
            Err(ReplayFault { cause, written })
        }
    }
}

/// What is left of a replay.
#[derive(Drop)]
pub struct Replayed<S: Sink + Drop> {
    /// The sink.
    pub sink: S,
    /// Whether all pages were written and flushed.
    pub written: Result<(), ReplayFault>,
}

/// Runs the deck of a text through the machine of a setup, and writes the pages of its lines to a sink in blocks of 64 KB. The lines of
/// each card are taken up before the next one is taken from the text, so that no card is kept. Any setup and any deck will do: the text is
/// one that `check_deck` accepts. Hands the sink back, even if it has failed.
///
/// The fault is `Memory` if a growth is refused and `Write` if the sink fails. Either way the sink has gained the front of the
/// pages, as many bytes as the fault tells.
pub fn replay<S: Sink + Drop>(alloc: Global, setup: &Setup, deck: &[u8], sink: S) -> Replayed<S>
    requires { IsDeckText deck.now }
    ensures pages { OnOk result.written (GainsPages setup.now deck.now (S.held sink) (S.held result.sink)) }
    ensures front { IfErr result.written (λ fault. GainsFront setup.now deck.now fault.written (S.held sink) (S.held result.sink)) }
    ensures flushed { OnOk result.written (S.is_flushed result.sink ≡ true) }
    ensures failed { IfErr result.written (λ fault. fault.cause ≡ cause.Write → S.has_failed result.sink ≡ true) }
    ensures same { S.borrow result.sink ≡ S.borrow sink }
{
    // What is known of every setup is told with it: that saves a check of its form.
    let _form = setup.known();
    let mut pages = PageWriter::new(sink, u32::from(setup.tape().lines()));
    let written = write_deck(alloc, setup, deck, &mut pages);
    Replayed {
        sink: pages.into_sink(),
        written,
    }
}
