//! How large the totals of a deck are that their lines have no room for.

ghost use Rattle.std.specs.Prelude.{◌≡◌, ◌⊎◌, ℕ, true, false, All, IfErr, IfOk, IfNone, IfSome, List, OnOk};
ghost use Rattle.card_code.specs.Deck.{Deck};
ghost use Rattle.chart_rules.specs.ValidCard.{IsValidCard};
ghost use Rattle.cli_decks.specs.CheckCalls.Large.{TellsLarge, WritesLarge};

use crate::deck_notes::misfit_totals::write_large_totals;
use card_code::{Card, DeckFault, read_deck};
use chart_rules::{Chart, valid_card};
use fault_lines::faults::{Fault, unprinted};
use fault_lines::program_io::put;
use std::alloc::Global;
use std::io::Write;

// Whether all cards are valid for a chart.
fn are_valid(chart: &Chart, cards: &[Card]) -> bool
    ensures valid { result ≡ true → All (IsValidCard chart.now) cards.now }
    ensures bad { result ≡ false → ¬ All (IsValidCard chart.now) cards.now }
{
    for card in cards {
        if valid_card(chart, card).is_err() {
            return false;
        }
    }
    true
}

// The cards of a deck, if its text is one.
fn cards_of<'a>(alloc: Global, deck: &[u8]) -> Result<Option<Vec<Card>>, Fault<'a>>
    ensures cards { IfOk result (λ found. IfSome found (λ cards. Deck deck.now cards.items)) }
    ensures only { IfOk result (λ found. (cards : List (List ℕ)) → Deck deck.now cards → IfSome found (λ read. read.items ≡ cards)) }
    ensures none { IfOk result (λ found. IfNone found ((cards : List (List ℕ)) → ¬ Deck deck.now cards)) }
    ensures told { IfErr result (λ told. told ≡ Fault.Memory) }
{
    match read_deck(alloc, deck) {
        Ok(cards) => Ok(Some(cards)),
        Err(DeckFault::Memory) => Err(Fault::Memory),
        Err(_) => Ok(None),
    }
}

// What is told of the large totals of a deck: nothing of one with bad cards.
fn large_text<'a>(alloc: Global, chart: &Chart, deck: &[u8]) -> Result<Vec<u8>, Fault<'a>>
    ensures tells { IfOk result (λ text. TellsLarge chart.now deck.now text.items) }
    ensures told { IfErr result (λ told. (told ≡ Fault.Memory) ⊎ (told ≡ Fault.Write)) }
{
    let mut text = Vec::new(alloc);
    let Some(cards) = cards_of(alloc, deck)? else {
        return Ok(text);
    };
    if !are_valid(chart, cards.as_slice()) {
        return Ok(text);
    }
    match write_large_totals(alloc, &mut text, chart, cards.as_slice()) {
        Ok(()) => Ok(text),
        Err(error) => Err(unprinted(&error)),
    }
}

// Writes a line for each total of a deck that its line has no room for, with the total and for how much there is room; nothing of a deck with
// cards that the chart can't be run with.
pub(crate) fn put_large<'a, W: Write>(
    alloc: Global,
    chart: &Chart,
    deck: &[u8],
    out: &mut W,
) -> Result<(), Fault<'a>>
    ensures written { OnOk result (WritesLarge chart.now deck.now (W.contents out.old) (W.contents out.new)) }
    ensures told { IfErr result (λ told. (told ≡ Fault.Memory) ⊎ (told ≡ Fault.Write)) }
{
    let text = large_text(alloc, chart, deck)?;
    put(out, text.as_slice())
}
