//! A deck taken from its text card by card, so that none is kept.

ghost use Rattle.std.specs.Prelude.{◌<◌, [], length, IfErr, IfNone, IfSome, OnOk};
ghost use Rattle.card_code.specs.Deck.{ComesFirst, Deck, HasDeckFault, IsDeckText};

use crate::card::Card;
use crate::deck::{DeckFault, MOST_CARDS, read_card};
use crate::lines::next_line;

/// Whether a text is a deck. It takes no memory, however long the text is.
///
/// # Errors
///
/// The fault of the text that `read_deck` tells, and never `Memory`.
pub fn check_deck(bytes: &[u8]) -> Result<(), DeckFault>
    ensures deck { OnOk result (IsDeckText bytes.now) }
    ensures fault { IfErr result (λ fault. HasDeckFault bytes.now fault) }
{
    let mut count: u32 = 0;
    let mut text = bytes;
    while let Some((line, rest)) = next_line(text) {
        if count == MOST_CARDS as u32 {
            return Err(DeckFault::TooManyCards);
        }
        read_card(count + 1, line)?;
        count += 1;
        text = rest;
    }
    Ok(())
}

/// The first card of a deck's text, and the text that has the others; `None` where the deck has no card.
///
/// The text is one that [`check_deck`] accepts, or what this call has left of one.
pub fn next_card(text: &[u8]) -> Option<(Card, &[u8])>
    requires { IsDeckText text.now }
    ensures none { IfNone result (Deck text.now []) }
    ensures first { IfSome result (λ cut. ComesFirst text.now cut.0 cut.1.now) }
    ensures shorter { IfSome result (λ cut. length cut.1.now < length text.now) }
{
    let (line, rest) = next_line(text)?;
    match read_card(1, line) {
        Ok(card) => Some((card, rest)),
        Err(_) => unreachable!(),
    }
}
