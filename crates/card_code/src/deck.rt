//! Decks of cards as text.

ghost use Rattle.std.specs.Prelude.{◌≡◌, ◌≢◌, ℕ, ◌⊎◌, List, IfErr, IfOk, IsErrOf, IsOkAnd, OnOk};
ghost use Rattle.card_code.specs.declared.deck.DeckFault.{DeckFault};
ghost use Rattle.card_code.specs.Deck.{Deck, HasDeckFault, HasLineFault, IsCardOf};
ghost use Rattle.card_code.specs.declared.deck.DeckFault.TheVariants.{CardTooLong, Memory};

use crate::card::{CARD_COLUMNS, Card};
use crate::lines::next_line;
use std::alloc::{AllocFailed, Global};
use thiserror::Error;

/// The most cards of a deck.
pub const MOST_CARDS: usize = 999_999;

/// Why a deck text is refused.
#[derive(Clone, Copy, Debug, PartialEq, Eq, Error)]
pub enum DeckFault {
    /// Line `line`, from 1, has more than 80 bytes.
    #[error("card {line} has more than 80 columns")]
    CardTooLong { line: u32 },
    /// Column `column` of line `line`, both from 1, is no deck character.
    #[error("card {line} has no deck character in column {column}")]
    NoSuchCharacter { line: u32, column: u32 },
    /// There are 1,000,000 lines or more.
    #[error("more than 999,999 cards")]
    TooManyCards,
    /// A growth was refused.
    #[error("out of memory")]
    Memory,
}

impl DeckFault {
    ghost use Rattle.std.specs.Prelude.{◌≡◌};
    ghost use Rattle.card_code.specs.Deck.{fault_number};

    /// Its number in the catalogue of faults, 1 to 3; want of memory has none.
    pub fn number(self) -> Option<u8>
        ensures { result ≡ fault_number self }
    {
        match self {
            DeckFault::CardTooLong { .. } => Some(1),
            DeckFault::NoSuchCharacter { .. } => Some(2),
            DeckFault::TooManyCards => Some(3),
            DeckFault::Memory => None,
        }
    }
}

impl<T: Drop> From<AllocFailed<T>> for DeckFault {
    ghost from_gives = { λ _ fault. fault ≡ Memory };

    fn from(_failed: AllocFailed<T>) -> DeckFault {
        DeckFault::Memory
    }
}

/// The cards of a deck text, one a line: short lines are filled with blanks, an empty line is a
/// blank card.
///
/// The first line at fault is told: `CardTooLong` before `NoSuchCharacter` in one line, and
/// `TooManyCards` at line 1,000,000 whatever it holds. `Memory` comes only where a growth was
/// refused.
pub fn read_deck(alloc: Global, bytes: &[u8]) -> Result<Vec<Card>, DeckFault>
    ensures deck { IfOk result (λ cards. Deck bytes.now cards.items) }
    ensures fault { IfErr result (λ fault. fault ≢ Memory → HasDeckFault bytes.now fault) }

    // Nothing but the deck or the fault of the text is answered, or that memory ran out.
    ensures read { (cards : List (List ℕ)) → Deck bytes.now cards →
        IsOkAnd result (λ read. read.items ≡ cards) ⊎ IsErrOf result Memory }
    ensures told { (due : DeckFault) → HasDeckFault bytes.now due → IsErrOf result due ⊎ IsErrOf result Memory }
{
    let mut cards = Vec::new(alloc);
    let mut text = bytes;
    while let Some((line, rest)) = next_line(text) {
        if cards.len() == MOST_CARDS {
            return Err(DeckFault::TooManyCards);
        }
        cards.push(read_card(cards.len() as u32 + 1, line)?)?;
        text = rest;
    }
    Ok(cards)
}

/// The law of deck texts: a text has at most one deck, and at most one fault, and not both. The call
/// does nothing.
pub fn deck_text_is_unambiguous()
    ensures deck { (bytes : List ℕ) (one other : List (List ℕ)) →
        Deck bytes one → Deck bytes other → one ≡ other }
    ensures fault { (bytes : List ℕ) (one other : DeckFault) →
        HasDeckFault bytes one → HasDeckFault bytes other → one ≡ other }
    ensures either { (bytes : List ℕ) (cards : List (List ℕ)) (fault : DeckFault) →
        Deck bytes cards → ¬ HasDeckFault bytes fault }
{}

/// The card of the line with the number `number`, from 1.
///
/// # Errors
///
/// `CardTooLong`, or else `NoSuchCharacter` for the first byte that is no deck character.
pub fn read_card(number: u32, line: &[u8]) -> Result<Card, DeckFault>
    ensures card { IfOk result (λ card. IsCardOf line.now card) }
    ensures fault { IfErr result (λ fault. HasLineFault line.now number fault) }
{
    let mut card = Card::blank();
    punch_line(number, line, &mut card)?;
    Ok(card)
}

/// Punches the line with the number `number`, from 1, into a card, in the place of what was punched in it. After `CardTooLong` the card is
/// as it was. After `NoSuchCharacter` it is some card, and nothing more is promised of it.
///
/// # Errors
///
/// As of [`read_card`].
pub fn punch_line(number: u32, line: &[u8], card: &mut Card) -> Result<(), DeckFault>
    ensures card { OnOk result (IsCardOf line.now card.new) }
    ensures fault { IfErr result (λ fault. HasLineFault line.now number fault) }
    ensures too_long { IfErr result (λ fault. fault ≡ CardTooLong number → card.new ≡ card.old) }
{
    if line.len() > CARD_COLUMNS {
        return Err(DeckFault::CardTooLong { line: number });
    }
    match card.punch(line) {
        Some(column) => Err(DeckFault::NoSuchCharacter {
            line: number,
            column,
        }),
        None => Ok(()),
    }
}
