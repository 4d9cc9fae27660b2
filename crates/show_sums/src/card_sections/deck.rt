//! The deck.

ghost use Rattle.std.specs.Prelude.{◌≡◌, ◌<◌, ◌+◌, ◌^◌, ◌++◌, length, OnOk};
ghost use Rattle.std.specs.List.{flat_map, range_with_len};
ghost use Rattle.std.specs.String.{string_bytes};
ghost use Rattle.show_sums.specs.CardSections.Decks.{deck_open, deck_text, entry_front, entry_picture, entry_text};

use card_code::Card;
use show_drawings::drawings::card_drawing::write_shown_card;
use show_links::{write_card_name, write_card_open};
use std::alloc::AllocError;

#[tactic(auto, unfolding(crate::specs::CardSections::Decks::entry_picture))]
// The front of the picture of a card.
fn write_entry_picture(text: &mut String) -> Result<(), AllocError>
    ensures { OnOk result (string_bytes text.new ≡ string_bytes text.old ++ entry_picture) }
{
    text.push_str("<svg xmlns=\"http://www.w3.org/2000/svg\" viewBox=\"0 0 1250 440\"><title>")
}

#[tactic(auto, unfolding(crate::specs::CardSections::Decks::entry_front))]
// The link of a card, and the name of its picture.
fn write_entry_front(text: &mut String, number: usize) -> Result<(), AllocError>
    ensures { OnOk result (string_bytes text.new ≡ string_bytes text.old ++ entry_front number) }
{
    write_card_open(text, number)?;
    write_entry_picture(text)?;
    write_card_name(text, number)?;
    text.push_str("</title>")
}

#[tactic(auto, unfolding(crate::specs::CardSections::Decks::entry_text))]
// A card, by its number.
fn write_entry(text: &mut String, number: usize) -> Result<(), AllocError>
    ensures { OnOk result (string_bytes text.new ≡ string_bytes text.old ++ entry_text number) }
{
    write_entry_front(text, number)?;
    write_shown_card(text, number)?;
    text.push_str("</svg></a>\n")
}

#[tactic(auto, using(crate::proofs::CardSections::Numbers::numbers_none, crate::proofs::CardSections::Numbers::one_more))]
// So many cards, of which the first has this number.
fn write_entries(text: &mut String, first: usize, count: usize) -> Result<(), AllocError>
    requires { first + count < 2 ^ 64 }
    ensures { OnOk result (string_bytes text.new ≡ string_bytes text.old ++ flat_map entry_text (range_with_len first count)) }
{
    for passed in 0..count {
        write_entry(text, first + passed)?;
    }
    Ok(())
}

#[tactic(auto, unfolding(crate::specs::CardSections::Decks::deck_open))]
// What stands before the cards.
fn write_open(text: &mut String) -> Result<(), AllocError>
    ensures { OnOk result (string_bytes text.new ≡ string_bytes text.old ++ deck_open) }
{
    text.push_str(
        "<div class=\"deck\"><svg xmlns=\"http://www.w3.org/2000/svg\" viewBox=\"0 -70 1250 70\"><path class=\"names\" d=\"M0 0h0\"/></svg>\n",
    )
}

#[tactic(auto, unfolding(crate::specs::CardSections::Decks::deck_text))]
/// Writes cards of a deck, of which the first has the number `first`, each as a link to its element, as `card3`, and above them the names of
/// the fields.
///
/// Fails only if no memory is left; a front of the deck may then have been written.
pub fn write_deck(text: &mut String, first: usize, cards: &[Card]) -> Result<(), AllocError>
    requires { first + length cards.now < 2 ^ 64 }
    ensures { OnOk result (string_bytes text.new ≡ string_bytes text.old ++ deck_text first cards.now) }
{
    write_open(text)?;
    write_entries(text, first, cards.len())?;
    text.push_str("</div>\n")
}
