//! What is told of a deck with which nothing is wrong.

ghost use Rattle.std.specs.Prelude.{◌≡◌, ◌++◌, IfOk, OnOk, map};
ghost use Rattle.card_code.specs.CardCode.{print_character};
ghost use Rattle.cli_decks.specs.CheckCalls.DeckChecks.Fine as fine;

use card_code::Card;
use chart_numerals::write_numbered;
use page_text::without_trailing_blanks;
use std::alloc::{AllocError, Global};
use std::io;
use std::io::Write;

// The characters of a card's columns, as they print.
fn characters_of(alloc: Global, card: &Card) -> Result<Vec<u8>, AllocError>
    ensures { IfOk result (λ characters. characters.items ≡ map print_character card.now) }
{
    card.columns()
        .iter()
        .map(|column| column.print_character())
        .collect(alloc)
}

// A card, between brackets.
fn write_card(alloc: Global, text: &mut Vec<u8>, card: &Card) -> io::Result<()>
    ensures { OnOk result (text.new.items ≡ text.old.items ++ fine.card_words card.now) }
{
    let characters = characters_of(alloc, card)?;
    text.write_all(b"[")?;
    text.write_all(without_trailing_blanks(characters.as_slice()))?;
    text.write_all(b"]\n")
}

// How many cards there are, the first and the last one.
fn write_cards(
    alloc: Global,
    text: &mut Vec<u8>,
    count: u32,
    first: &Card,
    last: &Card,
) -> io::Result<()>
    ensures { OnOk result (text.new.items ≡ text.old.items ++ fine.cards_words count first.now last.now) }
{
    write_numbered(text, "cards: ", count)?;
    text.write_all(b"\nfirst: ")?;
    write_card(alloc, text, first)?;
    text.write_all(b"last: ")?;
    write_card(alloc, text, last)
}

// That nothing is wrong with a deck, how many cards it has, and the first and the last one, if there is one.
pub(crate) fn write_fine(
    alloc: Global,
    text: &mut Vec<u8>,
    count: u32,
    first: &Option<Card>,
    last: &Option<Card>,
) -> io::Result<()>
    ensures { OnOk result (text.new.items ≡ text.old.items ++ fine.fine_words count first.now last.now) }
{
    text.write_all(b"ok\n")?;
    match (first, last) {
        (Some(first), Some(last)) => write_cards(alloc, text, count, first, last),
        _ => text.write_all(b"cards: 0\n"),
    }
}
