//! Cards that are too long.

ghost use Rattle.std.specs.Prelude.{OnOk, take};
ghost use Rattle.std.specs.Io.KnownBytes.{Appends};
ghost use Rattle.card_code.specs.Lines.{lines_of};
ghost use Rattle.card_code.specs.MostCards.{most_cards};
ghost use Rattle.cli_decks.specs.FoldingWords.FoldCalls.LongCards.{long_cards};

use card_code::{CARD_COLUMNS, MOST_CARDS, next_line};
use fault_lines::faults::{Fault, write_line};
use std::io;
use std::io::Write;

/// The number of the fault of a card that has too many columns.
const TOO_LONG: u8 = 1;

/// Writes the fault of each card of a deck that has more than 80 columns, a line for each. Of a deck of more than 999,999 cards it sees the
/// first 999,999.
///
/// # Errors
///
/// If the writer fails. It may then have taken a part of the lines.
pub fn write_long_cards<V: Write>(deck: &[u8], out: &mut V) -> io::Result<()>
    ensures { OnOk result (Appends (V.contents out.old) (V.contents out.new) (long_cards 1 (take most_cards (lines_of deck.now)))) }
{
    let mut rest = deck;
    for card in 1..=MOST_CARDS as u32 {
        let Some((line, after)) = next_line(rest) else {
            break;
        };
        if line.len() > CARD_COLUMNS {
            write_line(
                &Fault::Card {
                    number: TOO_LONG,
                    card,
                },
                out,
            )?;
        }
        rest = after;
    }
    Ok(())
}
