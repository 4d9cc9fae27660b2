//! What is written of the keys that come back.

ghost use Rattle.std.specs.Prelude.{◌≡◌, ◌++◌, OnOk};
ghost use Rattle.std.specs.List.{flat_map};
ghost use Rattle.chart_lines.specs.ChartsWords.Levels.{control_number};
ghost use Rattle.chart_rules.specs.Controls.{controls_of};
ghost use Rattle.chart_rules.specs.HelperOnCard.{IsOnCard};
ghost use Rattle.cli_decks.specs.DeckNotes.KeyReturns.Words as told;

use crate::deck_notes::key_returns::returns::Return;
use card_code::Card;
use chart_lines::charts::{ControlLevel, Field};
use chart_numerals::write_numbered;
use chart_rules::Chart;
use cli_sheets::sheets::write_text;
use std::io;
use std::io::Write;

// The name of a field, and the characters in its columns.
fn write_field(text: &mut Vec<u8>, card: &Card, field: &Field) -> io::Result<()>
    requires { IsOnCard field.now }
    ensures { OnOk result (text.new.items ≡ text.old.items ++ told.field_words card.now field.now) }
{
    text.write_all(b" ")?;
    text.write_all(field.name.as_bytes())?;
    text.write_all(b" [")?;
    write_text(text, card, field)?;
    text.write_all(b"]")
}

// The control fields of a level on a card.
fn write_level(
    text: &mut Vec<u8>,
    chart: &Chart,
    level: ControlLevel,
    card: &Card,
) -> io::Result<()>
    ensures { OnOk result (text.new.items ≡ text.old.items ++ told.level_words chart.now.lines (control_number level) card.now) }
{
    for field in chart.control_fields(level) {
        write_field(text, card, field)?;
    }
    Ok(())
}

// The control fields of a level and of the levels above it on a card, the highest level first.
fn write_key(text: &mut Vec<u8>, chart: &Chart, level: u8, card: &Card) -> io::Result<()>
    ensures { OnOk result (text.new.items ≡ text.old.items ++ told.key_words chart.now.lines level card.now) }
{
    write_level(text, chart, ControlLevel::Major, card)?;
    if level <= 2 {
        write_level(text, chart, ControlLevel::Intermediate, card)?;
    }
    if level <= 1 {
        write_level(text, chart, ControlLevel::Minor, card)?;
    }
    Ok(())
}

// The key that comes back with the card of a number.
fn write_key_at(text: &mut Vec<u8>, chart: &Chart, cards: &[Card], each: &Return) -> io::Result<()>
    ensures { OnOk result (text.new.items ≡ text.old.items ++ told.key_at chart.now.lines cards.now each.now) }
{
    match cards.get(each.again.saturating_sub(1) as usize) {
        Some(card) => write_key(text, chart, each.level, card),
        None => Ok(()),
    }
}

// A key that comes back.
fn write_return(text: &mut Vec<u8>, chart: &Chart, cards: &[Card], each: &Return) -> io::Result<()>
    ensures { OnOk result (text.new.items ≡ text.old.items ++ told.return_words chart.now.lines cards.now each.now) }
{
    write_numbered(text, "level ", each.level)?;
    write_numbered(text, " card ", each.again)?;
    write_numbered(text, " has the key of card ", each.first)?;
    text.write_all(b":")?;
    write_key_at(text, chart, cards, each)?;
    text.write_all(b"\n")
}

#[tactic(auto, unfolding(crate::specs::DeckNotes::KeyReturns::Words::count_words))]
// How often keys come back.
fn write_count(text: &mut Vec<u8>, count: usize) -> io::Result<()>
    ensures { OnOk result (text.new.items ≡ text.old.items ++ told.count_words count) }
{
    write_numbered(text, "times a key comes back: ", count)?;
    text.write_all(b"\n")
}

// Some keys that come back.
fn write_lines(text: &mut Vec<u8>, chart: &Chart, cards: &[Card], list: &[Return]) -> io::Result<()>
    ensures { OnOk result (text.new.items ≡ text.old.items ++ flat_map (told.return_words chart.now.lines cards.now) list.now) }
{
    for each in list {
        write_return(text, chart, cards, each)?;
    }
    Ok(())
}

/// Writes behind a text how often keys come back in a deck, and a line for each time: the level of the key, the card with which it comes back,
/// the first card with it, and what the control fields of the level and of the levels above it read, the highest level first.
///
/// # Errors
///
/// `OutOfMemory` alone. The text may then have gained a part of this.
pub fn write_returns(
    text: &mut Vec<u8>,
    chart: &Chart,
    cards: &[Card],
    list: &[Return],
) -> io::Result<()>
    ensures { OnOk result (text.new.items ≡ text.old.items ++ told.returns_words chart.now.lines cards.now list.now) }
{
    write_count(text, list.len())?;
    write_lines(text, chart, cards, list)
}
