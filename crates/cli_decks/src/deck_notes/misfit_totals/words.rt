//! What is written of totals that their lines have no room for.

ghost use Rattle.std.specs.Prelude.{◌≡◌, ◌++◌, ◌-◌, ◌≤◌, ◌^◌, OnOk, length, Some};
ghost use Rattle.card_code.specs.MostCards.{most_cards};
ghost use Rattle.chart_lines.specs.ChartsWords.Field.{decimals_of};
ghost use Rattle.chart_lines.specs.declared.charts.statement.Field.{Field};
ghost use Rattle.chart_lines.specs.declared.charts.statement.Statement.TheVariants as says;
ghost use Rattle.chart_lines.specs.declared.charts.statement.TotalLine.{TotalLine};
ghost use Rattle.chart_line_rules.specs.FieldRules.Fields.{field_named};
ghost use Rattle.cli_decks.specs.DeckNotes.MisfitTotals.Large as told;
ghost use Rattle.cli_decks.specs.DeckNotes.MisfitTotals.HelperGood.{IsGoodLine, IsGoodTotal};
ghost use Rattle.report_definition.specs.Misfits.{fits_in};

use crate::deck_notes::misfit_totals::sums::total_of;
use card_code::Card;
use chart_lines::charts::{Field, Statement, TotalLine};
use chart_numerals::write_numbered;
use chart_rules::Chart;
use cli_sheets::sheets::{write_value, write_with_decimals};
use std::io;
use std::io::Write;

#[tactic(auto, unfolding(crate::specs::DeckNotes::MisfitTotals::Large::head_words))]
// Writes of which total something is told.
fn write_head(text: &mut Vec<u8>, total: &TotalLine, number: u32) -> io::Result<()>
    ensures { OnOk result (text.new.items ≡ text.old.items ++ told.head_words total.now number) }
{
    write_numbered(text, "level ", total.level.number())?;
    text.write_all(b" name ")?;
    text.write_all(total.name.as_bytes())?;
    write_numbered(text, " card ", number)?;
    text.write_all(b": the total is ")
}

#[tactic(auto, unfolding(crate::specs::DeckNotes::MisfitTotals::Large::sum_number))]
// Writes a total with its decimals.
fn write_sum_number(text: &mut Vec<u8>, field: &Field, sum: i64) -> io::Result<()>
    requires { decimals_of field.now.kind ≤ 8 }
    ensures { OnOk result (text.new.items ≡ text.old.items ++ told.sum_number field.now sum) }
{
    write_value(text, sum, u32::from(field.kind.decimals()))
}

// The largest number of so many digits.
fn room_of(digits: u16) -> u64
    requires { digits ≤ 16 }
    ensures { result ≡ 10 ^ digits - 1 }
{
    10_u64.pow(u32::from(digits)).saturating_sub(1)
}

// Writes that its line has room.
fn write_room_head(text: &mut Vec<u8>) -> io::Result<()>
    ensures { OnOk result (text.new.items ≡ text.old.items ++ told.room_head) }
{
    text.write_all(b", and its line has room for ")
}

// Writes for how much.
fn write_room(text: &mut Vec<u8>, total: &TotalLine, field: &Field) -> io::Result<()>
    requires digits { total.now.digits ≤ 16 }
    requires decimals { decimals_of field.now.kind ≤ 8 }
    ensures { OnOk result (text.new.items ≡ text.old.items ++ told.room_number total.now field.now) }
{
    write_with_decimals(
        text,
        room_of(total.digits),
        u32::from(field.kind.decimals()),
    )?;
    text.write_all(b"\n")
}

// Writes a total that its line has no room for.
fn write_large(
    text: &mut Vec<u8>,
    total: &TotalLine,
    number: u32,
    field: &Field,
    sum: i64,
) -> io::Result<()>
    requires digits { total.now.digits ≤ 16 }
    requires decimals { decimals_of field.now.kind ≤ 8 }
    ensures { OnOk result (text.new.items ≡ text.old.items ++ told.large_words total.now number field.now sum) }
{
    write_head(text, total, number)?;
    write_sum_number(text, field, sum)?;
    write_room_head(text)?;
    write_room(text, total, field)
}

// Whether a total line has room for a total.
fn fits(digits: u16, sum: i64) -> bool
    requires { digits ≤ 16 }
    ensures { result ≡ fits_in digits sum }
{
    sum.unsigned_abs() < 10_u64.pow(u32::from(digits))
}

// Writes the total of a field over a group, if its line has no room for it.
fn write_if_large(
    text: &mut Vec<u8>,
    total: &TotalLine,
    number: u32,
    group: &[Card],
    field: &Field,
) -> io::Result<()>
    requires good { IsGoodTotal total.now field.now }
    requires few { length group.now ≤ most_cards }
    ensures { OnOk result (text.new.items ≡ text.old.items ++ told.large_of total.now number group.now (Some field.now)) }
{
    let sum = total_of(field, group);
    if fits(total.digits, sum) {
        return Ok(());
    }
    write_large(text, total, number, field, sum)
}

// Writes the total of a line of a chart over a group of a level, if it is a total of that level that it has no room for.
fn write_on(
    text: &mut Vec<u8>,
    chart: &Chart,
    level: u8,
    number: u32,
    group: &[Card],
    statement: &Statement,
) -> io::Result<()>
    requires good { IsGoodLine chart.now.lines statement.now }
    requires few { length group.now ≤ most_cards }
    ensures { OnOk result (text.new.items ≡ text.old.items ++ told.large_on chart.now.lines level number group.now statement.now) }
{
    let Statement::TotalAmount(total) = statement else {
        return Ok(());
    };
    if total.level.number() != level {
        return Ok(());
    }
    match chart.field(total.name) {
        Some(field) => write_if_large(text, total, number, group, &field),
        None => Ok(()),
    }
}

/// Writes the totals over a group of a level, which ends with the card of a number, that their lines have no room for.
pub(crate) fn write_in(
    text: &mut Vec<u8>,
    chart: &Chart,
    level: u8,
    number: u32,
    group: &[Card],
) -> io::Result<()>
    requires few { length group.now ≤ most_cards }
    ensures { OnOk result (text.new.items ≡ text.old.items ++ told.large_in chart.now.lines level number group.now) }
{
    for line in chart.lines() {
        write_on(text, chart, level, number, group, &line.statement)?;
    }
    Ok(())
}
