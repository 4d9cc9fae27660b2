//! The values of amounts on cards.

ghost use Rattle.std.specs.Prelude.{◌≡◌, ◌+◌, ◌-◌, ◌<◌, ◌≤◌, ◌^◌, length, unsigned_abs};
ghost use Rattle.std.specs.Option.{unwrap_or};
ghost use Rattle.card_code.specs.CardCode.{has_row};
ghost use Rattle.chart_lines.specs.ChartsWords.Field.{sign_column};
ghost use Rattle.chart_rules.specs.ValidCard.{column_of};
ghost use Rattle.report_definition.specs.Amounts.{digit_in, digits_on, is_negated, is_negative_by, number_in, value_of};
ghost use Rattle.report_misfits.specs.HelperAmounts.{IsColumn, IsGoodAmount, IsGoodSign};

use card_code::{Card, Column, Row};
use chart_lines::charts::{Field, FieldKind, SignRule};

/// The rows punched in a column of a card.
fn column_of(card: &Card, column: u16) -> Column
    requires from { 1 ≤ column }
    requires to { column ≤ 80 }
    ensures { result ≡ column_of card.now column }
{
    card.columns()[usize::from(column) - 1]
}

/// The digit of a column, if it has one: the lowest of its rows 0 to 9.
fn digit_in(column: Column) -> Option<u32>
    ensures { result ≡ digit_in column }
{
    // The lowest row has the highest place: row 0 has place 9, and row 9 place 0.
    let digits = column.set() & 0x3ff;
    if digits == 0 {
        None
    } else {
        Some(digits.leading_zeros() - 6)
    }
}

/// The digit of a column of a card, a blank one counting 0.
fn digit_at(card: &Card, column: u16) -> u32
    requires from { 1 ≤ column }
    requires to { column ≤ 80 }
    ensures value { result ≡ unwrap_or (digit_in (column_of card.now column)) 0 }
    ensures small { result < 10 }
{
    digit_in(column_of(card, column)).unwrap_or(0)
}

/// The number that the columns of an amount spell, a blank one counting 0.
fn number_on(field: &Field, card: &Card) -> u32
    requires { IsGoodAmount field.now }
    ensures value { result ≡ number_in (digits_on field.now card.now) }
    ensures small { result < 10 ^ 8 }
{
    let mut number = 0;
    for column in field.first..field.last + 1 {
        number = 10 * number + digit_at(card, column);
    }
    number
}

/// Whether a sign rule makes an amount negative on a card.
fn is_negative_by(rule: SignRule, card: &Card) -> bool
    requires { IsGoodSign rule }
    ensures { result ≡ is_negative_by rule card.now }
{
    match rule {
        SignRule::X(column) => column_of(card, column).has_row(Row::Eleven),
        SignRule::NX(column) => !column_of(card, column).has_row(Row::Eleven),
    }
}

/// Whether the digits of a field are negated on a card.
fn is_negated(kind: FieldKind, card: &Card) -> bool
    requires { IsColumn (sign_column kind) }
    ensures { result ≡ is_negated kind card.now }
{
    match kind {
        FieldKind::Amount {
            sign: Some(rule),
            ..
        } => is_negative_by(rule, card),
        _ => false,
    }
}

/// The value of an amount on a card: its digits as a whole number, a blank column counting 0, and below 0 where its sign rule says so.
/// The card need not be valid.
pub fn value_of(field: &Field, card: &Card) -> i64
    requires { IsGoodAmount field.now }
    ensures value { result ≡ value_of field.now card.now }
    ensures small { unsigned_abs result < 10 ^ 8 }
{
    let negated = is_negated(field.kind, card);
    let number = i64::from(number_on(field, card));
    if negated { -number } else { number }
}
