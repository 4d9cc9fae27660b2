//! The rules on the columns of a field: they are columns of the card, and an amount is not too large.

ghost use Rattle.std.specs.Prelude.{◌≡◌};
ghost use Rattle.chart_line_rules.specs.FieldRules.Columns as rule;

use chart_lines::charts::{FieldKind, Statement};

/// Whether a number is that of a column of the card.
fn is_column(column: u16) -> bool
    ensures { result ≡ rule.is_column column }
{
    1 <= column && column <= 80
}

/// Whether a sign column, if there is one, is a column of the card.
fn has_good_sign(column: Option<u16>) -> bool
    ensures { result ≡ rule.has_good_sign column }
{
    match column {
        Some(column) => is_column(column),
        None => true,
    }
}

/// Whether a line is a field whose columns are not on the card, or not in order.
pub fn breaks_columns(statement: &Statement) -> bool
    ensures { result ≡ rule.breaks_columns statement.now }
{
    match statement {
        Statement::Field(field) => {
            let good_sign = has_good_sign(field.kind.sign_column());
            !(1 <= field.first && field.first <= field.last && field.last <= 80 && good_sign)
        }
        _ => false,
    }
}

/// Whether an amount of so many digits has too many of them, or too many decimals.
fn is_too_large(kind: FieldKind, digits: u32) -> bool
    ensures { result ≡ rule.is_too_large kind digits }
{
    match kind {
        FieldKind::Amount { decimals, .. } => digits > 8
            || decimals > 3
            || u32::from(decimals) > digits,
        FieldKind::Text => false,
    }
}

/// Whether a line is an amount of more than 8 digits, or with more than 3 decimals, or with more decimals than digits.
pub fn breaks_amount_size(statement: &Statement) -> bool
    ensures { result ≡ rule.breaks_amount_size statement.now }
{
    match statement {
        Statement::Field(field) => is_too_large(field.kind, field.columns()),
        _ => false,
    }
}
