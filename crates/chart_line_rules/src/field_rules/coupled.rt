//! The rule on the word COUPLED of a total.

ghost use Rattle.std.specs.Prelude.{◌≡◌};
ghost use Rattle.chart_line_rules.specs.FieldRules.Coupled as rule;

use crate::field_rules::fields::Fields;
use chart_lines::charts::{Field, Line, Statement, Version};

/// How many positions the widest counter group has.
const WIDEST: u32 = 8;

/// Whether a field is there and has a sign rule.
fn has_sign(field: Option<Field>) -> bool
    ensures { result ≡ rule.has_sign field }
{
    match field {
        Some(field) => field.kind.sign_column().is_some(),
        None => false,
    }
}

/// How many positions a total of a field needs.
fn positions_of(field: Option<Field>, digits: u16) -> u32
    ensures { result ≡ rule.positions_of field digits }
{
    u32::from(digits) + u32::from(has_sign(field))
}

/// Whether a line is a total that takes two counter groups.
fn takes_two(fields: &Fields, statement: &Statement) -> bool
    ensures { result ≡ rule.takes_two fields.now statement.now }
{
    match statement {
        Statement::TotalAmount(total) => {
            positions_of(fields.get(total.name), total.digits) > WIDEST
        }
        _ => false,
    }
}

/// Whether a number is that of a line with the word COUPLED.
fn is_coupled(coupled: &[u16], number: u16) -> bool
    ensures { result ≡ rule.is_coupled coupled.now number }
{
    coupled.iter().any(|each| *each == number)
}

/// Whether a line is a total of an amount.
fn is_total(statement: &Statement) -> bool
    ensures { result ≡ rule.is_total statement.now }
{
    matches!(statement, Statement::TotalAmount(_))
}

/// Whether a line is a total with the word COUPLED that needs 8 positions or fewer, or one without it that needs more, in a
/// chart of version 2. The word stands on the totals with the numbers of `coupled`; of other lines these tell nothing.
pub fn breaks_coupled_mark(fields: &Fields, version: Version, coupled: &[u16], line: &Line) -> bool
    ensures { result ≡ rule.breaks_coupled_mark fields.now version coupled.now line.now }
{
    match version {
        Version::First => false,
        Version::Second => {
            let two = takes_two(fields, &line.statement);
            let is_mismarked = if is_coupled(coupled, line.number) {
                !two
            } else {
                two
            };
            is_total(&line.statement) && is_mismarked
        }
    }
}
