//! The rule on the digits of a total.

ghost use Rattle.std.specs.Prelude.{◌≡◌};
ghost use Rattle.chart_line_rules.specs.FieldRules.Digits as rule;

use crate::field_rules::fields::Fields;
use chart_lines::charts::{Field, Statement};

/// Whether a total of a field has fewer digits than the field, more than 16, or more than 15 with a sign column.
fn is_out_of_digits(field: Option<Field>, digits: u16) -> bool
    ensures { result ≡ rule.is_out_of_digits field digits }
{
    match field {
        Some(field) => {
            let has_sign = field.kind.sign_column().is_some();
            u32::from(digits) < field.columns() || digits > 16 || (has_sign && digits > 15)
        }
        None => false,
    }
}

/// Whether a line is a total in fewer digits than its field, in more than 16, or in more than 15 with a sign column.
pub fn breaks_digits_range(fields: &Fields, statement: &Statement) -> bool
    ensures { result ≡ rule.breaks_digits_range fields.now statement.now }
{
    match statement {
        Statement::TotalAmount(total) => is_out_of_digits(fields.get(total.name), total.digits),
        _ => false,
    }
}
