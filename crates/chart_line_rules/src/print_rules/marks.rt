//! The rule on marks and sign columns: an amount item has a mark exactly where the amount has a sign column.

ghost use Rattle.std.specs.Prelude.{◌≡◌};
ghost use Rattle.chart_line_rules.specs.PrintRules.Marks as rule;

use crate::field_rules::Fields;
use crate::print_rules::items::mark_shown;
use chart_lines::charts::{Field, FieldKind, Mark, Statement};

/// Whether a field, if there is one, is an amount that has a mark without a sign column, or the reverse.
fn is_mismatched(field: Option<Field>, mark: Option<Mark>) -> bool
    ensures { result ≡ rule.is_mismatched field mark }
{
    match field {
        Some(field) => match field.kind {
            FieldKind::Amount { sign, .. } => mark.is_some() != sign.is_some(),
            FieldKind::Text => false,
        },
        None => false,
    }
}

/// Whether a line of a chart is an amount item with a mark without a sign column, or the reverse.
pub fn breaks_mark_mismatch(fields: &Fields, statement: &Statement) -> bool
    ensures { result ≡ rule.breaks_mark_mismatch fields.now statement.now }
{
    match statement {
        Statement::DetailField { name, shown, .. } => {
            is_mismatched(fields.get(*name), mark_shown(*shown))
        }
        Statement::TotalAmount(total) => is_mismatched(fields.get(total.name), total.mark),
        _ => false,
    }
}
