//! The rule on the digits of a total and of the lower totals of the same amount.

ghost use Rattle.std.specs.Prelude.{◌≡◌};
ghost use Rattle.chart_line_rules.specs.FieldRules.Shrink as rule;

use chart_lines::charts::{Line, Statement, TotalLine};

/// Whether a line is a total of the same amount as a given total, at a lower level and in more digits.
fn is_wider_below(above: TotalLine, statement: &Statement) -> bool
    ensures { result ≡ rule.is_wider_below above statement.now }
{
    match statement {
        Statement::TotalAmount(total) => {
            total.level.number() < above.level.number()
                && total.name.is(above.name)
                && above.digits < total.digits
        }
        _ => false,
    }
}

/// Whether a chart has a total of the same amount as a given total, at a lower level and in more digits.
fn has_wider_below(lines: &[Line], above: TotalLine) -> bool
    ensures { result ≡ rule.has_wider_below lines.now above }
{
    lines
        .iter()
        .any(|line| is_wider_below(above, &line.statement))
}

/// Whether a line of a chart is a total in fewer digits than a total of the same amount at a lower level.
pub fn breaks_digits_shrink(lines: &[Line], statement: &Statement) -> bool
    ensures { result ≡ rule.breaks_digits_shrink lines.now statement.now }
{
    match statement {
        Statement::TotalAmount(total) => has_wider_below(lines, *total),
        _ => false,
    }
}
