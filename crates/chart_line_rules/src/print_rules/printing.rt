//! The rule on what is printed: each kind of body line that a chart speaks of has items, and GROUP prints totals alone.

ghost use Rattle.std.specs.Prelude.{◌≡◌};
ghost use Rattle.chart_line_rules.specs.PrintRules.Items.{printed_line_of};
ghost use Rattle.chart_line_rules.specs.PrintRules.Printing as rule;

use crate::print_rules::items::PrintedLine;
use chart_lines::charts::{BodyLine, Line, Printing, Statement};

/// Whether a line is an item of a kind of body line.
fn is_item_of(kind: BodyLine, statement: &Statement) -> bool
    ensures { result ≡ rule.is_kind kind (printed_line_of statement.now) }
{
    match PrintedLine::of(statement) {
        Some(line) => line.is(PrintedLine::Body(kind)),
        None => false,
    }
}

/// Whether a line is an item of a total line.
fn is_total_item(statement: &Statement) -> bool
    ensures { result ≡ rule.is_total (printed_line_of statement.now) }
{
    matches!(
        PrintedLine::of(statement),
        Some(PrintedLine::Body(BodyLine::Total(_)))
    )
}

/// Whether a chart has an item of a kind of body line.
fn has_item_of(lines: &[Line], kind: BodyLine) -> bool
    ensures { result ≡ rule.has_item_of lines.now kind }
{
    lines.iter().any(|line| is_item_of(kind, &line.statement))
}

/// Whether a chart has an item of a total line.
fn has_total_item(lines: &[Line]) -> bool
    ensures { result ≡ rule.has_total_item lines.now }
{
    lines.iter().any(|line| is_total_item(&line.statement))
}

/// Whether a line is PRINT GROUP.
fn is_print_group(statement: &Statement) -> bool
    ensures { result ≡ rule.is_print_group statement.now }
{
    matches!(statement, Statement::Print(Printing::Group))
}

/// Whether a chart prints totals alone.
fn prints_group(lines: &[Line]) -> bool
    ensures { result ≡ rule.prints_group lines.now }
{
    lines.iter().any(|line| is_print_group(&line.statement))
}

/// Whether a line is a PRINT line.
fn is_print(statement: &Statement) -> bool
    ensures { result ≡ rule.is_print statement.now }
{
    matches!(statement, Statement::Print(_))
}

/// Whether a chart has a PRINT line.
fn has_print(lines: &[Line]) -> bool
    ensures { result ≡ rule.has_print lines.now }
{
    lines.iter().any(|line| is_print(&line.statement))
}

/// Whether a line of a chart does not go with what is printed: PRINT, SPACE or AFTER of a kind without items, or an item on
/// the line of a card where totals alone are printed.
pub fn breaks_print_kind(lines: &[Line], statement: &Statement) -> bool
    ensures { result ≡ rule.breaks_print_kind lines.now statement.now }
{
    match statement {
        Statement::Print(Printing::Detail) => !has_item_of(lines, BodyLine::Detail),
        Statement::Print(Printing::Group) => !has_total_item(lines),
        Statement::DetailLiteral { .. } | Statement::DetailField { .. } => prints_group(lines),
        Statement::Space { line, .. } | Statement::After { line, .. } => {
            !has_item_of(lines, *line)
        },
        _ => false,
    }
}

/// Whether a chart has no PRINT line.
pub fn lacks_print(lines: &[Line]) -> bool
    ensures { result ≡ rule.lacks_print lines.now }
{
    !has_print(lines)
}
