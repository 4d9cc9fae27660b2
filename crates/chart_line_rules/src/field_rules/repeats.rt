//! The rule on lines that say a thing once.

ghost use Rattle.std.specs.Prelude.{◌≡◌};
ghost use Rattle.chart_line_rules.specs.FieldRules.Repeats as rule;

use chart_lines::charts::{BodyLine, Level, Line, Name, Statement};

/// Whether two kinds of body line are the same.
fn is_same_body(one: BodyLine, other: BodyLine) -> bool
    ensures { result ≡ rule.is_same_body one other }
{
    one == other
}

/// The level and the name of a field on a total line, as a text or as an amount.
fn total_field(statement: &Statement) -> Option<(Level, Name)>
    ensures { result ≡ rule.total_field statement.now }
{
    match statement {
        Statement::TotalText { level, name, .. } => Some((*level, *name)),
        Statement::TotalAmount(total) => Some((total.level, total.name)),
        _ => None,
    }
}

/// Whether two lines have a field of the same name on the total line of the same level.
fn is_same_total(one: Option<(Level, Name)>, other: Option<(Level, Name)>) -> bool
    ensures { result ≡ rule.is_same_total one other }
{
    match (one, other) {
        (Some((one_level, one_name)), Some((level, name))) => {
            one_level == level && one_name.is(name)
        }
        _ => false,
    }
}

/// Whether a line says again what another said, where a chart says it once.
fn repeats(one: &Statement, other: &Statement) -> bool
    ensures { result ≡ rule.repeats one.now other.now }
{
    match (one, other) {
        (Statement::Print(_), Statement::Print(_)) => true,
        (Statement::Form { .. }, Statement::Form { .. }) => true,
        (
            Statement::Control {
                level: one_level,
                name: one_name,
            },
            Statement::Control { level, name },
        ) => one_level == level && one_name.is(*name),
        (Statement::Space { line: one_line, .. }, Statement::Space { line, .. }) => {
            is_same_body(*one_line, *line)
        }
        (Statement::After { line: one_line, .. }, Statement::After { line, .. }) => {
            is_same_body(*one_line, *line)
        }
        (
            Statement::Tape {
                channel: one_channel,
                ..
            },
            Statement::Tape { channel, .. },
        ) => one_channel == channel,
        (Statement::DetailField { name: one_name, .. }, Statement::DetailField { name, .. }) =>
            one_name.is(*name),
        _ => is_same_total(total_field(one), total_field(other)),
    }
}

/// Whether a line says again what an earlier one said, where a chart says it once.
pub fn breaks_line_twice(earlier: &[Line], statement: &Statement) -> bool
    ensures { result ≡ rule.breaks_line_twice earlier.now statement.now }
{
    earlier
        .iter()
        .any(|line| repeats(&line.statement, statement))
}
