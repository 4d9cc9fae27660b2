//! The rules on control levels: a total or an indicated field has its level controlled, and a text on a total line controls it.

ghost use Rattle.std.specs.Prelude.{◌≡◌};
ghost use Rattle.chart_line_rules.specs.FieldRules.Control as rule;

use chart_lines::charts::{ControlLevel, DetailOption, Level, Line, Name, Statement};

/// The level that a line needs to be controlled, if it needs one.
fn level_needed(statement: &Statement) -> Option<ControlLevel>
    ensures { result ≡ rule.level_needed statement.now }
{
    match statement {
        Statement::DetailField {
            shown: DetailOption::Indicated(level),
            ..
        } => Some(*level),
        Statement::TotalLiteral { level, .. } | Statement::TotalText { level, .. } => {
            level.control()
        }
        Statement::TotalAmount(total) => total.level.control(),
        _ => None,
    }
}

/// Whether a line is CONTROL of a level.
fn controls(wanted: ControlLevel, statement: &Statement) -> bool
    ensures { result ≡ rule.controls wanted statement.now }
{
    match statement {
        Statement::Control { level, .. } => *level == wanted,
        _ => false,
    }
}

/// Whether a chart has a CONTROL line of a level.
fn is_controlled(lines: &[Line], level: ControlLevel) -> bool
    ensures { result ≡ rule.is_controlled lines.now level }
{
    lines.iter().any(|line| controls(level, &line.statement))
}

/// Whether a line is TOTAL or INDICATE of a level 1 to 3 without CONTROL of that level.
pub fn breaks_no_control(lines: &[Line], statement: &Statement) -> bool
    ensures { result ≡ rule.breaks_no_control lines.now statement.now }
{
    match level_needed(statement) {
        Some(level) => !is_controlled(lines, level),
        None => false,
    }
}

/// Whether a line makes a name a control field of a level or a higher one.
fn controls_by(lowest: Level, wanted: Name, statement: &Statement) -> bool
    ensures { result ≡ rule.controls_by lowest wanted statement.now }
{
    match statement {
        Statement::Control { level, name } => {
            lowest.number() <= level.number() && name.is(wanted)
        },
        _ => false,
    }
}

/// Whether a chart makes a name a control field of a level or a higher one.
fn is_controlled_by(lines: &[Line], lowest: Level, name: Name) -> bool
    ensures { result ≡ rule.is_controlled_by lines.now lowest name }
{
    lines
        .iter()
        .any(|line| controls_by(lowest, name, &line.statement))
}

/// Whether a line is a text on a total line that is no control field of its level or a higher one.
pub fn breaks_total_text_not_control(lines: &[Line], statement: &Statement) -> bool
    ensures { result ≡ rule.breaks_total_text_not_control lines.now statement.now }
{
    match statement {
        Statement::TotalText { level, name, .. } => !is_controlled_by(lines, *level, *name),
        _ => false,
    }
}
