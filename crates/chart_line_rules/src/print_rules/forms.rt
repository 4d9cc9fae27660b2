//! The rule on the form: its lines leave room for the heading lines and for the overflow.

ghost use Rattle.std.specs.Prelude.{◌≡◌, ◌≤◌};
ghost use Rattle.chart_line_rules.specs.PrintRules.Forms as rule;

use chart_lines::charts::{Line, Statement};

/// The number of the heading line that a HEAD line names, and 0 for other lines.
fn heading_of(statement: &Statement) -> u8
    ensures value { result ≡ rule.heading_of statement.now }
    ensures few { result ≤ 3 }
{
    match statement {
        Statement::Head { line, .. } => line.number(),
        _ => 0,
    }
}

/// How many heading lines a chart has: the highest that a HEAD line names, or 0.
pub fn heading_count(lines: &[Line]) -> u8
    ensures value { result ≡ rule.heading_count lines.now }
    ensures few { result ≤ 3 }
{
    let mut highest = 0;
    for line in lines {
        highest = heading_of(&line.statement).max(highest);
    }
    highest
}

/// Whether a form of so many lines, with its first line and its overflow line, has room for so many heading lines.
fn has_room(headings: u8, lines: u16, first: u16, overflow: u16) -> bool
    ensures { result ≡ rule.has_room headings lines first overflow }
{
    let last_heading = (u32::from(first) + u32::from(headings.max(1))).saturating_sub(1);
    1 <= first
        && last_heading < u32::from(overflow)
        && u32::from(overflow) + 2 <= u32::from(lines)
        && lines <= 144
}

/// Whether a line of a chart is a FORM line whose lines leave no room for the heading lines and the overflow.
pub fn breaks_form(chart: &[Line], statement: &Statement) -> bool
    ensures { result ≡ rule.breaks_form chart.now statement.now }
{
    match statement {
        Statement::Form {
            lines,
            first,
            overflow,
        } => { !has_room(heading_count(chart), *lines, *first, *overflow) }
        _ => false,
    }
}

/// Whether a line is a FORM line.
fn is_form(statement: &Statement) -> bool
    ensures { result ≡ rule.is_form statement.now }
{
    matches!(statement, Statement::Form { .. })
}

/// Whether a chart has a FORM line.
fn has_form(chart: &[Line]) -> bool
    ensures { result ≡ rule.has_form chart.now }
{
    chart.iter().any(|line| is_form(&line.statement))
}

/// Whether a chart has no FORM line.
pub fn lacks_form(chart: &[Line]) -> bool
    ensures { result ≡ rule.lacks_form chart.now }
{
    !has_form(chart)
}
