//! The rule on the carriage tape: the stops of a channel rise on the form, and a skip has a channel.

ghost use Rattle.std.specs.Prelude.{◌≡◌};
ghost use Rattle.chart_line_rules.specs.PrintRules.Tapes as rule;

use chart_lines::charts::{After, Line, Statement};

/// The lines of a chart's form, by its first FORM line; 0 where there is none.
pub fn form_lines(chart: &[Line]) -> u16
    ensures { result ≡ rule.form_lines chart.now }
{
    for line in chart {
        if let Statement::Form { lines, .. } = &line.statement {
            return *lines;
        }
    }
    0
}

/// Whether stops rise, the first above a given line.
fn rise_above(before: u16, stops: &[u16]) -> bool
    ensures { result ≡ rule.rise_above before stops.now }
{
    let mut last = before;
    for stop in stops {
        if *stop <= last {
            return false;
        }
        last = *stop;
    }
    true
}

/// Whether stops are lines up to a last one.
fn are_within(lines: u16, stops: &[u16]) -> bool
    ensures { result ≡ rule.are_within lines stops.now }
{
    stops.iter().all(|stop| *stop <= lines)
}

/// Whether a channel is 2 to 11, and its stops rise and are lines of a form.
pub fn is_good_tape(lines: u16, channel: u16, stops: &[u16]) -> bool
    ensures { result ≡ rule.is_good_tape lines channel stops.now }
{
    2 <= channel && channel <= 11 && rise_above(0, stops) && are_within(lines, stops)
}

/// Whether a line is TAPE of a channel.
fn is_tape_of(wanted: u16, statement: &Statement) -> bool
    ensures { result ≡ rule.is_tape_of wanted statement.now }
{
    match statement {
        Statement::Tape { channel, .. } => *channel == wanted,
        _ => false,
    }
}

/// Whether a chart has a TAPE line of a channel.
fn has_tape(chart: &[Line], channel: u16) -> bool
    ensures { result ≡ rule.has_tape chart.now channel }
{
    chart
        .iter()
        .any(|line| is_tape_of(channel, &line.statement))
}

/// Whether a line of a chart is a TAPE line with a channel or stops out of range, or a skip to a channel without a TAPE line.
pub fn breaks_tape(chart: &[Line], statement: &Statement) -> bool
    ensures { result ≡ rule.breaks_tape chart.now statement.now }
{
    match statement {
        Statement::Tape { channel, stops } => {
            !is_good_tape(form_lines(chart), *channel, stops.lines())
        }
        Statement::After {
            action: After::Skip(channel),
            ..
        } => !has_tape(chart, *channel),
        _ => false,
    }
}
