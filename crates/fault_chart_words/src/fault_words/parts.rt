//! What stands where on a line of a chart.

ghost use Rattle.std.specs.Prelude.{◌≡◌, ◌≤◌, length};
ghost use Rattle.fault_chart_words.specs.FaultWords.Parts as law;

use chart_line_rules::print_rules::form_lines;
use chart_lines::charts::{After, BodyLine, Field, Line, Name, Statement};
use chart_rules::Rule;

/// The name that a line describes or uses, if it has one.
pub(crate) fn name_on(statement: &Statement) -> Option<Name>
    ensures { result ≡ law.name_on statement.now }
{
    match statement {
        Statement::Field(field) => Some(field.name),
        Statement::Control { name, .. }
        | Statement::DetailField { name, .. }
        | Statement::TotalText { name, .. } => Some(*name),
        Statement::TotalAmount(total) => Some(total.name),
        _ => None,
    }
}

/// Where that name stands.
fn name_place(statement: &Statement) -> usize
    ensures { result ≡ law.name_place statement.now }
{
    match statement {
        Statement::Field(_) => 1,
        Statement::Control { .. } | Statement::DetailField { .. } => 2,
        Statement::TotalText { .. } | Statement::TotalAmount(_) => 3,
        _ => 0,
    }
}

/// Where the wheel of an item stands.
fn wheel_place(statement: &Statement) -> usize
    ensures { result ≡ law.wheel_place statement.now }
{
    match statement {
        Statement::DetailLiteral { .. } | Statement::DetailField { .. } => 1,
        _ => 2,
    }
}

/// Where the level of an INDICATE or a TOTAL stands.
fn level_place(statement: &Statement) -> usize
    ensures { result ≡ law.level_place statement.now }
{
    match statement {
        Statement::DetailField { .. } => 4,
        _ => 1,
    }
}

/// Where the column of a field stands that is not on the card.
fn field_column_place(field: Field) -> usize
    ensures { result ≡ law.field_column_place field }
{
    if !(1 <= field.first && field.first <= 80) {
        3
    } else if !(field.first <= field.last && field.last <= 80) {
        4
    } else {
        7
    }
}

/// The same of a line.
fn column_place(statement: &Statement) -> usize
    ensures { result ≡ law.column_place statement.now }
{
    match statement {
        Statement::Field(field) => field_column_place(*field),
        _ => 0,
    }
}

/// Where it stands that an amount is too large.
fn size_place(statement: &Statement) -> usize
    ensures { result ≡ law.size_place statement.now }
{
    match statement {
        Statement::Field(field) if field.columns() > 8 => 4,
        Statement::Field(_) => 5,
        _ => 0,
    }
}

/// Where the number of a FORM stands that leaves no room.
fn form_place(statement: &Statement) -> usize
    ensures { result ≡ law.form_place statement.now }
{
    match statement {
        Statement::Form { first, .. } if *first < 1 => 2,
        Statement::Form { lines, .. } if *lines > 144 => 1,
        _ => 3,
    }
}

/// Whether a channel can have stops.
pub(crate) fn has_stops(channel: u16) -> bool
    ensures { result ≡ law.has_stops channel }
{
    2 <= channel && channel <= 11
}

/// Where the channel of a SKIP stands.
fn skip_place(line: BodyLine) -> usize
    ensures { result ≡ law.skip_place line }
{
    match line {
        BodyLine::Detail => 3,
        BodyLine::Total(_) => 4,
    }
}

/// How many stops of a TAPE line stand before its first wrong one: each of them is above the one before it, and a line of the form.
#[tactic(auto, unfolding(crate::specs::FaultWords::Parts::good_stops))]
fn good_stops(lines: u16, before: u16, stops: &[u16]) -> usize
    ensures value { result ≡ law.good_stops lines before stops.now }
    ensures within { result ≤ length stops.now }
{
    match stops {
        [] => 0,
        [stop, others @ ..] => {
            if before < *stop && *stop <= lines {
                1 + good_stops(lines, *stop, others)
            } else {
                0
            }
        }
    }
}

/// Where the word of a TAPE line stands that is wrong: its channel, or its first wrong stop.
fn tape_place(lines: u16, channel: u16, stops: &[u16]) -> usize
    ensures { result ≡ law.tape_place lines channel stops.now }
{
    if has_stops(channel) {
        2 + good_stops(lines, 0, stops)
    } else {
        1
    }
}

/// Where the channel of a SKIP stands, or the wrong word of a TAPE line.
fn channel_place(chart: &[Line], statement: &Statement) -> usize
    ensures { result ≡ law.channel_place chart.now statement.now }
{
    match statement {
        Statement::After {
            line,
            action: After::Skip(_),
        } => skip_place(*line),
        Statement::Tape { channel, stops } => {
            tape_place(form_lines(chart), *channel, stops.lines())
        }
        _ => 1,
    }
}

/// Where a total is marked that needs COUPLED, or has it and doesn't need it.
pub(crate) fn coupled_place(needs_two: bool) -> usize
    ensures { result ≡ law.coupled_place needs_two }
{
    if needs_two { 4 } else { 5 }
}

/// The place of the word that is marked where a line of a chart breaks a rule.
pub(crate) fn marked_place(rule: Rule, chart: &[Line], statement: &Statement) -> usize
    ensures { result ≡ law.marked_place rule chart.now statement.now }
{
    match rule {
        Rule::NameTwice
        | Rule::UnknownName
        | Rule::WrongKind
        | Rule::LineTwice
        | Rule::TotalTextNotControl
        | Rule::MarkMismatch => name_place(statement),
        Rule::Columns => column_place(statement),
        Rule::AmountSize => size_place(statement),
        Rule::NoControl => level_place(statement),
        Rule::DigitsRange | Rule::DigitsShrink | Rule::CoupledMark => 4,
        Rule::WheelRange | Rule::WheelOverlap | Rule::WheelClash => wheel_place(statement),
        Rule::PrintKind => 0,
        Rule::Form => form_place(statement),
        Rule::Tape => channel_place(chart, statement),
    }
}
