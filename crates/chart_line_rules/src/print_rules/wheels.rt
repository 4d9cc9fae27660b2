//! The rules on the print wheels of the items: they are wheels of the machine, and only items that agree share them.

ghost use Rattle.std.specs.Prelude.{◌≡◌, ◌↔◌, ℕ, IsTrue};
ghost use Rattle.chart_line_rules.specs.PrintRules.Wheels as rule;

use crate::field_rules::Fields;
use crate::print_rules::items::{Figure, Item, PrintedLine, item_among};
use chart_lines::charts::{Line, Mark, Statement};

/// Whether a line of a chart is an item that is not within wheels 1 to 120.
pub fn breaks_wheel_range(fields: &Fields, statement: &Statement) -> bool
    ensures { result ≡ rule.breaks_wheel_range fields.now statement.now }
{
    match item_among(fields, statement) {
        Some(item) => !(1 <= item.first && item.end <= 121),
        None => false,
    }
}

/// Whether two items have a wheel in common.
fn meet(one: Item, other: Item) -> bool
    ensures value { result ≡ rule.meet one other }
    ensures common { IsTrue result ↔ ((wheel : ℕ) × rule.HasWheel one wheel × rule.HasWheel other wheel) }
{
    one.first.max(other.first) < one.end.min(other.end)
}

/// Whether two lines of a chart are items of the same printed line that meet.
fn overlap(one: Option<Item>, other: Option<Item>) -> bool
    ensures { result ≡ rule.overlap one other }
{
    match (one, other) {
        (Some(one), Some(other)) => one.line.is(other.line) && meet(one, other),
        _ => false,
    }
}

/// Whether a line of a chart is an item that meets an earlier one of the same printed line.
pub fn breaks_wheel_overlap(fields: &Fields, earlier: &[Line], statement: &Statement) -> bool
    ensures { result ≡ rule.breaks_wheel_overlap fields.now earlier.now statement.now }
{
    let item = item_among(fields, statement);
    earlier
        .iter()
        .any(|line| overlap(item_among(fields, &line.statement), item))
}

/// Whether a printed line is a body line.
fn is_body(line: PrintedLine) -> bool
    ensures { result ≡ rule.is_body line }
{
    matches!(line, PrintedLine::Body(_))
}

/// Whether two marks are the same.
fn is_same_mark(one: Option<Mark>, other: Option<Mark>) -> bool
    ensures { result ≡ rule.is_same_mark one other }
{
    one == other
}

/// Whether two items are amounts with the same decimals and mark.
fn is_same_style(one: Option<Figure>, other: Option<Figure>) -> bool
    ensures { result ≡ rule.is_same_style one other }
{
    match (one, other) {
        (Some(one), Some(other)) => {
            one.decimals == other.decimals && is_same_mark(one.mark, other.mark)
        }
        _ => false,
    }
}

/// Whether two items may share wheels.
fn may_share(one: Item, other: Item) -> bool
    ensures { result ≡ rule.may_share one other }
{
    (one.figure.is_none() && other.figure.is_none())
        || (one.end == other.end && is_same_style(one.figure, other.figure))
}

/// Whether two lines of a chart are items of different body lines that meet and may not share wheels.
fn clash(one: Option<Item>, other: Option<Item>) -> bool
    ensures { result ≡ rule.clash one other }
{
    match (one, other) {
        (Some(one), Some(other)) => {
            is_body(one.line)
                && is_body(other.line)
                && !one.line.is(other.line)
                && meet(one, other)
                && !may_share(one, other)
        }
        _ => false,
    }
}

/// Whether a line of a chart is an item that meets an earlier one of another body line and may not share its wheels.
pub fn breaks_wheel_clash(fields: &Fields, earlier: &[Line], statement: &Statement) -> bool
    ensures { result ≡ rule.breaks_wheel_clash fields.now earlier.now statement.now }
{
    let item = item_among(fields, statement);
    earlier
        .iter()
        .any(|line| clash(item_among(fields, &line.statement), item))
}
