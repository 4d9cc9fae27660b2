//! Where groups end.

ghost use Rattle.std.specs.Prelude.{◌≡◌, ◌≤◌, nat_eq};
ghost use Rattle.std.specs.List.{list_all};
ghost use Rattle.chart_lines.specs.ChartsWords.Levels.{control_number};
ghost use Rattle.chart_rules.specs.HelperOnCard.{AreOnCard, IsOnCard};
ghost use Rattle.chart_rules.specs.ValidCard.{column_of};
ghost use Rattle.report_definition.specs.Breaks.{ended_after, highest};
ghost use Rattle.report_definition.specs.Groups.{is_same_at, is_same_on};

use card_code::Card;
use chart_lines::charts::{ControlLevel, Field};
use chart_rules::Chart;

/// Whether two cards have the same punches in a column.
fn is_same_in(column: u16, one: &Card, other: &Card) -> bool
    requires from { 1 ≤ column }
    requires to { column ≤ 80 }
    ensures { result ≡ nat_eq (column_of one.now column) (column_of other.now column) }
{
    one.column(column as u8) == other.column(column as u8)
}

/// Whether two cards have the same punches in all columns of a field.
fn is_same_on(field: Field, one: &Card, other: &Card) -> bool
    requires { IsOnCard field }
    ensures { result ≡ is_same_on field one.now other.now }
{
    (field.first..field.last + 1).all(|column| is_same_in(column, one, other))
}

/// Whether two cards have the same punches in all columns of some fields.
fn are_same_on(fields: &[Field], one: &Card, other: &Card) -> bool
    requires { AreOnCard fields.now }
    ensures { result ≡ list_all (λ field. is_same_on field one.now other.now) fields.now }
{
    for field in fields {
        if !is_same_on(*field, one, other) {
            return false;
        }
    }
    true
}

/// Whether two cards are equal on all control fields of a level.
fn is_same_at(chart: &Chart, level: ControlLevel, one: &Card, other: &Card) -> bool
    ensures { result ≡ is_same_at chart.now.lines (control_number level) one.now other.now }
{
    are_same_on(chart.control_fields(level), one, other)
}

/// The highest of the levels 1 to 3 at which a break stands between two cards, or 0.
fn highest_break(chart: &Chart, one: &Card, other: &Card) -> u8
    ensures value { result ≡ highest chart.now.lines one.now other.now }
    ensures levels { result ≤ 3 }
{
    if !is_same_at(chart, ControlLevel::Major, one, other) {
        3
    } else if !is_same_at(chart, ControlLevel::Intermediate, one, other) {
        2
    } else if !is_same_at(chart, ControlLevel::Minor, one, other) {
        1
    } else {
        0
    }
}

/// The highest level whose group ends after a card: that of the break before the next card, and 4 after the last card.
pub(crate) fn ended_after(chart: &Chart, card: &Card, next: &Option<Card>) -> u8
    ensures value { result ≡ ended_after chart.now.lines card.now next.now }
    ensures levels { result ≤ 4 }
{
    match next {
        Some(next) => highest_break(chart, card, next),
        None => 4,
    }
}
