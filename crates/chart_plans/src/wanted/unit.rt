//! Storage units and column splits.

ghost use Rattle.std.specs.Prelude.{◌≡◌, ◌↔◌, [], ◌∷◌, IsTrue, IfOk, option_map, map, filter};
ghost use Rattle.chart_plans.specs.WantedWords.HelperAfter.{IsAfter};
ghost use Rattle.chart_plans.specs.WantedWords.Units as units;
ghost use Rattle.chart_plans.specs.WantedWords.HelperLines.{FirstIsLowest};

use chart_lines::charts::{Field, Line, Statement};
use chart_rules::Chart;
use std::alloc::{AllocError, Global};

/// A kind of line that asks for a unit of its own.
#[derive(Clone, Copy, Debug, PartialEq, Eq)]
pub(crate) enum LineKind {
    /// A text on a total line: it asks for a storage unit.
    TotalText,
    /// A text on a total line that has more columns than a storage unit.
    WideText,
    /// An amount on a DETAIL line whose sign column is one of its own: it asks for a column split.
    SplitAmount,
}

/// Whether a field has more columns than a storage unit.
fn is_wide(field: Option<Field>) -> bool
    ensures { result ≡ units.is_wide field }
{
    match field {
        Some(field) => field.columns() > 16,
        None => false,
    }
}

/// Whether a column, if there is one, is one of those of a field.
fn is_inside(field: Field, column: Option<u16>) -> bool
    ensures { result ≡ units.is_inside field column }
{
    match column {
        Some(column) => field.first <= column && column <= field.last,
        None => false,
    }
}

/// Whether a name stands for an amount whose sign column is one of its own columns.
fn has_inside_sign(field: Option<Field>) -> bool
    ensures { result ≡ units.has_inside_sign field }
{
    match field {
        Some(field) => is_inside(field, field.kind.sign_column()),
        None => false,
    }
}

/// Whether a line is of a kind.
#[tactic(auto, unfolding(crate::specs::WantedWords::Units::is_of_kind))]
fn is_of_kind(chart: &Chart, kind: LineKind, statement: &Statement) -> bool
    ensures { result ≡ units.is_of_kind chart.now.lines kind statement.now }
{
    match (kind, statement) {
        (LineKind::TotalText, Statement::TotalText { .. }) => true,
        (LineKind::WideText, Statement::TotalText { name, .. }) => is_wide(chart.field(*name)),
        (LineKind::SplitAmount, Statement::DetailField { name, .. }) => {
            has_inside_sign(chart.field(*name))
        }
        _ => false,
    }
}

/// The numbers of the lines of a kind, in order; the first is the lowest.
pub(crate) fn lines_of_kind(
    alloc: Global,
    chart: &Chart,
    kind: LineKind,
) -> Result<Vec<u16>, AllocError>
    ensures value { IfOk result (λ list. list.items ≡ units.lines_of_kind chart.now.lines kind) }
    ensures lowest { IfOk result (λ list. FirstIsLowest list.items) }
{
    let list = lines_among(alloc, chart.lines(), chart, kind)?;
    Ok(list)
}

/// The numbers of those among some lines that are of a kind, in order.
fn lines_among(
    alloc: Global,
    lines: &[Line],
    chart: &Chart,
    kind: LineKind,
) -> Result<Vec<u16>, AllocError>
    ensures { IfOk result (λ list. list.items ≡ map (λ line. line.number)
        (filter (λ line. units.is_of_kind chart.now.lines kind line.statement) lines.now)) }
{
    lines
        .iter()
        .filter(|line| is_of_kind(chart, kind, &line.statement))
        .map(|line| line.number)
        .collect(alloc)
}

/// Whether each text on a total line of a chart has at most the 16 columns of a storage unit.
pub fn has_narrow_texts(chart: &Chart) -> bool
    ensures { IsTrue result ↔ ([] ≡ units.wide_texts_of chart.now.lines) }
{
    are_lines_of_kind(&[], chart, LineKind::WideText)
}

/// Whether a list has the numbers of the lines of a kind, in order.
pub(crate) fn are_lines_of_kind(list: &[u16], chart: &Chart, kind: LineKind) -> bool
    ensures { IsTrue result ↔ (list.now ≡ units.lines_of_kind chart.now.lines kind) }
{
    let lines = chart.lines();
    let mut rest = list;
    for line in lines {
        if is_of_kind(chart, kind, &line.statement) {
            match after_number(rest, line.number) {
                Some(after) => rest = after,
                None => return false,
            }
        }
    }
    rest.is_empty()
}

/// What stands after a number in a list, if it is the first.
fn after_number(list: &[u16], number: u16) -> Option<&[u16]>
    ensures { IsAfter (number ∷ []) list.now (option_map (λ after. after.now) result) }
{
    match list.split_first() {
        Some((first, after)) if *first == number => Some(after),
        _ => None,
    }
}
