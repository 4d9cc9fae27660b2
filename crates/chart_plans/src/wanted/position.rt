//! Comparing and indicate positions.

ghost use Rattle.std.specs.Prelude.{◌≡◌, ◌+◌, ◌++◌, ◌↔◌, Some, IsTrue, IfOk, OnOk, EachIndex, slice_get, option_map};
ghost use Rattle.chart_plans.specs.WantedWords.HelperAfter.{IsAfter};
ghost use Rattle.chart_plans.specs.WantedWords.Positions as positions;

use chart_lines::charts::{ControlLevel, DetailOption, Field, Statement};
use chart_rules::Chart;
use std::alloc::{AllocError, Global};

/// What a comparing or indicate position serves: a column of a field that a line of the chart names.
#[derive(Clone, Copy, Debug, PartialEq, Eq)]
pub struct Position {
    /// The number of the line in the chart.
    pub line: u16,
    /// The column of the cards, from 1.
    pub column: u16,
}

impl Position {
    ghost use Rattle.std.specs.Prelude.{◌≡◌};
    ghost use Rattle.chart_plans.specs.WantedWords.Positions.{is_same_position};

    /// Whether two serve the same column of the same line.
    pub fn is(self, other: Position) -> bool
        ensures { result ≡ is_same_position self other }
    {
        self.line == other.line && self.column == other.column
    }
}

/// What the columns of a field are used for, each with a position of its own.
#[derive(Clone, Copy, Debug, PartialEq, Eq)]
pub(crate) enum ColumnUse {
    /// They are compared on consecutive cards.
    Comparing,
    /// They are shown on the first card of each group of a level.
    Indicate(ControlLevel),
}

/// The field whose columns a line puts to a use, if it does.
#[tactic(auto, unfolding(crate::specs::WantedWords::Positions::field_used))]
fn field_used(chart: &Chart, columns: ColumnUse, statement: &Statement) -> Option<Field>
    ensures { result ≡ positions.field_used chart.now.lines columns statement.now }
{
    match (columns, statement) {
        (ColumnUse::Comparing, Statement::Control { name, .. }) => chart.field(*name),
        (
            ColumnUse::Indicate(level),
            Statement::DetailField {
                name,
                shown: DetailOption::Indicated(of_level),
                ..
            },
        ) if *of_level == level => chart.field(*name),
        _ => None,
    }
}

/// The positions of a use, in the order of the lines that ask for them.
pub(crate) fn positions_of(
    alloc: Global,
    chart: &Chart,
    columns: ColumnUse,
) -> Result<Vec<Position>, AllocError>
    ensures { IfOk result (λ list. list.items ≡ positions.positions_of chart.now.lines columns) }
{
    let mut list = Vec::new(alloc);
    for line in chart.lines() {
        if let Some(field) = field_used(chart, columns, &line.statement) {
            push_columns(&mut list, line.number, field)?;
        }
    }
    Ok(list)
}

/// Puts the positions of a field's columns after the others.
fn push_columns(list: &mut Vec<Position>, line: u16, field: Field) -> Result<(), AllocError>
    ensures { OnOk result (list.new.items ≡ list.old.items ++ positions.positions_for line (Some field)) }
{
    let first = field.first;
    let start = u32::from(first);
    for place in 0..field.columns() {
        let column = (start + place) as u16;
        list.push(Position { line, column })?;
    }
    Ok(())
}

/// Whether a list has the positions of a use, in the order of the lines that ask for them.
pub(crate) fn are_positions_of(list: &[Position], chart: &Chart, columns: ColumnUse) -> bool
    ensures { IsTrue result ↔ (list.now ≡ positions.positions_of chart.now.lines columns) }
{
    let lines = chart.lines();
    let mut rest = list;
    for line in lines {
        if let Some(field) = field_used(chart, columns, &line.statement) {
            match after_columns(rest, line.number, field) {
                Some(after) => rest = after,
                None => return false,
            }
        }
    }
    rest.is_empty()
}

/// What stands after the positions of a field's columns in a list, if these are the first.
fn after_columns(list: &[Position], line: u16, field: Field) -> Option<&[Position]>
    ensures { IsAfter (positions.positions_for line (Some field)) list.now (option_map (λ after. after.now) result) }
{
    let first = field.first;
    let columns = field.columns() as usize;
    if list.len() < columns {
        return None;
    }
    let (front, after) = list.split_at(columns);
    if are_columns(front, line, first) {
        Some(after)
    } else {
        None
    }
}

/// Whether a list has positions of a line for columns that follow one another, from a first one on.
fn are_columns(list: &[Position], line: u16, first: u16) -> bool
    ensures { IsTrue result ↔ EachIndex list.now (λ place. slice_get list.now place
        ≡ Some (record { line = line; column = first + place })) }
{
    for (place, position) in list.iter().enumerate() {
        if position.line != line || usize::from(position.column) != usize::from(first) + place {
            return false;
        }
    }
    true
}
