//! The comparing positions that a setup shows for the columns of control fields. Two of one column and level have the same wires, so any of
//! them will do: the first that is not yet taken.

ghost use Rattle.std.specs.Prelude.{◌≡◌, ◌↔◌, ◌≤◌, ◌++◌, ℕ, Contains, IsTrue, IfNone, IfOk, IfSome, OnOk, Some};
ghost use Rattle.match_plans.specs.ComparedColumns.{IsCompared, columns_for, compared_columns, level_of};
ghost use Rattle.match_plans.specs.Renumbered.{AreShown, ShowsNoParts};
ghost use Rattle.chart_plans.specs.PlansWords.PartNumbers.{AreThere};
ghost use Rattle.chart_plans.specs.WantedWords.Positions.{compared_field};

use chart_lines::charts::{Field, Statement};
use chart_plans::plans::PartKind;
use chart_rules::Chart;
use hubs::Hub;
use hubs::setups::Setup;
use std::alloc::{AllocError, Global};

/// A column that is compared on consecutive cards.
#[derive(Clone, Copy)]
pub struct ComparedColumn {
    /// The column of the cards, from 1.
    pub column: u32,
    /// The number of the level that a change in it calls for, 1 to 3.
    pub level: u8,
}

// The number of the level of a control field.
fn level_of(statement: &Statement) -> u8
    ensures { result ≡ level_of statement.now }
{
    match statement {
        Statement::Control { level, .. } => level.number(),
        _ => 0,
    }
}

// The field that a CONTROL line compares.
fn compared_field(chart: &Chart, statement: &Statement) -> Option<Field>
    ensures { result ≡ compared_field chart.now.lines statement.now }
{
    match statement {
        Statement::Control { name, .. } => chart.field(*name),
        _ => None,
    }
}

// Puts the columns of a field behind others.
fn push_columns(
    columns: &mut Vec<ComparedColumn>,
    level: u8,
    field: Field,
) -> Result<(), AllocError>
    ensures { OnOk result (columns.new.items ≡ columns.old.items ++ columns_for level (Some field)) }
{
    let start = u32::from(field.first);
    for place in 0..field.columns() {
        let column = start + place;
        columns.push(ComparedColumn { column, level })?;
    }
    Ok(())
}

// The columns that a chart compares, in the order of its CONTROL lines.
fn compared_columns(alloc: Global, chart: &Chart) -> Result<Vec<ComparedColumn>, AllocError>
    ensures { IfOk result (λ columns. columns.items ≡ compared_columns chart.now.lines) }
{
    let mut columns = Vec::new(alloc);
    for line in chart.lines() {
        if let Some(field) = compared_field(chart, &line.statement) {
            push_columns(&mut columns, level_of(&line.statement), field)?;
        }
    }
    Ok(columns)
}

// Whether a position compares a column for a level.
fn is_compared(setup: &Setup, column: u8, level: u8, position: u8) -> bool
    ensures { IsTrue result ↔ IsCompared setup.now column level position }
{
    setup.has(Hub::FR(column), Hub::CA(position)) && setup.has(Hub::CX(position), Hub::ST(level))
}

// Whether a number is among those that are taken.
fn is_taken(taken: &[u8], number: u8) -> bool
    ensures { IsTrue result ↔ Contains taken.now number }
{
    taken.contains(&number)
}

// The first position that compares a column for a level and is not taken.
fn free_position(setup: &Setup, column: u8, level: u8, taken: &[u8]) -> Option<u8>
    ensures there { IfSome result (λ position. (1 ≤ position) × (position ≤ 30)) }
    ensures shown { IfSome result (IsCompared setup.now column level) }
    ensures free { IfSome result (λ position. ¬ Contains taken.now position) }
    ensures none { IfNone result ((position : ℕ) → 1 ≤ position → position ≤ 30 → IsCompared setup.now column level position
        → Contains taken.now position) }
{
    for place in 0..30 {
        if is_compared(setup, column, level, place + 1) && !is_taken(taken, place + 1) {
            return Some(place + 1);
        }
    }
    None
}

// The first position that compares a column and is not taken.
fn shown_position(setup: &Setup, at: ComparedColumn, taken: &[u8]) -> Option<u8>
    ensures there { IfSome result (λ position. (1 ≤ position) × (position ≤ 30)) }
    ensures shown { IfSome result (IsCompared setup.now at.column at.level) }
    ensures free { IfSome result (λ position. ¬ Contains taken.now position) }
    ensures none { IfNone result ((position : ℕ) → 1 ≤ position → position ≤ 30 → IsCompared setup.now at.column at.level position
        → Contains taken.now position) }
{
    if at.column < 256 {
        free_position(setup, at.column as u8, at.level, taken)
    } else {
        None
    }
}

/// The comparing positions that a setup shows for the columns of control fields, in their order, each the first that is not yet taken; none
/// where it shows none for one of them.
pub(crate) fn shown_positions(
    alloc: Global,
    chart: &Chart,
    setup: &Setup,
) -> Result<Option<Vec<u8>>, AllocError>
    ensures there { IfOk result (λ shown. IfSome shown (λ list. AreThere 30 list.items)) }
    ensures shown { IfOk result (λ found. IfSome found (λ list. AreShown chart.now.lines setup.now PartKind.Comparing list.items)) }
    ensures none { IfOk result (λ found. IfNone found (ShowsNoParts chart.now.lines setup.now)) }
{
    // Called for its promise alone, that the chart breaks no rule and its line numbers rise: it saves a `requires`.
    let _lines = chart.lines();
    let columns = compared_columns(alloc, chart)?;
    let mut positions = Vec::new(alloc);
    for at in &columns {
        match shown_position(setup, *at, positions.as_slice()) {
            Some(position) => positions.push(position)?,
            None => return Ok(None),
        }
    }
    Ok(Some(positions))
}

// Whether most wires of a column speak for a position: second reading leads to it, and one of the wires that show it is there.
fn is_near(setup: &Setup, at: ComparedColumn, position: u8) -> bool {
    if at.column > 255 {
        return false;
    }
    let second = setup.has(Hub::SR(at.column as u8), Hub::CB(position));
    let first = setup.has(Hub::FR(at.column as u8), Hub::CA(position));
    let calls = setup.has(Hub::CX(position), Hub::ST(at.level));
    second && (first || calls)
}

// The position that is shown for a column, else the first for which most of its wires speak, of those that are not taken.
fn near_position(setup: &Setup, at: ComparedColumn, taken: &[u8]) -> Option<u8> {
    let shown = shown_position(setup, at, taken);
    if shown.is_some() {
        return shown;
    }
    for place in 0..30 {
        if is_near(setup, at, place + 1) && !is_taken(taken, place + 1) {
            return Some(place + 1);
        }
    }
    None
}

/// The comparing position that a setup shows for each column that is compared, or for which most of its wires speak, in their order, each
/// the first that is not yet taken.
pub(crate) fn near_positions(
    alloc: Global,
    chart: &Chart,
    setup: &Setup,
) -> Result<Vec<Option<u8>>, AllocError> {
    let columns = compared_columns(alloc, chart)?;
    let mut taken = Vec::new(alloc);
    let mut near = Vec::new(alloc);
    for at in &columns {
        let its = near_position(setup, *at, taken.as_slice());
        if let Some(position) = its {
            taken.push(position)?;
        }
        near.push(its)?;
    }
    Ok(near)
}
