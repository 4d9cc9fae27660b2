//! The totals of a chart.

ghost use Rattle.std.specs.Prelude.{◌≡◌, ◌==◌, IfOk, position, filter_map};
ghost use Rattle.chart_line_rules.specs.FieldRules.Coupled.{has_sign};
ghost use Rattle.chart_plans.specs.WantedWords.ChartTotals as totals;
ghost use Rattle.chart_plans.specs.WantedWords.Totals.{NeedsFit};

use crate::wanted::total::Total;
use chart_lines::charts::{Field, Line, Statement};
use chart_rules::Chart;
use std::alloc::{AllocError, Global};

/// Whether a name stands for an amount with a sign rule.
fn names_signed(field: Option<Field>) -> bool
    ensures { result ≡ has_sign field }
{
    match field {
        Some(field) => field.kind.sign_column().is_some(),
        None => false,
    }
}

/// How many positions a total of so many digits needs: one more if its amount has a sign rule.
fn need_of(field: Option<Field>, digits: u16) -> u32
    ensures { result ≡ totals.need_of field digits }
{
    let sign = if names_signed(field) { 1 } else { 0 };
    u32::from(digits) + sign
}

/// The total that a line is, if it is a TOTAL amount.
pub fn line_total(chart: &Chart, line: &Line) -> Option<Total>
    ensures { result ≡ totals.line_total chart.now.lines line.now.number line.now.statement }
{
    match &line.statement {
        Statement::TotalAmount(total) => Some(Total {
            level: total.level,
            line: line.number,
            need: need_of(chart.field(total.name), total.digits),
        }),
        _ => None,
    }
}

/// Where the total of a line stands among the totals of a chart, from 0.
pub fn total_place(chart: &Chart, line: u16) -> Option<usize>
    ensures { result ≡ position (λ total. total.line == line) (totals.totals_of chart.now.lines) }
{
    chart
        .lines()
        .iter()
        .filter_map(|each| line_total(chart, each))
        .position(|total| total.line == line)
}

/// The totals of a chart, in the order of their lines. None needs more than 16 positions.
pub(crate) fn totals_of(alloc: Global, chart: &Chart) -> Result<Vec<Total>, AllocError>
    ensures value { IfOk result (λ list. list.items ≡ totals.totals_of chart.now.lines) }
    ensures needs { IfOk result (λ list. NeedsFit list.items) }
{
    let list = totals_among(alloc, chart.lines(), chart)?;
    Ok(list)
}

/// The totals that some lines of a chart are, in the order of these.
fn totals_among(alloc: Global, lines: &[Line], chart: &Chart) -> Result<Vec<Total>, AllocError>
    ensures { IfOk result (λ list. list.items
        ≡ filter_map (λ line. totals.line_total chart.now.lines line.number line.statement) lines.now) }
{
    lines
        .iter()
        .filter_map(|line| line_total(chart, line))
        .collect(alloc)
}
