//! Pilots.

ghost use Rattle.std.specs.Prelude.{◌≡◌, ◌↔◌, [], ◌∷◌, IsTrue, IfOk, option_map};
ghost use Rattle.chart_plans.specs.WantedWords.HelperAfter.{IsAfter};
ghost use Rattle.chart_plans.specs.WantedWords.Pilots as pilots;

use chart_lines::charts::{Field, Line, Name, Statement};
use chart_rules::Chart;
use std::alloc::{AllocError, Global};

/// Whether a line puts the amount of a name on a DETAIL or TOTAL line.
fn shows(wanted: Name, statement: &Statement) -> bool
    ensures { result ≡ pilots.shows wanted statement.now }
{
    match statement {
        Statement::DetailField { name, .. } => name.is(wanted),
        Statement::TotalAmount(total) => total.name.is(wanted),
        _ => false,
    }
}

/// Whether a name stands on a DETAIL or TOTAL line.
fn prints_name(lines: &[Line], name: Name) -> bool
    ensures { result ≡ pilots.prints_name lines.now name }
{
    lines.iter().any(|line| shows(name, &line.statement))
}

/// Whether a field wants a pilot: it has a sign rule, and it stands on a DETAIL or TOTAL line.
#[tactic(auto, unfolding(crate::specs::WantedWords::Pilots::wants_pilot))]
fn wants_pilot(chart: &Chart, field: Field) -> bool
    ensures { result ≡ pilots.wants_pilot chart.now.lines field }
{
    field.kind.sign_column().is_some() && prints_name(chart.lines(), field.name)
}

/// The names of the amounts that want a pilot, in the order of their FIELD lines.
pub(crate) fn pilots_of(alloc: Global, chart: &Chart) -> Result<Vec<Name>, AllocError>
    ensures { IfOk result (λ list. list.items ≡ pilots.pilots_of chart.now.lines) }
{
    chart
        .fields()
        .iter()
        .filter(|field| wants_pilot(chart, **field))
        .map(|field| field.name)
        .collect(alloc)
}

/// Whether a list has the names of the amounts that want a pilot, in the order of their FIELD lines.
pub(crate) fn are_pilots(list: &[Name], chart: &Chart) -> bool
    ensures { IsTrue result ↔ (list.now ≡ pilots.pilots_of chart.now.lines) }
{
    let fields = chart.fields();
    let mut rest = list;
    for field in fields {
        if wants_pilot(chart, *field) {
            match after_name(rest, field.name) {
                Some(after) => rest = after,
                None => return false,
            }
        }
    }
    rest.is_empty()
}

/// What stands after a name in a list, if it is the first.
fn after_name(list: &[Name], name: Name) -> Option<&[Name]>
    ensures { IsAfter (name ∷ []) list.now (option_map (λ after. after.now) result) }
{
    match list.split_first() {
        Some((first, after)) if *first == name => Some(after),
        _ => None,
    }
}
