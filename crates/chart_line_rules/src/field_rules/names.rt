//! The rules on names: a name stands on one FIELD line, each name has one, and it stands for a field of the right kind.

ghost use Rattle.std.specs.Prelude.{◌≡◌, ◌++◌, List, is_some};
ghost use Rattle.chart_lines.specs.declared.charts.statement.Field.{Field};
ghost use Rattle.chart_line_rules.specs.FieldRules.Fields.{fields_of, first_named};
ghost use Rattle.chart_line_rules.specs.FieldRules.Names as rule;

use crate::field_rules::fields::{Fields, described_by, field_count};
use chart_lines::charts::{DetailOption, Field, Line, Name, Statement};

/// Whether a name stands on one of the FIELD lines among the first lines of a chart.
fn stands_among(fields: &Fields, earlier: &[Line], name: Name) -> bool
    requires { (later : List Field) × (fields.now ≡ fields_of earlier.now ++ later) }
    ensures { result ≡ is_some (first_named (fields_of earlier.now) name) }
{
    match fields.place_of(name) {
        Some(place) => place < field_count(earlier),
        None => false,
    }
}

/// Whether a line is a FIELD line whose name stands on an earlier FIELD line. `earlier` are the first lines of the fields' chart.
pub fn breaks_name_twice(fields: &Fields, earlier: &[Line], statement: &Statement) -> bool
    requires { (later : List Field) × (fields.now ≡ fields_of earlier.now ++ later) }
    ensures { result ≡ rule.breaks_name_twice (fields_of earlier.now) statement.now }
{
    match statement {
        Statement::Field(field) => stands_among(fields, earlier, field.name),
        _ => false,
    }
}

/// The name that a line uses, if it uses one.
fn name_used(statement: &Statement) -> Option<Name>
    ensures { result ≡ rule.name_used statement.now }
{
    match statement {
        Statement::Control { name, .. }
        | Statement::DetailField { name, .. }
        | Statement::TotalText { name, .. } => Some(*name),
        Statement::TotalAmount(total) => Some(total.name),
        _ => None,
    }
}

/// Whether a line uses a name without a FIELD line.
pub fn breaks_unknown_name(fields: &Fields, statement: &Statement) -> bool
    ensures { result ≡ rule.breaks_unknown_name fields.now statement.now }
{
    match name_used(statement) {
        Some(name) => fields.get(name).is_none(),
        None => false,
    }
}

/// Whether a name stands for an amount.
fn names_amount(field: Option<Field>) -> bool
    ensures { result ≡ rule.names_amount field }
{
    match field {
        Some(field) => field.kind.is_amount(),
        None => false,
    }
}

/// Whether a name stands for a text.
fn names_text(field: Option<Field>) -> bool
    ensures { result ≡ rule.names_text field }
{
    match field {
        Some(field) => !field.kind.is_amount(),
        None => false,
    }
}

/// Whether a line names an amount where a text belongs, or a text where an amount belongs.
pub fn breaks_wrong_kind(fields: &Fields, statement: &Statement) -> bool
    ensures { result ≡ rule.breaks_wrong_kind fields.now statement.now }
{
    match statement {
        Statement::Control { name, .. }
        | Statement::DetailField {
            name,
            shown: DetailOption::Indicated(_),
            ..
        }
        | Statement::TotalText { name, .. } => names_amount(fields.get(*name)),
        Statement::DetailField {
            name,
            shown: DetailOption::Marked(_),
            ..
        } => names_text(fields.get(*name)),
        Statement::TotalAmount(total) => names_text(fields.get(total.name)),
        _ => false,
    }
}
