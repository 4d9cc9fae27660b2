//! Whether a line is at fault by a rule.

ghost use Rattle.std.specs.Prelude.{◌≡◌, ◌++◌, List};
ghost use Rattle.std.specs.List.{list_any};
ghost use Rattle.chart_lines.specs.declared.charts.statement.Field.{Field};
ghost use Rattle.chart_line_rules.specs.FieldRules.Fields.{fields_of};
ghost use Rattle.chart_line_rules.specs.PrintRules.Forms.{breaks_form};
ghost use Rattle.chart_rules.specs.Rules as law;
ghost use Rattle.fault_chart_words.specs.Listed.{has_no_columns, is_at_fault, lacks_good_form, misnames, only_follows};

use chart_line_rules::field_rules::{
    Fields, breaks_amount_size, breaks_columns, breaks_coupled_mark, breaks_digits_range,
    breaks_digits_shrink, breaks_line_twice, breaks_name_twice, breaks_no_control,
    breaks_total_text_not_control, breaks_unknown_name, breaks_wrong_kind,
};
use chart_line_rules::print_rules::{
    breaks_form, breaks_mark_mismatch, breaks_print_kind, breaks_tape, breaks_wheel_clash,
    breaks_wheel_overlap, breaks_wheel_range, is_good_tape, lacks_form, lacks_print,
};
use chart_lines::charts::{Line, RawChart, Statement};
use chart_rules::Rule;

/// As many lines as the largest form has.
const MOST_LINES: u16 = 144;

/// Whether a line breaks a rule, by the chart and the lines before it.
fn breaks(rule: Rule, fields: &Fields, raw: &RawChart, earlier: &[Line], line: &Line) -> bool
    requires all { fields.now ≡ fields_of raw.now.lines }
    requires front { (later : List Field) × (fields.now ≡ fields_of earlier.now ++ later) }
    ensures { result ≡ law.breaks_at rule raw.now earlier.now line.now }
{
    let lines = raw.lines();
    let statement = &line.statement;
    match rule {
        Rule::NameTwice => breaks_name_twice(fields, earlier, statement),
        Rule::Columns => breaks_columns(statement),
        Rule::AmountSize => breaks_amount_size(statement),
        Rule::UnknownName => breaks_unknown_name(fields, statement),
        Rule::WrongKind => breaks_wrong_kind(fields, statement),
        Rule::LineTwice => breaks_line_twice(earlier, statement),
        Rule::NoControl => breaks_no_control(lines, statement),
        Rule::TotalTextNotControl => breaks_total_text_not_control(lines, statement),
        Rule::DigitsRange => breaks_digits_range(fields, statement),
        Rule::DigitsShrink => breaks_digits_shrink(lines, statement),
        Rule::MarkMismatch => breaks_mark_mismatch(fields, statement),
        Rule::WheelRange => breaks_wheel_range(fields, statement),
        Rule::WheelOverlap => breaks_wheel_overlap(fields, earlier, statement),
        Rule::WheelClash => breaks_wheel_clash(fields, earlier, statement),
        Rule::PrintKind => breaks_print_kind(lines, statement),
        Rule::Form => breaks_form(lines, statement),
        Rule::Tape => breaks_tape(lines, statement),
        Rule::CoupledMark => breaks_coupled_mark(fields, raw.version(), raw.coupled(), line),
    }
}

/// Whether a chart lacks a line that a rule demands: PRINT or FORM.
pub(crate) fn lacks(rule: Rule, lines: &[Line]) -> bool
    ensures { result ≡ law.lacks rule lines.now }
{
    match rule {
        Rule::PrintKind => lacks_print(lines),
        Rule::Form => lacks_form(lines),
        _ => false,
    }
}

/// Whether the name that a line uses has no FIELD, or one of the wrong kind.
fn misnames(fields: &Fields, raw: &RawChart, statement: &Statement) -> bool
    requires { fields.now ≡ fields_of raw.now.lines }
    ensures { result ≡ misnames raw.now statement.now }
{
    breaks_unknown_name(fields, statement) || breaks_wrong_kind(fields, statement)
}

/// Whether a field has no columns, since its last one stands before the first.
fn has_no_columns(statement: &Statement) -> bool
    ensures { result ≡ has_no_columns statement.now }
{
    match statement {
        Statement::Field(field) => field.last < field.first,
        _ => false,
    }
}

/// Whether a line of a chart is a FORM line that breaks its rule.
fn has_bad_form(lines: &[Line]) -> bool
    ensures { result ≡ list_any (λ line. breaks_form lines.now line.statement) lines.now }
{
    lines.iter().any(|line| breaks_form(lines, &line.statement))
}

/// Whether a chart has no FORM line, or one that breaks its rule.
fn lacks_good_form(lines: &[Line]) -> bool
    ensures { result ≡ lacks_good_form lines.now }
{
    lacks_form(lines) || has_bad_form(lines)
}

/// Whether a line can break a rule only since something else is wrong.
fn only_follows(rule: Rule, fields: &Fields, raw: &RawChart, statement: &Statement) -> bool
    requires { fields.now ≡ fields_of raw.now.lines }
    ensures { result ≡ only_follows rule raw.now statement.now }
{
    match (rule, statement) {
        (Rule::TotalTextNotControl | Rule::CoupledMark, _) => misnames(fields, raw, statement),
        (Rule::AmountSize, _) => has_no_columns(statement),
        (Rule::Tape, Statement::Tape { channel, stops }) => {
            lacks_good_form(raw.lines()) && is_good_tape(MOST_LINES, *channel, stops.lines())
        }
        _ => false,
    }
}

/// Whether a line breaks a rule, and not only since something else is wrong.
pub(crate) fn is_at_fault(
    rule: Rule,
    fields: &Fields,
    raw: &RawChart,
    earlier: &[Line],
    line: &Line,
) -> bool
    requires all { fields.now ≡ fields_of raw.now.lines }
    requires front { (later : List Field) × (fields.now ≡ fields_of earlier.now ++ later) }
    ensures { result ≡ is_at_fault rule raw.now earlier.now line.now }
{
    breaks(rule, fields, raw, earlier, line) && !only_follows(rule, fields, raw, &line.statement)
}
