//! Checking a chart by the rules.

ghost use Rattle.std.specs.Prelude.{◌≡◌, ◌≢◌, ◌<◌, ◌≤◌, ◌++◌, ℕ, List, Some, length, slice_get, MatchOption, IfSome, IfNone, IfOk, IfErr, OnOk};
ghost use Rattle.chart_lines.specs.declared.charts.statement.Field.{Field};
ghost use Rattle.chart_line_rules.specs.FieldRules.Fields.{fields_of};
ghost use Rattle.chart_rules.specs.RuleFaults.{IsTold};
ghost use Rattle.chart_rules.specs.Rules as law;
ghost use Rattle.chart_rules.specs.HelperOrder as order;

use crate::chart::Chart;
use crate::controls::Controls;
use crate::fault::RuleFault;
use crate::rule::Rule;
use chart_line_rules::field_rules::{
    Fields, breaks_amount_size, breaks_columns, breaks_coupled_mark, breaks_digits_range,
    breaks_digits_shrink, breaks_line_twice, breaks_name_twice, breaks_no_control,
    breaks_total_text_not_control, breaks_unknown_name, breaks_wrong_kind,
};
use chart_line_rules::print_rules::{
    breaks_form, breaks_mark_mismatch, breaks_print_kind, breaks_tape, breaks_wheel_clash,
    breaks_wheel_overlap, breaks_wheel_range, lacks_form, lacks_print,
};
use chart_lines::charts::{Line, RawChart};
use std::alloc::Global;

/// The rules in the order of their numbers.
static RULES: [Rule; 18] = [
    Rule::NameTwice,
    Rule::Columns,
    Rule::AmountSize,
    Rule::UnknownName,
    Rule::WrongKind,
    Rule::LineTwice,
    Rule::NoControl,
    Rule::TotalTextNotControl,
    Rule::DigitsRange,
    Rule::DigitsShrink,
    Rule::MarkMismatch,
    Rule::WheelRange,
    Rule::WheelOverlap,
    Rule::WheelClash,
    Rule::PrintKind,
    Rule::Form,
    Rule::Tape,
    Rule::CoupledMark,
];

/// The chart of the lines that were read, if they break no rule.
///
/// # Errors
///
/// `Rule` where a rule is broken: the lowest rule, and the lowest line that breaks it. `Memory` where a growth was refused. The
/// lines that were read are used up in each case.
pub fn check(alloc: Global, raw: RawChart) -> Result<Chart, RuleFault>
    ensures same { IfOk result (λ chart. chart ≡ raw) }
    ensures lawful { OnOk result (law.IsLawful raw) }
    ensures refused { IfErr result (λ fault. fault ≢ RuleFault.Memory → IsTold raw fault) }
{
    let fields = Fields::of(alloc, raw.lines())?;
    match first_broken(&fields, &raw) {
        Some((rule, line)) => Err(RuleFault::Rule { rule, line }),
        None => {
            let controls = Controls::of(alloc, raw.lines(), &fields)?;
            Ok(Chart::of(raw, fields.into_fields(), controls))
        }
    }
}

/// The lowest rule that a chart breaks, and the lowest line that breaks it.
fn first_broken(fields: &Fields, raw: &RawChart) -> Option<(Rule, u16)>
    requires { fields.now ≡ fields_of raw.now.lines }
    ensures none { IfNone result (law.IsLawful raw.now) }
    ensures some { IfSome result (λ found. law.IsFirstBroken raw.now found.0 found.1) }
{
    first_among(&RULES, fields, raw)
}

/// The first of some rules that a chart breaks, and the lowest line that breaks it.
fn first_among(rules: &[Rule], fields: &Fields, raw: &RawChart) -> Option<(Rule, u16)>
    requires { fields.now ≡ fields_of raw.now.lines }
    ensures none { IfNone result (order.AreKept rules.now (length rules.now) raw.now) }
    ensures some { IfSome result (λ found. order.IsFirstAmong rules.now raw.now found.0 found.1) }
{
    for rule in rules {
        if let Some(line) = lowest_line(*rule, fields, raw) {
            return Some((*rule, line));
        }
    }
    None
}

/// The lowest line of a chart that breaks a rule.
fn lowest_line(rule: Rule, fields: &Fields, raw: &RawChart) -> Option<u16>
    requires { fields.now ≡ fields_of raw.now.lines }
    ensures none { IfNone result (law.IsKept rule raw.now) }
    ensures some { IfSome result (λ line. law.Broken rule raw.now line) }
    ensures lowest { IfSome result (λ line. (other : ℕ) → law.Broken rule raw.now other → line ≤ other) }
{
    let lines = raw.lines();
    for (place, line) in lines.iter().enumerate() {
        if breaks(rule, fields, raw, &lines[..place], line) {
            return Some(line.number);
        }
    }
    if lacks(rule, lines) {
        Some(raw.end())
    } else {
        None
    }
}

/// Whether a line breaks a rule, by the chart and the lines before it.
fn breaks(rule: Rule, fields: &Fields, raw: &RawChart, earlier: &[Line], line: &Line) -> bool
    requires all { fields.now ≡ fields_of raw.now.lines }
    requires front { (later : List Field) × (fields.now ≡ fields_of earlier.now ++ later) }
    ensures { result ≡ law.breaks_at rule raw.now earlier.now line.now }
{
    let lines = raw.lines();
    let statement = &line.statement;
    match rule {
        Rule::NameTwice => breaks_name_twice(fields, earlier, statement),
        Rule::Columns => breaks_columns(statement),
        Rule::AmountSize => breaks_amount_size(statement),
        Rule::UnknownName => breaks_unknown_name(fields, statement),
        Rule::WrongKind => breaks_wrong_kind(fields, statement),
        Rule::LineTwice => breaks_line_twice(earlier, statement),
        Rule::NoControl => breaks_no_control(lines, statement),
        Rule::TotalTextNotControl => breaks_total_text_not_control(lines, statement),
        Rule::DigitsRange => breaks_digits_range(fields, statement),
        Rule::DigitsShrink => breaks_digits_shrink(lines, statement),
        Rule::MarkMismatch => breaks_mark_mismatch(fields, statement),
        Rule::WheelRange => breaks_wheel_range(fields, statement),
        Rule::WheelOverlap => breaks_wheel_overlap(fields, earlier, statement),
        Rule::WheelClash => breaks_wheel_clash(fields, earlier, statement),
        Rule::PrintKind => breaks_print_kind(lines, statement),
        Rule::Form => breaks_form(lines, statement),
        Rule::Tape => breaks_tape(lines, statement),
        Rule::CoupledMark => breaks_coupled_mark(fields, raw.version(), raw.coupled(), line),
    }
}

/// Whether a chart lacks a line that a rule demands: PRINT or FORM.
fn lacks(rule: Rule, lines: &[Line]) -> bool
    ensures { result ≡ law.lacks rule lines.now }
{
    match rule {
        Rule::PrintKind => lacks_print(lines),
        Rule::Form => lacks_form(lines),
        _ => false,
    }
}
