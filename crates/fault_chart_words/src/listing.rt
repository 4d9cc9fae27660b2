//! The list of all faults of a chart.

ghost use Rattle.std.specs.Prelude.{◌≡◌, ◌++◌, ◌∷◌, List, OnOk, IfOk, AllPairs};
ghost use Rattle.chart_lines.specs.ChartsWords.Chart.{NumbersRise};
ghost use Rattle.chart_lines.specs.declared.charts.statement.Field.{Field};
ghost use Rattle.chart_line_rules.specs.FieldRules.Fields.{fields_of};
ghost use Rattle.chart_rules.specs.Rules as law;
ghost use Rattle.fault_chart_words.specs.Listed.{BeginsAsChecked, ComesBefore, HasAllListed, LeavesOutWhatFollows, is_at_fault};
ghost use Rattle.fault_chart_words.specs.HelperLists.{at_line, faults_at, faults_at_end, faults_of};

use crate::tests::{is_at_fault, lacks};
use chart_line_rules::field_rules::Fields;
use chart_lines::charts::{Line, RawChart};
use chart_rules::Rule;
use std::alloc::{AllocError, Global};

/// The rules in the order of their numbers.
static RULES: [Rule; 18] = [
    Rule::NameTwice,
    Rule::Columns,
    Rule::AmountSize,
    Rule::UnknownName,
    Rule::WrongKind,
    Rule::LineTwice,
    Rule::NoControl,
    Rule::TotalTextNotControl,
    Rule::DigitsRange,
    Rule::DigitsShrink,
    Rule::MarkMismatch,
    Rule::WheelRange,
    Rule::WheelOverlap,
    Rule::WheelClash,
    Rule::PrintKind,
    Rule::Form,
    Rule::Tape,
    Rule::CoupledMark,
];

/// A rule that a line of a chart breaks.
#[derive(Clone, Copy, Debug, PartialEq, Eq)]
pub struct BrokenRule {
    /// The number of the line, from 2: that of END where PRINT or FORM is missing.
    pub line: u16,
    /// The rule.
    pub rule: Rule,
}

/// All faults of a chart that was read: each line with each rule that it breaks, in the order of the lines, and those of one line by the
/// rules' numbers. A rule that a line breaks only since something else is wrong is left out; so a chart that breaks a rule has an entry.
///
/// It allocates, and fails only where memory is refused.
pub fn broken_rules(alloc: Global, raw: &RawChart) -> Result<Vec<BrokenRule>, AllocError>
    ensures exact { IfOk result (λ list. HasAllListed raw.now list.items) }
    ensures ordered { IfOk result (λ list. AllPairs ComesBefore list.items) }
    ensures first { IfOk result (λ list. BeginsAsChecked raw.now list.items) }
    ensures complete { LeavesOutWhatFollows }
{
    list_faults(alloc, raw)
}

/// The list of all faults.
#[tactic(auto, unfolding(crate::specs::HelperLists::faults_of))]
fn list_faults(alloc: Global, raw: &RawChart) -> Result<Vec<BrokenRule>, AllocError>
    ensures list { IfOk result (λ list. list.items ≡ faults_of raw.now) }
    ensures rising { NumbersRise raw.now.lines raw.now.end }
{
    let fields = Fields::of(alloc, raw.lines())?;
    let mut list = Vec::new(alloc);
    let lines = raw.lines();
    for (place, line) in lines.iter().enumerate() {
        add_line(&fields, raw, &lines[..place], line, &mut list)?;
    }
    add_end(raw, &mut list)?;
    Ok(list)
}

/// Adds the faults of a line behind those so far.
#[tactic(auto, unfolding(crate::specs::HelperLists::faults_at))]
fn add_line(
    fields: &Fields,
    raw: &RawChart,
    earlier: &[Line],
    line: &Line,
    list: &mut Vec<BrokenRule>,
) -> Result<(), AllocError>
    requires all { fields.now ≡ fields_of raw.now.lines }
    requires front { (later : List Field) × (fields.now ≡ fields_of earlier.now ++ later) }
    ensures { OnOk result (list.new.items ≡ list.old.items ++ faults_at raw.now earlier.now line.now) }
{
    add_broken(&RULES, fields, raw, earlier, line, list)
}

/// Adds the faults of a line by some rules behind those so far.
fn add_broken(
    rules: &[Rule],
    fields: &Fields,
    raw: &RawChart,
    earlier: &[Line],
    line: &Line,
    list: &mut Vec<BrokenRule>,
) -> Result<(), AllocError>
    requires all { fields.now ≡ fields_of raw.now.lines }
    requires front { (later : List Field) × (fields.now ≡ fields_of earlier.now ++ later) }
    ensures { OnOk result (list.new.items ≡ list.old.items
        ++ at_line line.now.number (λ each. is_at_fault each raw.now earlier.now line.now) rules.now) }
{
    for rule in rules {
        if is_at_fault(*rule, fields, raw, earlier, line) {
            list.push(BrokenRule {
                line: line.number,
                rule: *rule,
            })?;
        }
    }
    Ok(())
}

/// Adds the faults of END behind those so far.
#[tactic(auto, unfolding(crate::specs::HelperLists::faults_at_end))]
fn add_end(raw: &RawChart, list: &mut Vec<BrokenRule>) -> Result<(), AllocError>
    ensures { OnOk result (list.new.items ≡ list.old.items ++ faults_at_end raw.now) }
{
    add_lacking(&RULES, raw, list)
}

/// Adds those of some rules that demand a line which is missing behind the faults so far.
fn add_lacking(rules: &[Rule], raw: &RawChart, list: &mut Vec<BrokenRule>) -> Result<(), AllocError>
    ensures { OnOk result (list.new.items ≡ list.old.items
        ++ at_line raw.now.end (λ each. law.lacks each raw.now.lines) rules.now) }
{
    for rule in rules {
        if lacks(*rule, raw.lines()) {
            list.push(BrokenRule {
                line: raw.end(),
                rule: *rule,
            })?;
        }
    }
    Ok(())
}
