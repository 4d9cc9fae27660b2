//! The other line that a line meets by the rule that it breaks, and what is said of items and their wheels.

ghost use Rattle.std.specs.Prelude.{◌≡◌, OnOk, option_map};
ghost use Rattle.std.specs.Io.KnownBytes.{Appends};
ghost use Rattle.fault_chart_words.specs.FaultWords.Others as law;

use crate::fault_words::parts::name_on;
use crate::wording;
use chart_line_rules::field_rules::{Fields, breaks_digits_shrink, breaks_line_twice};
use chart_line_rules::print_rules::{Item, breaks_wheel_clash, breaks_wheel_overlap};
use chart_lines::charts::{Field, Line, Name, Statement};
use chart_numerals::write_numbered;
use chart_rules::Rule;
use fault_slips::line_slips::is_near;
use std::io;
use std::io::Write;
use std::slice::from_ref;

/// Whether a line describes a name.
fn describes(name: Option<Name>, statement: &Statement) -> bool
    ensures { result ≡ law.describes name statement.now }
{
    match (name, statement) {
        (Some(name), Statement::Field(field)) => field.name.is(name),
        _ => false,
    }
}

/// Whether a line describes a name that is a letter away from another.
fn describes_near(name: Option<Name>, statement: &Statement) -> bool
    ensures { result ≡ law.describes_near name statement.now }
{
    match (name, statement) {
        (Some(name), Statement::Field(field)) => is_near(name.as_bytes(), field.name.as_bytes()),
        _ => false,
    }
}

/// Whether another line is one that a line meets by a rule.
fn meets(rule: Rule, fields: &Fields, statement: &Statement, other: &Line) -> bool
    ensures { result ≡ law.meets rule fields.now statement.now other.now }
{
    match rule {
        Rule::NameTwice => describes(name_on(statement), &other.statement),
        Rule::UnknownName => describes_near(name_on(statement), &other.statement),
        Rule::LineTwice => breaks_line_twice(from_ref(other), statement),
        Rule::DigitsShrink => breaks_digits_shrink(from_ref(other), statement),
        Rule::WheelOverlap => breaks_wheel_overlap(fields, from_ref(other), statement),
        Rule::WheelClash => breaks_wheel_clash(fields, from_ref(other), statement),
        _ => false,
    }
}

/// The first of some lines that a line meets.
#[tactic(auto, unfolding(crate::specs::FaultWords::Others::met))]
pub(crate) fn met<'a>(
    rule: Rule,
    fields: &Fields,
    among: &'a [Line],
    statement: &Statement,
) -> Option<&'a Line>
    ensures { option_map (λ line. line.now) result ≡ law.met rule fields.now among.now statement.now }
{
    among
        .iter()
        .find(|other| meets(rule, fields, statement, other))
}

/// Writes the number of a line that is met.
#[tactic(auto, unfolding(crate::specs::FaultWords::Others::number_words))]
pub(crate) fn write_other<W: Write>(out: &mut W, other: Option<&Line>) -> io::Result<()>
    ensures { OnOk result (Appends (W.contents out.old) (W.contents out.new) (law.number_words (option_map (λ line. line.now) other.entry))) }
{
    match other {
        Some(line) => write_numbered(out, "line ", line.number),
        None => out.write_all(wording::ANOTHER_LINE),
    }
}

/// Writes what a line is about.
#[tactic(auto, unfolding(crate::specs::FaultWords::Others::subject))]
pub(crate) fn write_subject<W: Write>(out: &mut W, statement: &Statement) -> io::Result<()>
    ensures { OnOk result (Appends (W.contents out.old) (W.contents out.new) (law.subject statement.now)) }
{
    match name_on(statement) {
        Some(name) => out.write_all(name.as_bytes()),
        None => out.write_all(wording::THE_LITERAL),
    }
}

/// Writes a number, behind the word for it.
#[tactic(auto, unfolding(crate::specs::FaultWords::Others::one_text))]
fn write_one<W: Write>(out: &mut W, word: &str, number: u64) -> io::Result<()>
    ensures { OnOk result (Appends (W.contents out.old) (W.contents out.new) (law.one_text word.now number)) }
{
    out.write_all(word.as_bytes())?;
    write_numbered(out, " ", number)
}

/// Writes numbers from one to another, behind the word for one of them.
#[tactic(auto, unfolding(crate::specs::FaultWords::Others::several_text))]
fn write_several<W: Write>(out: &mut W, word: &str, first: u64, last: u64) -> io::Result<()>
    ensures { OnOk result (Appends (W.contents out.old) (W.contents out.new) (law.several_text word.now first last)) }
{
    out.write_all(word.as_bytes())?;
    write_numbered(out, "s ", first)?;
    write_numbered(out, wording::TO, last)
}

/// Writes one number or several, behind the word for one of them.
pub(crate) fn write_range<W: Write>(
    out: &mut W,
    word: &str,
    first: u64,
    last: u64,
) -> io::Result<()>
    ensures { OnOk result (Appends (W.contents out.old) (W.contents out.new) (law.range_text word.now first last)) }
{
    if first == last {
        write_one(out, word, first)
    } else {
        write_several(out, word, first, last)
    }
}

/// Writes the wheels from one up to the one before another, if there are any.
fn write_item_wheels<W: Write>(out: &mut W, first: u64, end: u64) -> io::Result<()>
    ensures { OnOk result (Appends (W.contents out.old) (W.contents out.new) (law.item_wheels first end)) }
{
    if first < end {
        write_range(out, wording::TAKES_WHEEL, first, end - 1)
    } else {
        write_numbered(out, wording::BEGINS_AT_WHEEL, first)
    }
}

/// Writes the wheels of an item.
#[tactic(auto, unfolding(crate::specs::FaultWords::Others::wheel_words))]
fn write_wheels<W: Write>(out: &mut W, item: Option<Item>) -> io::Result<()>
    ensures { OnOk result (Appends (W.contents out.old) (W.contents out.new) (law.wheel_words item)) }
{
    match item {
        Some(item) => write_item_wheels(out, item.first as u64, item.end as u64),
        None => Ok(()),
    }
}

/// Writes an item with its wheels.
#[tactic(auto, unfolding(crate::specs::FaultWords::Others::taken_words))]
pub(crate) fn write_taken<W: Write>(
    out: &mut W,
    fields: &[Field],
    statement: &Statement,
) -> io::Result<()>
    ensures { OnOk result (Appends (W.contents out.old) (W.contents out.new) (law.taken_words fields.now statement.now)) }
{
    write_subject(out, statement)?;
    write_wheels(out, Item::of(fields, statement))
}

/// Writes the item that is met, with its line and its wheels.
#[tactic(auto, unfolding(crate::specs::FaultWords::Others::meeting_words))]
pub(crate) fn write_meeting<W: Write>(
    out: &mut W,
    fields: &[Field],
    other: Option<&Line>,
) -> io::Result<()>
    ensures { OnOk result (Appends (W.contents out.old) (W.contents out.new) (law.meeting_words fields.now (option_map (λ line. line.now) other.entry))) }
{
    match other {
        Some(line) => {
            out.write_all(wording::AND_IT_MEETS)?;
            write_subject(out, &line.statement)?;
            write_numbered(out, wording::OF_LINE, line.number)?;
            write_wheels(out, Item::of(fields, &line.statement))
        }
        None => Ok(()),
    }
}
