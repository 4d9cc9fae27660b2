//! What is wrong, in the words of the line that breaks a rule, and what helps.

ghost use Rattle.std.specs.Prelude.{◌≡◌, ◌+◌, ◌^◌, ◌≤◌, OnOk, option_map};
ghost use Rattle.std.specs.Io.KnownBytes.{Appends};
ghost use Rattle.chart_line_rules.specs.FieldRules.Coupled as coupled;
ghost use Rattle.chart_line_rules.specs.FieldRules.Control as control;
ghost use Rattle.chart_line_rules.specs.FieldRules.Digits.{digits_of};
ghost use Rattle.chart_line_rules.specs.FieldRules.Names as names;
ghost use Rattle.fault_chart_words.specs.FaultWords.Others as others;
ghost use Rattle.fault_chart_words.specs.FaultWords.Parts as parts;
ghost use Rattle.fault_chart_words.specs.FaultWords.Words as law;

use crate::fault_words::form_words::write_form;
use crate::fault_words::others::{
    met, write_meeting, write_other, write_range, write_subject, write_taken,
};
use crate::fault_words::parts::{coupled_place, has_stops, marked_place, name_on};
use crate::wording;
use chart_line_rules::field_rules::{Fields, first_named};
use chart_lines::charts::{
    After, ControlLevel, DetailOption, Field, Level, Line, Name, Printing, Statement,
};
use chart_numerals::{write_between, write_number, write_numbered};
use chart_rules::Rule;
use fault_slips::counts::write_count;
use std::io;
use std::io::Write;

/// What stands around a line that breaks a rule.
#[derive(Drop)]
pub(crate) struct Around<'a> {
    /// The fields of the chart, with their index.
    pub(crate) index: &'a Fields,
    /// The same fields.
    pub(crate) fields: &'a [Field],
    /// The lines of the chart.
    pub(crate) lines: &'a [Line],
    /// Those before the line.
    pub(crate) earlier: &'a [Line],
}

/// The field that a line is about, if its name has one.
fn field_on(fields: &[Field], name: Option<Name>) -> Option<Field>
    ensures { result ≡ law.field_on fields.now name }
{
    match name {
        Some(name) => first_named(fields, name),
        None => None,
    }
}

/// Writes the sign column of a field.
#[tactic(auto, unfolding(crate::specs::FaultWords::Words::sign_words))]
fn write_sign<W: Write>(out: &mut W, column: Option<u16>) -> io::Result<()>
    ensures { OnOk result (Appends (W.contents out.old) (W.contents out.new) (law.sign_words column)) }
{
    match column {
        Some(column) => write_numbered(out, wording::AND_ITS_SIGN_IN_COLUMN, column),
        None => Ok(()),
    }
}

/// Writes the columns of a name.
#[tactic(auto, unfolding(crate::specs::FaultWords::Words::columns_text))]
fn write_columns_text<W: Write>(out: &mut W, name: Name, first: u16, last: u16) -> io::Result<()>
    ensures { OnOk result (Appends (W.contents out.old) (W.contents out.new) (law.columns_text name first last)) }
{
    out.write_all(name.as_bytes())?;
    write_range(out, wording::HAS_COLUMN, u64::from(first), u64::from(last))
}

/// Writes the columns of a field.
#[tactic(auto, unfolding(crate::specs::FaultWords::Words::column_words))]
fn write_columns<W: Write>(out: &mut W, statement: &Statement) -> io::Result<()>
    ensures { OnOk result (Appends (W.contents out.old) (W.contents out.new) (law.column_words statement.now)) }
{
    match statement {
        Statement::Field(field) => {
            write_columns_text(out, field.name, field.first, field.last)?;
            write_sign(out, field.kind.sign_column())
        }
        _ => Ok(()),
    }
}

/// Writes the digits and decimals of a name.
#[tactic(auto, unfolding(crate::specs::FaultWords::Words::size_text))]
fn write_size_text<W: Write>(out: &mut W, name: Name, digits: u32, decimals: u16) -> io::Result<()>
    ensures { OnOk result (Appends (W.contents out.old) (W.contents out.new) (law.size_text name digits decimals)) }
{
    out.write_all(name.as_bytes())?;
    write_count(out, wording::HAS, digits, wording::ONE_DIGIT)?;
    write_count(out, wording::AND, u32::from(decimals), wording::ONE_DECIMAL)
}

/// Writes the size of an amount.
#[tactic(auto, unfolding(crate::specs::FaultWords::Words::size_words))]
fn write_size<W: Write>(out: &mut W, statement: &Statement) -> io::Result<()>
    ensures { OnOk result (Appends (W.contents out.old) (W.contents out.new) (law.size_words statement.now)) }
{
    match statement {
        Statement::Field(field) => {
            write_size_text(out, field.name, field.columns(), field.kind.decimals())
        }
        _ => Ok(()),
    }
}

/// Whether a name stands for an amount.
fn names_amount(field: Option<Field>) -> bool
    ensures { result ≡ names.names_amount field }
{
    match field {
        Some(field) => field.kind.is_amount(),
        None => false,
    }
}

/// What is told of an amount in the place of a text.
fn amount_words(statement: &Statement) -> &'static str
    ensures { result.now ≡ law.amount_words statement.now }
{
    match statement {
        Statement::TotalText { .. } => wording::IS_AN_AMOUNT_WITHOUT_DIGITS,
        _ => wording::IS_AN_AMOUNT,
    }
}

/// Writes which kind of field a line's name stands for.
#[tactic(auto, unfolding(crate::specs::FaultWords::Words::kind_words))]
fn write_kind<W: Write>(out: &mut W, statement: &Statement, is_amount: bool) -> io::Result<()>
    ensures { OnOk result (Appends (W.contents out.old) (W.contents out.new) (law.kind_words statement.now is_amount)) }
{
    if is_amount {
        out.write_all(amount_words(statement).as_bytes())
    } else {
        out.write_all(wording::IS_A_TEXT)
    }
}

/// The level that a line needs to be controlled, if it needs one.
fn level_needed(statement: &Statement) -> Option<ControlLevel>
    ensures { result ≡ control.level_needed statement.now }
{
    match statement {
        Statement::DetailField {
            shown: DetailOption::Indicated(level),
            ..
        } => Some(*level),
        Statement::TotalLiteral { level, .. } | Statement::TotalText { level, .. } => {
            level.control()
        }
        Statement::TotalAmount(total) => total.level.control(),
        _ => None,
    }
}

/// The word before the level that is wanted.
fn level_word(statement: &Statement) -> &'static str
    ensures { result.now ≡ law.level_word statement.now }
{
    match statement {
        Statement::DetailField { .. } => wording::INDICATE,
        _ => wording::TOTAL,
    }
}

/// Writes a level that wants a CONTROL line, behind the word that asks for it.
#[tactic(auto, unfolding(crate::specs::FaultWords::Words::control_text))]
fn write_control_text<W: Write>(out: &mut W, word: &str, level: u8) -> io::Result<()>
    ensures { OnOk result (Appends (W.contents out.old) (W.contents out.new) (law.control_text word.now level)) }
{
    write_numbered(out, word, level)?;
    write_between(out, wording::WANTS_A_CONTROL, level, wording::ONE_LINE)
}

/// Writes the level that has no CONTROL line.
#[tactic(auto, unfolding(crate::specs::FaultWords::Words::uncontrolled_words))]
fn write_uncontrolled<W: Write>(
    out: &mut W,
    statement: &Statement,
    level: Option<ControlLevel>,
) -> io::Result<()>
    ensures { OnOk result (Appends (W.contents out.old) (W.contents out.new) (law.uncontrolled_words statement.now level)) }
{
    match level {
        Some(level) => write_control_text(out, level_word(statement), level.number()),
        None => Ok(()),
    }
}

/// Writes the level of a text on a total line.
#[tactic(auto, unfolding(crate::specs::FaultWords::Words::total_level_words))]
fn write_total_level<W: Write>(out: &mut W, statement: &Statement) -> io::Result<()>
    ensures { OnOk result (Appends (W.contents out.old) (W.contents out.new) (law.total_level_words statement.now)) }
{
    match statement {
        Statement::TotalText { level, .. } => write_number(out, level.number()),
        _ => Ok(()),
    }
}

/// The digits of a total.
fn digits_of(statement: &Statement) -> u16
    ensures { result ≡ digits_of statement.now }
{
    match statement {
        Statement::TotalAmount(total) => total.digits,
        _ => 0,
    }
}

/// The columns of a field that is there.
fn columns_on(field: Option<Field>) -> u32
    ensures { result ≡ law.columns_on field }
{
    match field {
        Some(field) => field.columns(),
        None => 0,
    }
}

/// Writes the digits of a total.
#[tactic(auto, unfolding(crate::specs::FaultWords::Words::total_text))]
fn write_total_digits<W: Write>(out: &mut W, digits: u16) -> io::Result<()>
    ensures { OnOk result (Appends (W.contents out.old) (W.contents out.new) (law.total_text digits)) }
{
    write_count(
        out,
        wording::HAS_A_TOTAL_OF,
        u32::from(digits),
        wording::ONE_DIGIT,
    )
}

/// Writes columns, and the digits of a total.
#[tactic(auto, unfolding(crate::specs::FaultWords::Words::columns_and_digits))]
fn write_columns_and_digits<W: Write>(out: &mut W, columns: u32, digits: u16) -> io::Result<()>
    ensures { OnOk result (Appends (W.contents out.old) (W.contents out.new) (law.columns_and_digits columns digits)) }
{
    write_count(out, wording::HAS, columns, wording::ONE_COLUMN)?;
    write_count(
        out,
        wording::AND_ITS_TOTAL,
        u32::from(digits),
        wording::ONE_DIGIT,
    )
}

/// Writes columns, if there are any, and the digits of a total.
fn write_digits_text<W: Write>(out: &mut W, columns: u32, digits: u16) -> io::Result<()>
    ensures { OnOk result (Appends (W.contents out.old) (W.contents out.new) (law.digits_text columns digits)) }
{
    if columns == 0 {
        write_total_digits(out, digits)
    } else {
        write_columns_and_digits(out, columns, digits)
    }
}

/// Writes the digits of a total, and the columns of its field, if it has any.
#[tactic(auto, unfolding(crate::specs::FaultWords::Words::digit_words))]
fn write_digits<W: Write>(
    out: &mut W,
    field: Option<Field>,
    statement: &Statement,
) -> io::Result<()>
    ensures { OnOk result (Appends (W.contents out.old) (W.contents out.new) (law.digit_words field statement.now)) }
{
    write_subject(out, statement)?;
    write_digits_text(out, columns_on(field), digits_of(statement))
}

/// Whether a field is there and has a sign rule.
fn has_sign(field: Option<Field>) -> bool
    ensures { result ≡ coupled.has_sign field }
{
    match field {
        Some(field) => field.kind.sign_column().is_some(),
        None => false,
    }
}

/// Writes that a sign column has no mark, or a mark no sign column.
#[tactic(auto, unfolding(crate::specs::FaultWords::Words::mark_words))]
fn write_mismatch<W: Write>(out: &mut W, has_sign: bool) -> io::Result<()>
    ensures { OnOk result (Appends (W.contents out.old) (W.contents out.new) (law.mark_words has_sign)) }
{
    if has_sign {
        out.write_all(wording::HAS_A_SIGN_COLUMN)
    } else {
        out.write_all(wording::HAS_NO_SIGN_COLUMN)
    }
}

/// What doesn't go with what is printed.
#[tactic(auto, unfolding(crate::specs::FaultWords::Words::print_words))]
fn print_words(statement: &Statement) -> &'static str
    ensures { result.now ≡ law.print_words statement.now }
{
    match statement {
        Statement::Print(Printing::Detail) => wording::NO_DETAIL_LINE,
        Statement::Print(Printing::Group) => wording::NO_TOTAL_LINE,
        Statement::Space { .. } | Statement::After { .. } => wording::NOTHING_IS_PRINTED_THERE,
        _ => wording::PRINT_GROUP_PRINTS_TOTALS,
    }
}

/// Writes that a channel has no TAPE line.
#[tactic(auto, unfolding(crate::specs::FaultWords::Words::no_tape))]
fn write_no_tape<W: Write>(out: &mut W, channel: u16) -> io::Result<()>
    ensures { OnOk result (Appends (W.contents out.old) (W.contents out.new) (law.no_tape channel)) }
{
    write_between(out, wording::CHANNEL, channel, wording::HAS_NO_TAPE_LINE)
}

/// Writes that no TAPE line is of the channel of a skip, or can be.
#[tactic(auto, unfolding(crate::specs::FaultWords::Words::skip_words))]
fn write_skip<W: Write>(out: &mut W, channel: u16) -> io::Result<()>
    ensures { OnOk result (Appends (W.contents out.old) (W.contents out.new) (law.skip_words channel)) }
{
    if has_stops(channel) {
        write_no_tape(out, channel)
    } else {
        out.write_all(wording::A_SKIP_GOES_TO_A_CHANNEL)
    }
}

/// Writes that a channel can't have stops.
#[tactic(auto, unfolding(crate::specs::FaultWords::Words::no_stops))]
fn write_no_stops<W: Write>(out: &mut W, channel: u16) -> io::Result<()>
    ensures { OnOk result (Appends (W.contents out.old) (W.contents out.new) (law.no_stops channel)) }
{
    write_between(
        out,
        wording::THE_CHANNEL_IS,
        channel,
        wording::AND_ONLY_2_TO_11_HAVE_STOPS,
    )
}

/// Writes what is wrong with a TAPE line: its channel, or its stops.
#[tactic(auto, unfolding(crate::specs::FaultWords::Words::stops_words))]
fn write_stops<W: Write>(out: &mut W, channel: u16) -> io::Result<()>
    ensures { OnOk result (Appends (W.contents out.old) (W.contents out.new) (law.stops_words channel)) }
{
    if has_stops(channel) {
        out.write_all(wording::THE_STOPS_DONT_RISE)
    } else {
        write_no_stops(out, channel)
    }
}

/// Writes what is wrong with a skip to a channel without a TAPE line, or with a TAPE line.
#[tactic(auto, unfolding(crate::specs::FaultWords::Words::tape_words))]
fn write_tape<W: Write>(out: &mut W, statement: &Statement) -> io::Result<()>
    ensures { OnOk result (Appends (W.contents out.old) (W.contents out.new) (law.tape_words statement.now)) }
{
    match statement {
        Statement::After {
            action: After::Skip(channel),
            ..
        } => write_skip(out, *channel),
        Statement::Tape { channel, .. } => write_stops(out, *channel),
        _ => Ok(()),
    }
}

/// How many counter groups a total takes.
#[tactic(auto, unfolding(crate::specs::FaultWords::Words::group_words))]
fn group_words(needs_two: bool) -> &'static str
    ensures { result.now ≡ law.group_words needs_two }
{
    if needs_two {
        wording::IT_TAKES_TWO_GROUPS
    } else {
        wording::ONE_GROUP_IS_ENOUGH
    }
}

/// The positions that a total of a field needs.
fn positions_of(field: Option<Field>, digits: u16) -> u32
    ensures { result ≡ coupled.positions_of field digits }
{
    let sign = if has_sign(field) { 1 } else { 0 };
    u32::from(digits) + sign
}

/// Whether so many positions take two counter groups.
fn needs_two(need: u32) -> bool
    ensures { result ≡ coupled.needs_two need }
{
    need > 8
}

/// Writes how many counter groups a total takes.
fn write_groups<W: Write>(out: &mut W, needs_two: bool) -> io::Result<()>
    ensures { OnOk result (Appends (W.contents out.old) (W.contents out.new) (law.group_words needs_two)) }
{
    out.write_all(group_words(needs_two).as_bytes())
}

/// Writes how many positions a total needs.
#[tactic(auto, unfolding(crate::specs::FaultWords::Words::need_text))]
fn write_need<W: Write>(out: &mut W, need: u32) -> io::Result<()>
    ensures { OnOk result (Appends (W.contents out.old) (W.contents out.new) (law.need_text need)) }
{
    write_count(out, wording::THE_TOTAL_NEEDS, need, wording::ONE_POSITION)
}

/// Writes that, and how many counter groups it takes.
#[tactic(auto, unfolding(crate::specs::FaultWords::Words::coupled_words))]
fn write_coupled<W: Write>(out: &mut W, need: u32) -> io::Result<()>
    ensures { OnOk result (Appends (W.contents out.old) (W.contents out.new) (law.coupled_words need)) }
{
    write_need(out, need)?;
    write_groups(out, needs_two(need))
}

/// Writes a name that another line describes.
#[tactic(auto, unfolding(crate::specs::FaultWords::Words::described_words))]
fn write_described<W: Write>(
    out: &mut W,
    statement: &Statement,
    other: Option<&Line>,
) -> io::Result<()>
    ensures { OnOk result (Appends (W.contents out.old) (W.contents out.new) (law.described_words statement.now (option_map (λ line. line.now) other.entry))) }
{
    write_subject(out, statement)?;
    out.write_all(wording::IS_DESCRIBED_ALREADY_ON)?;
    write_other(out, other)
}

/// Writes a name that no line describes.
#[tactic(auto, unfolding(crate::specs::FaultWords::Words::undescribed_words))]
fn write_undescribed<W: Write>(out: &mut W, statement: &Statement) -> io::Result<()>
    ensures { OnOk result (Appends (W.contents out.old) (W.contents out.new) (law.undescribed_words statement.now)) }
{
    out.write_all(wording::NO_FIELD_LINE_DESCRIBES)?;
    write_subject(out, statement)
}

/// Asks for a name that a line describes.
#[tactic(auto, unfolding(crate::specs::FaultWords::Words::asked_words))]
fn write_asked<W: Write>(out: &mut W, statement: &Statement) -> io::Result<()>
    ensures { OnOk result (Appends (W.contents out.old) (W.contents out.new) (law.asked_words statement.now)) }
{
    out.write_all(wording::DID_YOU_MEAN)?;
    write_subject(out, statement)
}

/// Asks for the name that a line describes, if it may be meant.
#[tactic(auto, unfolding(crate::specs::FaultWords::Words::meant_words))]
fn write_meant<W: Write>(out: &mut W, other: Option<&Line>) -> io::Result<()>
    ensures { OnOk result (Appends (W.contents out.old) (W.contents out.new) (law.meant_words (option_map (λ line. line.now) other.entry))) }
{
    match other {
        Some(line) => {
            write_asked(out, &line.statement)?;
            out.write_all(b"?")
        }
        None => Ok(()),
    }
}

/// Writes a name that no line describes, and the one that may be meant.
#[tactic(auto, unfolding(crate::specs::FaultWords::Words::unknown_words))]
fn write_unknown<W: Write>(
    out: &mut W,
    statement: &Statement,
    other: Option<&Line>,
) -> io::Result<()>
    ensures { OnOk result (Appends (W.contents out.old) (W.contents out.new) (law.unknown_words statement.now (option_map (λ line. line.now) other.entry))) }
{
    write_undescribed(out, statement)?;
    write_meant(out, other)
}

/// Writes a name of the wrong kind of field.
#[tactic(auto, unfolding(crate::specs::FaultWords::Words::wrong_kind_words))]
fn write_wrong_kind<W: Write>(out: &mut W, statement: &Statement, is_amount: bool) -> io::Result<()>
    ensures { OnOk result (Appends (W.contents out.old) (W.contents out.new) (law.wrong_kind_words statement.now is_amount)) }
{
    write_subject(out, statement)?;
    write_kind(out, statement, is_amount)
}

/// Writes the printed line of an item.
#[tactic(auto, unfolding(crate::specs::FaultWords::Words::line_of_item))]
fn write_line_of_item<W: Write>(out: &mut W, statement: &Statement) -> io::Result<()>
    ensures { OnOk result (Appends (W.contents out.old) (W.contents out.new) (law.line_of_item statement.now)) }
{
    match statement {
        Statement::TotalText { level, .. } => write_numbered(out, wording::TOTAL, level.number()),
        Statement::TotalAmount(total) => write_numbered(out, wording::TOTAL, total.level.number()),
        _ => out.write_all(wording::THE_LINE_OF_A_CARD),
    }
}

/// Writes a field that is on a printed line already.
#[tactic(auto, unfolding(crate::specs::FaultWords::Words::item_twice_words))]
fn write_item_twice<W: Write>(
    out: &mut W,
    statement: &Statement,
    other: Option<&Line>,
) -> io::Result<()>
    ensures { OnOk result (Appends (W.contents out.old) (W.contents out.new) (law.item_twice_words statement.now (option_map (λ line. line.now) other.entry))) }
{
    write_subject(out, statement)?;
    out.write_all(wording::IS_ON)?;
    write_line_of_item(out, statement)?;
    out.write_all(wording::ALREADY_BY)?;
    write_other(out, other)
}

/// Which line there is already.
fn line_there(statement: &Statement) -> &'static str
    ensures { result.now ≡ law.line_there statement.now }
{
    match statement {
        Statement::Print(_) => wording::IS_A_PRINT_LINE_ALREADY,
        Statement::Form { .. } => wording::IS_A_FORM_LINE_ALREADY,
        Statement::Control { .. } => wording::HAS_THIS_LEVEL_AND_FIELD_ALREADY,
        Statement::Space { .. } => wording::SPACES_THIS_KIND_OF_LINE_ALREADY,
        Statement::After { .. } => wording::SAYS_WHAT_FOLLOWS_ALREADY,
        Statement::Tape { .. } => wording::IS_A_TAPE_LINE_ALREADY,
        _ => wording::SAYS_THIS_ALREADY,
    }
}

/// Writes a line of which a chart has one.
#[tactic(auto, unfolding(crate::specs::FaultWords::Words::line_twice_words))]
fn write_line_twice<W: Write>(
    out: &mut W,
    statement: &Statement,
    other: Option<&Line>,
) -> io::Result<()>
    ensures { OnOk result (Appends (W.contents out.old) (W.contents out.new) (law.line_twice_words statement.now (option_map (λ line. line.now) other.entry))) }
{
    write_other(out, other)?;
    out.write_all(line_there(statement).as_bytes())
}

/// Whether a line puts a field on a printed line.
fn is_field_item(statement: &Statement) -> bool
    ensures { result ≡ law.is_field_item statement.now }
{
    match statement {
        Statement::DetailField { .. } | Statement::TotalText { .. } | Statement::TotalAmount(_) =>
            true,
        _ => false,
    }
}

/// Writes what a chart says twice.
fn write_said<W: Write>(
    out: &mut W,
    is_item: bool,
    statement: &Statement,
    other: Option<&Line>,
) -> io::Result<()>
    ensures { OnOk result (Appends (W.contents out.old) (W.contents out.new) (law.said_words is_item statement.now (option_map (λ line. line.now) other.entry))) }
{
    if is_item {
        write_item_twice(out, statement, other)
    } else {
        write_line_twice(out, statement, other)
    }
}

/// Writes a text on a total line that is no control field.
#[tactic(auto, unfolding(crate::specs::FaultWords::Words::not_control_words))]
fn write_not_control<W: Write>(out: &mut W, statement: &Statement) -> io::Result<()>
    ensures { OnOk result (Appends (W.contents out.old) (W.contents out.new) (law.not_control_words statement.now)) }
{
    write_subject(out, statement)?;
    out.write_all(wording::IS_NO_CONTROL_FIELD_OF_LEVEL)?;
    write_total_level(out, statement)?;
    out.write_all(wording::OR_A_HIGHER_ONE)
}

/// Whether a line is a text on the total line of the whole deck.
fn is_of_deck(statement: &Statement) -> bool
    ensures { result ≡ law.is_of_deck statement.now }
{
    matches!(
        statement,
        Statement::TotalText {
            level: Level::Final,
            ..
        }
    )
}

/// Writes a text that isn't the same on all cards of its total.
fn write_total_text<W: Write>(
    out: &mut W,
    is_of_deck: bool,
    statement: &Statement,
) -> io::Result<()>
    ensures { OnOk result (Appends (W.contents out.old) (W.contents out.new) (law.total_text_words is_of_deck statement.now)) }
{
    if is_of_deck {
        out.write_all(wording::TOTAL_4_HAS_NO_TEXT)
    } else {
        write_not_control(out, statement)
    }
}

/// Writes a total that has fewer digits than a lower one.
#[tactic(auto, unfolding(crate::specs::FaultWords::Words::shrink_words))]
fn write_shrink<W: Write>(
    out: &mut W,
    statement: &Statement,
    other: Option<&Line>,
) -> io::Result<()>
    ensures { OnOk result (Appends (W.contents out.old) (W.contents out.new) (law.shrink_words statement.now (option_map (λ line. line.now) other.entry))) }
{
    write_other(out, other)?;
    out.write_all(wording::HAS_A_LOWER_TOTAL_OF)?;
    write_subject(out, statement)?;
    out.write_all(wording::IN_MORE_DIGITS)
}

/// Writes an amount whose mark doesn't match its sign column.
#[tactic(auto, unfolding(crate::specs::FaultWords::Words::mismatch_words))]
fn write_unmatched<W: Write>(out: &mut W, statement: &Statement, is_signed: bool) -> io::Result<()>
    ensures { OnOk result (Appends (W.contents out.old) (W.contents out.new) (law.mismatch_words statement.now is_signed)) }
{
    write_subject(out, statement)?;
    write_mismatch(out, is_signed)
}

/// Writes an item, and the one whose wheels it takes.
#[tactic(auto, unfolding(crate::specs::FaultWords::Words::wheels_met))]
fn write_wheels_met<W: Write>(
    out: &mut W,
    fields: &[Field],
    statement: &Statement,
    other: Option<&Line>,
) -> io::Result<()>
    ensures { OnOk result (Appends (W.contents out.old) (W.contents out.new) (law.wheels_met fields.now statement.now (option_map (λ line. line.now) other.entry))) }
{
    write_taken(out, fields, statement)?;
    write_meeting(out, fields, other)
}

impl<'a> Around<'a> {
    /// The first line before the line that it meets by a rule.
    fn met_earlier(&self, rule: Rule, statement: &Statement) -> Option<&'a Line>
        requires { self.now.index.now ≡ self.now.fields.now }
        ensures { option_map (λ line. line.now) result ≡ others.met rule self.now.fields.now self.now.earlier.now statement.now }
    {
        met(rule, self.index, self.earlier, statement)
    }

    /// The first line of the chart that it meets.
    fn met_anywhere(&self, rule: Rule, statement: &Statement) -> Option<&'a Line>
        requires { self.now.index.now ≡ self.now.fields.now }
        ensures { option_map (λ line. line.now) result ≡ others.met rule self.now.fields.now self.now.lines.now statement.now }
    {
        met(rule, self.index, self.lines, statement)
    }

    /// The field that the line is about.
    fn field_of(&self, statement: &Statement) -> Option<Field>
        ensures { result ≡ law.field_on self.now.fields.now (parts.name_on statement.now) }
    {
        field_on(self.fields, name_on(statement))
    }
}

/// The positions that the total of a line needs.
fn need_on(fields: &[Field], statement: &Statement) -> u32
    ensures { result ≡ law.need_on fields.now statement.now }
{
    positions_of(field_on(fields, name_on(statement)), digits_of(statement))
}

/// The place of the word that is marked on a line of a chart.
pub(crate) fn place_on(rule: Rule, fields: &[Field], chart: &[Line], statement: &Statement) -> usize
    ensures { result ≡ law.place_on rule fields.now chart.now statement.now }
{
    match rule {
        Rule::CoupledMark => coupled_place(needs_two(need_on(fields, statement))),
        _ => marked_place(rule, chart, statement),
    }
}

/// Writes what is wrong with a line by the rule that it breaks.
pub(crate) fn write_words<W: Write>(
    out: &mut W,
    rule: Rule,
    around: &Around,
    statement: &Statement,
) -> io::Result<()>
    requires { around.now.index.now ≡ around.now.fields.now }
    ensures { OnOk result (Appends (W.contents out.old) (W.contents out.new)
        (law.words rule around.now.fields.now around.now.lines.now around.now.earlier.now statement.now)) }
{
    match rule {
        Rule::NameTwice => {
            let other = around.met_earlier(Rule::NameTwice, statement);
            write_described(out, statement, other)
        }
        Rule::Columns => write_columns(out, statement),
        Rule::AmountSize => write_size(out, statement),
        Rule::UnknownName => {
            let other = around.met_anywhere(Rule::UnknownName, statement);
            write_unknown(out, statement, other)
        }
        Rule::WrongKind => {
            write_wrong_kind(out, statement, names_amount(around.field_of(statement)))
        }
        Rule::LineTwice => {
            let other = around.met_earlier(Rule::LineTwice, statement);
            write_said(out, is_field_item(statement), statement, other)
        }
        Rule::NoControl => write_uncontrolled(out, statement, level_needed(statement)),
        Rule::TotalTextNotControl => write_total_text(out, is_of_deck(statement), statement),
        Rule::DigitsRange => write_digits(out, around.field_of(statement), statement),
        Rule::DigitsShrink => {
            let other = around.met_anywhere(Rule::DigitsShrink, statement);
            write_shrink(out, statement, other)
        }
        Rule::MarkMismatch => {
            write_unmatched(out, statement, has_sign(around.field_of(statement)))
        }
        Rule::WheelRange => write_taken(out, around.fields, statement),
        Rule::WheelOverlap => {
            let other = around.met_earlier(Rule::WheelOverlap, statement);
            write_wheels_met(out, around.fields, statement, other)
        }
        Rule::WheelClash => {
            let other = around.met_earlier(Rule::WheelClash, statement);
            write_wheels_met(out, around.fields, statement, other)
        }
        Rule::PrintKind => out.write_all(print_words(statement).as_bytes()),
        Rule::Form => write_form(out, around.lines, statement),
        Rule::Tape => write_tape(out, statement),
        Rule::CoupledMark => write_coupled(out, need_on(around.fields, statement)),
    }
}

/// What is wrong at END.
pub(crate) fn end_words(rule: Rule) -> &'static str
    ensures { result.now ≡ law.end_words rule }
{
    match rule {
        Rule::PrintKind => wording::THERE_IS_NO_PRINT_LINE,
        _ => wording::THERE_IS_NO_FORM_LINE,
    }
}

/// What helps an amount: fewer digits, or fewer decimals.
fn fewer(is_long: bool) -> &'static str
    ensures { result.now ≡ law.fewer is_long }
{
    if is_long {
        wording::FEWER_DIGITS
    } else {
        wording::FEWER_DECIMALS
    }
}

/// The same of the amount of a line.
fn size_cure(statement: &Statement) -> &'static str
    ensures { result.now ≡ law.size_cure statement.now }
{
    match statement {
        Statement::Field(field) => fewer(field.columns() > 8),
        _ => "",
    }
}

/// What helps a level without a CONTROL line.
fn control_cure(level: Option<ControlLevel>) -> &'static str
    ensures { result.now ≡ law.control_cure level }
{
    match level {
        Some(ControlLevel::Minor) => wording::WRITE_CONTROL_1,
        Some(ControlLevel::Intermediate) => wording::WRITE_CONTROL_2,
        Some(ControlLevel::Major) => wording::WRITE_CONTROL_3,
        None => "",
    }
}

/// What helps a text that isn't the same on all cards of its total.
fn total_text_cure(is_of_deck: bool) -> &'static str
    ensures { result.now ≡ law.total_text_cure is_of_deck }
{
    if is_of_deck {
        wording::TAKE_OUT_OR_PRINT_ON_DETAIL
    } else {
        wording::MAKE_IT_A_CONTROL_FIELD
    }
}

/// What helps if a line doesn't go with what is printed.
fn print_cure(statement: &Statement) -> &'static str
    ensures { result.now ≡ law.print_cure statement.now }
{
    match statement {
        Statement::Print(Printing::Detail) => wording::WRITE_A_DETAIL_LINE,
        Statement::Print(Printing::Group) => wording::WRITE_A_TOTAL_LINE,
        Statement::Space { .. } | Statement::After { .. } => wording::TAKE_OUT_OR_WRITE_THE_ITEM,
        _ => wording::WRITE_PRINT_DETAIL,
    }
}

/// What helps a form.
fn form_cure() -> &'static str
    ensures { result.now ≡ law.form_cure }
{
    wording::A_FORM_IS
}

/// What helps at END.
pub(crate) fn end_cure(rule: Rule) -> &'static str
    ensures { result.now ≡ law.end_cure rule }
{
    match rule {
        Rule::PrintKind => wording::WRITE_A_PRINT_LINE,
        _ => form_cure(),
    }
}

/// What helps, by what the line says.
pub(crate) fn cure(rule: Rule, statement: &Statement) -> &'static str
    ensures { result.now ≡ law.cure rule statement.now }
{
    match rule {
        Rule::NameTwice => wording::GIVE_IT_ANOTHER_NAME,
        Rule::Columns => wording::A_CARD_HAS_COLUMNS,
        Rule::AmountSize => size_cure(statement),
        Rule::UnknownName => wording::WRITE_THE_FIELD_LINE,
        Rule::WrongKind => wording::A_TOTAL_NEEDS_ITS_DIGITS,
        Rule::LineTwice => wording::TAKE_ONE_OF_THEM_OUT,
        Rule::NoControl => control_cure(level_needed(statement)),
        Rule::TotalTextNotControl => total_text_cure(is_of_deck(statement)),
        Rule::DigitsRange => wording::A_TOTAL_HAS_DIGITS,
        Rule::DigitsShrink => wording::A_HIGHER_TOTAL_NEEDS_DIGITS,
        Rule::MarkMismatch => wording::EVERY_SIGNED_AMOUNT_HAS_A_MARK,
        Rule::WheelRange => wording::THE_MACHINE_HAS_WHEELS,
        Rule::WheelOverlap => wording::MOVE_ONE_OF_THEM,
        Rule::WheelClash => wording::AN_AMOUNT_SHARES_WHEELS,
        Rule::PrintKind => print_cure(statement),
        Rule::Form => form_cure(),
        Rule::Tape => wording::WRITE_A_TAPE_LINE,
        Rule::CoupledMark => wording::WRITE_COUPLED,
    }
}
