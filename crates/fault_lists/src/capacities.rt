//! The entries of capacities that a chart exceeds.

ghost use Rattle.std.specs.Prelude.{◌≡◌, OnOk};
ghost use Rattle.std.specs.Io.KnownBytes.{Appends};
ghost use Rattle.fault_lists.specs.CapacityEntries as law;
ghost use Rattle.chart_plans.specs.WantedWords.Totals.{class_of, is_at_least};

use allocate::CapacityFault;
use chart_lines::charts::{ControlLevel, DetailOption, Line, Name, Statement};
use chart_numerals::{write_between, write_numbered};
use chart_plans::wanted::{Parts, Total, takes_two};
use fault_lines::faults::{Fault, write_line};
use fault_slips::line_marks::{line_numbered, token_span, write_below, write_shown};
use std::io;
use std::io::Write;

/// A chart with its text.
#[derive(Drop)]
pub(crate) struct Source<'a> {
    /// The text.
    pub(crate) text: &'a [u8],
    /// The lines of the chart.
    pub(crate) lines: &'a [Line],
    /// Its totals.
    pub(crate) totals: &'a [Total],
    /// What the parts of the machine other than the counter groups are to serve.
    pub(crate) parts: &'a Parts,
}

/// What is wrong where a capacity is exceeded.
fn capacity_words(fault: CapacityFault) -> &'static str
    ensures { result.now ≡ law.capacity_words fault }
{
    match fault {
        CapacityFault::Counters { .. } =>
            "the totals want more counter groups of this width or a larger one than there are",
        CapacityFault::Pilots { .. } =>
            "more amounts with a sign column are printed than the machine has pilots",
        CapacityFault::Comparing { .. } =>
            "the CONTROL lines name more columns than the machine compares",
        CapacityFault::StorageWidth { .. } =>
            "the text on this TOTAL line has more than the 16 columns of a storage unit",
        CapacityFault::StorageUnits { .. } =>
            "more texts stand on TOTAL lines than the machine has storage units",
        CapacityFault::Splits { .. } =>
            "more DETAIL amounts have their sign column among their own columns than the machine has splits",
        CapacityFault::Indicate { .. } =>
            "the INDICATE items of this level have more columns than the machine has positions",
        CapacityFault::Memory => "",
    }
}

/// What helps.
fn cure(fault: CapacityFault) -> &'static str
    ensures { result.now ≡ law.cure fault }
{
    match fault {
        CapacityFault::Counters { .. } =>
            "print a total in fewer digits, or drop one: a total needs a position for each digit, and one more with a sign column",
        CapacityFault::Pilots { .. } =>
            "drop the sign column of amounts that are never negative, or print fewer of them",
        CapacityFault::Comparing { .. } =>
            "shorten a control field to the columns that tell its groups apart, or drop a level",
        CapacityFault::StorageWidth { .. } =>
            "describe the columns once more as a shorter FIELD, and make that the control field",
        CapacityFault::StorageUnits { .. } =>
            "print texts on the DETAIL line with INDICATE, and not on TOTAL lines",
        CapacityFault::Splits { .. } =>
            "drop the sign column of amounts that are never negative, or punch signs in a column beside the digits",
        CapacityFault::Indicate { .. } => "print some of them on every card, or shorten them",
        CapacityFault::Memory => "",
    }
}

/// Writes a line of the text with a number, and a mark under one of its words.
fn write_marked<W: Write>(out: &mut W, text: &[u8], number: u16, place: usize) -> io::Result<()>
    ensures { OnOk result (Appends (W.contents out.old) (W.contents out.new) (law.marked text.now number place)) }
{
    let line = line_numbered(text, u32::from(number));
    write_shown(out, line, token_span(line, place))
}

/// Writes whether a need takes two groups, behind it.
fn write_groups<W: Write>(out: &mut W, need: u32) -> io::Result<()>
    ensures { OnOk result (Appends (W.contents out.old) (W.contents out.new) (law.groups_words need)) }
{
    if takes_two(need) {
        out.write_all(b", so two groups of 8\n")
    } else {
        out.write_all(b"\n")
    }
}

/// Writes how many positions a total needs, by its line.
fn write_positions<W: Write>(out: &mut W, total: Total) -> io::Result<()>
    ensures { OnOk result (Appends (W.contents out.old) (W.contents out.new) (law.positions_words total)) }
{
    write_between(out, "  line ", total.line, ", ")?;
    write_numbered(out, "positions needed: ", total.need)?;
    write_groups(out, total.need)
}

/// Writes how many positions a total needs, and its line with a mark under the digits.
fn write_need<W: Write>(out: &mut W, text: &[u8], total: Total) -> io::Result<()>
    ensures { OnOk result (Appends (W.contents out.old) (W.contents out.new) (law.need_words text.now total)) }
{
    write_positions(out, total)?;
    write_marked(out, text, total.line, 4)
}

/// The smallest width of 3, 4, 6 and 8 positions that is enough for a need, or 8 where none is.
fn class_of(need: u32) -> u8
    ensures { result ≡ class_of need }
{
    match need {
        0..=3 => 3,
        4 => 4,
        5 | 6 => 6,
        _ => 8,
    }
}

/// Whether a need wants a counter group of a width or a wider one.
fn is_at_least(width: u8, need: u32) -> bool
    ensures { result ≡ is_at_least width need }
{
    width <= class_of(need)
}

/// Writes the line of a total that wants a counter group of a width or a wider one, and how many positions it needs.
#[tactic(auto, unfolding(crate::specs::CapacityEntries::need_at))]
fn write_if_wanted<W: Write>(out: &mut W, text: &[u8], width: u8, total: Total) -> io::Result<()>
    ensures { OnOk result (Appends (W.contents out.old) (W.contents out.new) (law.need_at text.now width total)) }
{
    if is_at_least(width, total.need) {
        write_need(out, text, total)
    } else {
        Ok(())
    }
}

/// Writes the lines of the totals that want counter groups of a width or wider ones, and how many positions each needs.
fn write_needs<W: Write>(out: &mut W, text: &[u8], width: u8, totals: &[Total]) -> io::Result<()>
    ensures { OnOk result (Appends (W.contents out.old) (W.contents out.new) (law.needs_at text.now width totals.now)) }
{
    for total in totals {
        write_if_wanted(out, text, width, *total)?;
    }
    Ok(())
}

/// The place of the name on a CONTROL line.
fn control_place(statement: &Statement) -> Option<usize>
    ensures { result ≡ law.control_place statement.now }
{
    match statement {
        Statement::Control { .. } => Some(2),
        _ => None,
    }
}

/// The place of the text on a TOTAL line.
fn text_place(statement: &Statement) -> Option<usize>
    ensures { result ≡ law.text_place statement.now }
{
    match statement {
        Statement::TotalText { .. } => Some(3),
        _ => None,
    }
}

/// The place of a field that is shown on the first card of each group of a level.
fn indicated_place(level: ControlLevel, statement: &Statement) -> Option<usize>
    ensures { result ≡ law.indicated_place level statement.now }
{
    match statement {
        Statement::DetailField {
            shown: DetailOption::Indicated(own),
            ..
        } if own.number() == level.number() => Some(2),
        _ => None,
    }
}

/// Whether an amount is one of those that pilots serve.
fn is_served(pilots: &[Name], name: Name) -> bool
    ensures { result ≡ law.is_served pilots.now name }
{
    pilots.iter().any(|pilot| name.is(*pilot))
}

/// The place of an amount that a pilot serves, on whichever line it is printed, with a mark or without one.
fn pilot_place(pilots: &[Name], statement: &Statement) -> Option<usize>
    ensures { result ≡ law.pilot_place pilots.now statement.now }
{
    match statement {
        Statement::DetailField { name, .. } if is_served(pilots, *name) => Some(2),
        Statement::TotalAmount(total) if is_served(pilots, total.name) => Some(3),
        _ => None,
    }
}

/// Whether a line's number is one of some.
fn is_among(numbers: &[u16], number: u16) -> bool
    ensures { result ≡ law.is_among numbers.now number }
{
    numbers.iter().any(|each| *each == number)
}

/// The place of an amount that a column split serves: those of a DETAIL line, told by the line's number.
fn split_place(splits: &[u16], number: u16) -> Option<usize>
    ensures { result ≡ law.split_place splits.now number }
{
    if is_among(splits, number) {
        Some(2)
    } else {
        None
    }
}

/// The place of the word by which a line asks for a capacity, if it does: of pilots and column splits by what these are to serve. Lines
/// that ask for counter groups are told by their totals.
fn asking_place(parts: &Parts, fault: CapacityFault, line: &Line) -> Option<usize>
    ensures { result ≡ law.asking_place parts.now fault line.now }
{
    match fault {
        CapacityFault::Pilots { .. } => pilot_place(parts.pilots(), &line.statement),
        CapacityFault::Comparing { .. } => control_place(&line.statement),
        CapacityFault::StorageWidth { line: number } if line.number == number => text_place(
            &line.statement,
        ),
        CapacityFault::StorageUnits { .. } => text_place(&line.statement),
        CapacityFault::Splits { .. } => split_place(parts.splits(), line.number),
        CapacityFault::Indicate { level, .. } => indicated_place(level, &line.statement),
        _ => None,
    }
}

/// Writes a line by its number, with a mark under the word by which it asks for a capacity, if it does.
#[tactic(auto, unfolding(crate::specs::CapacityEntries::asking_text))]
fn write_asking<W: Write>(
    out: &mut W,
    text: &[u8],
    number: u16,
    place: Option<usize>,
) -> io::Result<()>
    ensures { OnOk result (Appends (W.contents out.old) (W.contents out.new) (law.asking_text text.now number place)) }
{
    match place {
        None => Ok(()),
        Some(place) => {
            write_between(out, "  line ", number, "\n")?;
            write_marked(out, text, number, place)
        }
    }
}

/// Writes the lines that ask for a capacity.
fn write_lines_asking<W: Write>(
    out: &mut W,
    text: &[u8],
    parts: &Parts,
    fault: CapacityFault,
    lines: &[Line],
) -> io::Result<()>
    ensures { OnOk result (Appends (W.contents out.old) (W.contents out.new) (law.lines_asking text.now parts.now fault lines.now)) }
{
    for line in lines {
        write_asking(out, text, line.number, asking_place(parts, fault, line))?;
    }
    Ok(())
}

/// Writes what of a chart asks for a capacity: of counter groups the totals, and else the lines.
#[tactic(auto, unfolding(crate::specs::CapacityEntries::wanted_words))]
fn write_wanted<W: Write>(out: &mut W, source: &Source, fault: CapacityFault) -> io::Result<()>
    ensures { OnOk result (Appends (W.contents out.old) (W.contents out.new)
        (law.wanted_words source.now.text.now source.now.lines.now source.now.totals.now source.now.parts.now fault)) }
{
    match fault {
        CapacityFault::Counters { width, .. } => write_needs(
            out,
            source.text,
            width,
            source.totals,
        ),
        _ => write_lines_asking(out, source.text, source.parts, fault, source.lines),
    }
}

/// Writes the entry of a capacity that is exceeded.
fn write_capacity_entry<W: Write>(
    out: &mut W,
    source: &Source,
    fault: CapacityFault,
) -> io::Result<()>
    ensures { OnOk result (Appends (W.contents out.old) (W.contents out.new)
        (law.capacity_entry source.now.text.now source.now.lines.now source.now.totals.now source.now.parts.now fault)) }
{
    write_line(&Fault::from(fault), out)?;
    write_below(out, capacity_words(fault).as_bytes())?;
    write_wanted(out, source, fault)?;
    write_below(out, cure(fault).as_bytes())
}

/// Writes the entries of some capacities that a chart exceeds.
pub(crate) fn write_capacities<W: Write>(
    out: &mut W,
    source: &Source,
    list: &[CapacityFault],
) -> io::Result<()>
    ensures { OnOk result (Appends (W.contents out.old) (W.contents out.new)
        (law.capacities_text source.now.text.now source.now.lines.now source.now.totals.now source.now.parts.now list.now)) }
{
    for fault in list {
        write_capacity_entry(out, source, *fault)?;
    }
    Ok(())
}
