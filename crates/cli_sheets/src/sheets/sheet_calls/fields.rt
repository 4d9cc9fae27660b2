//! What the fields of a planning chart read on a card of a deck.

ghost use Rattle.std.specs.Prelude.{◌≡◌, ◌≢◌, ◌≤◌, ◌⊎◌, ◌++◌, IfErr, IfNone, IfOk, IfSome, OnOk};
ghost use Rattle.card_code.specs.Deck.{IsCardOf};
ghost use Rattle.chart_line_rules.specs.FieldRules.Fields.{fields_of};
ghost use Rattle.fault_lines.specs.FaultsWords.Lines.{IsTold, fault_line};
ghost use Rattle.fault_lines.specs.FaultsWords.Status.{status_of};
ghost use Rattle.fault_lines.specs.FaultsWords.ToldFaults.{deck_told, of_card, run_told};
ghost use Rattle.fault_lines.specs.ProgramIo.Fronts.{WritesFront};
ghost use Rattle.cli_sheets.specs.SheetsWords.SheetCalls.CardSheets as sheet;

use crate::bad_columns::{BadColumn, bad_column, write_bad_column};
use crate::sheets::marks::write_column_mark;
use crate::sheets::sheet_calls::charts_read::lawful_chart;
use crate::sheets::{column_ruler, write_fields, write_marked_line};
use card_code::{CARD_COLUMNS, Card, DeckFault, next_line, read_card};
use chart_numerals::write_between;
use chart_rules::{CardFault, Chart, valid_card};
use fault_lines::faults::{Ending, Fault, RunFault, tell, unprinted, write_line};
use fault_lines::program_io::{put, read_whole};
use std::alloc::Global;
use std::io;
use std::io::{Read, Write};

/// The number of the fault of a deck that has no such card.
const NO_SUCH_CARD: u8 = 96;

// The line of a deck with a number, from 1, if it has one.
fn line_numbered(deck: &[u8], number: u32) -> Option<&[u8]>
    ensures found { IfSome result (λ line. sheet.IsLine deck.now number line.now) }
    ensures none { IfNone result (sheet.HasNoLine deck.now number) }
{
    if number == 0 {
        return None;
    }
    let mut rest = deck;
    for passed in 0..number - 1 {
        let Some((_, after)) = next_line(rest) else {
            return None;
        };
        rest = after;
    }
    match next_line(rest) {
        Some((line, _)) => Some(line),
        None => None,
    }
}

// The number of a card, and the ruler of the columns.
fn write_head(text: &mut Vec<u8>, number: u32) -> io::Result<()>
    ensures { OnOk result (text.new.items ≡ text.old.items ++ sheet.head_told number) }
{
    write_between(text, "card ", number, "\n")?;
    text.write_all(column_ruler().as_bytes())
}

// The same, and under it the card as it stands in the deck.
fn write_card(text: &mut Vec<u8>, number: u32, line: &[u8]) -> io::Result<()>
    ensures { OnOk result (text.new.items ≡ text.old.items ++ sheet.card_told number line.now) }
{
    write_head(text, number)?;
    text.write_all(line)?;
    text.write_all(b"\n")
}

// What is told of a valid card.
fn write_valid(
    text: &mut Vec<u8>,
    chart: &Chart,
    number: u32,
    line: &[u8],
    card: &Card,
) -> io::Result<()>
    ensures { OnOk result (text.new.items ≡ text.old.items ++ sheet.valid_told chart.now number line.now card.now) }
{
    write_card(text, number, line)?;
    write_fields(text, true, chart, card)
}

// The fault of a card that isn't valid.
fn write_card_fault(text: &mut Vec<u8>, fault: CardFault, number: u32) -> io::Result<()>
    ensures { OnOk result (text.new.items ≡ text.old.items ++ fault_line (run_told (of_card fault number))) }
{
    let told: Fault = RunFault::of_card(fault, number).into();
    write_line(&told, text)
}

// The first column of the field that a fault names.
fn first_named(fault: CardFault) -> u32
    ensures { result ≡ sheet.first_named fault }
{
    match fault {
        CardFault::NotText { column } | CardFault::NotAmount { column } => u32::from(column),
    }
}

// A mark under a column that is at fault, and what is wrong there.
fn write_bad(text: &mut Vec<u8>, chart: &Chart, at_fault: Option<BadColumn>) -> io::Result<()>
    ensures { OnOk result (text.new.items ≡ text.old.items ++ sheet.bad_told (fields_of chart.now.lines) at_fault) }
{
    match at_fault {
        None => Ok(()),
        Some(bad) => {
            write_column_mark(text, bad.column, chart.fields())?;
            write_bad_column(text, bad)
        }
    }
}

// What is told of a card that isn't valid.
fn write_invalid(
    text: &mut Vec<u8>,
    chart: &Chart,
    number: u32,
    line: &[u8],
    card: &Card,
    fault: CardFault,
) -> io::Result<()>
    ensures { OnOk result (text.new.items ≡ text.old.items ++ sheet.invalid_told chart.now number line.now card.now fault) }
{
    write_card(text, number, line)?;
    write_fields(text, false, chart, card)?;
    write_bad(text, chart, bad_column(chart, first_named(fault), line))?;
    write_card_fault(text, fault, number)
}

// What is told of a line that is a card.
fn write_punched(
    text: &mut Vec<u8>,
    chart: &Chart,
    number: u32,
    line: &[u8],
    card: &Card,
) -> io::Result<()>
    requires { IsCardOf line.now card.now }
    ensures { OnOk result (sheet.GainsSheet chart.now number line.now text.old.items text.new.items) }
{
    match valid_card(chart, card) {
        Ok(()) => write_valid(text, chart, number, line, card),
        Err(fault) => write_invalid(text, chart, number, line, card, fault),
    }
}

// The column at fault of a line that is no card.
fn column_at_fault(cause: DeckFault) -> u32
    ensures { result ≡ sheet.column_at_fault cause }
{
    match cause {
        DeckFault::NoSuchCharacter { column, .. } => column,
        DeckFault::CardTooLong { .. } | DeckFault::TooManyCards | DeckFault::Memory => {
            CARD_COLUMNS as u32 + 1
        }
    }
}

// The fault of a line that is no card.
fn write_line_fault(text: &mut Vec<u8>, cause: DeckFault) -> io::Result<()>
    ensures { OnOk result (text.new.items ≡ text.old.items ++ fault_line (deck_told cause)) }
{
    let told: Fault = cause.into();
    write_line(&told, text)
}

// What is told of a line that is no card.
fn write_unpunched(
    text: &mut Vec<u8>,
    chart: &Chart,
    number: u32,
    line: &[u8],
    cause: DeckFault,
) -> io::Result<()>
    ensures { OnOk result (text.new.items ≡ text.old.items ++ sheet.unpunched_told chart.now number line.now cause) }
{
    write_head(text, number)?;
    write_marked_line(text, chart, line, column_at_fault(cause))?;
    write_line_fault(text, cause)
}

// What is told of a line.
fn write_sheet(text: &mut Vec<u8>, chart: &Chart, number: u32, line: &[u8]) -> io::Result<()>
    ensures { OnOk result (sheet.GainsSheet chart.now number line.now text.old.items text.new.items) }
{
    match read_card(number, line) {
        Ok(card) => write_punched(text, chart, number, line, &card),
        Err(cause) => write_unpunched(text, chart, number, line, cause),
    }
}

// The sheet of a line.
fn sheet_on<'a>(
    alloc: Global,
    chart: &Chart,
    number: u32,
    line: &[u8],
) -> Result<Vec<u8>, Fault<'a>>
    ensures sheet { IfOk result (λ text. sheet.IsSheet chart.now number line.now text.items) }
    ensures told { IfErr result (λ told. (told ≡ Fault.Memory) ⊎ (told ≡ Fault.Write)) }
{
    let mut text = Vec::new(alloc);
    match write_sheet(&mut text, chart, number, line) {
        Ok(()) => Ok(text),
        Err(error) => Err(unprinted(&error)),
    }
}

// The sheet of a card of a deck.
fn sheet_of<'a>(
    alloc: Global,
    chart: &Chart,
    deck: &[u8],
    number: u32,
) -> Result<Vec<u8>, Fault<'a>>
    ensures sheet { IfOk result (λ text. sheet.IsSheetIn chart.now deck.now number text.items) }
    ensures told { IfErr result (λ told. sheet.LacksCard deck.now number told ⊎ ((told ≡ Fault.Memory) ⊎ (told ≡ Fault.Write))) }
{
    match line_numbered(deck, number) {
        Some(line) => sheet_on(alloc, chart, number, line),
        None => Err(Fault::Card {
            number: NO_SUCH_CARD,
            card: number,
        }),
    }
}

/// Prints a card of a deck, its number from 1, under a ruler of the columns, and what the fields of a planning chart read on it. `path`
/// names the deck in what is told of one that can't be read.
///
/// # Errors
///
/// The fault of the chart; else that of a deck that can't be read; else `Card` with number 96 where the deck has no such card. Then nothing
/// is printed. `Memory` where a growth was refused and `Write` where the output can't be
/// written, and then the front of the sheet may have been printed.
pub fn print_fields<'a, R: Read + Drop, W: Write>(
    alloc: Global,
    chart: &[u8],
    path: &'a str,
    deck: R,
    number: u32,
    out: &mut W,
) -> Result<(), Fault<'a>>
    ensures printed { OnOk result (sheet.PrintsFields chart.now (R.remaining deck) number (W.contents out.old) (W.contents out.new)) }
    ensures stopped { IfErr result (λ told.
        sheet.StopsFields chart.now (R.remaining deck) number told (Fault.File path.entry) (out.new ≡ out.old)) }
    ensures front { (out.new ≡ out.old)
        ⊎ WritesFront (sheet.PrintsFields chart.now (R.remaining deck) number) (W.contents out.old) (W.contents out.new) }
{
    let planned = lawful_chart(alloc, chart)?;
    let bytes = read_whole(alloc, deck, path)?;
    let answer = sheet_of(alloc, &planned, bytes.as_slice(), number)?;
    put(out, answer.as_slice())
}

/// Prints what the fields of a planning chart read on a card of a deck, and tells on one line of `faults` why it can't.
///
/// The statuses are 0 done, and then nothing is told, 3 where the chart is refused, or the deck has no such card, 4 where the deck can't be
/// read or the output can't be written, 5 memory. Nothing is printed by status 3, nor where the deck can't be read. Where the output can't
/// be written or memory runs out, the front of the sheet may have been.
pub fn fields_to_end<R: Read + Drop, W: Write, V: Write>(
    alloc: Global,
    chart: &[u8],
    path: &str,
    deck: R,
    number: u32,
    out: &mut W,
    faults: &mut V,
) -> Ending
    ensures done { result.status ≡ 0
        → sheet.PrintsFields chart.now (R.remaining deck) number (W.contents out.old) (W.contents out.new) × (faults.new ≡ faults.old) }
    ensures stopped { (result.status ≡ 0) ⊎ ((told : Fault) × (result.status ≡ status_of told)
        × sheet.StopsFields chart.now (R.remaining deck) number told (Fault.File path.entry) (out.new ≡ out.old)
        × IsTold told result.is_told (V.contents faults.old) (V.contents faults.new)) }
    ensures front { (out.new ≡ out.old)
        ⊎ WritesFront (sheet.PrintsFields chart.now (R.remaining deck) number) (W.contents out.old) (W.contents out.new) }
    ensures statuses { (result.status ≢ 1) × (result.status ≤ 5) }
{
    match print_fields(alloc, chart, path, deck, number, out) {
        Ok(()) => Ending {
            status: 0,
            is_told: true,
        },
        Err(fault) => tell(&fault, faults),
    }
}
