//! What is told of a line that stood before, and of one that the panel can't have.

ghost use Rattle.std.specs.Prelude.{◌≡◌, OnOk};
ghost use Rattle.std.specs.Io.KnownBytes.{Appends};
ghost use Rattle.hubs.specs.HubTable.Ranges.{is_within};
ghost use Rattle.fault_wiring_words.specs.Unfit as law;

use crate::hub_words::{write_around, write_hub_cure, write_hub_wrong};
use crate::lines::write_meant_wire;
use crate::wording;
use chart_lines::tokens::read_number;
use chart_numerals::write_numbered;
use fault_slips::counts::write_count;
use fault_slips::line_marks::word;
use fault_wiring_slips::{CarrySlip, HubWord, begins_with, carry_slip, hub_word};
use hubs::setups::SetupFault;
use std::io;
use std::io::Write;

/// Writes a line that is met, by its number.
#[tactic(auto, unfolding(crate::specs::Unfit::met_words))]
fn write_met<W: Write>(out: &mut W, met: Option<u64>) -> io::Result<()>
    ensures { OnOk result (Appends (W.contents out.old) (W.contents out.new) (law.met_words met)) }
{
    match met {
        Some(number) => write_numbered(out, "line ", number),
        None => out.write_all(wording::ANOTHER_LINE),
    }
}

/// Writes what is wrong with a line that stood before.
#[tactic(auto, unfolding(crate::specs::Unfit::twice_wrong))]
pub(crate) fn write_twice<W: Write>(out: &mut W, met: Option<u64>) -> io::Result<()>
    ensures { OnOk result (Appends (W.contents out.old) (W.contents out.new) (law.twice_wrong met)) }
{
    write_met(out, met)?;
    out.write_all(wording::SAYS_THIS_ALREADY)
}

/// Whether a word is an exit of the panel.
fn is_exit_word(what: HubWord) -> bool
    ensures { result ≡ law.is_exit_word what }
{
    match what {
        HubWord::There(letters) => letters.are_exits(),
        _ => false,
    }
}

/// Writes what is wrong with the first hub of a wire.
fn write_exit_wrong<W: Write>(out: &mut W, what: HubWord, exit: &[u8]) -> io::Result<()>
    ensures { OnOk result (Appends (W.contents out.old) (W.contents out.new) (law.exit_wrong what exit.now)) }
{
    match what {
        HubWord::There(_) => write_around(out, b"", exit, wording::IS_AN_ENTRY),
        other => write_hub_wrong(out, other, exit),
    }
}

/// Writes what is wrong with the second hub of a wire.
fn write_entry_wrong<W: Write>(out: &mut W, what: HubWord, entry: &[u8]) -> io::Result<()>
    ensures { OnOk result (Appends (W.contents out.old) (W.contents out.new) (law.entry_wrong what entry.now)) }
{
    match what {
        HubWord::There(_) => write_around(out, b"", entry, wording::IS_AN_EXIT),
        other => write_hub_wrong(out, other, entry),
    }
}

/// Writes what helps where the first hub of a wire is no exit.
fn write_exit_cure<W: Write>(
    out: &mut W,
    what: HubWord,
    exit: &[u8],
    entry: &[u8],
) -> io::Result<()>
    ensures { OnOk result (Appends (W.contents out.old) (W.contents out.new) (law.exit_cure what exit.now entry.now)) }
{
    match what {
        HubWord::There(_) => {
            if is_exit_word(hub_word(entry)) {
                write_meant_wire(out, entry, exit)
            } else {
                out.write_all(wording::A_WIRE_LEADS_FROM_EXIT_TO_ENTRY)
            }
        }
        other => write_hub_cure(out, other, exit),
    }
}

/// Writes what helps where the second hub of a wire is no entry.
fn write_entry_cure<W: Write>(out: &mut W, what: HubWord, entry: &[u8]) -> io::Result<()>
    ensures { OnOk result (Appends (W.contents out.old) (W.contents out.new) (law.entry_cure what entry.now)) }
{
    match what {
        HubWord::There(_) => out.write_all(wording::A_WIRE_LEADS_FROM_EXIT_TO_ENTRY),
        other => write_hub_cure(out, other, entry),
    }
}

/// Writes a counter group that there isn't.
#[tactic(auto, unfolding(crate::specs::Unfit::no_group))]
fn write_no_group<W: Write>(out: &mut W, group: &[u8]) -> io::Result<()>
    ensures { OnOk result (Appends (W.contents out.old) (W.contents out.new) (law.no_group group.now)) }
{
    write_around(out, wording::THERE_IS_NO_COUNTER_GROUP, group, b"")
}

/// Writes a counter group of 8 positions that there isn't.
#[tactic(auto, unfolding(crate::specs::Unfit::no_couple))]
fn write_no_couple<W: Write>(out: &mut W, number: &[u8]) -> io::Result<()>
    ensures { OnOk result (Appends (W.contents out.old) (W.contents out.new) (law.no_couple number.now)) }
{
    write_around(out, wording::THERE_IS_NO_COUNTER_GROUP_OF_8, number, b"")
}

/// Writes what is wrong with a line whose exit is none.
#[tactic(auto, unfolding(crate::specs::Unfit::no_exit_wrong))]
fn write_no_exit_wrong<W: Write>(out: &mut W, line: &[u8]) -> io::Result<()>
    ensures { OnOk result (Appends (W.contents out.old) (W.contents out.new) (law.no_exit_wrong line.now)) }
{
    let exit = word(line, 1);
    if begins_with(line, b"RING") {
        write_no_group(out, exit)
    } else if begins_with(line, b"COUPLE") {
        write_no_couple(out, exit)
    } else {
        write_exit_wrong(out, hub_word(exit), exit)
    }
}

/// Writes what helps there.
#[tactic(auto, unfolding(crate::specs::Unfit::no_exit_cure))]
fn write_no_exit_cure<W: Write>(out: &mut W, line: &[u8]) -> io::Result<()>
    ensures { OnOk result (Appends (W.contents out.old) (W.contents out.new) (law.no_exit_cure line.now)) }
{
    if begins_with(line, b"RING") || begins_with(line, b"COUPLE") {
        out.write_all(wording::THE_COUNTER_GROUPS_ARE)
    } else {
        let exit = word(line, 1);
        write_exit_cure(out, hub_word(exit), exit, word(line, 2))
    }
}

/// Writes what is wrong with a line whose entry is none.
#[tactic(auto, unfolding(crate::specs::Unfit::no_entry_wrong))]
fn write_no_entry_wrong<W: Write>(out: &mut W, line: &[u8]) -> io::Result<()>
    ensures { OnOk result (Appends (W.contents out.old) (W.contents out.new) (law.no_entry_wrong line.now)) }
{
    let entry = word(line, 2);
    if begins_with(line, b"COUPLE") {
        write_no_couple(out, entry)
    } else {
        write_entry_wrong(out, hub_word(entry), entry)
    }
}

/// Writes what helps there.
#[tactic(auto, unfolding(crate::specs::Unfit::no_entry_cure))]
fn write_no_entry_cure<W: Write>(out: &mut W, line: &[u8]) -> io::Result<()>
    ensures { OnOk result (Appends (W.contents out.old) (W.contents out.new) (law.no_entry_cure line.now)) }
{
    if begins_with(line, b"COUPLE") {
        out.write_all(wording::THE_COUNTER_GROUPS_ARE)
    } else {
        let entry = word(line, 2);
        write_entry_cure(out, hub_word(entry), entry)
    }
}

/// Writes what is wrong with a carry.
#[tactic(auto, unfolding(crate::specs::Unfit::carry_wrong))]
fn write_carry_wrong<W: Write>(out: &mut W, slip: CarrySlip, line: &[u8]) -> io::Result<()>
    ensures { OnOk result (Appends (W.contents out.old) (W.contents out.new) (law.carry_wrong slip line.now)) }
{
    match slip {
        CarrySlip::Leads => write_around(out, b"", word(line, 1), wording::LEADS_TO_A_CI),
        CarrySlip::Comes => write_around(out, b"", word(line, 2), wording::IS_FED_BY_A_CO),
        CarrySlip::Groups => out.write_all(wording::A_CARRY_STAYS_IN_ITS_GROUP),
        CarrySlip::Meets(met) => {
            write_met(out, met)?;
            out.write_all(wording::WIRES_THE_CARRY_IN_ANOTHER_WAY)
        }
    }
}

/// The place of the word that is marked where a carry is wrong.
fn carry_place(slip: CarrySlip) -> usize
    ensures { result ≡ law.carry_place slip }
{
    match slip {
        CarrySlip::Leads | CarrySlip::Groups => 2,
        CarrySlip::Comes | CarrySlip::Meets(_) => 1,
    }
}

/// A number of a form, or 0.
#[tactic(auto, unfolding(crate::specs::Unfit::form_number))]
fn form_number(line: &[u8], index: usize) -> u16
    ensures { result ≡ law.form_number index line.now }
{
    match read_number(word(line, index)) {
        Some(number) => number,
        None => 0,
    }
}

/// Whether a number is one of 1 to last.
fn is_within(number: u16, last: u16) -> bool
    ensures { result ≡ is_within number last }
{
    1 <= number && number <= last
}

/// The place of the number of a form that is wrong.
#[tactic(auto, unfolding(crate::specs::Unfit::form_place))]
pub(crate) fn form_place(line: &[u8]) -> usize
    ensures { result ≡ law.form_place line.now }
{
    let lines = form_number(line, 1);
    if !(3 <= lines && lines <= 144) {
        1
    } else if !is_within(form_number(line, 2), lines) {
        2
    } else {
        3
    }
}

/// Writes how many lines a form has.
#[tactic(auto, unfolding(crate::specs::Unfit::form_lines))]
fn write_form_lines<W: Write>(out: &mut W, form: &[u8]) -> io::Result<()>
    ensures { OnOk result (Appends (W.contents out.old) (W.contents out.new) (law.form_lines form.now)) }
{
    write_count(
        out,
        wording::THE_FORM_HAS,
        u32::from(form_number(form, 1)),
        wording::ONE_LINE,
    )
}

/// Writes its first line.
#[tactic(auto, unfolding(crate::specs::Unfit::form_first))]
fn write_form_first<W: Write>(out: &mut W, form: &[u8]) -> io::Result<()>
    ensures { OnOk result (Appends (W.contents out.old) (W.contents out.new) (law.form_first form.now)) }
{
    write_numbered(out, wording::ITS_FIRST_LINE_IS, form_number(form, 2))
}

/// Writes its overflow line.
#[tactic(auto, unfolding(crate::specs::Unfit::form_overflow))]
fn write_form_overflow<W: Write>(out: &mut W, form: &[u8]) -> io::Result<()>
    ensures { OnOk result (Appends (W.contents out.old) (W.contents out.new) (law.form_overflow form.now)) }
{
    write_numbered(out, wording::AND_ITS_OVERFLOW_LINE, form_number(form, 3))
}

/// Writes what is wrong with a form.
#[tactic(auto, unfolding(crate::specs::Unfit::form_wrong))]
pub(crate) fn write_form<W: Write>(out: &mut W, form: &[u8]) -> io::Result<()>
    ensures { OnOk result (Appends (W.contents out.old) (W.contents out.new) (law.form_wrong form.now)) }
{
    write_form_lines(out, form)?;
    write_form_first(out, form)?;
    write_form_overflow(out, form)
}

/// Writes what is wrong with what a line says, on a form that the line `form` describes and beside the lines of a text.
#[tactic(auto, unfolding(crate::specs::Unfit::unfit_wrong))]
pub(crate) fn write_unfit_wrong<W: Write>(
    out: &mut W,
    fault: SetupFault,
    form: &[u8],
    good: &[u8],
    line: &[u8],
) -> io::Result<()>
    ensures { OnOk result (Appends (W.contents out.old) (W.contents out.new) (law.unfit_wrong fault form.now good.now line.now)) }
{
    match fault {
        SetupFault::NotExit => write_no_exit_wrong(out, line),
        SetupFault::NotEntry => write_no_entry_wrong(out, line),
        SetupFault::CarryRing => write_carry_wrong(out, carry_slip(line, good), line),
        SetupFault::TapeFault => write_form_lines(out, form),
        SetupFault::Memory => out.write_all(b""),
    }
}

/// Writes what helps.
#[tactic(auto, unfolding(crate::specs::Unfit::unfit_cure))]
pub(crate) fn write_unfit_cure<W: Write>(
    out: &mut W,
    fault: SetupFault,
    line: &[u8],
) -> io::Result<()>
    ensures { OnOk result (Appends (W.contents out.old) (W.contents out.new) (law.unfit_cure fault line.now)) }
{
    match fault {
        SetupFault::NotExit => write_no_exit_cure(out, line),
        SetupFault::NotEntry => write_no_entry_cure(out, line),
        SetupFault::CarryRing => out.write_all(wording::A_CO_LEADS_TO_ONE_CI),
        SetupFault::TapeFault => out.write_all(wording::MOVE_THE_STOP),
        SetupFault::Memory => out.write_all(b""),
    }
}

/// The place of the word that is marked.
pub(crate) fn unfit_place(fault: SetupFault, good: &[u8], line: &[u8]) -> usize
    ensures { result ≡ law.unfit_place fault good.now line.now }
{
    match fault {
        SetupFault::NotExit => 1,
        SetupFault::NotEntry | SetupFault::TapeFault => 2,
        SetupFault::CarryRing => carry_place(carry_slip(line, good)),
        SetupFault::Memory => 0,
    }
}

/// The name of the fault.
pub(crate) fn unfit_name(fault: SetupFault) -> &'static str
    ensures { result.now ≡ law.unfit_name fault }
{
    match fault {
        SetupFault::NotExit => "NotExit",
        SetupFault::NotEntry => "NotEntry",
        SetupFault::CarryRing => "CarryRing",
        SetupFault::TapeFault => "TapeFault",
        SetupFault::Memory => "",
    }
}
