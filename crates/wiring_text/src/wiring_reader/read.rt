//! Reading a wiring chart.

ghost use Rattle.std.specs.Prelude.{◌≡◌, ◌≢◌, ◌≤◌, ◌⊎◌, [], length, IfOk, IfErr, IfSome, IfNone, OnOk, IsOkUnless, true, false, ℕ, Err};
ghost use Rattle.card_code.specs.Lines.{lines_of};
ghost use Rattle.hubs.specs.SetupsWords.Tapes.{has_stop};
ghost use Rattle.hubs.specs.SetupsWords.Wiring.{Wiring};
ghost use Rattle.wiring_text.specs.WiringReader.TextReading.{Answers, HasSayable, Holds, Refuses, Takes, is_formed, lines_from, numbers_of_tape, start, text_told, version_named, with_form};
ghost use Rattle.wiring_text.specs.WiringText.{ReadsAs};
ghost use Rattle.wiring_text.specs.WiringFaults.{HasWiringFault};

use crate::wiring_reader::line::{read_form, read_line};
use crate::wiring_reader::panel::put;
use crate::{FormNumbers, Statement, Version, WiringFault};
use card_code::next_line;
use chart_lines::tokens::{Content, is_larger, is_title_line};
use hubs::setups::{Setup, SetupFault, Tape};
use std::alloc::Global;

/// How many lines a wiring chart has at most.
const MAX_LINES: usize = 1_000_000;

/// How many bytes a line of a wiring chart has at most.
const MAX_LINE_BYTES: usize = 60;

/// Reads a wiring chart: the setup that its text reads as.
///
/// # Errors
///
/// The text's one fault, asked in this order: `TooLarge` for more than 1,000,000 lines or a line of more than 60 bytes;
/// `NoFirstLine` where line 1 is neither `WIRING407 1` nor `WIRING407 2`, or line 2 not `FORM` with three numbers; then, at the lowest line at fault,
/// `NotALine` where it is no line of a wiring chart or stands after END, else `LineTwice` where it stood before, else `Unfit` where the
/// panel can't have what it says; `NoEnd` where no line is END. `Memory` only where memory was refused; what was read so far is freed then.
pub fn read_setup(alloc: Global, text: &[u8]) -> Result<Setup, WiringFault>
    // What is read is the setup of the text, and a fault is the one of the text.
    ensures read { IfOk result (ReadsAs text.now) }
    ensures fault { IfErr result (λ fault. fault ≢ WiringFault.Memory → HasWiringFault text.now fault) }

    // Each wiring chart is read, and each fault told, unless memory is refused.
    ensures only_read { (wiring : Wiring) → ReadsAs text.now wiring → IsOkUnless result WiringFault.Memory }
    ensures only_fault { (fault : WiringFault) → HasWiringFault text.now fault
        → (result ≡ Err fault) ⊎ (result ≡ Err WiringFault.Memory) }
{
    read_text(alloc, text)
}

/// The setup of a text, or its fault.
#[tactic(auto, unfolding(crate::specs::WiringReader::TextReading::text_told))]
fn read_text(alloc: Global, text: &[u8]) -> Result<Setup, WiringFault>
    ensures { Answers result (text_told text.now) }
{
    if is_larger(text, MAX_LINES, MAX_LINE_BYTES) {
        return Err(WiringFault::TooLarge);
    }
    let Some((first, after)) = next_line(text) else {
        return Err(WiringFault::NoFirstLine);
    };
    let Some((second, others)) = next_line(after) else {
        return Err(WiringFault::NoFirstLine);
    };
    let Some(version) = named_version(first) else {
        return Err(WiringFault::NoFirstLine);
    };
    let Some(form) = read_form(alloc, second)? else {
        return Err(WiringFault::NoFirstLine);
    };
    let Some(tape) = tape_of(form) else {
        return Err(WiringFault::Unfit {
            line: 2,
            fault: SetupFault::TapeFault,
        });
    };
    read_lines(alloc, version, Setup::new(alloc, tape), others)
}

/// The version that a first line names.
fn named_version(line: &[u8]) -> Option<Version>
    ensures { result ≡ version_named line.now }
{
    if is_title_line(line, b"WIRING407", b"1") {
        Some(Version::First)
    } else if is_title_line(line, b"WIRING407", b"2") {
        Some(Version::Second)
    } else {
        None
    }
}

/// The tape of a form, without a stop, where a tape can have its numbers.
fn tape_of(form: FormNumbers) -> Option<Tape>
    ensures made { IfSome result (λ tape. numbers_of_tape tape ≡ form) }
    ensures formed { IfSome result (λ tape. is_formed form ≡ true) }
    ensures stops { IfSome result (λ tape. (channel line : ℕ) → has_stop tape channel line ≡ false) }
    ensures none { IfNone result (is_formed form ≡ false) }
{
    if form.lines > 255 || form.first > 255 || form.overflow > 255 {
        return None;
    }
    let tape = Tape::new(form.lines as u8, form.first as u8, form.overflow as u8, &[]);
    tape.ok()
}

/// The setup of the lines from line 3 on, put to a setup of which nothing is said so far.
fn read_lines(
    alloc: Global,
    version: Version,
    setup: Setup,
    text: &[u8],
) -> Result<Setup, WiringFault>
    requires few { length (lines_of text.now) ≤ 1000000 }
    requires new { Holds (numbers_of_tape setup.tape) [] setup }
    ensures { Answers result
        (with_form (numbers_of_tape setup.tape) (lines_from version setup.tape.lines 3 start (lines_of text.now))) }
{
    let mut setup = setup;
    let mut ended = false;
    let mut number = 3;
    let mut rest = text;
    while let Some((line, after)) = next_line(rest) {
        let content = read_line(alloc, version, line)?;
        take_line(content, number, &mut setup, &mut ended)?;
        number += 1;
        rest = after;
    }
    if ended {
        Ok(setup)
    } else {
        Err(WiringFault::NoEnd)
    }
}

/// Takes the line of a number: puts what it says to the setup, or tells what is wrong with it.
fn take_line(
    content: Content<Statement>,
    number: u32,
    setup: &mut Setup,
    ended: &mut bool,
) -> Result<(), WiringFault>
    requires { HasSayable content }
    ensures taken { OnOk result (Takes content number setup.old ended.old setup.new ended.new) }
    ensures refused { IfErr result (Refuses content number setup.old ended.old) }
{
    match (content, *ended) {
        (Content::Empty, _) => Ok(()),
        (Content::End, false) => {
            *ended = true;
            Ok(())
        }
        (Content::Says(statement), false) => match put(setup, statement) {
            Ok(true) => Ok(()),
            Ok(false) => Err(WiringFault::LineTwice { line: number }),
            Err(SetupFault::Memory) => Err(WiringFault::Memory),
            Err(fault) => Err(WiringFault::Unfit {
                line: number,
                fault,
            }),
        },
        _ => Err(WiringFault::NotALine { line: number }),
    }
}
