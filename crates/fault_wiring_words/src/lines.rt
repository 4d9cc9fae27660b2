//! What is told of a line that is none of a wiring chart.

ghost use Rattle.std.specs.Prelude.{◌≡◌, OnOk};
ghost use Rattle.std.specs.Io.KnownBytes.{Appends};
ghost use Rattle.fault_wiring_words.specs.Lines as law;

use crate::forms::{form_words, jack_words, near_jack, near_word};
use crate::hub_words::{write_around, write_hub_cure, write_hub_wrong, write_six};
use crate::wording;
use fault_slips::line_marks::{word, write_shown};
use fault_slips::line_slips::{Slip, tab_cure, tab_words, write_behind};
use fault_wiring_slips::{LineSlip, line_slip, line_span, second_place};
use std::io;
use std::io::Write;

/// What is wrong by a byte that no line has.
fn byte_words(slip: Slip) -> &'static str
    ensures { result.now ≡ law.byte_words slip }
{
    match slip {
        Slip::Tab => tab_words(),
        Slip::Comment => wording::NO_COMMENTS,
        Slip::Quotation => wording::NO_QUOTATION_MARKS,
        Slip::Unclosed => wording::NO_APOSTROPHES,
        Slip::Small => wording::ONLY_CAPITAL_LETTERS,
        Slip::Unprintable => wording::THIS_CHARACTER_STANDS_ON_NO_LINE,
        Slip::Other => wording::THIS_IS_NO_LINE,
    }
}

/// Writes a word with which no line begins.
#[tactic(auto, unfolding(crate::specs::Lines::no_word))]
fn write_no_word<W: Write>(out: &mut W, first: &[u8]) -> io::Result<()>
    ensures { OnOk result (Appends (W.contents out.old) (W.contents out.new) (law.no_word first.now)) }
{
    write_around(out, wording::NO_LINE_BEGINS_WITH, first, b"")
}

/// Writes a word behind which others are wanting.
#[tactic(auto, unfolding(crate::specs::Lines::alone_words))]
fn write_alone<W: Write>(out: &mut W, first: &[u8]) -> io::Result<()>
    ensures { OnOk result (Appends (W.contents out.old) (W.contents out.new) (law.alone_words first.now)) }
{
    write_around(out, wording::NOTHING_STANDS_BEHIND, first, b"")
}

/// Writes what is wrong with a line.
#[tactic(auto, unfolding(crate::specs::Lines::line_wrong))]
fn write_wrong<W: Write>(out: &mut W, slip: LineSlip, line: &[u8]) -> io::Result<()>
    ensures { OnOk result (Appends (W.contents out.old) (W.contents out.new) (law.line_wrong slip line.now)) }
{
    match slip {
        LineSlip::Bytes(bytes) => out.write_all(byte_words(bytes).as_bytes()),
        LineSlip::TooFew => out.write_all(wording::WIRE_TAKES_TWO_HUBS),
        LineSlip::TwoInOne => out.write_all(wording::TWO_HUBS_STAND_IN_ONE_WORD),
        LineSlip::TooMany(_) => out.write_all(wording::A_WORD_TOO_MANY_STANDS_HERE),
        LineSlip::NoExit(what) => write_hub_wrong(out, what, word(line, 1)),
        LineSlip::NoEntry(what) => write_hub_wrong(out, what, word(line, 2)),
        LineSlip::WiredCarry => out.write_all(wording::A_CARRY_HAS_A_LINE_OF_ITS_OWN),
        LineSlip::Channel => out.write_all(wording::THE_CHANNEL_OF_A_STOP_IS),
        LineSlip::StopLine => out.write_all(wording::A_STOP_STANDS_AT_A_LINE),
        LineSlip::NoJack => write_around(out, wording::THE_PANEL_HAS_NO_JACK, word(line, 1), b""),
        LineSlip::JackNumber => out.write_all(wording::THE_PANEL_HAS_NO_SUCH_JACK),
        LineSlip::Alone => write_alone(out, word(line, 0)),
        LineSlip::NewWord => write_around(out, b"", word(line, 0), wording::IS_A_WORD_OF_VERSION_2),
        LineSlip::Carry => out.write_all(wording::NOT_THE_NUMBERS_OF_A_CARRY),
        LineSlip::SecondForm => out.write_all(wording::FORM_STANDS_ON_LINE_2_ALONE),
        LineSlip::EndMore => out.write_all(wording::SOMETHING_STANDS_BEHIND_END),
        LineSlip::NoWord => write_no_word(out, word(line, 0)),
    }
}

/// What helps by a byte that no line has: the form of the line's first word, but for a tab a space.
fn byte_cure(slip: Slip, first: &[u8]) -> &'static str
    ensures { result.now ≡ law.byte_cure slip first.now }
{
    match slip {
        Slip::Tab => tab_cure(),
        _ => form_words(first),
    }
}

/// Writes two hubs of which a wire may be meant.
#[tactic(auto, unfolding(crate::specs::Lines::meant_wire))]
pub(crate) fn write_meant_wire<W: Write>(out: &mut W, exit: &[u8], entry: &[u8]) -> io::Result<()>
    ensures { OnOk result (Appends (W.contents out.old) (W.contents out.new) (law.meant_wire exit.now entry.now)) }
{
    write_six(
        out,
        wording::DID_YOU_MEAN_WIRE,
        exit,
        b" ",
        entry,
        b"?",
        b"",
    )
}

/// Writes the two hubs of a word.
#[tactic(auto, unfolding(crate::specs::Lines::two_words))]
fn write_two<W: Write>(out: &mut W, hubs: &[u8]) -> io::Result<()>
    ensures { OnOk result (Appends (W.contents out.old) (W.contents out.new) (law.two_words hubs.now)) }
{
    let place = second_place(hubs);
    write_meant_wire(out, &hubs[..place], &hubs[place..])
}

/// Writes what helps.
#[tactic(auto, unfolding(crate::specs::Lines::line_cure))]
fn write_cure<W: Write>(out: &mut W, slip: LineSlip, line: &[u8]) -> io::Result<()>
    ensures { OnOk result (Appends (W.contents out.old) (W.contents out.new) (law.line_cure slip line.now)) }
{
    match slip {
        LineSlip::Bytes(bytes) => out.write_all(byte_cure(bytes, word(line, 0)).as_bytes()),
        LineSlip::TooFew
        | LineSlip::TooMany(_)
        | LineSlip::Channel
        | LineSlip::StopLine
        | LineSlip::Alone
        | LineSlip::Carry
        | LineSlip::EndMore => out.write_all(form_words(word(line, 0)).as_bytes()),
        LineSlip::TwoInOne => write_two(out, word(line, 1)),
        LineSlip::NoExit(what) => write_hub_cure(out, what, word(line, 1)),
        LineSlip::NoEntry(what) => write_hub_cure(out, what, word(line, 2)),
        LineSlip::WiredCarry => out.write_all(wording::WRITE_RING_OR_COUPLE),
        LineSlip::NoJack => out.write_all(near_jack(word(line, 1)).as_bytes()),
        LineSlip::JackNumber => out.write_all(jack_words(word(line, 1)).as_bytes()),
        LineSlip::NewWord => out.write_all(wording::WRITE_VERSION_2),
        LineSlip::SecondForm => out.write_all(wording::TAKE_IT_OUT_OR_CORRECT_LINE_2),
        LineSlip::NoWord => out.write_all(near_word(word(line, 0)).as_bytes()),
    }
}

/// Writes what is told of a line by its slip.
#[tactic(auto, unfolding(crate::specs::Lines::slip_told))]
fn write_slip<W: Write>(out: &mut W, slip: LineSlip, line: &[u8]) -> io::Result<()>
    ensures { OnOk result (Appends (W.contents out.old) (W.contents out.new) (law.slip_told slip line.now)) }
{
    write_shown(out, line, line_span(slip, line))?;
    out.write_all(b"  ")?;
    write_wrong(out, slip, line)?;
    out.write_all(b"\n")?;
    out.write_all(b"  ")?;
    write_cure(out, slip, line)?;
    out.write_all(b"\n")
}

/// Writes what is told of a line with a number, in version 2 of the language or not. `end` is the number of the first line that is END.
#[tactic(auto, unfolding(crate::specs::Lines::misplaced_told))]
pub(crate) fn write_misplaced<W: Write>(
    out: &mut W,
    is_second: bool,
    end: Option<u64>,
    number: u32,
    line: &[u8],
) -> io::Result<()>
    ensures { OnOk result (Appends (W.contents out.old) (W.contents out.new) (law.misplaced_told is_second end number line.now)) }
{
    match end {
        Some(end) if end < u64::from(number) => write_behind(out, end, line),
        _ => write_slip(out, line_slip(is_second, line), line),
    }
}
