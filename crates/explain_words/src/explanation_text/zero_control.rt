//! What zero control did to a wheel.

ghost use Rattle.std.specs.Prelude.{◌≡◌, ◌++◌, OnOk};
ghost use Rattle.std.specs.String.{string_bytes};
ghost use Rattle.print_unit.specs.ZeroControl.{is_zero};
ghost use Rattle.explain_words.specs.ExplanationText.Closing.{absent_words, given_words, giver_words, kept_words, links_words, suppress_line, suppress_told, suppress_words, symbol_line, symbol_told, symbol_words, unchanged_words, uncontrolled_words, zero_control_line};

use crate::explanation_text::closing::character_of;
use chart_numerals::{push_between, push_numbered};
use explain_wheels::explanations::{Explanation, Giver, Significance, count_received};
use hubs::Jack;
use hubs::setups::Setup;
use std::alloc::AllocError;

// The line on zero control of a wheel that received some rows; nothing where it has neither of the jacks.
pub(crate) fn write_zero_control(
    text: &mut String,
    setup: &Setup,
    received: &[bool; 12],
    told: &Explanation,
) -> Result<(), AllocError>
    ensures { OnOk result (string_bytes text.new ≡ string_bytes text.old ++ zero_control_line setup.now received.now told.now) }
{
    if setup.has_jack(Jack::Symbol(told.wheel)) {
        write_symbol_line(text, received, told)
    } else if setup.has_jack(Jack::Suppress(told.wheel)) {
        write_suppress_line(text, received, told)
    } else {
        Ok(())
    }
}

// The line of a SYMBOL wheel.
fn write_symbol_line(
    text: &mut String,
    received: &[bool; 12],
    told: &Explanation,
) -> Result<(), AllocError>
    ensures { OnOk result (string_bytes text.new ≡ string_bytes text.old ++ symbol_line received.now told.now) }
{
    text.push_str("zero control: a SYMBOL wheel")?;
    write_symbol_told(text, received, told)?;
    text.push_str("\n")
}

// The line of a SUPPRESS wheel.
fn write_suppress_line(
    text: &mut String,
    received: &[bool; 12],
    told: &Explanation,
) -> Result<(), AllocError>
    ensures { OnOk result (string_bytes text.new ≡ string_bytes text.old ++ suppress_line received.now told.now) }
{
    text.push_str("zero control: a SUPPRESS wheel")?;
    write_suppress_told(text, received, told)?;
    text.push_str("\n")
}

// What zero control did to a SYMBOL wheel.
fn write_symbol_told(
    text: &mut String,
    received: &[bool; 12],
    told: &Explanation,
) -> Result<(), AllocError>
    ensures { OnOk result (string_bytes text.new ≡ string_bytes text.old ++ symbol_told received.now told.now) }
{
    if count_received(received) == 0 {
        text.push_str(" that received nothing: it is blank")
    } else {
        write_symbol_words(text, received, told.wheel, told.significance)
    }
}

// What zero control did to a SUPPRESS wheel.
fn write_suppress_told(
    text: &mut String,
    received: &[bool; 12],
    told: &Explanation,
) -> Result<(), AllocError>
    ensures { OnOk result (string_bytes text.new ≡ string_bytes text.old ++ suppress_told received.now told.now) }
{
    if count_received(received) == 0 {
        text.push_str(" that received nothing: it is blank")
    } else {
        write_suppress_words(text, received, told.wheel, told.significance)
    }
}

// What zero control did to what a SYMBOL wheel received, and why.
fn write_symbol_words(
    text: &mut String,
    received: &[bool; 12],
    wheel: u8,
    significance: Significance,
) -> Result<(), AllocError>
    ensures { OnOk result (string_bytes text.new ≡ string_bytes text.old ++ symbol_words received.now wheel significance) }
{
    match significance {
        Significance::Uncontrolled => write_uncontrolled(text, character_of(received)),
        Significance::From(giver) => {
            write_giver(text, giver, wheel)?;
            text.push_str(kept_words(character_of(received)))
        }
        Significance::Absent => text.push_str(" without significance: it is blank"),
    }
}

// What zero control did to what a SUPPRESS wheel received, and why.
fn write_suppress_words(
    text: &mut String,
    received: &[bool; 12],
    wheel: u8,
    significance: Significance,
) -> Result<(), AllocError>
    ensures { OnOk result (string_bytes text.new ≡ string_bytes text.old ++ suppress_words received.now wheel significance) }
{
    match significance {
        Significance::Uncontrolled => write_uncontrolled(text, character_of(received)),
        Significance::From(giver) => write_given(text, received, wheel, giver),
        Significance::Absent => write_absent(text, received),
    }
}

// What a SUPPRESS wheel with significance does.
fn write_given(
    text: &mut String,
    received: &[bool; 12],
    wheel: u8,
    giver: Giver,
) -> Result<(), AllocError>
    ensures { OnOk result (string_bytes text.new ≡ string_bytes text.old ++ given_words received.now wheel giver) }
{
    if !is_zero(received) {
        return write_unchanged(text, character_of(received));
    }
    write_giver(text, giver, wheel)?;
    text.push_str("the zero prints")
}

// What a SUPPRESS wheel without significance does.
fn write_absent(text: &mut String, received: &[bool; 12]) -> Result<(), AllocError>
    ensures { OnOk result (string_bytes text.new ≡ string_bytes text.old ++ absent_words received.now) }
{
    if is_zero(received) {
        text.push_str(" without significance: the zero is blank")
    } else {
        write_unchanged(text, character_of(received))
    }
}

// What a SUPPRESS wheel does with what is no zero alone.
fn write_unchanged(text: &mut String, character: u8) -> Result<(), AllocError>
    ensures { OnOk result (string_bytes text.new ≡ string_bytes text.old ++ unchanged_words character) }
{
    text.push_str(" blanks only a zero, and this is none: ")?;
    text.push_str(kept_words(character))
}

// That the cycle has no zero control.
fn write_uncontrolled(text: &mut String, character: u8) -> Result<(), AllocError>
    ensures { OnOk result (string_bytes text.new ≡ string_bytes text.old ++ uncontrolled_words character) }
{
    text.push_str("; heading cycles have none: ")?;
    text.push_str(kept_words(character))
}

// That a wheel prints what it received; if that is no print character, that zero control changes nothing.
fn kept_words(character: u8) -> &'static str
    ensures { result.now ≡ kept_words character }
{
    if character == b' ' {
        "it changes nothing"
    } else {
        "it prints"
    }
}

// Whether row 0 and no other was received.
fn is_zero(received: &[bool; 12]) -> bool
    ensures { result ≡ is_zero received.now }
{
    received[9] && count_received(received) == 1
}

// The wheel that gives significance, and how it comes to this wheel.
fn write_giver(text: &mut String, giver: Giver, wheel: u8) -> Result<(), AllocError>
    ensures { OnOk result (string_bytes text.new ≡ string_bytes text.old ++ giver_words giver wheel) }
{
    push_numbered(text, "; wheel ", giver.wheel)?;
    push_numbered(text, " received one figure, ", giver.figure)?;
    write_links(text, giver.wheel, wheel)?;
    text.push_str(": so ")
}

// The wheels behind one up to another, which pass its significance on.
fn write_links(text: &mut String, from: u8, wheel: u8) -> Result<(), AllocError>
    ensures { OnOk result (string_bytes text.new ≡ string_bytes text.old ++ links_words from wheel) }
{
    let next = u16::from(from) + 1;
    if next == u16::from(wheel) {
        push_between(text, ", and LINK ", wheel, " passes it on")
    } else {
        push_numbered(text, ", and LINK ", next)?;
        push_between(text, " to ", wheel, " pass it on")
    }
}
