//! Writing a setup as a wiring chart.

ghost use Rattle.std.specs.Prelude.{◌≡◌, ◌++◌, AllPairs, Contains, Some, IfOk, OnOk};
ghost use Rattle.std.specs.String.{string_bytes};
ghost use Rattle.hubs.specs.declared.hub.Hub.TheVariants.{CI, CO};
ghost use Rattle.hubs.specs.SetupsWords.Tapes.{IsCarriageTape, IsStopOf};
ghost use Rattle.hubs.specs.SetupsWords.Wires.{IsWireBefore};
ghost use Rattle.hubs.specs.SetupsWords.Wiring.{HasJack, IsWireOf};
ghost use Rattle.wiring_text.specs.declared.statement.Version.TheVariants.{Second};
ghost use Rattle.wiring_text.specs.WiringText.{ReadsAs};
ghost use Rattle.wire_chart.specs.WrittenText.{IsWritten, IsWrittenIn, carry_line, ended, form_line, stop_line, jack_line, plain_line, title_line, wire_line};
ghost use Rattle.wire_chart.specs.Writing.{GainsAllWires, GainsStops, GainsJacks, GainsWires, IsStopAt, IsStopIn, IsJackAt, IsWire};

use crate::form::{WireForm, is_same_form, wire_form};
use crate::version::version_of;
use crate::words::{write_jack_words, write_spaced_group, write_spaced_hub, write_spaced_number};
use hubs::setups::{Setup, Tape};
use hubs::{Group, Hub, JACKS, Jack, carry_into, carry_out_of, is_one_group};
use std::alloc::{AllocError, Global};
use wiring_text::Version;

/// The wiring chart of a setup, in version 2 of the language where a wire couples two counter groups, else in version 1: the first
/// line, the form, the stops by channel and line, the jacks in the order LIST, TOTAL, HEAD, LINK, SUPPRESS and SYMBOL, each by number,
/// the wires, and END; single spaces, and LF after each line. Wires stand by the exit's hub number and then the entry's; in version 2
/// the rings come first, then the wires that couple groups. The text reads as a setup of the same wires, jacks and tape.
///
/// Fails only where memory was refused.
pub fn write_setup(alloc: Global, setup: &Setup) -> Result<String, AllocError>
    ensures written { IfOk result (λ text. IsWritten setup.now (string_bytes text)) }
    ensures reads_back { IfOk result (λ text. ReadsAs (string_bytes text) setup.now) }
{
    write_in(alloc, version_of(setup), setup)
}

/// The wiring chart of a setup in version 2 of the language, in the order that [`write_setup`] tells. The text reads as a setup of
/// the same wires, jacks and tape.
///
/// Fails only where memory was refused.
pub fn write_setup_2(alloc: Global, setup: &Setup) -> Result<String, AllocError>
    ensures written { IfOk result (λ text. IsWrittenIn Second setup.now (string_bytes text)) }
    ensures reads_back { IfOk result (λ text. ReadsAs (string_bytes text) setup.now) }
{
    write_in(alloc, Version::Second, setup)
}

// The wiring chart of a setup in a version of the language.
fn write_in(alloc: Global, version: Version, setup: &Setup) -> Result<String, AllocError>
    ensures written { IfOk result (λ text. IsWrittenIn version setup.now (string_bytes text)) }
    ensures reads_back { IfOk result (λ text. ReadsAs (string_bytes text) setup.now) }
{
    // What is known of every setup is told with it: that saves a check of its wires and of its form.
    let setup = setup.known();
    let mut text = String::from_str(alloc, title(version))?;
    write_form(&mut text, setup.tape())?;
    write_stops(&mut text, setup.tape())?;
    write_jacks(&mut text, setup)?;
    write_all_wires(&mut text, version, setup)?;
    text.push_str("END\n")?;
    Ok(text)
}

// The first line.
fn title(version: Version) -> &'static str
    ensures { result.now ≡ ended (title_line version) }
{
    match version {
        Version::First => "WIRING407 1\n",
        Version::Second => "WIRING407 2\n",
    }
}

/// Adds the line of the form of a tape to a text: `FORM`, its lines, its first line and its overflow line.
///
/// Fails only where memory was refused; the text may then have gained a part of the line.
pub fn write_form(text: &mut String, tape: &Tape) -> Result<(), AllocError>
    ensures { OnOk result (string_bytes text.new ≡ string_bytes text.old ++ ended (form_line tape.now)) }
{
    text.push_str("FORM")?;
    write_spaced_number(text, tape.lines())?;
    write_spaced_number(text, tape.first())?;
    write_spaced_number(text, tape.overflow())?;
    text.push_str("\n")
}

// The stops, by channel and then by line.
pub(crate) fn write_stops(text: &mut String, tape: &Tape) -> Result<(), AllocError>
    requires form { IsCarriageTape tape.now }
    ensures { OnOk result (GainsStops (IsStopOf tape.now) (string_bytes text.old) (string_bytes text.new)) }
{
    for channel in 2..12 {
        write_channel(text, tape, channel)?;
    }
    Ok(())
}

// The stops of a channel, by line.
fn write_channel(text: &mut String, tape: &Tape, channel: u8) -> Result<(), AllocError>
    requires form { IsCarriageTape tape.now }
    ensures { OnOk result (GainsStops (IsStopIn tape.now channel) (string_bytes text.old) (string_bytes text.new)) }
{
    for line in 1..tape.lines() + 1 {
        write_stop(text, tape, channel, line)?;
    }
    Ok(())
}

// The stop of a channel at a line, if there is one.
fn write_stop(text: &mut String, tape: &Tape, channel: u8, line: u8) -> Result<(), AllocError>
    ensures { OnOk result (GainsStops (IsStopAt tape.now channel line) (string_bytes text.old) (string_bytes text.new)) }
{
    if tape.has_stop(channel, line) {
        write_stop_line(text, channel, line)
    } else {
        Ok(())
    }
}

// The line of a stop.
fn write_stop_line(text: &mut String, channel: u8, line: u8) -> Result<(), AllocError>
    ensures { OnOk result (string_bytes text.new ≡ string_bytes text.old ++ ended (stop_line (channel, line))) }
{
    text.push_str("STOP")?;
    write_spaced_number(text, channel)?;
    write_spaced_number(text, line)?;
    text.push_str("\n")
}

// The plugged jacks, in the order of the panel.
pub(crate) fn write_jacks(text: &mut String, setup: &Setup) -> Result<(), AllocError>
    ensures { OnOk result (GainsJacks (HasJack setup.now) (string_bytes text.old) (string_bytes text.new)) }
{
    for place in 0..JACKS {
        write_jack_at(text, setup, place)?;
    }
    Ok(())
}

// The jack at a place of the panel, if it is plugged.
fn write_jack_at(text: &mut String, setup: &Setup, place: usize) -> Result<(), AllocError>
    ensures { OnOk result (GainsJacks (IsJackAt setup.now place) (string_bytes text.old) (string_bytes text.new)) }
{
    match Jack::at(place) {
        Some(jack) if setup.has_jack(jack) => write_jack_line(text, jack),
        _ => Ok(()),
    }
}

// The line of a jack.
fn write_jack_line(text: &mut String, jack: Jack) -> Result<(), AllocError>
    ensures { OnOk result (string_bytes text.new ≡ string_bytes text.old ++ ended (jack_line jack)) }
{
    text.push_str("JACK ")?;
    write_jack_words(text, jack)?;
    text.push_str("\n")
}

// The wires: rings, then those that couple groups, then all others.
pub(crate) fn write_all_wires(
    text: &mut String,
    version: Version,
    setup: &Setup,
) -> Result<(), AllocError>
    ensures { OnOk result (GainsAllWires version (IsWireOf setup.now) (string_bytes text.old) (string_bytes text.new)) }
{
    let wires = setup.wires(*text.allocator())?;
    let wires = wires.as_slice();
    write_wires(text, version, WireForm::Ring, wires)?;
    write_wires(text, version, WireForm::Couple, wires)?;
    write_wires(text, version, WireForm::Plain, wires)
}

// The wires of a form, in their order.
fn write_wires(
    text: &mut String,
    version: Version,
    form: WireForm,
    wires: &[(Hub, Hub)],
) -> Result<(), AllocError>
    requires ordered { AllPairs IsWireBefore wires.now }
    ensures { OnOk result (GainsWires version form (Contains wires.now) (string_bytes text.old) (string_bytes text.new)) }
{
    for wire in wires {
        write_wire(text, version, form, *wire)?;
    }
    Ok(())
}

// A wire, if it is of the form.
fn write_wire(
    text: &mut String,
    version: Version,
    form: WireForm,
    wire: (Hub, Hub),
) -> Result<(), AllocError>
    ensures { OnOk result (GainsWires version form (IsWire wire) (string_bytes text.old) (string_bytes text.new)) }
{
    let (exit, entry) = wire;
    if is_same_form(wire_form(version, exit, entry), form) {
        write_wire_line(text, version, exit, entry)
    } else {
        Ok(())
    }
}

// The line of a wire.
fn write_wire_line(
    text: &mut String,
    version: Version,
    exit: Hub,
    entry: Hub,
) -> Result<(), AllocError>
    ensures { OnOk result (string_bytes text.new ≡ string_bytes text.old ++ ended (wire_line version (exit, entry))) }
{
    match (version, carry_out_of(exit), carry_into(entry)) {
        (Version::Second, Some(from), Some(to)) => write_carry_line(text, from, to),
        _ => write_plain_line(text, exit, entry),
    }
}

// The line of a wire between carries.
fn write_carry_line(text: &mut String, from: Group, to: Group) -> Result<(), AllocError>
    ensures { OnOk result (string_bytes text.new
        ≡ string_bytes text.old ++ ended (carry_line (Some from) (Some to) (CO from, CI to))) }
{
    if is_one_group(from, to) {
        text.push_str("RING")?;
        write_spaced_group(text, from)?;
    } else {
        text.push_str("COUPLE")?;
        write_spaced_number(text, from.number)?;
        write_spaced_number(text, to.number)?;
    }
    text.push_str("\n")
}

// The line of a wire that is no carry's.
fn write_plain_line(text: &mut String, exit: Hub, entry: Hub) -> Result<(), AllocError>
    ensures { OnOk result (string_bytes text.new ≡ string_bytes text.old ++ ended (plain_line (exit, entry))) }
{
    text.push_str("WIRE")?;
    write_spaced_hub(text, exit)?;
    write_spaced_hub(text, entry)?;
    text.push_str("\n")
}
