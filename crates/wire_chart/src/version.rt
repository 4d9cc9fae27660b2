//! Which version of the language a wiring chart is in.

ghost use Rattle.std.specs.Prelude.{◌≡◌, ◌≢◌, ◌↔◌, Some, true, false};
ghost use Rattle.hubs.specs.Hubs.{number_of};
ghost use Rattle.hubs.specs.declared.hub.Hub.{Hub};
ghost use Rattle.hubs.specs.SetupsWords.Wiring.{HasWire, Wiring};
ghost use Rattle.wire_chart.specs.WrittenText.{JoinsGroups, wire_form};
ghost use Rattle.wire_chart.specs.declared.form.WireForm.TheVariants.{Couple};
ghost use Rattle.wiring_text.specs.WiringText.{ReadsAs};
ghost use Rattle.wiring_text.specs.declared.statement.Version.TheVariants.{Second};

use crate::form::{WireForm, is_same_form, wire_form};
use card_code::next_line;
use chart_lines::tokens::is_title_line;
use hubs::setups::Setup;
use hubs::{Hub, carry_out_of};
use wiring_text::Version;

/// The version in which [`write_setup`](crate::write_setup) writes a setup: the second where a wire couples two counter groups, else the
/// first.
pub fn version_of(setup: &Setup) -> Version
    ensures { (result ≡ Second) ↔ JoinsGroups setup.now }
{
    if joins_groups(setup) {
        Version::Second
    } else {
        Version::First
    }
}

/// The version in which a wiring chart is read, which its first line names.
pub fn version_of_text(text: &[u8]) -> Version
    ensures { (wiring : Wiring) (reads : ReadsAs text.now wiring) → result ≡ reads.chart.reads.version }
{
    match next_line(text) {
        Some((first, _)) if is_title_line(first, b"WIRING407", b"2") => Version::Second,
        _ => Version::First,
    }
}

// Whether a wire couples two counter groups.
fn joins_groups(setup: &Setup) -> bool
    ensures joins { result ≡ true → JoinsGroups setup.now }
    ensures none { result ≡ false → (exit entry : Hub) → HasWire setup.now exit entry → wire_form Second (exit, entry) ≢ Couple }
{
    for number in 1..1937 {
        if couples_from(setup, number) {
            return true;
        }
    }
    false
}

// Whether a wire from the hub of a number couples two counter groups.
fn couples_from(setup: &Setup, number: u32) -> bool
    ensures joins { result ≡ true → JoinsGroups setup.now }
    ensures none { result ≡ false → (exit entry : Hub) → number_of exit ≡ Some number → HasWire setup.now exit entry
        → wire_form Second (exit, entry) ≢ Couple }
{
    let Some(exit) = Hub::of_number(number) else {
        return false;
    };
    if carry_out_of(exit).is_none() {
        return false;
    }
    couples_to_any(setup, exit)
}

// Whether a wire from an exit couples two counter groups.
fn couples_to_any(setup: &Setup, exit: Hub) -> bool
    ensures joins { result ≡ true → JoinsGroups setup.now }
    ensures none { result ≡ false → (entry : Hub) → HasWire setup.now exit entry → wire_form Second (exit, entry) ≢ Couple }
{
    for number in 1..1937 {
        if couples_to(setup, exit, number) {
            return true;
        }
    }
    false
}

// Whether the wire from an exit to the hub of a number is there, and couples two counter groups.
fn couples_to(setup: &Setup, exit: Hub, number: u32) -> bool
    ensures joins { result ≡ true → JoinsGroups setup.now }
    ensures none { result ≡ false → (entry : Hub) → number_of entry ≡ Some number → HasWire setup.now exit entry
        → wire_form Second (exit, entry) ≢ Couple }
{
    match Hub::of_number(number) {
        Some(entry) => is_same_form(wire_form(Version::Second, exit, entry), WireForm::Couple)
            && setup.has(exit, entry),
        None => false,
    }
}
