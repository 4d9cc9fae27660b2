//! Writing the words of a wiring chart: numbers, hubs and jacks.

ghost use Rattle.std.specs.Prelude.{◌≡◌, ◌++◌, decimal, OnOk};
ghost use Rattle.std.specs.String.{string_bytes};
ghost use Rattle.hubs.specs.HubText.{group_text, hub_text};
ghost use Rattle.wire_chart.specs.WrittenText.{spaced, jack_text};

use chart_numerals::push_numbered;
use hubs::{Group, Hub, Jack, write_hub};
use std::alloc::AllocError;

// A space and a number.
pub(crate) fn write_spaced_number(text: &mut String, number: u8) -> Result<(), AllocError>
    ensures { OnOk result (string_bytes text.new ≡ string_bytes text.old ++ spaced (decimal number)) }
{
    push_numbered(text, " ", number)
}

// A space and a counter group: its width, a point and its number.
pub(crate) fn write_spaced_group(text: &mut String, group: Group) -> Result<(), AllocError>
    ensures { OnOk result (string_bytes text.new ≡ string_bytes text.old ++ spaced (group_text group)) }
{
    push_numbered(text, " ", group.width)?;
    push_numbered(text, ".", group.number)
}

// A space and a hub.
pub(crate) fn write_spaced_hub(text: &mut String, hub: Hub) -> Result<(), AllocError>
    ensures { OnOk result (string_bytes text.new ≡ string_bytes text.old ++ spaced (hub_text hub)) }
{
    text.push_str(" ")?;
    write_hub(text, hub)
}

// A jack of the panel: its word, and its number if it bears one.
pub(crate) fn write_jack_words(text: &mut String, jack: Jack) -> Result<(), AllocError>
    ensures { OnOk result (string_bytes text.new ≡ string_bytes text.old ++ jack_text jack) }
{
    match jack {
        Jack::List => text.push_str("LIST"),
        Jack::Total(level) => write_numbered(text, "TOTAL", level),
        Jack::Head(heading) => write_numbered(text, "HEAD", heading),
        Jack::Link(wheel) => write_numbered(text, "LINK", wheel),
        Jack::Suppress(wheel) => write_numbered(text, "SUPPRESS", wheel),
        Jack::Symbol(wheel) => write_numbered(text, "SYMBOL", wheel),
    }
}

// A word and a number.
fn write_numbered(text: &mut String, word: &str, number: u8) -> Result<(), AllocError>
    ensures { OnOk result (string_bytes text.new ≡ string_bytes text.old ++ word.now ++ spaced (decimal number)) }
{
    text.push_str(word)?;
    write_spaced_number(text, number)
}
