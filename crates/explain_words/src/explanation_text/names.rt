//! Ways as they are written.

ghost use Rattle.std.specs.Prelude.{◌≡◌, ◌+◌, ◌<◌, ◌++◌, OnOk};
ghost use Rattle.std.specs.List.{flat_map};
ghost use Rattle.std.specs.String.{string_bytes};
ghost use Rattle.explain_words.specs.ExplanationText.Text.{is_contact_exit, led_text, row_at, way_text};

use hubs::{Hub, write_hub};
use std::alloc::AllocError;

// Whether the hub is the exit of a contact.
pub(crate) fn is_contact_exit(hub: Hub) -> bool
    ensures { result ≡ is_contact_exit hub }
{
    match hub {
        Hub::CO(_)
        | Hub::BAN(_, _)
        | Hub::BAT(_, _)
        | Hub::PIN(_, _)
        | Hub::PIT(_, _)
        | Hub::IX(_, _)
        | Hub::CSD(_)
        | Hub::CSZ(_) => true,
        _ => false,
    }
}

// A hub behind another one of a way, and what leads to it.
fn write_led(text: &mut String, hub: Hub) -> Result<(), AllocError>
    ensures { OnOk result (string_bytes text.new ≡ string_bytes text.old ++ led_text hub) }
{
    if is_contact_exit(hub) {
        text.push_str(" => ")?;
    } else {
        text.push_str(" -> ")?;
    }
    write_hub(text, hub)
}

#[tactic(auto, using(crate::proofs::ExplanationText::Gains::led_more))]
// The hubs behind the first one of a way.
fn write_others(text: &mut String, hubs: &[Hub]) -> Result<(), AllocError>
    ensures { OnOk result (string_bytes text.new ≡ string_bytes text.old ++ flat_map led_text hubs.now) }
{
    for hub in hubs {
        write_led(text, *hub)?;
    }
    Ok(())
}

/// Writes a way, hub by hub, with a space before each: ` -> ` is a wire, ` => ` a closed contact. Fails only if no memory is left.
pub fn write_way(text: &mut String, way: &[Hub]) -> Result<(), AllocError>
    ensures { OnOk result (string_bytes text.new ≡ string_bytes text.old ++ way_text way.now) }
{
    let Some((exit, others)) = way.split_first() else {
        return Ok(());
    };
    text.push_str(" ")?;
    write_hub(text, *exit)?;
    write_others(text, others)
}

// The number of the row at a place in the order of the points.
pub(crate) fn row_at(place: usize) -> u8
    requires { place < 12 }
    ensures { result ≡ row_at place }
{
    if place < 10 {
        9 - place as u8
    } else {
        place as u8 + 1
    }
}
