//! Hubs as they are written.

ghost use Rattle.std.specs.Prelude.{◌≡◌, ◌++◌, OnOk};
ghost use Rattle.std.specs.String.{string_bytes};
ghost use Rattle.hubs.specs.HubText.{hub_text, numbers_text, pointed};

use crate::hub::Hub;
use crate::hub_table::Numbers;
use chart_numerals::push_numbered;
use std::alloc::AllocError;

/// Writes a hub: its letters, and its numbers with a point before each, as `GX.8.1.3`. Fails only where no memory is left; a front of the
/// hub may then have been written.
pub fn write_hub(text: &mut String, hub: Hub) -> Result<(), AllocError>
    ensures { OnOk result (string_bytes text.new ≡ string_bytes text.old ++ hub_text hub) }
{
    text.push_str(hub.letters().spelled())?;
    write_numbers(text, hub.numbers())
}

// The numbers of a hub, a point before each.
fn write_numbers(text: &mut String, numbers: Numbers) -> Result<(), AllocError>
    ensures { OnOk result (string_bytes text.new ≡ string_bytes text.old ++ numbers_text numbers) }
{
    match numbers {
        Numbers::Bare => Ok(()),
        Numbers::One(first) => write_pointed(text, first),
        Numbers::Two(first, second) => {
            write_pointed(text, first)?;
            write_pointed(text, second)
        }
        Numbers::Three(first, second, third) => {
            write_pointed(text, first)?;
            write_pointed(text, second)?;
            write_pointed(text, third)
        }
    }
}

// A point and a number.
fn write_pointed(text: &mut String, number: u16) -> Result<(), AllocError>
    ensures { OnOk result (string_bytes text.new ≡ string_bytes text.old ++ pointed number) }
{
    push_numbered(text, ".", number)
}
