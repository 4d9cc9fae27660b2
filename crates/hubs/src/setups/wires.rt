//! The wires of a setup, one by one.

ghost use Rattle.std.specs.Prelude.{◌≡◌, ◌≤◌, ◌↔◌, All, Contains, IfOk, IsTrue, OnOk};
ghost use Rattle.hubs.specs.SetupsWords.Wires.{AreWiresOf, GainsWires, IsWireFrom, IsWireTo, IsWireToAny};

use crate::Hub;
use crate::setups::setup::Setup;
use std::alloc::{AllocError, Global};

impl Setup {
    /// The wires, each once, as exit and entry, by the number of the exit and then that of the entry. Fails only where no memory is left.
    pub fn wires(&self, alloc: Global) -> Result<Vec<(Hub, Hub)>, AllocError>
        ensures { IfOk result (λ wires. AreWiresOf self.now wires.items) }
    {
        let mut wires = Vec::new(alloc);
        for number in 1..1937 {
            list_from(&mut wires, self, number)?;
        }
        Ok(wires)
    }
}

// The wires from the hub of a number.
fn list_from(wires: &mut Vec<(Hub, Hub)>, setup: &Setup, number: u32) -> Result<(), AllocError>
    ensures { OnOk result (GainsWires (IsWireFrom setup.now number) wires.old.items wires.new.items) }
{
    let Some(exit) = Hub::of_number(number) else {
        return Ok(());
    };
    let entries = setup.entries_of(exit);
    if entries.is_empty() {
        return Ok(());
    }
    list_to(wires, exit, entries)
}

// The wires from an exit to the entries of these numbers.
fn list_to(wires: &mut Vec<(Hub, Hub)>, exit: Hub, entries: &[u16]) -> Result<(), AllocError>
    requires entries { All (λ number. (1041 ≤ number) × (number ≤ 1936)) entries.now }
    ensures { OnOk result (GainsWires (IsWireToAny exit entries.now) wires.old.items wires.new.items) }
{
    for number in 1041..1937 {
        list_wire(wires, exit, entries, number)?;
    }
    Ok(())
}

// The wire from an exit to the entry of a number, if that is among the entries.
fn list_wire(
    wires: &mut Vec<(Hub, Hub)>,
    exit: Hub,
    entries: &[u16],
    number: u16,
) -> Result<(), AllocError>
    ensures { OnOk result (GainsWires (IsWireTo exit entries.now number) wires.old.items wires.new.items) }
{
    if !is_listed(entries, number) {
        return Ok(());
    }
    match Hub::of_number(u32::from(number)) {
        Some(entry) => Ok(wires.push((exit, entry))?),
        None => Ok(()),
    }
}

// Whether a number is among the numbers.
fn is_listed(numbers: &[u16], number: u16) -> bool
    ensures { IsTrue result ↔ Contains numbers.now number }
{
    numbers.contains(&number)
}
