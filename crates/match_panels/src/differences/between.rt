//! What one setup has and another has not.

ghost use Rattle.std.specs.Prelude.{◌≡◌, IfOk, OnOk};
ghost use Rattle.match_panels.specs.DifferencesWords.Differences.{IsDifference, LacksJack, LacksWire};
ghost use Rattle.match_panels.specs.DifferencesWords.Helper.{LacksAt, LacksFrom, LacksTo};
ghost use Rattle.wiring_lines.specs.JacksAndTape.HelperJacks.{Plugs};
ghost use Rattle.wiring_lines.specs.LineWires.HelperAdds.{Adds, One};

use crate::differences::tapes::tape_difference;
use hubs::setups::Setup;
use hubs::{Hub, JACKS, Jack};
use std::alloc::{AllocError, Global};

// Adds a wire. The wires of a difference are some of those of one setup, so they agree with one another, and want of memory is
// the only refusal; a wire that did not agree would be answered alike.
fn connect(left: &mut Setup, exit: Hub, entry: Hub) -> Result<(), AllocError>
    ensures { OnOk result (Adds (One exit entry) left.old left.new) }
{
    match left.add(exit, entry) {
        Ok(_) => Ok(()),
        Err(_) => Err(AllocError),
    }
}

// Adds the wire from an exit to the entry of a number, if the other setup has no such wire.
fn add_to(left: &mut Setup, other: &Setup, exit: Hub, number: u16) -> Result<(), AllocError>
    ensures { OnOk result (Adds (LacksTo other.now exit number) left.old left.new) }
{
    let Some(entry) = Hub::of_number(u32::from(number)) else {
        return Ok(());
    };
    if other.has(exit, entry) {
        return Ok(());
    }
    connect(left, exit, entry)
}

// Adds the wires from the exit of a number that one setup has and the other has not.
fn add_from(left: &mut Setup, one: &Setup, other: &Setup, number: u32) -> Result<(), AllocError>
    ensures { OnOk result (Adds (LacksFrom one.now other.now number) left.old left.new) }
{
    let Some(exit) = Hub::of_number(number) else {
        return Ok(());
    };
    let entries = one.entries_of(exit);
    for entry in entries {
        add_to(left, other, exit, *entry)?;
    }
    Ok(())
}

// Adds the wires that one setup has and the other has not.
fn add_wires(left: &mut Setup, one: &Setup, other: &Setup) -> Result<(), AllocError>
    ensures { OnOk result (Adds (LacksWire one.now other.now) left.old left.new) }
{
    // Called for its promise alone, that wires lead from exits: it saves the numbers of the entries.
    let _its = one.known();
    for number in 0..1041 {
        add_from(left, one, other, number)?;
    }
    Ok(())
}

// Plugs the jack at a place of the panel, if it is plugged in one setup and not in the other.
fn plug_at(left: &mut Setup, one: &Setup, other: &Setup, place: usize)
    ensures { Plugs (LacksAt one.now other.now place) left.old left.new }
{
    if let Some(jack) = Jack::at(place) {
        if one.has_jack(jack) && !other.has_jack(jack) {
            left.plug(jack);
        }
    }
}

// Plugs the jacks that are plugged in one setup and not in the other.
fn plug_jacks(left: &mut Setup, one: &Setup, other: &Setup)
    ensures { Plugs (LacksJack one.now other.now) left.old left.new }
{
    for place in 0..JACKS {
        plug_at(left, one, other, place);
    }
}

/// What one setup has and the other has not: a setup of exactly these wires, jacks and stops, on the form of the one. Its only
/// refusal is memory.
pub fn difference(alloc: Global, one: &Setup, other: &Setup) -> Result<Setup, AllocError>
    ensures { IfOk result (IsDifference one.now other.now) }
{
    let tape = tape_difference(one.tape(), other.tape());
    let mut left = Setup::new(alloc, tape);
    plug_jacks(&mut left, one, other);
    add_wires(&mut left, one, other)?;
    Ok(left)
}
