//! Wires that were put into the hub beside.
//!
//! Such a wire is missing in one place and extra in another, so two changes would undo it, one after the other. It is one slip all the same,
//! and one change undoes it: the wire is moved back.

ghost use Rattle.std.specs.Prelude.{◌≡◌, ◌<◌, ◌⊎◌, true, length, All, IfOk, OnOk};
ghost use Rattle.readback_charts.specs.PanelSlips.Slips.{IsMoveOf};

use crate::panel_slips::toggles::{Toggle, Wire};
use hubs::Hub;
use std::alloc::{AllocError, Global};

// Whether two hubs of one kind stand side by side, by their numbers.
fn are_beside(one: u32, other: u32) -> bool {
    if one.saturating_add(1) != other && other.saturating_add(1) != one {
        return false;
    }
    match (Hub::of_number(one), Hub::of_number(other)) {
        (Some(hub), Some(next)) => hub.letters() == next.letters(),
        _ => false,
    }
}

/// Whether a wire is another that was put into the hub beside, at one of its ends: the next one of the same kind by its number.
pub fn is_moved(from: Wire, to: Wire) -> bool
    ensures { result ≡ true → (from.exit ≡ to.exit) ⊎ (from.entry ≡ to.entry) }
{
    if from.exit == to.exit {
        are_beside(from.entry, to.entry)
    } else if from.entry == to.entry {
        are_beside(from.exit, to.exit)
    } else {
        false
    }
}

// The four wires that may stand in the place of one of which an end was put into the hub beside.
fn beside(wire: Wire) -> [Wire; 4] {
    [
        Wire {
            exit: wire.exit.saturating_sub(1),
            entry: wire.entry,
        },
        Wire {
            exit: wire.exit.saturating_add(1),
            entry: wire.entry,
        },
        Wire {
            exit: wire.exit,
            entry: wire.entry.saturating_sub(1),
        },
        Wire {
            exit: wire.exit,
            entry: wire.entry.saturating_add(1),
        },
    ]
}

// Adds the moves of a wire of a panel into the hubs beside, where none of the panel's wires is.
fn push_moves(moves: &mut Vec<Toggle>, wires: &[Wire], place: usize) -> Result<(), AllocError>
    requires within { place < length wires.now }
    requires moves { All (IsMoveOf wires.now) moves.old.items }
    ensures { OnOk result (All (IsMoveOf wires.now) moves.new.items) }
{
    let from = wires[place];
    for to in beside(from) {
        if is_moved(from, to) && !wires.contains(&to) {
            moves.push(Toggle::Moved { from, to })?;
        }
    }
    Ok(())
}

// Whether a wire has an end at a hub of one of some wires.
fn touches(wire: Wire, others: &[Wire]) -> bool {
    others.iter().any(|other| wire.exit == other.exit || wire.entry == other.entry)
}

/// The moves of the wires of a panel into the hubs beside: of those that have an end at a hub of one of some other wires. Each takes out a
/// wire of the panel, and puts in one that it has not. Its only refusal is memory.
pub fn moves_near(alloc: Global, wires: &[Wire], others: &[Wire]) -> Result<Vec<Toggle>, AllocError>
    ensures { IfOk result (λ moves. All (IsMoveOf wires.now) moves.items) }
{
    let mut moves = Vec::new(alloc);
    for place in 0..wires.len() {
        if touches(wires[place], others) {
            push_moves(&mut moves, wires, place)?;
        }
    }
    Ok(moves)
}
