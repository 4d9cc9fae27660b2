//! Wires that a panel may lack.
//!
//! Most wires stand in runs: the next column leads to the next wheel, or to the position before. So what may be missing beside each wire are
//! the four that would go on with such a run, and those on the other side of the point, if one is beside its wheel. A wire that stands alone
//! names a part or picks one up: the read-outs of the counter groups and the storage units that are in use, the carries between groups of eight
//! positions, the pickups of the pilots, the columns that a comparing position compares and the level that it starts.

use crate::panel_slips::toggles::Wire;
use hubs::setups::Setup;
use hubs::{Group, Hub};
use std::alloc::{AllocError, Global};

// The wire from an exit to an entry, by their numbers, where the panel has both.
fn wire_of(exit: Hub, entry: Hub) -> Option<Wire> {
    let exit = exit.number()?;
    let entry = entry.number()?;
    Some(Wire { exit, entry })
}

// Adds a wire that is not there and not yet among the candidates.
fn push_new(
    candidates: &mut Vec<Wire>,
    setup: &Setup,
    exit: Hub,
    entry: Hub,
) -> Result<(), AllocError> {
    let Some(wire) = wire_of(exit, entry) else {
        return Ok(());
    };
    if !setup.has(exit, entry) && !candidates.contains(&wire) {
        candidates.push(wire)?;
    }
    Ok(())
}

// Adds a wire, where its exit and its entry are of the kinds of those of another.
fn push_beside(
    candidates: &mut Vec<Wire>,
    setup: &Setup,
    wire: Wire,
    next: Wire,
) -> Result<(), AllocError> {
    let Some((exit, entry)) = wire.hubs() else {
        return Ok(());
    };
    let Some((from, to)) = next.hubs() else {
        return Ok(());
    };
    if from.letters() == exit.letters() && to.letters() == entry.letters() {
        push_new(candidates, setup, from, to)?;
    }
    Ok(())
}

// Adds the wires that would go on with a run of which a wire is one.
fn push_run(candidates: &mut Vec<Wire>, setup: &Setup, wire: Wire) -> Result<(), AllocError> {
    for exit in [wire.exit.saturating_sub(1), wire.exit.saturating_add(1)] {
        for entry in [wire.entry.saturating_sub(1), wire.entry.saturating_add(1)] {
            push_beside(candidates, setup, wire, Wire { exit, entry })?;
        }
    }
    Ok(())
}

// Whether the emitter of a line below the headings sends the point to a wheel.
fn has_point(setup: &Setup, wheel: u8) -> bool {
    (4..9).any(|emitter| {
        [12, 8, 3]
            .iter()
            .all(|row| setup.has(Hub::EM(emitter, *row), Hub::W(wheel)))
    })
}

// Adds the wires that would go on with a run of digits on the other side of the point, where a wheel with a point is beside that of a wire.
fn push_beyond_point(
    candidates: &mut Vec<Wire>,
    setup: &Setup,
    wire: Wire,
) -> Result<(), AllocError> {
    let Some((_, Hub::W(wheel))) = wire.hubs() else {
        return Ok(());
    };
    for exit in [wire.exit.saturating_sub(1), wire.exit.saturating_add(1)] {
        if has_point(setup, wheel.saturating_sub(1)) {
            let entry = wire.entry.saturating_sub(2);
            push_beside(candidates, setup, wire, Wire { exit, entry })?;
        }
        if has_point(setup, wheel.saturating_add(1)) {
            let entry = wire.entry.saturating_add(2);
            push_beside(candidates, setup, wire, Wire { exit, entry })?;
        }
    }
    Ok(())
}

// Adds the wires by which the cycles of the levels read out a counter group or a storage unit.
fn push_read_outs(candidates: &mut Vec<Wire>, setup: &Setup, entry: Hub) -> Result<(), AllocError> {
    for level in 1..5 {
        push_new(candidates, setup, Hub::PX(level, 3), entry)?;
    }
    Ok(())
}

// Adds the wires by which a group of eight positions would be coupled with one beside it.
fn push_carries(candidates: &mut Vec<Wire>, setup: &Setup, group: Group) -> Result<(), AllocError> {
    if group.width != 8 {
        return Ok(());
    }
    let before = Group {
        width: 8,
        number: group.number.saturating_sub(1),
    };
    let behind = Group {
        width: 8,
        number: group.number.saturating_add(1),
    };
    push_new(candidates, setup, Hub::CO(before), Hub::CI(group))?;
    push_new(candidates, setup, Hub::CO(group), Hub::CI(behind))
}

// Adds the wires that would name a part which a wire enters.
fn push_naming(candidates: &mut Vec<Wire>, setup: &Setup, entry: Hub) -> Result<(), AllocError> {
    match entry {
        Hub::GE(group, 1) => {
            push_read_outs(candidates, setup, Hub::RO(group))?;
            push_carries(candidates, setup, group)
        }
        Hub::SE(unit, 1) => push_read_outs(candidates, setup, Hub::SO(unit)),
        Hub::PIC(pilot, 2) => push_pickups(candidates, setup, pilot),
        Hub::PIC(pilot, 1) => push_pickups(candidates, setup, pilot),
        Hub::CB(position) => push_compared(candidates, setup, position),
        Hub::CA(position) => push_compared(candidates, setup, position),
        _ => Ok(()),
    }
}

// Adds the wires by which the columns at first reading pick a pilot up.
fn push_pickups(candidates: &mut Vec<Wire>, setup: &Setup, pilot: u8) -> Result<(), AllocError> {
    for column in 1..81 {
        push_new(candidates, setup, Hub::FR(column), Hub::PIX(pilot))?;
    }
    Ok(())
}

// Whether a comparing position beside another starts a level.
fn starts_beside(setup: &Setup, position: u8, level: u8) -> bool {
    setup.has(Hub::CX(position.saturating_sub(1)), Hub::ST(level))
        || setup.has(Hub::CX(position.saturating_add(1)), Hub::ST(level))
}

// Adds the wires by which a comparing position starts a level: first that of a position beside it, since a control field has several mostly.
fn push_starts(candidates: &mut Vec<Wire>, setup: &Setup, position: u8) -> Result<(), AllocError> {
    for level in 1..4 {
        if starts_beside(setup, position, level) {
            push_new(candidates, setup, Hub::CX(position), Hub::ST(level))?;
        }
    }
    for level in 1..4 {
        push_new(candidates, setup, Hub::CX(position), Hub::ST(level))?;
    }
    Ok(())
}

// Adds the wires of a comparing position, by the column that enters it once.
fn push_compared(
    candidates: &mut Vec<Wire>,
    setup: &Setup,
    position: u8,
) -> Result<(), AllocError> {
    for column in 1..81 {
        if setup.has(Hub::SR(column), Hub::CB(position)) {
            push_new(candidates, setup, Hub::FR(column), Hub::CA(position))?;
        }
        if setup.has(Hub::FR(column), Hub::CA(position)) {
            push_new(candidates, setup, Hub::SR(column), Hub::CB(position))?;
        }
    }
    push_starts(candidates, setup, position)
}

/// The wires that a panel may lack, by those that it has.
pub(crate) fn candidates_of(
    alloc: Global,
    setup: &Setup,
    wires: &[Wire],
) -> Result<Vec<Wire>, AllocError> {
    let mut candidates = Vec::new(alloc);
    for wire in wires {
        push_run(&mut candidates, setup, *wire)?;
        push_beyond_point(&mut candidates, setup, *wire)?;
        if let Some(entry) = Hub::of_number(wire.entry) {
            push_naming(&mut candidates, setup, entry)?;
        }
    }
    Ok(candidates)
}
