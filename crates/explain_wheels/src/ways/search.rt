//! The search for shortest ways, layer by layer.

ghost use Rattle.std.specs.Prelude.{◌≡◌, ◌<◌, ◌≤◌, All, Contains};
ghost use Rattle.net.specs.HubSets.{has_hub};
ghost use Rattle.hubs.specs.SetupsWords.Wiring.{IsEntryNumber};
ghost use Rattle.explain_wheels.specs.WaysWords.Passed.{IsPassedTo, IsShutAt};
ghost use Rattle.explain_wheels.specs.WaysWords.Tables.{LeadsAt, StartsAt, IsLedAt, IsPass, IsStartTable, IsStepTable};

use crate::ways::leads::{contacts_from, is_start};
use hubs::Hub;
use hubs::setups::Setup;
use net::{Contacts, Picture};

// Numbers of the hubs are 1 to 1936.
pub(crate) const PLACES: usize = 1937;

// At the number of each hub how many hubs a shortest way to it has, from one of the exits by wires and closed contacts; 0 where
// there is no way.
pub(crate) fn search(setup: &Setup, exits: &Picture, contacts: &Contacts) -> [u16; PLACES]
    ensures { IsStepTable (LeadsAt setup.now (has_hub contacts.now)) (StartsAt (has_hub exits.now)) result }
{
    let mut steps = starts(exits);
    let mut level = 1;
    while spread_all(setup, contacts, level, &mut steps) {
        level += 1;
    }
    steps
}

// A table with 1 at each of the exits.
fn starts(exits: &Picture) -> [u16; PLACES]
    ensures { IsStartTable (StartsAt (has_hub exits.now)) result }
{
    let mut steps = [0; PLACES];
    for number in 0..PLACES {
        if is_start(exits, number as u16) {
            steps[number] = 1;
        }
    }
    steps
}

// Goes on from each hub of a level.
fn spread_all(setup: &Setup, contacts: &Contacts, level: u16, steps: &mut [u16; PLACES]) -> bool
    requires { (1 ≤ level) × (level ≤ 2000) }
    ensures { IsPass level (IsLedAt (LeadsAt setup.now (has_hub contacts.now)) level 1937 steps.old) steps.old steps.new result }
{
    let mut added = false;
    for from in 0..PLACES {
        if steps[from] == level && spread(setup, contacts, from as u16, level, steps) {
            added = true;
        }
    }
    added
}

// Goes on from one hub of a level: by its wires, and by the closed contacts that lead from it.
fn spread(
    setup: &Setup,
    contacts: &Contacts,
    from: u16,
    level: u16,
    steps: &mut [u16; PLACES],
) -> bool
    requires { level ≤ 2000 }
    ensures { IsPass level (LeadsAt setup.now (has_hub contacts.now) from) steps.old steps.new result }
{
    let Some(hub) = Hub::of_number(from as u32) else {
        return false;
    };
    let mut added = fill_all(setup.entries_of(hub), level, steps);
    added |= pass_contacts(contacts, hub, level, steps);
    added
}

// Goes on by the closed contacts that lead from a hub.
fn pass_contacts(contacts: &Contacts, common: Hub, level: u16, steps: &mut [u16; PLACES]) -> bool
    requires { level ≤ 2000 }
    ensures { IsPass level (IsPassedTo (has_hub contacts.now) common) steps.old steps.new result }
{
    let (one, other) = contacts_from(common);
    let mut added = pass_contact(contacts, one, level, steps);
    added |= pass_contact(contacts, other, level, steps);
    added
}

// Goes on by the contact with an exit, where there is one and it is closed.
fn pass_contact(
    contacts: &Contacts,
    exit: Option<Hub>,
    level: u16,
    steps: &mut [u16; PLACES],
) -> bool
    requires { level ≤ 2000 }
    ensures { IsPass level (IsShutAt (has_hub contacts.now) exit) steps.old steps.new result }
{
    let Some(exit) = exit else {
        return false;
    };
    if !contacts.has(exit) {
        return false;
    }
    match exit.number() {
        Some(number) => fill(number as u16, level, steps),
        None => false,
    }
}

// Fills the places of a table with these numbers, where they are empty.
fn fill_all(entries: &[u16], level: u16, steps: &mut [u16; PLACES]) -> bool
    requires level { level ≤ 2000 }
    requires entries { All IsEntryNumber entries.now }
    ensures { IsPass level (Contains entries.now) steps.old steps.new result }
{
    let mut added = false;
    for to in entries {
        added |= fill(*to, level, steps);
    }
    added
}

// Fills a place of a table, where it is empty.
fn fill(to: u16, level: u16, steps: &mut [u16; PLACES]) -> bool
    requires level { level ≤ 2000 }
    requires to { to < 1937 }
    ensures { IsPass level (λ h. h ≡ to) steps.old steps.new result }
{
    if steps[to as usize] != 0 {
        return false;
    }
    steps[to as usize] = level + 1;
    true
}
