//! The ways to the hubs at one point of a cycle.

ghost use Rattle.std.specs.Prelude.{◌≡◌, ◌↔◌, ◌<◌, ◌≤◌, ◌+◌, ℕ, Some, None, Bool, IfOk, IfSome, IsSome};
ghost use Rattle.hubs.specs.Hubs.{number_of};
ghost use Rattle.hubs.specs.declared.hub.Hub.{Hub};
ghost use Rattle.net.specs.HubSets.{has_hub};
ghost use Rattle.explain_wheels.specs.WaysWords.Tables.{at, AreUpTo, IsStepTable, LeadsAt, StartsAt};
ghost use Rattle.explain_wheels.specs.WaysWords.Ways.{IsWay};

use crate::ways::leads::leads;
use crate::ways::search::{PLACES, search};
use hubs::Hub;
use hubs::setups::Setup;
use net::{Contacts, Picture};
use std::alloc::{AllocError, Global};
use std::marker::Model;

/// How an impulse can reach each hub at one point of a cycle: by the wires of a setup and the contacts that are closed then, from
/// the exits that emit.
#[derive(Drop)]
pub struct Ways {
    steps: [u16; PLACES],
}

impl Model for Ways {
    ghost use Rattle.explain_wheels.specs.WaysWords.Tables.{WayTable};

    ghost Value = { WayTable };

    ghost view = { λ ways. record { steps = ways.steps } };
}

impl Ways {
    ghost use Rattle.std.specs.Prelude.{◌≡◌, ◌↔◌, Bool, true, IfOk, IfSome, IsSome};
    ghost use Rattle.hubs.specs.SetupsWords.Wiring.{Wiring};
    ghost use Rattle.net.specs.HubSets.{HubSet};
    ghost use Rattle.hubs.specs.declared.hub.Hub.{Hub};
    ghost use Rattle.net.specs.HubSets.{has_hub};
    ghost use Rattle.net.specs.Impulsed.{IsImpulsed};
    ghost use Rattle.explain_wheels.specs.WaysWords.Tables.{AreWaysOf};
    ghost use Rattle.explain_wheels.specs.WaysWords.Ways.{IsWay};

    /// The ways from the exits that emit, by the wires of the setup and the contacts that are closed.
    pub fn of(setup: &Setup, exits: &Picture, contacts: &Contacts) -> Ways
        ensures { AreWaysOf setup.now (has_hub exits.now) (has_hub contacts.now) result }
    {
        Ways {
            steps: search(setup, exits, contacts),
        }
    }

    /// Whether the hub is impulsed.
    pub fn has(&self, hub: Hub) -> bool
        ensures { (wiring : Wiring) (exits : Hub → Bool) (contacts : HubSet) → AreWaysOf wiring exits (has_hub contacts) self.now
            → (result ≡ true) ↔ IsImpulsed wiring exits (has_hub contacts) hub }
    {
        match hub.number() {
            Some(number) => self.steps[number as usize] != 0,
            None => false,
        }
    }

    /// A way to the hub, hub by hub from an exit that emits, with no hub twice; none if the hub isn't impulsed. The setup and the contacts
    /// are those that the ways were found by. Fails only where no memory is left.
    pub fn way_to(
        &self,
        alloc: Global,
        setup: &Setup,
        contacts: &Contacts,
        hub: Hub,
    ) -> Result<Option<Vec<Hub>>, AllocError>
        ensures way { (exits : Hub → Bool) → AreWaysOf setup.now exits (has_hub contacts.now) self.now
            → IfOk result (λ found. IfSome found (λ way. IsWay setup.now exits (has_hub contacts.now) hub way.items)) }
        ensures found { (exits : Hub → Bool) → AreWaysOf setup.now exits (has_hub contacts.now) self.now
            → IfOk result (λ found. IsSome found ↔ IsImpulsed setup.now exits (has_hub contacts.now) hub) }
    {
        match hub.number() {
            Some(number) => way_at(alloc, setup, contacts, &self.steps, number as u16),
            None => Ok(None),
        }
    }
}

// A way to the hub with a number, by a table.
fn way_at(
    alloc: Global,
    setup: &Setup,
    contacts: &Contacts,
    steps: &[u16; PLACES],
    to: u16,
) -> Result<Option<Vec<Hub>>, AllocError>
    requires { to < 1937 }
    ensures way { (exits : Hub → Bool) (hub : Hub)
        → IsStepTable (LeadsAt setup.now (has_hub contacts.now)) (StartsAt exits) steps.now → number_of hub ≡ Some to
        → IfOk result (λ found. IfSome found (λ way. IsWay setup.now exits (has_hub contacts.now) hub way.items)) }
    ensures some { (exits : Hub → Bool) → IsStepTable (LeadsAt setup.now (has_hub contacts.now)) (StartsAt exits) steps.now
        → 1 ≤ at steps.now to → IfOk result IsSome }
    ensures none { at steps.now to ≡ 0 → IfOk result (λ found. found ≡ None) }
    ensures up_to { IfOk result (λ found. IfSome found (λ way. AreUpTo steps.now (at steps.now to) way.items)) }
{
    let Some(hub) = Hub::of_number(to as u32) else {
        return Ok(None);
    };
    if steps[to as usize] == 0 {
        return Ok(None);
    }
    if steps[to as usize] == 1 {
        let mut way = Vec::new(alloc);
        way.push(hub)?;
        return Ok(Some(way));
    }
    let Some(from) = before(setup, contacts, steps, to) else {
        return Ok(None);
    };
    let Some(mut way) = way_at(alloc, setup, contacts, steps, from)? else {
        return Ok(None);
    };
    way.push(hub)?;
    Ok(Some(way))
}

// The lowest number of a hub that leads on to the hub with a number and has one number less in the table.
fn before(setup: &Setup, contacts: &Contacts, steps: &[u16; PLACES], to: u16) -> Option<u16>
    requires { to < 1937 }
    ensures range { IfSome result (λ from. from < 1937) }
    ensures before { IfSome result (λ from. (at steps.now from + 1 ≡ at steps.now to)
        × LeadsAt setup.now (has_hub contacts.now) from to) }
    ensures lowest { IfSome result (λ from. (other : ℕ) → other < from → at steps.now other + 1 ≡ at steps.now to
        → ¬ LeadsAt setup.now (has_hub contacts.now) other to) }
    ensures none { result ≡ None → (from : ℕ) → at steps.now from + 1 ≡ at steps.now to
        → ¬ LeadsAt setup.now (has_hub contacts.now) from to }
{
    for from in 0..PLACES {
        if steps[from] as u32 + 1 == steps[to as usize] as u32
            && leads(setup, contacts, from as u16, to)
        {
            return Some(from as u16);
        }
    }
    None
}
