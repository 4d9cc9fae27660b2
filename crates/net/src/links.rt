//! The wires of a setup one by one.

ghost use Rattle.std.specs.Prelude.{◌≡◌, ℕ, ◌<◌, ◌≤◌, All, OnOk, false};
ghost use Rattle.machine_sets.specs.BitSets.Bits.{has_place};
ghost use Rattle.hubs.specs.SetupsWords.Wiring.{IsEntryNumber};
ghost use Rattle.machine_sets.specs.SpreadsWords.Links.{IsInRange, is_linked};
ghost use Rattle.net.specs.AddedWires.{AddsLinks};

use machine_sets::bit_sets::WORDS;
use machine_sets::spreads::Link;
use std::alloc::AllocError;

// Adds the links from a place to the places of the entries with these numbers.
pub(crate) fn add_links(
    links: &mut Vec<Link>,
    place: usize,
    entries: &[u16],
) -> Result<(), AllocError>
    requires place { place < 1040 }
    requires entries { All IsEntryNumber entries.now }
    requires lawful { All IsInRange links.old.items }
    ensures lawful { OnOk result (All IsInRange links.new.items) }
    ensures added { OnOk result (AddsLinks links.old.items links.new.items place entries.now) }
{
    for &to in entries {
        links.push(Link {
            from: place as u16,
            to: to - 1,
        })?;
    }
    Ok(())
}

// Whether a link leads to one of these places.
pub(crate) fn leads_to_any(links: &[Link], places: &[u64; WORDS]) -> bool
    ensures { result ≡ false → All (λ link. has_place places.now link.to ≡ false) links.now }
{
    for link in links {
        if machine_sets::bit_sets::has(places, link.to as usize) {
            return true;
        }
    }
    false
}
