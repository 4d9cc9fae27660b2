//! The wires and contacts along which rows may come from some exits, parted as sets of rows are spread along them.

ghost use Rattle.std.specs.Prelude.{◌≡◌, ℕ, ◌<◌, All, IfOk, OnOk, false};
ghost use Rattle.machine_sets.specs.BitSets.Bits.{has_place};
ghost use Rattle.machine_sets.specs.BitSets.Contacts.{is_contact};
ghost use Rattle.machine_sets.specs.SpreadsWords.Blocks.{LeadTo, RunLeadsTo};
ghost use Rattle.machine_sets.specs.SpreadsWords.Links.{HasRoom, IsEight, IsInRange, IsPassing, Spreads, is_led_to};
ghost use Rattle.machine_sets.specs.SpreadsWords.Passing.{AddsContacts};
ghost use Rattle.machine_sets.specs.SpreadsWords.Paths.{AreContactsOf, AreLinksFrom, AreWires};

use crate::bit_sets::{PLACES, Run, WORDS, has, put_where};
use crate::spreads::blocks::{ALL_BLOCKS, block_of, blocks_from};
use crate::spreads::contact_runs::{eights_of, pass_eights};
use crate::spreads::links::{Link, follow_links};
use crate::spreads::passing::pass_all;
use crate::spreads::sets::PlaceSets;
use std::alloc::{AllocError, Global};
use std::marker::Model;

/// The wires and contacts along which rows may come from some exits, parted so that sets of rows are spread along them in turns. Contracts
/// see lists of them.
pub struct Paths {
    // The wires from the exits, for `follow_outer`, and the blocks of places to which they lead.
    outer: Vec<Link>,
    outer_far: u64,
    // Runs of at most eight contacts each, in which all those lie that these wires lead to, for `pass`, and the blocks to which they lead.
    eights: Vec<Run>,
    eights_far: u64,
    // The wires from the exits of the contacts that the outer wires lead to, for `follow_further`, and the blocks to which they lead.
    further: Vec<Link>,
    further_far: u64,
    // The contacts to which these wires lead, for `pass_behind`.
    behind: Vec<Link>,
}

// By hand, so that a function that drops one calls this, and doesn't drop its parts one by one.
impl Drop for Paths {
    fn drop(self) {
        let Paths {
            outer: _outer,
            outer_far: _outer_far,
            eights: _eights,
            eights_far: _eights_far,
            further: _further,
            further_far: _further_far,
            behind: _behind,
        } = self;
    }
}

impl Model for Paths {
    ghost use Rattle.machine_sets.specs.SpreadsWords.Paths.{ArePaths, PathLinks};

    ghost Value = { PathLinks };

    ghost view = { λ paths. record {
      outer = paths.outer.items;
      eights = paths.eights.items;
      further = paths.further.items;
      behind = paths.behind.items;
    } };

    ghost invariant = { λ paths. ArePaths paths.outer_far paths.eights_far paths.further_far (record {
      outer = paths.outer.items;
      eights = paths.eights.items;
      further = paths.further.items;
      behind = paths.behind.items;
    }) };
}

impl Paths {
    ghost use Rattle.std.specs.Prelude.{◌≡◌, All, IfOk, false};
    ghost use Rattle.machine_sets.specs.SpreadsWords.Links.{HasRoom, IsInRange, Spreads};
    ghost use Rattle.machine_sets.specs.SpreadsWords.Passing.{Passes, RunsPass, SameSets};
    ghost use Rattle.machine_sets.specs.SpreadsWords.Paths.{AreParted};

    /// The paths along which rows may come from these exits: of the wires that are listed those from the exits, the contacts of the runs
    /// to which they lead, the wires from the exits of these, and the contacts to which those lead. Contacts lead from entries to exits, and
    /// behind the last entry of each run there are eight places more. Wires lead from places below 1,040 to places from 1,040 to 1,935.
    ///
    /// # Errors
    ///
    /// `AllocError` if memory runs out, and no other.
    pub fn of(
        alloc: Global,
        runs: &[Run],
        links: &[Link],
        exits: &[u64; WORDS],
    ) -> Result<Paths, AllocError>
        requires range { All IsInRange links.now }
        requires room { All HasRoom runs.now }
        ensures { IfOk result (AreParted runs.now links.now exits.now) }
    {
        let outer = links_from(alloc, links, exits)?;
        let contacts = contacts_of(alloc, runs, outer.as_slice())?;
        let eights = eights_of(alloc, runs, contacts.as_slice())?;
        let further = links_from(alloc, links, &places_led_to(contacts.as_slice()))?;
        let behind = contacts_of(alloc, runs, further.as_slice())?;
        Ok(Paths {
            outer_far: far_blocks(outer.as_slice()),
            outer,
            eights_far: far_blocks_of_eights(eights.as_slice()),
            eights,
            further_far: far_blocks(further.as_slice()),
            further,
            behind,
        })
    }

    /// Spreads sets of rows along the wires from the exits: the far end of each gains the rows of the near end.
    pub fn follow_outer(&self, sets: &mut PlaceSets)
        ensures { Spreads self.now.outer sets.old sets.new }
    {
        follow_wires(self.outer.as_slice(), self.outer_far, sets);
    }

    /// The contacts pass on the rows of their near ends at which they are closed: `digits` has the exits of those closed at the rows 9 to
    /// 0, `zones` of those closed at 11 and 12. They are taken in eights: each to which a wire leads lies in one, and all others in it
    /// pass on rows too, wired or not. Answers whether a far end may have gained any.
    pub fn pass(&self, digits: &[u64; WORDS], zones: &[u64; WORDS], sets: &mut PlaceSets) -> bool
        ensures passed { RunsPass digits.now zones.now self.now.eights sets.old sets.new }
        ensures same { result ≡ false → SameSets sets.old sets.new }
    {
        if !pass_eights(self.eights.as_slice(), digits, zones, &mut sets.sets) {
            return false;
        }
        sets.touched |= self.eights_far;
        true
    }

    /// Spreads sets of rows along the wires from the exits of the contacts.
    pub fn follow_further(&self, sets: &mut PlaceSets)
        ensures { Spreads self.now.further sets.old sets.new }
    {
        follow_wires(self.further.as_slice(), self.further_far, sets);
    }

    /// The contacts to which these wires lead pass on rows, as [`Paths::pass`] has it. Answers whether a far end may have gained any.
    pub fn pass_behind(
        &self,
        digits: &[u64; WORDS],
        zones: &[u64; WORDS],
        sets: &mut PlaceSets,
    ) -> bool
        ensures passed { Passes digits.now zones.now self.now.behind sets.old sets.new }
        ensures same { result ≡ false → SameSets sets.old sets.new }
    {
        let gained = pass_all(self.behind.as_slice(), digits, zones, &mut sets.sets);
        // Which of the far ends have gained rows is not told.
        if gained {
            sets.touched = ALL_BLOCKS;
        }
        gained
    }
}

// Spreads sets of rows along wires, which lead to these blocks.
#[inline(always)]
fn follow_wires(wires: &[Link], far: u64, sets: &mut PlaceSets)
    requires { AreWires far wires.now }
    ensures { Spreads wires.now sets.old sets.new }
{
    follow_links(wires, &mut sets.sets);
    sets.touched |= far;
}

// The links from these places.
fn links_from(alloc: Global, links: &[Link], places: &[u64; WORDS]) -> Result<Vec<Link>, AllocError>
    requires { All IsInRange links.now }
    ensures { IfOk result (λ from. AreLinksFrom (has_place places.now) links.now from.items) }
{
    let mut from = Vec::new(alloc);
    for link in links {
        if has(places, link.from as usize) {
            from.push(*link)?;
        }
    }
    Ok(from)
}

// The places to which links lead.
fn places_led_to(links: &[Link]) -> [u64; WORDS]
    requires { All (λ link. link.to < PLACES) links.now }
    ensures { (place : ℕ) → has_place result place ≡ is_led_to links.now place }
{
    let mut places = [0; WORDS];
    for link in links {
        put_where(&mut places, link.to as usize, true);
    }
    places
}

// The contacts of the runs that links lead to.
fn contacts_of(alloc: Global, runs: &[Run], links: &[Link]) -> Result<Vec<Link>, AllocError>
    requires range { All IsInRange links.now }
    requires room { All HasRoom runs.now }
    ensures { IfOk result (λ contacts. AreContactsOf runs.now links.now contacts.items) }
{
    let places = places_led_to(links);
    let mut contacts = Vec::new(alloc);
    for run in runs {
        add_contacts(*run, &places, &mut contacts)?;
    }
    Ok(contacts)
}

// Adds the contacts of a run that lead from these places.
fn add_contacts(run: Run, places: &[u64; WORDS], contacts: &mut Vec<Link>) -> Result<(), AllocError>
    requires room { HasRoom run }
    requires passing { All IsPassing contacts.old.items }
    ensures passing { OnOk result (All IsPassing contacts.new.items) }
    ensures added { OnOk result (AddsContacts (is_contact run) places.now contacts.old.items contacts.new.items) }
{
    for k in 0..run.count {
        if has(places, run.common + k) {
            contacts.push(Link {
                from: (run.common + k) as u16,
                to: (run.exits + k) as u16,
            })?;
        }
    }
    Ok(())
}

// The blocks to which links lead.
fn far_blocks(links: &[Link]) -> u64
    requires { All IsInRange links.now }
    ensures { LeadTo result links.now }
{
    let mut blocks = 0;
    for link in links {
        blocks |= block_of(link.to as usize);
    }
    blocks
}

// The blocks to which the contacts of eights lead.
fn far_blocks_of_eights(eights: &[Run]) -> u64
    requires { All IsEight eights.now }
    ensures { All (RunLeadsTo result) eights.now }
{
    let mut blocks = 0;
    for eight in eights {
        blocks |= blocks_from(eight.exits, eight.count);
    }
    blocks
}
