//! The wires of a setup, made ready for pictures.

ghost use Rattle.std.specs.Prelude.{◌≡◌, ◌<◌, All, IfOk, length, true};
ghost use Rattle.hubs.specs.SetupsWords.Wiring.{IsEntryNumber};
ghost use Rattle.net.specs.NetInside.{IsWiredFor};
ghost use Rattle.net.specs.AddedWires.{AddsRow};
ghost use Rattle.card_code.specs.declared.row.Row.{Row as CardRow};
ghost use Rattle.hubs.specs.SetupsWords.Wiring.{Wiring};
ghost use Rattle.net.specs.Impulsed.{IsPicture};
ghost use Rattle.net.specs.Kinds.{MayHaveRows};
ghost use Rattle.net.specs.Nets.{IsNetOf, NetRows};
ghost use Rattle.net.specs.Passing.{AreContactsSilent, closes_at_row};
ghost use Rattle.net.specs.CyclePaths.{ArePathsIn};
ghost use Rattle.net.specs.RowSets.{pictures_of};
ghost use Rattle.net.specs.declared.cycle.Cycle.{Cycle};
ghost use Rattle.net.specs.declared.cycle.Point.TheVariants.{Row};

use crate::contacts::CONTACTS;
use crate::cycle::Cycle;
use crate::kinds::{CyclePaths, cycle_paths};
use crate::links::add_links;
use crate::orders::Orders;
use crate::picture::{Contacts, Picture, cut_after_hubs};
use crate::row_sets::RowSets;
use crate::straight::{Straight, straight_of};
use crate::tellings::{Telling, kind_of, tellings_of, told_through};
use hubs::Hub;
use hubs::setups::Setup;
use machine_sets::bit_sets::{EXITS, Rows, WORDS, commons_of, meet, reach, reach_by_rows};
use machine_sets::spreads::{Link, Paths};
use std::alloc::{AllocError, Global};
use std::marker::Model;

/// The wires of one setup, made ready for pictures at every point of a run.
pub struct Net {
    // For each exit the row of the entries that its wires lead to. The hub with the number h is the place h - 1.
    rows: Rows,
    // The places of the common hubs, from which contacts lead.
    commons: [u64; WORDS],
    // The same without the carry entries.
    others: [u64; WORDS],
    // What each of the exits that tell of cycles makes at the control point.
    tellings: Vec<Telling>,
    // The paths of rows, unless the wires are too many.
    paths: Option<CyclePaths>,
    // The wires that lead from second reading to wheels, if no others may carry rows and none leads to a common hub.
    straight: Option<Vec<Straight>>,
}

// By hand, so that a function that drops one calls this, and doesn't drop its parts one by one.
impl Drop for Net {
    fn drop(self) {
        let Net {
            rows: _rows,
            commons: _commons,
            others: _others,
            tellings: _tellings,
            paths: _paths,
            straight: _straight,
        } = self;
    }
}

impl Model for Net {
    ghost use Rattle.net.specs.Nets.{NetRows};
    ghost use Rattle.net.specs.declared.contacts.TheConstants.{CONTACTS};

    ghost Value = { NetRows };

    ghost view = { λ net. record { rows = net.rows } };

    ghost use Rattle.net.specs.NetInside.{IsNetInside};

    ghost invariant = { λ net. IsNetInside CONTACTS net.commons net.others net.tellings.items net.paths net.straight net.rows };
}

impl Net {
    ghost use Rattle.std.specs.Prelude.{◌≡◌, ℕ, All, Bool, IfOk, IfSome, false, true};
    ghost use Rattle.hubs.specs.SetupsWords.Wiring.{LeadsToEntries, Wiring};
    ghost use Rattle.net.specs.HubSets.{has_hub};
    ghost use Rattle.net.specs.Orders.{AreToldBy};
    ghost use Rattle.net.specs.Impulsed.{IsPicture};
    ghost use Rattle.net.specs.Nets.{IsNetOf};
    ghost use Rattle.hubs.specs.declared.hub.Hub.{Hub};
    ghost use Rattle.card_code.specs.declared.row.Row.{Row as CardRow};
    ghost use Rattle.net.specs.Passing.{AreContactsSilent, PassesNoCarry, closes_at_row};
    ghost use Rattle.net.specs.Kinds.{MayHaveRows};
    ghost use Rattle.net.specs.CyclePaths.{ArePathsIn};
    ghost use Rattle.net.specs.declared.cycle.Cycle.{Cycle};
    ghost use Rattle.net.specs.Straight.{AreStraight, IsInside};
    ghost use Rattle.net.specs.RowSets.{LeadsToNoContact, pictures_of};
    ghost use Rattle.net.specs.declared.cycle.Point.TheVariants.{Row};

    /// The net of a setup, with exactly its wires. Fails only where no memory is left.
    pub fn of(alloc: Global, setup: &Setup) -> Result<Net, AllocError>
        ensures { IfOk result (IsNetOf setup.now) }
    {
        let Wired { rows, links } = wired_for(alloc, setup)?;
        let commons = commons_of(&CONTACTS);
        let others = commons_of(&CONTACTS[1..]);
        let tellings = tellings_of(alloc, &rows, &commons)?;
        let paths = cycle_paths(alloc, tellings.as_slice(), links.as_slice())?;
        let straight = straight_of(alloc, links.as_slice(), &commons)?;
        Ok(Net {
            rows,
            commons,
            others,
            tellings,
            paths,
            straight,
        })
    }

    /// Makes `out` the picture of the emitting exits: it then has exactly the impulsed hubs, whatever it had before.
    /// An entry among the exits is impulsed as an exit is, and the picture goes on from it.
    pub fn picture(&self, exits: &Picture, contacts: &Contacts, out: &mut Picture)
        ensures { (wiring : Wiring)
            → IsNetOf wiring self.now
            → IsPicture wiring (has_hub exits.now) (has_hub contacts.now) (has_hub out.new) }
    {
        out.words = exits.words;
        reach(
            &self.rows,
            &CONTACTS,
            &self.commons,
            contacts.words(),
            &mut out.words,
        );
        // Wires lead to hubs alone. The rows do not tell so, and a cut costs next to nothing.
        cut_after_hubs(&mut out.words);
    }

    /// Makes `out` what the emitting exits and the wires from them make, whatever it had before. Answers whether, of the hubs from which
    /// contacts lead, it has carry entries alone: then that is the picture wherever none of these carries passes.
    pub fn picture_by_wires(&self, exits: &Picture, out: &mut Picture) -> bool
        ensures { result ≡ true
            → (wiring : Wiring)
            → IsNetOf wiring self.now
            → (closed : Hub → Bool)
            → PassesNoCarry closed (has_hub out.new)
            → IsPicture wiring (has_hub exits.now) closed (has_hub out.new) }
    {
        reach_by_rows(&self.rows, &exits.words, &mut out.words);
        cut_after_hubs(&mut out.words);
        !meet(&self.others, &out.words)
    }

    /// What is told at the control point of a cycle with these contacts closed. `None` where an impulse passes one contact and comes to
    /// another.
    pub fn told(&self, cycle: Cycle, closed: &Contacts) -> Option<Orders>
        ensures { (wiring : Wiring) → IsNetOf wiring self.now → IfSome result (AreToldBy wiring cycle (has_hub closed.now)) }
    {
        match kind_of(cycle) {
            Some(kind) => {
                let telling = &self.tellings[kind];
                told_through(&telling.base, telling.branches.as_slice(), closed.words())
            }
            None => Some(Orders::none()),
        }
    }

    /// What is told there whichever contacts are closed. `None` where an impulse comes to a contact.
    pub fn told_by_wires(&self, cycle: Cycle) -> Option<Orders>
        ensures { (wiring : Wiring) → IsNetOf wiring self.now → (closed : Hub → Bool) → IfSome result (AreToldBy wiring cycle closed) }
    {
        match kind_of(cycle) {
            Some(kind) => {
                let telling = &self.tellings[kind];
                let branches = telling.branches.as_slice();
                branches.is_empty().then_some(telling.base)
            }
            None => Some(Orders::none()),
        }
    }

    /// The wires from second reading to wheels in runs, if no others may carry rows and none leads to a contact. A `None` says nothing.
    pub fn straight(&self) -> Option<&[Straight]>
        ensures inside { IfSome result (λ runs. All IsInside runs.now) }
        ensures straight { IfSome result (λ runs. (wiring : Wiring) → IsNetOf wiring self.now → AreStraight wiring runs.now) }
        ensures direct { IfSome result (λ _. (wiring : Wiring) → IsNetOf wiring self.now → LeadsToNoContact wiring) }
    {
        match &self.straight {
            Some(runs) => Some(runs.as_slice()),
            None => None,
        }
    }

    /// Spreads rows along the wires and the closed contacts, all rows at once: each hub gains the rows at which it is impulsed. At first only
    /// hubs that may emit in the cycle have rows, and none from which or to which a contact leads. `digits` has the contacts that are closed
    /// at the rows 9 to 0, `zones` those that are closed at 11 and 12.
    ///
    /// If it answers false, the sets may lack rows: a contact behind another may bring more, or there are more than 4,096 wires.
    pub fn spread_through(
        &self,
        cycle: Cycle,
        digits: &Contacts,
        zones: &Contacts,
        sets: &mut RowSets,
    ) -> bool
        requires { AreContactsSilent sets.old }
        ensures { result ≡ true
            → (wiring : Wiring)
            → IsNetOf wiring self.now
            → MayHaveRows wiring cycle sets.old
            → (row : CardRow)
            → IsPicture wiring (pictures_of sets.old (Row row)) (closes_at_row digits.now zones.now row) (pictures_of sets.new (Row row)) }
    {
        if sets.places.are_empty() {
            return true;
        }
        match self.paths_in(cycle) {
            Some(paths) => spread_by(paths, digits, zones, sets),
            None => false,
        }
    }

    // The paths of rows in a cycle. None if the wires are too many.
    fn paths_in(&self, cycle: Cycle) -> Option<&Paths>
        ensures { (wiring : Wiring) → IsNetOf wiring self.now → IfSome result (λ paths. ArePathsIn wiring self.now cycle paths.now) }
    {
        let paths = self.paths.as_ref()?;
        match kind_of(cycle) {
            Some(kind) => Some(&paths.kinds[kind]),
            None => Some(&paths.run_in),
        }
    }
}

// Spreads rows along paths and closed contacts. Answers false if one may have passed a contact behind another: then the sets may lack rows.
fn spread_by(paths: &Paths, digits: &Contacts, zones: &Contacts, sets: &mut RowSets) -> bool
    requires { AreContactsSilent sets.old }
    ensures { result ≡ true
        → (wiring : Wiring) (net : NetRows) (cycle : Cycle)
        → IsNetOf wiring net
        → ArePathsIn wiring net cycle paths.now
        → MayHaveRows wiring cycle sets.old
        → (row : CardRow)
        → IsPicture wiring (pictures_of sets.old (Row row)) (closes_at_row digits.now zones.now row) (pictures_of sets.new (Row row)) }
{
    paths.follow_outer(&mut sets.places);
    if !paths.pass(digits.words(), zones.words(), &mut sets.places) {
        return true;
    }
    paths.follow_further(&mut sets.places);
    !paths.pass_behind(digits.words(), zones.words(), &mut sets.places)
}

// The wires of a setup, as rows and one by one.
#[derive(Drop)]
pub(crate) struct Wired {
    rows: Rows,
    links: Vec<Link>,
}

// The wires of a setup, made ready for pictures, and listed in the order of their exits.
fn wired_for(alloc: Global, setup: &Setup) -> Result<Wired, AllocError>
    ensures { IfOk result (IsWiredFor setup.now) }
{
    let mut rows = Rows::new(alloc)?;
    let mut links = Vec::new(alloc);
    for number in 1..=EXITS as u32 {
        if let Some(exit) = Hub::of_number(number) {
            let entries = setup.entries_of(exit);
            add_row(&mut rows, number as usize - 1, entries);
            add_links(&mut links, number as usize - 1, entries)?;
        }
    }
    rows.bundle(alloc)?;
    Ok(Wired { rows, links })
}

// Adds to a place's row the places of the entries with these numbers.
fn add_row(rows: &mut Rows, place: usize, entries: &[u16])
    requires place { place < length rows.old }
    requires entries { All IsEntryNumber entries.now }
    ensures long { length rows.new ≡ length rows.old }
    ensures added { AddsRow rows.old rows.new place entries.now }
{
    for &to in entries {
        rows.add(place, to as usize - 1);
    }
}
