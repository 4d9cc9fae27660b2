//! What may emit at the rows in each kind of cycle, whichever contacts are closed at its control point.

ghost use Rattle.std.specs.Prelude.{◌≡◌, ℕ, ◌+◌, ◌<◌, ◌≤◌, All, List, Bool, IfOk, IfSome, Some, length, true};
ghost use Rattle.machine_sets.specs.SpreadsWords.Links.{IsInRange};
ghost use Rattle.net.specs.CyclePaths.{AreCyclePaths, ArePathsOfKinds};
ghost use Rattle.hubs.specs.declared.hub.Hub.{Hub};
ghost use Rattle.hubs.specs.SetupsWords.Wiring.{LeadsToEntries, Wiring};
ghost use Rattle.net.specs.Cycles.{emitter_of};
ghost use Rattle.net.specs.Kinds.{HasEmitter, HasEmitting, HasGroups, HasOrders, HasUnits, HasUntold, KeepsHubs, MayBeTold};
ghost use Rattle.net.specs.Nets.{IsNetOf};
ghost use Rattle.net.specs.Orders.{AreOrdersOf};
ghost use Rattle.net.specs.Tellings.{IsTelling};
ghost use Rattle.net.specs.Tells.{kind_of};
ghost use Rattle.net.specs.declared.cycle.Cycle.{Cycle};
ghost use Rattle.net.specs.declared.cycle.Cycle.TheVariants.{RunIn};

use crate::contacts::CONTACTS;
use crate::orders::{FIRST_GROUP, Orders};
use crate::picture::Picture;
use crate::tellings::{Telling, told_through};
use hubs::{Group, Hub};
use machine_sets::bit_sets::WORDS;
use machine_sets::spreads::{Link, Paths};
use std::alloc::{AllocError, Global};

// The most wires that are followed one by one. If there are more, it takes less time to make one picture after another.
const MOST_LINKS: usize = 4096;

// The paths of rows in all cycles.
#[derive(Drop)]
pub(crate) struct CyclePaths {
    // Those in the run-in.
    pub(crate) run_in: Paths,
    // For each exit that tells of cycles those in the cycles that it tells of.
    pub(crate) kinds: Vec<Paths>,
}

// The paths of rows along these wires, by what is told at the control points. None if the wires are too many.
pub(crate) fn cycle_paths(
    alloc: Global,
    tellings: &[Telling],
    links: &[Link],
) -> Result<Option<CyclePaths>, AllocError>
    requires range { All IsInRange links.now }
    requires all { length tellings.now ≡ 16 }
    ensures { IfOk result (λ found. IfSome found (AreCyclePaths links.now tellings.now)) }
{
    if links.len() > MOST_LINKS {
        return Ok(None);
    }
    let run_in = Paths::of(alloc, &CONTACTS, links, &emitting_in_run_in())?;
    let kinds = paths_of_kinds(alloc, tellings, links)?;
    Ok(Some(CyclePaths { run_in, kinds }))
}

// The paths in the cycles that these exits tell of, in their order.
fn paths_of_kinds(
    alloc: Global,
    tellings: &[Telling],
    links: &[Link],
) -> Result<Vec<Paths>, AllocError>
    requires range { All IsInRange links.now }
    requires all { length tellings.now ≡ 16 }
    ensures { IfOk result (λ paths. ArePathsOfKinds links.now tellings.now paths.items) }
{
    let mut paths = Vec::new(alloc);
    for kind in 0..16 {
        let exits = emitting(kind, &tellings[kind]);
        paths.push(Paths::of(alloc, &CONTACTS, links, &exits)?)?;
    }
    Ok(paths)
}

// The places of the exits that may emit at the rows in a kind of cycle.
fn emitting(kind: usize, telling: &Telling) -> [u64; WORDS]
    requires { kind < 16 }
    ensures { (wiring : Wiring) (rows : List (List ℕ)) (cycle : Cycle) → IsNetOf wiring (record { rows = rows }) → LeadsToEntries wiring
        → kind_of cycle ≡ Some kind → IsTelling rows (1024 + kind) telling.now
        → HasEmitting wiring cycle (record { words = result }) }
{
    let told = widest_told(telling);
    let exits = exits_of(kind, &told);
    exits.words
}

// Of the hubs that groups and storage units sense, those that may be told: with all contacts closed everything is told that may be. If an
// impulse may pass one contact and come to another, more may be told than is known, and all these hubs are taken.
fn widest_told(telling: &Telling) -> Picture
    ensures { (wiring : Wiring) (rows : List (List ℕ)) (cycle : Cycle) (kind : ℕ) → IsNetOf wiring (record { rows = rows })
        → LeadsToEntries wiring → kind_of cycle ≡ Some kind → kind < 16 → IsTelling rows (1024 + kind) telling.now
        → HasOrders (MayBeTold wiring cycle) result }
{
    let every = [u64::MAX; WORDS];
    match told_through(&telling.base, telling.branches.as_slice(), &every) {
        Some(orders) => told_hubs(&orders),
        None => told_hubs(&Orders::all()),
    }
}

// The places of the exits that may emit at the rows of the run-in, in which nothing is told.
fn emitting_in_run_in() -> [u64; WORDS]
    ensures { (wiring : Wiring) → HasEmitting wiring RunIn (record { words = result }) }
{
    let mut exits = Picture::new();
    exits.insert_row(Hub::FR(1), (1 << 80) - 1);
    exits.words
}

// Of the hubs that groups and storage units sense, those that these orders tell.
fn told_hubs(orders: &Orders) -> Picture
    ensures { (picture : Hub → Bool) → AreOrdersOf picture orders.now → HasOrders (λ hub. picture hub ≡ true) result }
{
    let mut told = Picture::new();
    told.insert_row(Hub::PL(FIRST_GROUP), orders.controls);
    told.insert_row(Hub::SI(1), orders.storage);
    told
}

// The exits that may emit at the rows of a kind of cycle, if these hubs may be told.
fn exits_of(kind: usize, told: &Picture) -> Picture
    requires { kind < 16 }
    ensures { (wiring : Wiring) (cycle : Cycle) → kind_of cycle ≡ Some kind → HasOrders (MayBeTold wiring cycle) told.now
        → HasEmitting wiring cycle result }
{
    let mut exits = untold_exits(kind);
    insert_groups(&mut exits, told, 3);
    insert_groups(&mut exits, told, 4);
    insert_groups(&mut exits, told, 6);
    insert_groups(&mut exits, told, 8);
    insert_units(&mut exits, told);
    exits
}

// Those that emit whatever is told. Cards pass the stations in card cycles.
fn untold_exits(kind: usize) -> Picture
    requires { kind < 16 }
    ensures { (cycle : Cycle) → kind_of cycle ≡ Some kind → HasUntold cycle result }
{
    let mut exits = emitter_exits(kind);
    if kind > 0 {
        return exits;
    }
    let columns = (1 << 80) - 1;
    exits.insert_row(Hub::FR(1), columns);
    exits.insert_row(Hub::SR(1), columns);
    exits
}

// Those of the emitter.
fn emitter_exits(kind: usize) -> Picture
    requires { kind < 16 }
    ensures { (cycle : Cycle) → kind_of cycle ≡ Some kind → HasEmitter cycle result }
{
    let mut exits = Picture::new();
    if let Some(emitter) = emitter_of(kind) {
        exits.insert_row(Hub::EM(emitter, 0), 0xfff);
    }
    exits
}

// The emitter of a kind of cycle: 4 of card cycles, 5 to 8 of the third cycles of the levels, and 1 to 3 of the heading cycles.
fn emitter_of(kind: usize) -> Option<u8>
    requires { kind < 16 }
    ensures { (cycle : Cycle) → kind_of cycle ≡ Some kind → result ≡ emitter_of cycle }
{
    if kind > 12 {
        Some(kind as u8 - 12)
    } else if kind % 3 == 0 {
        Some(4 + kind as u8 / 3)
    } else {
        None
    }
}

// Adds the exits of the groups of a width that are told to read out.
fn insert_groups(exits: &mut Picture, told: &Picture, width: u8)
    requires { width ≤ 8 }
    ensures kept { KeepsHubs exits.old exits.new }
    ensures groups { HasGroups width 9 told.now exits.new }
{
    for number in 1..=8 {
        let group = Group { width, number };
        if told.has(Hub::RO(group)) {
            exits.insert_row(Hub::GX(group, 1), (1 << width) - 1);
        }
    }
}

// Adds the exits of the storage units that are told to read out.
fn insert_units(exits: &mut Picture, told: &Picture)
    ensures kept { KeepsHubs exits.old exits.new }
    ensures units { HasUnits 5 told.now exits.new }
{
    for unit in 1..=4 {
        if told.has(Hub::SO(unit)) {
            exits.insert_row(Hub::SX(unit, 1), 0xffff);
        }
    }
}
