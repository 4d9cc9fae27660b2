//! What the exits that tell of cycles make of the panel. It hangs on the wires and on which contacts are closed, so the wires' part is
//! looked up once.

ghost use Rattle.std.specs.Prelude.{◌≡◌, ℕ, ◌+◌, ◌<◌, ◌≤◌, ◌&&◌, Bool, All, IfOk, IfSome, OnOk, Some, false, true};
ghost use Rattle.machine_sets.specs.BitSets.Bits.{has_place};
ghost use Rattle.machine_sets.specs.BitSets.Contacts.{AreCommons};
ghost use Rattle.machine_sets.specs.BitSets.Rows.{leads};
ghost use Rattle.hubs.specs.Hubs.{number_of};
ghost use Rattle.hubs.specs.declared.hub.Hub.{Hub};
ghost use Rattle.net.specs.HubSets.{has_hub};
ghost use Rattle.net.specs.Orders.{AreOrdersOf};
ghost use Rattle.net.specs.Panel.{contact_of};
ghost use Rattle.net.specs.Tells.{kind_of};
ghost use Rattle.net.specs.Tellings.{AddsBranch, AreBranches, AreLast, AreTellings, IsTelling, is_led_at, is_passed_to, is_told};
ghost use Rattle.net.specs.declared.contacts.TheConstants.{CONTACTS};

use crate::cycle::Cycle;
use crate::orders::Orders;
use crate::picture::{Picture, cut_after_hubs};
use hubs::Hub;
use machine_sets::bit_sets::{EXITS, Rows, WORDS, meet, reach_by_rows};
use std::alloc::{AllocError, Global};

// CC, PX and HX tell of cycles. They are the last exits, and emit at control points alone. This is the place of the first of them.
pub(crate) const FIRST_TELLING: u16 = 1024;

// What is told where the contact to the exit at a place is closed.
#[derive(Clone, Copy)]
pub(crate) struct Branch {
    pub(crate) place: usize,
    pub(crate) orders: Orders,
    // Whether no wire leads on from there to a hub that a contact leads from.
    pub(crate) is_last: bool,
}

// What an exit that tells of cycles tells by wires alone, and by each contact that they lead to.
#[derive(Drop)]
pub(crate) struct Telling {
    pub(crate) base: Orders,
    pub(crate) branches: Vec<Branch>,
}

// What each of the exits that tell of cycles tells, in their order.
pub(crate) fn tellings_of(
    alloc: Global,
    rows: &Rows,
    commons: &[u64; WORDS],
) -> Result<Vec<Telling>, AllocError>
    requires onward { (from to : ℕ) → leads rows.now from to ≡ true → 1040 ≤ to }
    requires commons { AreCommons CONTACTS commons.now }
    ensures { IfOk result (λ tellings. AreTellings rows.now tellings.items) }
{
    let mut tellings = Vec::new(alloc);
    for place in FIRST_TELLING as usize..EXITS {
        tellings.push(telling_of(alloc, rows, commons, place)?)?;
    }
    Ok(tellings)
}

// What the exit at a place tells. Mostly its wires lead to no contact.
fn telling_of(
    alloc: Global,
    rows: &Rows,
    commons: &[u64; WORDS],
    place: usize,
) -> Result<Telling, AllocError>
    requires place { place < EXITS }
    requires onward { (from to : ℕ) → leads rows.now from to ≡ true → 1040 ≤ to }
    requires commons { AreCommons CONTACTS commons.now }
    ensures { IfOk result (IsTelling rows.now place) }
{
    let led = led_from(rows, place);
    let base = Orders::of(&led);
    if !meet(commons, led.words()) {
        let branches = Vec::new(alloc);
        return Ok(Telling { base, branches });
    }
    let branches = branches_of(alloc, rows, commons, &led)?;
    Ok(Telling { base, branches })
}

// The contacts that lead from the hubs of a picture.
fn branches_of(
    alloc: Global,
    rows: &Rows,
    commons: &[u64; WORDS],
    led: &Picture,
) -> Result<Vec<Branch>, AllocError>
    requires onward { (from to : ℕ) → leads rows.now from to ≡ true → 1040 ≤ to }
    requires commons { AreCommons CONTACTS commons.now }
    ensures { IfOk result (λ branches. AreBranches 1041 rows.now (has_hub led.now) branches.items) }
{
    let mut branches = Vec::new(alloc);
    for number in 1..=EXITS as u32 {
        if let Some(exit) = Hub::of_number(number) {
            add_branch(&mut branches, rows, commons, led, exit, number as usize - 1)?;
        }
    }
    Ok(branches)
}

// Adds the branch of the exit at a place, if a contact leads there from a hub of the picture.
fn add_branch(
    branches: &mut Vec<Branch>,
    rows: &Rows,
    commons: &[u64; WORDS],
    led: &Picture,
    exit: Hub,
    place: usize,
) -> Result<(), AllocError>
    requires numbered { number_of exit ≡ Some (place + 1) }
    requires place { place < EXITS }
    requires onward { (from to : ℕ) → leads rows.now from to ≡ true → 1040 ≤ to }
    requires commons { AreCommons CONTACTS commons.now }
    ensures { OnOk result (AddsBranch rows.now (has_hub led.now) exit (place + 1) branches.old.items branches.new.items) }
{
    if !is_passed_to(led, exit) {
        return Ok(());
    }
    branches.push(branch_at(rows, commons, place))?;
    Ok(())
}

// What is told from the exit of a contact on.
fn branch_at(rows: &Rows, commons: &[u64; WORDS], place: usize) -> Branch
    requires place { place < EXITS }
    requires onward { (from to : ℕ) → leads rows.now from to ≡ true → 1040 ≤ to }
    requires commons { AreCommons CONTACTS commons.now }
    ensures place { result.place ≡ place }
    ensures orders { AreOrdersOf (is_led_at rows.now place) result.orders }
    ensures last { result.is_last ≡ true → (common hub : Hub) → contact_of hub ≡ Some common → is_led_at rows.now place common ≡ false }
{
    let led = led_from(rows, place);
    Branch {
        place,
        orders: Orders::of(&led),
        is_last: !meet(commons, led.words()),
    }
}

// Whether a contact leads to the exit from a hub of the picture.
fn is_passed_to(led: &Picture, exit: Hub) -> bool
    ensures { result ≡ is_passed_to (has_hub led.now) (contact_of exit) }
{
    match common_of(exit) {
        Some(common) => led.has(common),
        None => false,
    }
}

// The hub that a contact leads to the exit from, if one does.
fn common_of(exit: Hub) -> Option<Hub>
    ensures { result ≡ contact_of exit }
{
    match exit {
        Hub::CO(group) => Some(Hub::CI(group)),
        Hub::BAN(group, position) | Hub::BAT(group, position) => Some(Hub::BAC(group, position)),
        Hub::PIN(pilot, position) | Hub::PIT(pilot, position) => Some(Hub::PIC(pilot, position)),
        Hub::IX(level, position) => Some(Hub::IE(level, position)),
        Hub::CSD(split) | Hub::CSZ(split) => Some(Hub::CSE(split)),
        _ => None,
    }
}

// The hub at a place, and those that its wires lead to.
fn led_from(rows: &Rows, place: usize) -> Picture
    requires place { place < EXITS }
    requires onward { (from to : ℕ) → leads rows.now from to ≡ true → 1040 ≤ to }
    ensures { (hub : Hub) → has_hub result hub ≡ is_led_at rows.now place hub }
{
    let mut exit = [0; WORDS];
    machine_sets::bit_sets::put_where(&mut exit, place, true);
    let mut words = [0; WORDS];
    reach_by_rows(rows, &exit, &mut words);
    cut_after_hubs(&mut words);
    Picture { words }
}

// What is told with these contacts closed, unless another contact is reached behind one of them.
pub(crate) fn told_through(
    base: &Orders,
    branches: &[Branch],
    closed: &[u64; WORDS],
) -> Option<Orders>
    ensures told { (first : Hub → Bool) (led : ℕ → Hub → Bool) → AreOrdersOf first base.now
        → All (λ branch. AreOrdersOf (led branch.place) branch.orders) branches.now
        → IfSome result (AreOrdersOf (is_told first led (has_place closed.now) branches.now)) }
    ensures last { IfSome result (λ orders. AreLast (has_place closed.now) branches.now) }
{
    let mut orders = *base;
    for branch in branches {
        if !machine_sets::bit_sets::has(closed, branch.place) {
            continue;
        }
        if !branch.is_last {
            return None;
        }
        orders = orders.joined(&branch.orders);
    }
    Some(orders)
}

// The kind of a cycle, by the place of the exit that tells of it among those that do.
pub(crate) fn kind_of(cycle: Cycle) -> Option<usize>
    ensures kind { result ≡ kind_of cycle }
    ensures few { IfSome result (λ kind. kind < 16) }
{
    match cycle {
        Cycle::RunIn => None,
        Cycle::Card => Some(0),
        Cycle::Prog(level, ordinal) => {
            Some(3 * level.number() as usize + ordinal.number() as usize - 3)
        }
        Cycle::Head(heading) => Some(12 + heading.number() as usize),
    }
}
