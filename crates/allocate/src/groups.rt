//! The counters that totals take.

ghost use Rattle.std.specs.Prelude.{◌≡◌, ◌<◌, ◌↔◌, length, IsTrue, IfOk, MatchOption};
ghost use Rattle.std.specs.Option.{ForSome};
ghost use Rattle.chart_plans.specs.WantedWords.Totals.{NeedsFit};
ghost use Rattle.allocate.specs.HelperCounters.{HasGroupsFor};
ghost use Rattle.allocate.specs.Groups.{IsByRule, IsLowestFree, Takes, takes_before};
ghost use Rattle.chart_plans.specs.PlansWords.Assignments.{IsAssignment};
ghost use Rattle.allocate.specs.HelperTaking.{IsHeld, IsTaken, IsUsed, NoneWaits, IsNext, goes_first};
ghost use Rattle.allocate.specs.HelperTaking.{IsLowestNumber, IsWidthTaken, AreAllTaken, AreTooFew, AreTaken};

use capacity::{CounterGroup, Profile};
use chart_plans::plans::TotalCounter;
use chart_plans::wanted::{Total, takes_two};
use std::alloc::{AllocError, Global};

// The widths of counter groups, the narrowest first.
const WIDTHS: [u8; 4] = [3, 4, 6, 8];

/// The counters that the totals take, in the order of the totals.
///
/// Totals are taken by need, the greatest first, then by level, then by line. One that needs more than 8 positions takes
/// the two lowest numbers that are free of the groups of 8. Any other takes the lowest number that is free of the smallest
/// width that is enough and still has one free. It is refused only where memory is.
pub(crate) fn assign(
    alloc: Global,
    totals: &[Total],
    profile: &Profile,
) -> Result<Vec<TotalCounter>, AllocError>
    requires needs { NeedsFit totals.now }
    requires enough { HasGroupsFor profile.now totals.now }
    ensures rule { IfOk result (λ counters. IsByRule totals.now profile.now counters.items) }
    ensures own { IfOk result (λ counters. IsAssignment totals.now profile.now counters.items) }
{
    let mut taken = vec![in alloc; None; totals.len()]?;
    while let Some(place) = next_total(totals, &taken) {
        // There are groups enough at each width, so as many as it takes are free.
        let Some(counter) = lowest_counter(totals[place].need, profile, &taken) else {
            unreachable!()
        };
        taken[place] = Some(counter);
    }
    all_taken(alloc, &taken)
}

// The place of the total that takes its counter next, if one waits.
fn next_total(totals: &[Total], taken: &[Option<TotalCounter>]) -> Option<usize>
    requires { length taken.now ≡ length totals.now }
    ensures { MatchOption result (NoneWaits taken.now) (IsNext totals.now taken.now (length totals.now)) }
{
    let mut next = None;
    for place in 0..totals.len() {
        if taken[place].is_none() && goes_first(totals, place, next) {
            next = Some(place);
        }
    }
    next
}

// Whether the total at a place takes its counter before the next one that was found so far, if any was.
fn goes_first(totals: &[Total], place: usize, next: Option<usize>) -> bool
    requires place { place < length totals.now }
    requires next { ForSome next (λ other. other < length totals.now) }
    ensures { result ≡ goes_first totals.now place next }
{
    match next {
        Some(other) => takes_before(totals, place, other),
        None => true,
    }
}

// Whether the total at a place takes its counter before the one at another.
fn takes_before(totals: &[Total], place: usize, later: usize) -> bool
    requires place { place < length totals.now }
    requires later { later < length totals.now }
    ensures { result ≡ takes_before totals.now place later }
{
    let one = totals[place];
    let other = totals[later];
    if one.need != other.need {
        return other.need < one.need;
    }
    if one.level != other.level {
        return one.level.number() < other.level.number();
    }
    if one.line != other.line {
        return one.line < other.line;
    }
    place < later
}

// What a total takes that needs so many positions: the lowest free group that is wide enough, or the two lowest free groups
// of 8 where one is not enough.
fn lowest_counter(
    need: u32,
    profile: &Profile,
    taken: &[Option<TotalCounter>],
) -> Option<TotalCounter>
    ensures { MatchOption result
        (AreTooFew need profile.now taken.now)
        (Takes need profile.now (IsTaken taken.now)) }
{
    if takes_two(need) {
        let lower = lowest_free(8, profile, taken, None)?;
        let upper = lowest_free(8, profile, taken, Some(lower))?;
        return Some(TotalCounter::Coupled { lower, upper });
    }
    let group = lowest_free(need, profile, taken, None)?;
    Some(TotalCounter::Single { group })
}

// The lowest group, by width and then by number, that is wide enough and free, and not the one that is set aside.
fn lowest_free(
    need: u32,
    profile: &Profile,
    taken: &[Option<TotalCounter>],
    aside: Option<CounterGroup>,
) -> Option<CounterGroup>
    ensures { MatchOption result
        (AreAllTaken need profile.now (IsUsed taken.now aside))
        (IsLowestFree need profile.now (IsUsed taken.now aside)) }
{
    for width in WIDTHS {
        if need <= u32::from(width) {
            if let Some(group) = lowest_number(width, profile, taken, aside) {
                return Some(group);
            }
        }
    }
    None
}

// The group of the lowest number that is free in a width, and not the one that is set aside.
fn lowest_number(
    width: u8,
    profile: &Profile,
    taken: &[Option<TotalCounter>],
    aside: Option<CounterGroup>,
) -> Option<CounterGroup>
    ensures { MatchOption result
        (IsWidthTaken width profile.now (IsUsed taken.now aside))
        (IsLowestNumber width profile.now (IsUsed taken.now aside)) }
{
    for number in 1..=profile.groups_of(width) {
        let group = CounterGroup { width, number };
        if !is_used(group, taken, aside) {
            return Some(group);
        }
    }
    None
}

// Whether some total has a group, or it is the one that is set aside.
fn is_used(group: CounterGroup, taken: &[Option<TotalCounter>], aside: Option<CounterGroup>) -> bool
    ensures { IsTrue result ↔ IsUsed taken.now aside group }
{
    is_taken(group, taken) || aside == Some(group)
}

// Whether some total has a group.
fn is_taken(group: CounterGroup, taken: &[Option<TotalCounter>]) -> bool
    ensures { IsTrue result ↔ IsTaken taken.now group }
{
    taken.iter().any(|slot| is_held(*slot, group))
}

// Whether a counter, if there is one, has a group.
fn is_held(slot: Option<TotalCounter>, group: CounterGroup) -> bool
    ensures { IsTrue result ↔ IsHeld slot group }
{
    match slot {
        Some(counter) => counter.has(group),
        None => false,
    }
}

// The counters of totals of which none waits.
fn all_taken(alloc: Global, taken: &[Option<TotalCounter>]) -> Result<Vec<TotalCounter>, AllocError>
    requires { NoneWaits taken.now }
    ensures { IfOk result (λ counters. AreTaken taken.now counters.items) }
{
    let mut counters = Vec::new(alloc);
    for slot in taken {
        let Some(counter) = *slot else { unreachable!() };
        counters.push(counter)?;
    }
    Ok(counters)
}
