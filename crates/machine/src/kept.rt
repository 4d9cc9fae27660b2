//! Cycles whose points are kept: what emitted at each, and which contacts were closed.

ghost use Rattle.std.specs.Prelude.{◌≡◌, ◌++◌, Some, OnOk, OnErr};
ghost use Rattle.machine.specs.Kept.{kept_of};

use crate::closed::Closed;
use crate::groups::nines;
use crate::units::Units;
use card_code::Card;
use net::{Contacts, Cycle, Net, POINTS, Picture, Point};
use page_text::placed_lines::PlacedLine;
use selectors::with_carries;
use std::alloc::AllocError;

/// A point of a cycle as it was.
#[derive(Clone, Copy, Debug)]
pub struct KeptPoint {
    /// The exits that emitted.
    pub exits: Picture,
    /// The contacts that were closed, by their exits.
    pub contacts: Contacts,
}

/// A cycle that placed a line.
#[derive(Clone, Copy, Debug)]
pub struct KeptCycle {
    /// Which cycle it was.
    pub cycle: Cycle,
    /// Whether what was fed still waited for a card cycle to take it when the cycle was over. So a heading cycle comes before a card
    /// cycle where this is set, and else before a total.
    pub waits: bool,
    /// Its points in their order.
    pub points: [KeptPoint; 14],
    /// The line that it placed.
    pub line: PlacedLine,
}

impl Units {
    ghost use Rattle.std.specs.Prelude.{◌≡◌, Some, None, IfSome, All, OnOk, OnErr, [], ◌∷◌, option_to_list};
    ghost use Rattle.std.specs.List.{filter};
    ghost use Rattle.hubs.specs.SetupsWords.Wiring.{Wiring};
    ghost use Rattle.net.specs.Nets.{IsNetOf};
    ghost use Rattle.machine.specs.Cycles.{CycleRun, Reached, line_of};
    ghost use Rattle.machine.specs.Feeds.{FeedStep, due_in, taken};
    ghost use Rattle.machine.specs.Ends.{EndsCycle, GoesOn};
    ghost use Rattle.machine.specs.Kept.{FeedsPast, GainsKept, GainsSome, IsElsewhere, IsKept, KeepsPoints, PlacedInFeed, is_on};
    ghost use Rattle.machine.specs.Keeps.{Keeps};
    ghost use Rattle.machine.specs.Steady.{AreSteady};

    // The points of a cycle, kept in their order.
    pub(crate) fn run_points_kept(&mut self, net: &Net, cycle: Cycle) -> [KeptPoint; 14]
        ensures reached { (wiring : Wiring) → IsNetOf wiring net.now → Reached wiring cycle 14 self.old self.new }
        ensures keeps { Keeps cycle self.old self.new }
        ensures kept { (wiring : Wiring) → IsNetOf wiring net.now → KeepsPoints wiring cycle self.old 14 result }
    {
        let closed = self.closed(cycle);
        let mut points = [KeptPoint {
            exits: Picture::new(),
            contacts: Contacts::new(),
        }; 14];
        for place in 0..14 {
            points[place] = self.keep_point(&closed, cycle, POINTS[place]);
            self.step(net, &closed, cycle, POINTS[place]);
        }
        points
    }

    // A cycle, and its points in their order.
    pub(crate) fn run_cycle_kept(&mut self, net: &Net, cycle: Cycle) -> [KeptPoint; 14]
        ensures ran { (wiring : Wiring) → IsNetOf wiring net.now → CycleRun wiring cycle self.old self.new }
        ensures ends { EndsCycle cycle self.old self.new }
        ensures kept { (wiring : Wiring) → IsNetOf wiring net.now → KeepsPoints wiring cycle self.old 14 result }
    {
        let points = self.run_points_kept(net, cycle);
        self.end_cycle(cycle);
        points
    }

    // What emits at a point, and which contacts are closed.
    fn keep_point(&self, closed: &Closed, cycle: Cycle, point: Point) -> KeptPoint
        requires { AreSteady cycle closed.now self.now }
        ensures { IsKept cycle point self.now result }
    {
        let mut exits = Picture::new();
        self.emit(cycle, point, &mut exits);
        KeptPoint {
            exits,
            contacts: with_carries(*closed.at(point), point, &nines(&self.all.groups)),
        }
    }

    // Runs the cycle that is due and keeps its points, and answers whether something still waits.
    fn run_due_kept(
        &mut self,
        net: &Net,
        cycle: Cycle,
        waits: bool,
        next: &Option<Card>,
    ) -> (bool, [KeptPoint; 14])
        requires { due_in (record { machine = self.old; waits = waits; next = next.now }) ≡ Some cycle }
        ensures step { (wiring : Wiring)
            → IsNetOf wiring net.now
            → FeedStep wiring cycle (record { machine = self.old; waits = waits; next = next.now })
            (record { machine = self.new; waits = result.0; next = next.now }) }
        ensures goes_on { GoesOn cycle (record { machine = self.old; waits = waits; next = next.now })
            (record { machine = self.new; waits = result.0; next = next.now }) }
        ensures points { (wiring : Wiring)
            → IsNetOf wiring net.now
            → KeepsPoints wiring cycle (taken cycle (record { machine = self.old; waits = waits; next = next.now })).machine 14 result.1 }
    {
        let waits = self.take(cycle, waits, next);
        let points = self.run_cycle_kept(net, cycle);
        (waits, points)
    }

    // Feeds a card, or the end, and runs the cycles that follow, up to the one that places a line at a page and a line of it.
    pub(crate) fn feed_to(
        &mut self,
        net: &Net,
        next: &Option<Card>,
        page: u64,
        line: u32,
    ) -> Option<KeptCycle>
        ensures found { (wiring : Wiring) → IsNetOf wiring net.now → IfSome result (PlacedInFeed wiring self.old next.now) }
        ensures page { IfSome result (λ kept. kept.line.page ≡ page) }
        ensures line { IfSome result (λ kept. kept.line.line ≡ line) }
        ensures none { (wiring : Wiring) → IsNetOf wiring net.now → result ≡ None
            → FeedsPast wiring self.old next.now self.new page line }
    {
        let mut waits = self.begin(next);
        while let Some(cycle) = self.due_in(waits, next) {
            let (still, points) = self.run_due_kept(net, cycle, waits, next);
            waits = still;
            if let Some(line) = self.placed_at(page, line) {
                return Some(KeptCycle {
                    cycle,
                    waits,
                    points,
                    line,
                });
            }
        }
        None
    }

    // The line that the cycle that ended last placed, if it placed one at this page and this line of it.
    fn placed_at(&self, page: u64, line: u32) -> Option<PlacedLine>
        ensures placed { IfSome result (λ placed. line_of self.now ≡ placed ∷ []) }
        ensures page { IfSome result (λ placed. placed.page ≡ page) }
        ensures line { IfSome result (λ placed. placed.line ≡ line) }
        ensures none { result ≡ None → All (IsElsewhere page line) (line_of self.now) }
    {
        match self.all.placed_line() {
            Some(placed) if placed.page == page && placed.line == line => Some(placed),
            _ => None,
        }
    }

    // Feeds a card, or the end, runs the cycles that follow, and puts those that place a line on a page after the others.
    pub(crate) fn feed_page(
        &mut self,
        net: &Net,
        next: &Option<Card>,
        page: u64,
        kept: &mut Vec<KeptCycle>,
    ) -> Result<(), AllocError>
        ensures fed { OnOk result (GainsKept net.now self.old next.now self.new page kept.old.items kept.new.items) }
        ensures refused { OnErr result (GainsSome net.now self.old next.now page kept.old.items kept.new.items) }
    {
        let mut waits = self.begin(next);
        while let Some(cycle) = self.due_in(waits, next) {
            let (still, points) = self.run_due_kept(net, cycle, waits, next);
            waits = still;
            keep(kept, cycle, waits, points, self.placed_on(page))?;
        }
        Ok(())
    }

    // The line that the cycle that ended last placed, if it placed one on this page.
    fn placed_on(&self, page: u64) -> Option<PlacedLine>
        ensures placed { IfSome result (λ placed. line_of self.now ≡ placed ∷ []) }
        ensures on_page { option_to_list result ≡ filter (is_on page) (line_of self.now) }
    {
        match self.all.placed_line() {
            Some(placed) if placed.page == page => Some(placed),
            _ => None,
        }
    }
}

// Puts a cycle that placed a line after the others. Where memory is refused they stay as they were.
fn keep(
    kept: &mut Vec<KeptCycle>,
    cycle: Cycle,
    waits: bool,
    points: [KeptPoint; 14],
    line: Option<PlacedLine>,
) -> Result<(), AllocError>
    ensures kept { OnOk result (kept.new.items ≡ kept.old.items ++ kept_of cycle waits points line) }
    ensures refused { OnErr result (kept.new.items ≡ kept.old.items) }
{
    if let Some(line) = line {
        kept.push(KeptCycle {
            cycle,
            waits,
            points,
            line,
        })?;
    }
    Ok(())
}
