//! Which wheel to the left gives a wheel its significance.

ghost use Rattle.std.specs.Prelude.{◌≡◌, ◌≤◌, Bool, true, List, length};
ghost use Rattle.hubs.specs.declared.hub.Hub.{Hub};
ghost use Rattle.hubs.specs.SetupsWords.Wiring.{Wiring};
ghost use Rattle.net.specs.declared.cycle.Point.{Point};
ghost use Rattle.machine.specs.declared.kept.KeptPoint.{KeptPoint};
ghost use Rattle.print_unit.specs.ZeroControl.{count_of, has_zero_control, is_figure};
ghost use Rattle.explain_wheels.specs.ExplanationsWords.Explanations.{HasFigure, TellsSignificance};
ghost use Rattle.explain_wheels.specs.ExplanationsWords.Rows.{ArePictures, AreRowWays, HasReceived, TellsGiver};

use crate::ways::Ways;
use hubs::setups::Setup;
use hubs::{Hub, Jack};
use net::Cycle;

/// A wheel that gives another one significance.
#[derive(Clone, Copy, Debug, PartialEq, Eq)]
pub struct Giver {
    /// The wheel.
    pub wheel: u8,
    /// The figure that it received, 1 to 9.
    pub figure: u8,
}

/// Why a wheel has significance, or that it has none.
#[derive(Clone, Copy, Debug, PartialEq, Eq)]
pub enum Significance {
    /// The cycle has no zero control: all wheels have significance.
    Uncontrolled,
    /// This wheel, the nearest one to the left that does, received a figure, and LINK is plugged on each wheel behind it up to the one
    /// that is explained.
    From(Giver),
    /// No wheel to the left gives it.
    Absent,
}

// What is to be told of a wheel's significance in a cycle.
pub(crate) fn significance_of(setup: &Setup, ways: &[Ways], cycle: Cycle, wheel: u8) -> Significance
    requires { 12 ≤ length ways.now }
    ensures { (points : List KeptPoint) (pictures : Point → Hub → Bool) → AreRowWays setup.now points 12 ways.now
        → ArePictures setup.now points pictures → TellsSignificance setup.now pictures cycle wheel result }
{
    if !has_zero_control(cycle) {
        return Significance::Uncontrolled;
    }
    match find_giver(setup, ways, wheel) {
        Some(giver) => Significance::From(giver),
        None => Significance::Absent,
    }
}

// Whether zero control works in a cycle.
fn has_zero_control(cycle: Cycle) -> bool
    ensures { result ≡ has_zero_control cycle }
{
    match cycle {
        Cycle::RunIn | Cycle::Head(_) => false,
        Cycle::Card | Cycle::Prog(_, _) => true,
    }
}

// The nearest wheel that gives a wheel its significance.
fn find_giver(setup: &Setup, ways: &[Ways], wheel: u8) -> Option<Giver>
    requires { 12 ≤ length ways.now }
    ensures { (points : List KeptPoint) (pictures : Point → Hub → Bool) → AreRowWays setup.now points 12 ways.now
        → ArePictures setup.now points pictures → TellsGiver setup.now pictures wheel result }
{
    let mut right = wheel;
    while right > 1 {
        if !setup.has_jack(Jack::Link(right)) {
            return None;
        }
        right -= 1;
        let received = received(ways, right);
        if is_figure(&received) {
            return Some(Giver {
                wheel: right,
                figure: figure(&received),
            });
        }
    }
    None
}

// The rows that a wheel received.
fn received(ways: &[Ways], wheel: u8) -> [bool; 12]
    requires { 12 ≤ length ways.now }
    ensures { (wiring : Wiring) (points : List KeptPoint) → AreRowWays wiring points 12 ways.now
        → HasReceived wiring points wheel 12 result }
{
    let mut received = [false; 12];
    for row in 0..12 {
        received[row] = ways[row].has(Hub::W(wheel));
    }
    received
}

// Whether the rows are a figure: exactly one of the rows 9 to 1, and no other.
fn is_figure(received: &[bool; 12]) -> bool
    ensures { result ≡ is_figure received.now }
{
    count_received(&received[..9]) == 1 && count_received(&received[9..]) == 0
}

// The figure that rows are: the first of the rows 9 to 1 that was received.
fn figure(received: &[bool; 12]) -> u8
    requires { is_figure received.now ≡ true }
    ensures { HasFigure received.now result }
{
    for place in 0..9 {
        if received[place] {
            return 9 - place as u8;
        }
    }
    unreachable!()
}

/// How many of some rows were received.
pub fn count_received(received: &[bool]) -> usize
    ensures { result ≡ count_of received.now }
{
    let mut count = 0;
    for has in received {
        if *has {
            count += 1;
        }
    }
    count
}
