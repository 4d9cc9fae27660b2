//! The first wheel that differs.

ghost use Rattle.std.specs.Prelude.{◌≡◌, ◌≤◌, IfNone, IfSome};
ghost use Rattle.cli_matching.specs.MatchDecks.Wheels.{AreAlike, IsDifferenceOf, IsFirstApart, IsToldWheel, is_at, text_at};

use crate::match_decks::lines::{LinePlace, first_difference};
use page_text::placed_lines::{LINE_WHEELS, PlacedLine};

/// Where two reports differ first.
#[derive(Clone, Copy, Debug, PartialEq, Eq)]
pub struct Difference {
    /// The place of the line.
    pub place: LinePlace,
    /// The wheel, 1 to 120: the first on which what is printed there differs. 1 where a blank line stands in only one of them.
    pub wheel: u8,
}

// Whether a line stands at a place.
fn is_at(place: LinePlace, placed: &PlacedLine) -> bool
    ensures { result ≡ is_at place placed.now }
{
    placed.page == place.page && placed.line == place.line
}

// The characters at a place: blanks where no line is printed.
fn text_at(lines: &[PlacedLine], place: LinePlace) -> [u8; LINE_WHEELS]
    ensures { result ≡ text_at lines.now place }
{
    for placed in lines {
        if is_at(place, placed) {
            return placed.text;
        }
    }
    [b' '; LINE_WHEELS]
}

// The first wheel on which two lines differ; none where they are alike.
fn first_apart(one: &[u8; LINE_WHEELS], other: &[u8; LINE_WHEELS]) -> Option<u8>
    ensures apart { IfSome result (IsFirstApart one.now other.now) }
    ensures alike { IfNone result (AreAlike one.now other.now) }
{
    for place in 0..LINE_WHEELS {
        if one[place] != other[place] {
            return Some(place as u8 + 1);
        }
    }
    None
}

// The wheel that is told of two lines.
fn told_wheel(one: &[u8; LINE_WHEELS], other: &[u8; LINE_WHEELS]) -> u8
    ensures { IsToldWheel one.now other.now result }
{
    match first_apart(one, other) {
        Some(wheel) => wheel,
        None => 1,
    }
}

// Where two lists of printed lines differ first: the place as `first_difference` tells it, and the wheel. None where they are the same.
pub(crate) fn line_difference(one: &[PlacedLine], other: &[PlacedLine]) -> Option<Difference>
    ensures same { IfNone result (one.now ≡ other.now) }
    ensures first { IfSome result (IsDifferenceOf one.now other.now) }
{
    let place = first_difference(one, other)?;
    let wheel = told_wheel(&text_at(one, place), &text_at(other, place));
    Some(Difference { place, wheel })
}
