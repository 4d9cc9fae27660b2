//! The first line that differs.

ghost use Rattle.std.specs.Prelude.{◌≡◌, ◌↔◌, IfNone, IfSome, IsTrue};
ghost use Rattle.cli_matching.specs.MatchDecks.Differing.{IsFirstDifference, lower_place, place_of};

use page_text::placed_lines::PlacedLine;

/// A place of a report.
#[derive(Clone, Copy, Debug, PartialEq, Eq)]
pub struct LinePlace {
    /// The page, from 1.
    pub page: u64,
    /// The line on the page, from 1.
    pub line: u32,
}

// The place of a line.
fn place_of(placed: &PlacedLine) -> LinePlace
    ensures { result ≡ place_of placed.now }
{
    LinePlace {
        page: placed.page,
        line: placed.line,
    }
}

// The lower of the places of two lines: by page, then by line.
fn lower_place(one: &PlacedLine, other: &PlacedLine) -> LinePlace
    ensures { result ≡ lower_place one.now other.now }
{
    if one.page < other.page || one.page == other.page && one.line <= other.line {
        place_of(one)
    } else {
        place_of(other)
    }
}

// Whether two lines are the same.
fn is_same(one: &PlacedLine, other: &PlacedLine) -> bool
    ensures { IsTrue result ↔ (one.now ≡ other.now) }
{
    *one == *other
}

// The place of the first line in which two lists of printed lines differ: up to it they are the same. Where there they have two
// lines, it is the lower one of their places, and where one list ends, the place of the other's line. None where the lists are the same.
pub(crate) fn first_difference(one: &[PlacedLine], other: &[PlacedLine]) -> Option<LinePlace>
    ensures same { IfNone result (one.now ≡ other.now) }
    ensures first { IfSome result (IsFirstDifference one.now other.now) }
{
    for (place, line) in one.iter().enumerate() {
        if place >= other.len() {
            return Some(place_of(line));
        }
        if !is_same(line, &other[place]) {
            return Some(lower_place(line, &other[place]));
        }
    }
    if one.len() < other.len() {
        Some(place_of(&other[one.len()]))
    } else {
        None
    }
}
