//! Where something stands in a list, and the number of the part that serves it.

ghost use Rattle.std.specs.Prelude.{◌≡◌, ◌==◌, ◌<◌, IfSome, length, position, slice_get, option_and_then};
ghost use Rattle.chart_lines.specs.ChartsWords.Name.{is_same_name};
ghost use Rattle.chart_plans.specs.WantedWords.Positions.{is_same_position};

use crate::wanted::Position;
use chart_lines::charts::Name;

/// Where a name stands first in a list, from 0.
pub(crate) fn place_of_name(list: &[Name], name: Name) -> Option<usize>
    ensures value { result ≡ position (λ each. is_same_name each name) list.now }
    ensures within { IfSome result (λ place. place < length list.now) }
{
    list.iter().position(|each| each.is(name))
}

/// Where a line's number stands first in a list, from 0.
pub(crate) fn place_of_line(list: &[u16], line: u16) -> Option<usize>
    ensures value { result ≡ position (λ each. each == line) list.now }
    ensures within { IfSome result (λ place. place < length list.now) }
{
    list.iter().position(|each| *each == line)
}

/// Where a position stands first in a list, from 0.
pub(crate) fn place_of_position(list: &[Position], at: Position) -> Option<usize>
    ensures value { result ≡ position (λ each. is_same_position each at) list.now }
    ensures within { IfSome result (λ place. place < length list.now) }
{
    list.iter().position(|each| each.is(at))
}

/// The number at a place, where there is one.
pub(crate) fn number_at(numbers: &[u8], place: Option<usize>) -> Option<u8>
    ensures { result ≡ option_and_then (slice_get numbers.now) place }
{
    numbers.get(place?).copied()
}
