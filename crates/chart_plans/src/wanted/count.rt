//! Capacities of machines, and how much of them totals want.

ghost use Rattle.std.specs.Prelude.{◌≡◌, ◌&&◌, count_by};
ghost use Rattle.chart_plans.specs.WantedWords.Totals.{class_of, is_at_least, takes_two, wanted_at};

use crate::wanted::total::Total;
use chart_lines::charts::ControlLevel;

/// A capacity of a machine: something that it has so many of.
#[derive(Clone, Copy, Debug, PartialEq, Eq)]
pub enum Capacity {
    /// Counter groups of a width, 3, 4, 6 or 8, or a greater one: fault 61.
    Counters(u8),
    /// Pilots: fault 62.
    Pilots,
    /// Comparing positions: fault 63.
    Comparing,
    /// Storage units of more than 16 columns, of which there are none: fault 64.
    StorageWidth,
    /// Storage units: fault 65.
    StorageUnits,
    /// Column splits: fault 66.
    Splits,
    /// Indicate positions of a level: fault 67.
    Indicate(ControlLevel),
}

/// How many counter groups of this width or a wider one totals want: one for each total that has it as its class or a
/// wider one, and a second one for each of these that takes two.
#[tactic(auto, unfolding(crate::specs::WantedWords::Totals::wanted_at))]
pub(crate) fn wanted_at(width: u8, totals: &[Total]) -> usize
    ensures { result ≡ wanted_at width totals.now }
{
    first_groups(width, totals) + second_groups(width, totals)
}

/// How many totals have this width as their class or a wider one.
fn first_groups(width: u8, totals: &[Total]) -> usize
    ensures { result ≡ count_by (λ total. is_at_least width total.need) totals.now }
{
    totals
        .iter()
        .filter(|total| is_at_least(width, total.need))
        .count()
}

/// How many of these take two groups.
fn second_groups(width: u8, totals: &[Total]) -> usize
    ensures { result ≡ count_by (λ total. takes_two total.need && is_at_least width total.need) totals.now }
{
    totals
        .iter()
        .filter(|total| takes_two(total.need) && is_at_least(width, total.need))
        .count()
}

/// Whether a need has this width as its class or a wider one.
fn is_at_least(width: u8, need: u32) -> bool
    ensures { result ≡ is_at_least width need }
{
    width <= class_of(need)
}

/// Whether a total that needs so many positions takes two counter groups of 8, since one of them is not enough.
pub fn takes_two(need: u32) -> bool
    ensures { result ≡ takes_two need }
{
    8 < need
}

/// The class of a need: the smallest width of 3, 4, 6 and 8 positions that is enough, or 8 where none is.
fn class_of(need: u32) -> u8
    ensures { result ≡ class_of need }
{
    match need {
        0..=3 => 3,
        4 => 4,
        5 | 6 => 6,
        _ => 8,
    }
}
