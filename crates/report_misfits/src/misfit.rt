//! The first misfit of a deck.

ghost use Rattle.std.specs.Prelude.{◌≡◌, ◌≤◌, length, option_map, slice_get};
ghost use Rattle.card_code.specs.MostCards.{most_cards};
ghost use Rattle.report_definition.specs.Misfits.{first_of, misfits};
ghost use Rattle.report_misfits.specs.ToldMisfits.{told};

use crate::open_sums::OpenSums;
use card_code::Card;
use chart_lines::charts::{Level, Name};
use chart_rules::Chart;

/// A total that has more digits than its total line has room for.
#[derive(Clone, Copy, Debug, PartialEq, Eq)]
pub struct Misfit {
    /// The level of the total line.
    pub level: Level,
    /// The name of the amount.
    pub name: Name,
    /// The number of the last card of the total's group, from 1.
    pub card: u32,
}

// The card at a place of a deck, if there is one.
fn card_at(cards: &[Card], place: usize) -> Option<Card>
    ensures { result ≡ slice_get cards.now place }
{
    cards.get(place).copied()
}

/// The first misfit of a deck of at most 999,999 cards: by the last card of its group, then by its level, the lowest first, then by the
/// line of the chart. None where all totals fit.
///
/// One pass over the deck for all totals of the chart. No memory is taken.
pub fn first_misfit(chart: &Chart, cards: &[Card]) -> Option<Misfit>
    requires { length cards.now ≤ most_cards }
    ensures { option_map told result ≡ first_of (misfits chart.now.lines cards.now) }
{
    let mut sums = OpenSums::new(chart);
    for place in 0..cards.len() {
        if let Some(misfit) = sums.take(chart, &cards[place], &card_at(cards, place + 1)) {
            return Some(misfit);
        }
    }
    None
}
