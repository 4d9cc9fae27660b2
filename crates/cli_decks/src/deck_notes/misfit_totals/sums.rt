//! The total of an amount over a group.

ghost use Rattle.std.specs.Prelude.{◌≡◌, ◌≤◌, ◌*◌, length};
ghost use Rattle.card_code.specs.MostCards.{most_cards};
ghost use Rattle.report_misfits.specs.HelperAmounts.{IsGoodAmount};
ghost use Rattle.report_misfits.specs.HelperTotals.{IsWithin, above_amounts};
ghost use Rattle.report_definition.specs.Totals.{total_of};

use card_code::Card;
use chart_lines::charts::Field;
use report_misfits::value_of;

/// The total of an amount over some cards, at most 999,999.
pub(crate) fn total_of(field: &Field, group: &[Card]) -> i64
    requires good { IsGoodAmount field.now }
    requires few { length group.now ≤ most_cards }
    ensures value { result ≡ total_of field.now group.now }
    ensures small { IsWithin (most_cards * above_amounts) result }
{
    let mut sum = 0;
    for card in group {
        sum += value_of(field, card);
    }
    sum
}
