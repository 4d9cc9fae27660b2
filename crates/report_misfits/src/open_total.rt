//! Open totals: what is kept of a total between two cards.

ghost use Rattle.std.specs.Prelude.{◌≡◌, ◌+◌, ◌+ℤ◌, ◌*◌, ◌<◌, ◌≤◌, ◌^◌, ℕ, List, length, map, option_map, unsigned_abs};
ghost use Rattle.std.specs.List.{All, filter_map};
ghost use Rattle.card_code.specs.MostCards.{most_cards};
ghost use Rattle.chart_lines.specs.ChartsWords.Levels.{level_number};
ghost use Rattle.report_definition.specs.Misfits.{first_of, fits_in};
ghost use Rattle.report_misfits.specs.HelperAmounts.{IsGoodAmount};
ghost use Rattle.report_misfits.specs.HelperNumbers.{AreNumbered};
ghost use Rattle.report_misfits.specs.HelperPending.{emptied, settled, taking_card};
ghost use Rattle.report_misfits.specs.HelperTotals.{IsKept, IsWithin, most_digits, misfits_among};
ghost use Rattle.report_misfits.specs.OpenTotals.{closed_to, misfit_at, with_value};
ghost use Rattle.report_misfits.specs.ToldMisfits.{told};

use crate::misfit::Misfit;
use crate::values::value_of;
use card_code::Card;
use chart_lines::charts::{Field, FieldKind, Level, Name};

// A total of an amount over the unfinished group of its level.
#[derive(Clone, Copy, Debug)]
pub(crate) struct OpenTotal {
    // The level of its total line.
    pub level: Level,
    // How many digits the total line has room for.
    pub digits: u16,
    // The amount.
    pub field: Field,
    // The sum of the amount over the cards so far of the group, up to the last card that ended a group.
    pub sum: i64,
}

impl Default for OpenTotal {
    // What stands where a chart has no further total: it is never read.
    fn default() -> OpenTotal {
        let field = Field {
            name: Name::from_characters(*b"A       "),
            first: 1,
            last: 1,
            kind: FieldKind::Text,
        };
        OpenTotal {
            level: Level::Minor,
            digits: 1,
            field,
            sum: 0,
        }
    }
}

impl OpenTotal {
    // Adds what is pending of its amount. After at most 999,999 cards no sum is too large.
    fn add(&mut self, amount: &Amount)
        requires { IsWithin (most_cards * 100000000) (self.old.sum +ℤ amount.now.pending) }
        ensures { self.new ≡ with_value amount.now.pending self.old }
    {
        self.sum += amount.pending;
    }

    // Whether the total line has room for the sum.
    fn fits(&self) -> bool
        requires { self.now.digits ≤ most_digits }
        ensures { result ≡ fits_in self.now.digits self.now.sum }
    {
        self.sum.unsigned_abs() < 10_u64.pow(u32::from(self.digits))
    }

    // What is told of it where a group of a level ends with the card of a number.
    fn misfit(&self, level: u8, card: u32) -> Option<Misfit>
        requires { self.now.digits ≤ most_digits }
        ensures { option_map told result ≡ misfit_at level card self.now }
    {
        if self.level.number() != level || self.fits() {
            return None;
        }
        Some(Misfit {
            level: self.level,
            name: self.field.name,
            card,
        })
    }

    // Begins anew where its group is among those that have ended, of the levels up to a given one.
    fn close(&mut self, ended: u8)
        ensures { self.new ≡ closed_to ended self.old }
    {
        if self.level.number() <= ended {
            self.sum = 0;
        }
    }
}

// An amount that is totalled, and what is still to be added to its totals.
#[derive(Clone, Copy, Debug)]
pub(crate) struct Amount {
    // Its columns and its sign.
    pub field: Field,
    // Its sum over the cards that were not added to its totals.
    pub pending: i64,
}

impl Default for Amount {
    // What stands where a chart has no further amount: it is never read.
    fn default() -> Amount {
        Amount {
            field: OpenTotal::default().field,
            pending: 0,
        }
    }
}

impl Amount {
    // Takes its value on a card. After fewer than 999,999 cards no sum is too large.
    fn take(&mut self, card: &Card)
        requires good { IsGoodAmount self.old.field }
        requires little { IsWithin (most_cards * 100000000) self.old.pending }
        ensures { self.new ≡ taking_card card.now self.old }
    {
        self.pending += value_of(&self.field, card);
    }

    // Begins anew once its sum was added to its totals.
    fn clear(&mut self)
        ensures { self.new ≡ emptied self.old }
    {
        self.pending = 0;
    }
}

// Takes the values of amounts on a card. They come to the totals where a group ends.
pub(crate) fn take_card(amounts: &mut [Amount], card: &Card)
    requires good { All (λ amount. IsGoodAmount amount.field) amounts.old }
    requires little { All (λ amount. IsWithin (most_cards * 100000000) amount.pending) amounts.old }
    ensures { amounts.new ≡ map (taking_card card.now) amounts.old }
{
    for amount in amounts.iter_mut() {
        amount.take(card);
    }
}

// Adds to totals what is pending of their amounts.
fn add_pending(totals: &mut [OpenTotal], places: &[u16], amounts: &[Amount])
    requires kept { All (IsKept most_cards) (settled totals.old places.now amounts.now) }
    requires numbered { AreNumbered totals.old places.now amounts.now }
    ensures { totals.new ≡ settled totals.old places.now amounts.now }
{
    for k in 0..totals.len() {
        let place = usize::from(places[k]);
        totals[k].add(&amounts[place]);
    }
}

// Begins all amounts anew.
fn clear_all(amounts: &mut [Amount])
    ensures { amounts.new ≡ map emptied amounts.old }
{
    for amount in amounts.iter_mut() {
        amount.clear();
    }
}

// Brings totals up to the last card: nothing is pending then.
pub(crate) fn settle(totals: &mut [OpenTotal], places: &[u16], amounts: &mut [Amount])
    requires kept { All (IsKept most_cards) (settled totals.old places.now amounts.old) }
    requires numbered { AreNumbered totals.old places.now amounts.old }
    ensures totals { totals.new ≡ settled totals.old places.now amounts.old }
    ensures amounts { amounts.new ≡ map emptied amounts.old }
{
    add_pending(totals, places, amounts);
    clear_all(amounts);
}

// The first misfit where the groups of a level end with the card of a number.
fn first_misfit_at(totals: &[OpenTotal], level: u8, card: u32) -> Option<Misfit>
    requires { All (IsKept most_cards) totals.now }
    ensures { option_map told result ≡ first_of (filter_map (misfit_at level card) totals.now) }
{
    for total in totals {
        if let Some(misfit) = total.misfit(level, card) {
            return Some(misfit);
        }
    }
    None
}

// The first misfit where the groups of the levels 1 to a given one end with the card of a number.
pub(crate) fn first_misfit_to(totals: &[OpenTotal], ended: u8, card: u32) -> Option<Misfit>
    requires levels { ended ≤ 4 }
    requires kept { All (IsKept most_cards) totals.now }
    ensures { option_map told result ≡ first_of (misfits_among totals.now card ended) }
{
    for level in 1..ended + 1 {
        if let Some(misfit) = first_misfit_at(totals, level, card) {
            return Some(misfit);
        }
    }
    None
}

// Ends the groups of the levels up to a given one.
pub(crate) fn end_groups(totals: &mut [OpenTotal], ended: u8)
    ensures { totals.new ≡ map (closed_to ended) totals.old }
{
    if ended == 0 {
        return;
    }
    for total in totals.iter_mut() {
        total.close(ended);
    }
}
