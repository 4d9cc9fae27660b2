//! The columns of a chart's amounts, tested all at once.

ghost use Rattle.std.specs.Prelude.{◌≡◌, ℕ, ◌+◌, ◌<◌, ◌≤◌, ◌==◌, IsTrue, false, length, slice_index};
ghost use Rattle.card_code.specs.CardCode.{has_row};
ghost use Rattle.card_code.specs.Columns.{column_of};
ghost use Rattle.chart_lines.specs.ChartsWords.Field.{columns_of, decimals_of};
ghost use Rattle.chart_rules.specs.HelperOnCard.{IsOnCard};
ghost use Rattle.chart_rules.specs.ValidCard.{digit_count, is_sign};

use crate::texts::mark;
use card_code::{CARD_COLUMNS, Card};
use chart_lines::charts::Field;

/// Which columns of a card are columns of a chart's amounts, and what each may hold.
///
/// Nearly all amounts are blanks alone, or blanks and then single digits. So their columns are looked at together, without a branch for
/// each column, and only where that does not show it the amounts are asked one by one.
#[derive(Drop)]
pub(crate) struct AmountColumns {
    // For each column all bits where it is one of an amount.
    amounts: [u16; CARD_COLUMNS],
    // All bits where it is one that is not the sign column of its amount.
    unsigned: [u16; CARD_COLUMNS],
    // All bits where the column before it is one of the same amount: where that has a digit, it has one too.
    inner: [u16; CARD_COLUMNS],
    // All bits where it is one of the last columns, as many as the amount has digits at least, but for the first of these: where it has a
    // digit, the column before it has one too.
    needed: [u16; CARD_COLUMNS],
    // No column past this one is one of an amount: a multiple of 16, so that columns are taken 16 at a time.
    end: usize,
    ghost on_card: { end ≤ 80 },
}

impl AmountColumns {
    ghost use Rattle.std.specs.Prelude.{◌≤◌, IsTrue, length};
    ghost use Rattle.chart_lines.specs.ChartsWords.Field.{columns_of, decimals_of};
    ghost use Rattle.chart_rules.specs.HelperAmounts.{AreAmountsMarked, ArePlain, AreSized, IsAmountMarked, Keeps};
    ghost use Rattle.chart_rules.specs.HelperOnCard.{AreOnCard, IsOnCard};

    /// The columns of the amounts among some fields.
    pub(crate) fn of(fields: &[Field]) -> AmountColumns
        requires on_card { AreOnCard fields.now }
        requires sized { AreSized fields.now }
        ensures { AreAmountsMarked fields.now (length fields.now) result }
    {
        let mut columns = AmountColumns {
            amounts: [0; CARD_COLUMNS],
            unsigned: [0; CARD_COLUMNS],
            inner: [0; CARD_COLUMNS],
            needed: [0; CARD_COLUMNS],
            end: 0,
        };
        for field in fields {
            if field.kind.is_amount() {
                columns.add(*field);
            }
        }
        columns
    }

    // Marks the columns of an amount.
    fn add(&mut self, field: Field)
        requires on_card { IsOnCard field }
        requires sized { decimals_of field.kind ≤ columns_of field }
        ensures marked { IsAmountMarked self.new field }
        ensures kept { Keeps self.old self.new }
    {
        let least = field.kind.decimals().max(1);
        mark(&mut self.amounts, field.first, field.last);
        mark_unsigned(
            &mut self.unsigned,
            field.first,
            field.last,
            field.kind.sign_column(),
        );
        mark(&mut self.inner, field.first + 1, field.last);
        mark(&mut self.needed, field.last + 2 - least, field.last);
        self.end = self.end.max((usize::from(field.last) + 15) / 16 * 16);
    }

    /// Whether it is plain that each of the amounts is valid on a card.
    pub(crate) fn are_plain(&self, card: &Card) -> bool
        ensures { IsTrue result → ArePlain self.now self.now.end card.now }
    {
        let columns = card.columns();
        let mut faults = 0;
        let mut before = 0;
        for place in 0..self.end {
            let set = columns[place].set();
            faults |= self.amounts[place] & crowding_rows(set)
                | self.unsigned[place] & (set & 0x400)
                | self.inner[place] & digit_lacks(before, set)
                | self.needed[place] & digit_lacks(set, before);
            before = set;
        }
        faults == 0
    }
}

// Marks the columns of an amount but for its sign column.
fn mark_unsigned(masks: &mut [u16; CARD_COLUMNS], first: u16, last: u16, sign: Option<u16>)
    requires from { 1 ≤ first }
    requires to { last ≤ 80 }
    ensures marked { (k : ℕ)
        → first ≤ k + 1
        → k < last
        → is_sign sign (k + 1) ≡ false
        → slice_index masks.new k ≡ 65535 }
    ensures kept { (k : ℕ) → slice_index masks.old k ≡ 65535 → slice_index masks.new k ≡ 65535 }
    ensures long { length masks.new ≡ 80 }
{
    for place in usize::from(first) - 1..usize::from(last) {
        if !is_sign(sign, place as u16 + 1) {
            masks[place] = 0xffff;
        }
    }
}

// Whether a column is the sign column.
fn is_sign(sign: Option<u16>, column: u16) -> bool
    ensures { result ≡ is_sign sign column }
{
    sign == Some(column)
}

// Places of rows that show why a set has several digits, or row 12; where there is none, it has not.
fn crowding_rows(set: u16) -> u16
    requires { set < 4096 }
    ensures digits { result ≡ 0 → digit_count (column_of set) ≤ 1 }
    ensures zone { result ≡ 0 → has_row (column_of set) 12 ≡ false }
{
    let digits = set & 0x3ff;
    digits & digits.wrapping_sub(1) | set & 0x800
}

// 1 where a set has a digit and another has none, and else 0.
fn digit_lacks(one: u16, other: u16) -> u16
    requires one { one < 4096 }
    requires other { other < 4096 }
    ensures { result ≡ 0 → digit_count (column_of other) ≡ 0 → digit_count (column_of one) ≡ 0 }
{
    if one & 0x3ff == 0 {
        return 0;
    }
    if other & 0x3ff == 0 { 1 } else { 0 }
}
