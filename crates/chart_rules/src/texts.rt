//! The columns of a chart's texts, tested all at once.

ghost use Rattle.std.specs.Prelude.{◌≡◌, ℕ, ◌+◌, ◌<◌, ◌≤◌, IsSome, IsTrue, true, length, slice_index};
ghost use Rattle.card_code.specs.CardCode.{deck_character};
ghost use Rattle.card_code.specs.Columns.{column_of};
ghost use Rattle.chart_rules.specs.ValidCard.{is_printed};

use card_code::{CARD_COLUMNS, Card};
use chart_lines::charts::Field;

/// Which columns of a card are columns of a chart's texts.
///
/// Nearly all cards have print characters and blanks in all of them. So they are looked at together, without a branch for each column,
/// and the fields are asked one by one only if one of these columns has a `!`, the only deck character that isn't printed.
#[derive(Drop)]
pub(crate) struct TextColumns {
    // For each column all bits where it is one of a text.
    masks: [u16; CARD_COLUMNS],
    // No column past this one is one of a text: a multiple of 16, so that columns are taken 16 at a time.
    end: usize,
    ghost on_card: { end ≤ 80 },
}

impl TextColumns {
    ghost use Rattle.std.specs.Prelude.{◌≡◌, ◌≤◌, IsTrue, length};
    ghost use Rattle.card_code.specs.Deck.{HasCharacters};
    ghost use Rattle.chart_rules.specs.HelperOnCard.{AreOnCard};
    ghost use Rattle.chart_rules.specs.HelperTexts.{AreMarked, ArePrinted};

    /// The columns of the texts among some fields.
    pub(crate) fn of(fields: &[Field]) -> TextColumns
        requires { AreOnCard fields.now }
        ensures { AreMarked fields.now (length fields.now) result.masks result.end }
    {
        let mut masks = [0; CARD_COLUMNS];
        let mut last = 0;
        for field in fields {
            if !field.kind.is_amount() {
                mark(&mut masks, field.first, field.last);
                last = last.max(field.last);
            }
        }
        TextColumns {
            masks,
            end: (usize::from(last) + 15) / 16 * 16,
        }
    }

    /// Whether none of them has a `!`, on a card that has a deck character in each column. If so, each of them has a print character or is
    /// blank.
    pub(crate) fn are_printed(&self, card: &Card) -> bool
        requires { HasCharacters card.now }
        ensures { IsTrue result → ArePrinted self.now.masks self.now.end card.now }
    {
        let columns = card.columns();
        let mut unprinted = 0;
        for place in 0..self.end {
            unprinted |= self.masks[place] & unprinted_bits(columns[place].set());
        }
        unprinted == 0
    }
}

// Sets all bits of the masks of some columns.
pub(crate) fn mark(masks: &mut [u16; CARD_COLUMNS], first: u16, last: u16)
    requires from { 1 ≤ first }
    requires to { last ≤ 80 }
    ensures marked { (k : ℕ) → first ≤ k + 1 → k < last → slice_index masks.new k ≡ 65535 }
    ensures kept { (k : ℕ) → slice_index masks.old k ≡ 65535 → slice_index masks.new k ≡ 65535 }
    ensures long { length masks.new ≡ 80 }
{
    for place in usize::from(first) - 1..usize::from(last) {
        masks[place] = 0xffff;
    }
}

// The set of the rows 11 and 0, those of `!`: the only deck character that isn't printed.
const EXCLAMATION_MARK: u16 = 0x0600;

// All bits if the set of a column is that of `!`, else none.
fn unprinted_bits(set: u16) -> u16
    requires small { set < 4096 }
    requires character { IsSome (deck_character (column_of set)) }
    ensures { result ≡ 0 → is_printed (deck_character (column_of set)) ≡ true }
{
    u16::from(set != EXCLAMATION_MARK).wrapping_sub(1)
}
