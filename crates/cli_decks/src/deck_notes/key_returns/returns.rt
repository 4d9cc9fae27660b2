//! The keys that come back.

ghost use Rattle.std.specs.Prelude.{◌≡◌, ◌≤◌, ◌++◌, length, IfOk, OnOk};
ghost use Rattle.card_code.specs.MostCards.{most_cards};
ghost use Rattle.cli_decks.specs.DeckNotes.KeyReturns.HelperKept.{Goes};
ghost use Rattle.cli_decks.specs.DeckNotes.KeyReturns.Returns.{returns, told_of};

use crate::deck_notes::key_returns::earlier::EarlierKeys;
use crate::deck_notes::key_returns::keys::broken_before;
use card_code::Card;
use chart_rules::Chart;
use std::alloc::{AllocError, Global};

/// A group that begins with a key which stood before in the group of the level above.
#[derive(Clone, Copy, Debug, PartialEq, Eq)]
pub struct Return {
    /// The level of the group, 1 to 3.
    pub level: u8,
    /// The number of the first card with the key in the group of the level above, from 1.
    pub first: u32,
    /// The number of the card with which the key comes back.
    pub again: u32,
}

// Adds the key of a level that comes back with the card of a number, if there is a first card with it.
fn add_return(
    list: &mut Vec<Return>,
    level: u8,
    again: u32,
    first: Option<u32>,
) -> Result<(), AllocError>
    ensures { OnOk result (list.new.items ≡ list.old.items ++ told_of level again first) }
{
    if let Some(first) = first {
        list.push(Return {
            level,
            first,
            again,
        })?;
    }
    Ok(())
}

// What is kept between two cards: the keys so far, the last card, if there is one, and the keys that came back.
#[derive(Drop)]
pub(crate) struct Walk {
    earlier: EarlierKeys,
    last: Option<Card>,
    list: Vec<Return>,
}

impl Walk {
    // Takes the card with a number.
    fn take(
        &mut self,
        alloc: Global,
        chart: &Chart,
        card: &Card,
        number: u32,
    ) -> Result<(), AllocError>
        ensures { OnOk result (Goes chart.now.lines card.now number self.old self.new) }
    {
        let broken = broken_before(alloc, chart, &self.last, card)?;
        let stood = self.earlier.take(alloc, chart, broken, card, number)?;
        add_return(&mut self.list, broken, number, stood)?;
        self.last = Some(*card);
        Ok(())
    }
}

/// The keys that come back in a deck of at most 999,999 cards, each as often as it does, in the order of the cards with which they do. With one
/// card at most one key comes back: that of the level of the break before it.
///
/// For each level one look-up a card; the keys of the unfinished groups are held. It fails only if memory is refused.
pub fn key_returns(alloc: Global, chart: &Chart, cards: &[Card]) -> Result<Vec<Return>, AllocError>
    requires { length cards.now ≤ most_cards }
    ensures { IfOk result (λ list. list.items ≡ returns chart.now.lines cards.now) }
{
    let mut walk = Walk {
        earlier: EarlierKeys::new(alloc),
        last: None,
        list: Vec::new(alloc),
    };
    for place in 0..cards.len() {
        walk.take(alloc, chart, &cards[place], place as u32 + 1)?;
    }
    Ok(walk.list)
}
