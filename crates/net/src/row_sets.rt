//! Sets of rows, one for each hub: the pictures of all twelve rows at once.

use hubs::Hub;
use machine_sets::spreads::PlaceSets;
use std::marker::Model;

/// For each hub the set of the rows at whose points it emits, or is impulsed: bit r of a set tells of the row at place r among the
/// points, from row 9 at bit 0 to row 12 at bit 11.
#[derive(Debug, Drop)]
pub struct RowSets {
    // The set of the hub with the number h stands at place h - 1.
    pub(crate) places: PlaceSets,
}

impl Model for RowSets {
    ghost use Rattle.std.specs.Prelude.{ℕ, List};

    ghost Value = { List ℕ };

    ghost view = { λ sets. sets.places };
}

impl RowSets {
    ghost use Rattle.std.specs.Prelude.{◌≡◌, ℕ, ◌-◌, ◌+◌, ◌||◌, false, Some, None, [], drop, length};
    ghost use Rattle.hubs.specs.Hubs.{number_of};
    ghost use Rattle.hubs.specs.declared.hub.Hub.{Hub};
    ghost use Rattle.net.specs.HubRows.{has_row_at};
    ghost use Rattle.net.specs.RowSets.{is_in_sets};

    /// Empty sets.
    #[inline(always)]
    pub fn new() -> Self
        ensures { (row : ℕ) (hub : Hub) → has_row_at result row hub ≡ false }
    {
        RowSets {
            places: PlaceSets::new(),
        }
    }

    /// Takes all rows away.
    pub fn clear(&mut self)
        ensures { (row : ℕ) (hub : Hub) → has_row_at self.new row hub ≡ false }
    {
        self.places.clear();
    }

    /// Adds sets to those of hubs that follow one another from the first one on. Sets after the last hub change nothing, and neither
    /// do any from a hub out of range.
    #[inline(always)]
    pub fn insert_sets(&mut self, first: Hub, sets: &[u16])
        ensures { (row : ℕ) (hub : Hub) → has_row_at self.new row hub
            ≡ (has_row_at self.old row hub || is_in_sets first sets.now row hub) }
    {
        if let Some(number) = first.number() {
            self.insert_sets_at(first, number, sets);
        }
    }

    /// The same, if the number of the first hub is known and needn't be looked up. The hub is named for the contract alone: this spares
    /// callers a contract by numbers.
    #[inline(always)]
    pub fn insert_sets_at(&mut self, _first: Hub, number: u32, sets: &[u16])
        requires { number_of _first ≡ Some number }
        ensures { (row : ℕ) (hub : Hub) → has_row_at self.new row hub
            ≡ (has_row_at self.old row hub || is_in_sets _first sets.now row hub) }
    {
        self.places.insert_sets(number as usize - 1, sets);
    }

    /// The sets of the hubs that follow one another from the first one to the last one of the panel; none from a hub out of range.
    #[inline(always)]
    pub fn from(&self, first: Hub) -> &[u16]
        ensures sets { (number : ℕ) → number_of first ≡ Some number → result.now ≡ drop (number - 1) self.now }
        ensures long { (number : ℕ) → number_of first ≡ Some number → length result.now + number ≡ 1937 }
        ensures none { number_of first ≡ None → result.now ≡ [] }
    {
        match first.number() {
            Some(number) => self.places.from(number as usize - 1),
            None => &[],
        }
    }
}
