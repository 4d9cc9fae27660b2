//! Profiles of machines.

use crate::group::CounterGroup;
use std::marker::Model;

/// What a machine has for charts to take: the standard machine, or one that has less.
///
/// Counter groups have 3, 4, 6 or 8 positions, and are numbered from 1 in each width.
#[derive(Clone, Copy, Debug, PartialEq, Eq)]
pub struct Profile {
    threes: u8,
    fours: u8,
    sixes: u8,
    eights: u8,
    pilots: u8,
    comparing: u8,
    storage: u8,
    splits: u8,
    indicate: u8,
}

impl Model for Profile {
    ghost use Rattle.capacity.specs.Capacities.{Capacities, IsAtMost, standard};

    ghost Value = { Capacities };

    ghost use Rattle.capacity.specs.HelperFields.{capacities_of};

    ghost view = { capacities_of };

    ghost invariant = { λ profile. IsAtMost (capacities_of profile) standard };

    ghost inverse = { λ c. record {
      threes = c.threes;
      fours = c.fours;
      sixes = c.sixes;
      eights = c.eights;
      pilots = c.pilots;
      comparing = c.comparing;
      storage = c.storage;
      splits = c.splits;
      indicate = c.indicate;
    } };
}

impl Profile {
    ghost use Rattle.std.specs.Prelude.{◌≡◌, ◌↔◌, IsTrue, IsSome, IfSome, nat_le, ◌<◌, if◌then◌else◌};
    ghost use Rattle.capacity.specs.Capacities.{standard, capacities, IsAtMost, groups_of, groups_at_least, HasGroup};

    /// The standard machine: 8 counter groups of each width, 16 pilots, 30 comparing positions, 4 storage units, 16
    /// column splits, and 30 group-indicate positions of each level.
    pub fn standard() -> Profile
        ensures { result ≡ standard }
    {
        Profile {
            threes: 8,
            fours: 8,
            sixes: 8,
            eights: 8,
            pilots: 16,
            comparing: 30,
            storage: 4,
            splits: 16,
            indicate: 30,
        }
    }

    /// A machine that has these numbers: the counter groups of 3, 4, 6 and 8 positions, in this order, and the others.
    ///
    /// It is `None` exactly where a number is above that of the standard machine. Zeros are allowed.
    pub fn smaller(
        groups: [u8; 4],
        pilots: u8,
        comparing: u8,
        storage: u8,
        splits: u8,
        indicate: u8,
    ) -> Option<Profile>
        ensures value { IfSome result
            (λ profile. profile ≡ capacities groups pilots comparing storage splits indicate) }
        ensures answered { IsSome result
            ↔ IsAtMost (capacities groups pilots comparing storage splits indicate) standard }
    {
        let [threes, fours, sixes, eights] = groups;
        let are_groups = threes <= 8 && fours <= 8 && sixes <= 8 && eights <= 8;
        let are_others = pilots <= 16
            && comparing <= 30
            && storage <= 4
            && splits <= 16
            && indicate <= 30;
        if !are_groups || !are_others {
            return None;
        }
        Some(Profile {
            threes,
            fours,
            sixes,
            eights,
            pilots,
            comparing,
            storage,
            splits,
            indicate,
        })
    }

    /// How many counter groups have exactly this width; none have a width other than 3, 4, 6 or 8.
    pub fn groups_of(&self, width: u8) -> u8
        ensures value { result ≡ groups_of self.now width }
        ensures standard { IsAtMost self.now standard }
    {
        match width {
            3 => self.threes,
            4 => self.fours,
            6 => self.sixes,
            8 => self.eights,
            _ => 0,
        }
    }

    /// How many counter groups have this width or a greater one.
    #[tactic(auto, unfolding(crate::specs::Capacities::groups_at_least))]
    pub fn groups_at_least(&self, width: u8) -> u32
        ensures value { result ≡ groups_at_least self.now width }
        ensures standard { IsAtMost self.now standard }
    {
        self.groups_from(width, 8)
            + self.groups_from(width, 6)
            + self.groups_from(width, 4)
            + self.groups_from(width, 3)
    }

    // The groups of a width, where it is at least the given one.
    fn groups_from(&self, least: u8, width: u8) -> u32
        ensures value { result ≡ (if nat_le least width then groups_of self.now width else 0) }
        ensures few { result < 256 }
        ensures standard { IsAtMost self.now standard }
    {
        let groups = self.groups_of(width);
        if least <= width { u32::from(groups) } else { 0 }
    }

    /// Whether the machine has this counter group.
    pub fn has_group(&self, group: CounterGroup) -> bool
        ensures { IsTrue result ↔ HasGroup self.now group }
    {
        1 <= group.number && group.number <= self.groups_of(group.width)
    }

    /// The pilot selectors.
    pub fn pilots(&self) -> u8
        ensures value { result ≡ self.now.pilots }
        ensures standard { IsAtMost self.now standard }
    {
        self.pilots
    }

    /// The comparing positions.
    pub fn comparing(&self) -> u8
        ensures value { result ≡ self.now.comparing }
        ensures standard { IsAtMost self.now standard }
    {
        self.comparing
    }

    /// The storage units.
    pub fn storage(&self) -> u8
        ensures value { result ≡ self.now.storage }
        ensures standard { IsAtMost self.now standard }
    {
        self.storage
    }

    /// The column splits.
    pub fn splits(&self) -> u8
        ensures value { result ≡ self.now.splits }
        ensures standard { IsAtMost self.now standard }
    {
        self.splits
    }

    /// The group-indicate positions of each level 1 to 3.
    pub fn indicate(&self) -> u8
        ensures value { result ≡ self.now.indicate }
        ensures standard { IsAtMost self.now standard }
    {
        self.indicate
    }
}
