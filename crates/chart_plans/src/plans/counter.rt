//! What serves a total.

ghost use Rattle.std.specs.Prelude.{◌≡◌, ◌↔◌, IsTrue};
ghost use Rattle.chart_plans.specs.PlansWords.Counters.{HasCounter, IsGroupOf, SharesGroup, single_group};
ghost use Rattle.chart_plans.specs.PlansWords.HelperEnough.{is_enough};

use capacity::{CounterGroup, Profile};

/// What serves a total: one counter group, or two that carry through both.
#[derive(Clone, Copy, Debug, PartialEq, Eq)]
pub enum TotalCounter {
    /// One counter group.
    Single {
        /// The group.
        group: CounterGroup,
    },
    /// Two counter groups of 8 positions for a total of 9 to 16.
    Coupled {
        /// The group of the positions 1 to 8 of the total. It has the lower number.
        lower: CounterGroup,
        /// The group of the positions 9 to 16.
        upper: CounterGroup,
    },
}

impl TotalCounter {
    /// The group of a counter that has only one.
    pub fn single_group(self) -> Option<CounterGroup>
        ensures { result ≡ single_group self }
    {
        match self {
            TotalCounter::Single { group } => Some(group),
            TotalCounter::Coupled { .. } => None,
        }
    }

    /// Whether it is enough for a total that needs so many positions: a group has as many, or two groups of 8, the lower number
    /// the lower one, serve a total that needs 9 to 16.
    pub(crate) fn is_enough(self, need: u32) -> bool
        ensures { result ≡ is_enough need self }
    {
        match self {
            TotalCounter::Single { group } => need <= u32::from(group.width),
            TotalCounter::Coupled { lower, upper } => {
                8 < need
                    && need <= 16
                    && lower.width == 8
                    && upper.width == 8
                    && lower.number < upper.number
            }
        }
    }

    /// Whether a machine has its groups.
    pub(crate) fn is_there(self, profile: &Profile) -> bool
        ensures { IsTrue result ↔ HasCounter profile.now self }
    {
        match self {
            TotalCounter::Single { group } => profile.has_group(group),
            TotalCounter::Coupled { lower, upper } => {
                let has_lower = profile.has_group(lower);
                let has_upper = profile.has_group(upper);
                has_lower && has_upper
            }
        }
    }

    /// Whether a group is one of its own.
    pub fn has(self, group: CounterGroup) -> bool
        ensures { IsTrue result ↔ IsGroupOf self group }
    {
        match self {
            TotalCounter::Single { group: own } => own == group,
            TotalCounter::Coupled { lower, upper } => lower == group || upper == group,
        }
    }

    /// Whether a group serves both this counter and another.
    pub(crate) fn shares(self, other: TotalCounter) -> bool
        ensures { IsTrue result ↔ SharesGroup self other }
    {
        match other {
            TotalCounter::Single { group } => self.has(group),
            TotalCounter::Coupled { lower, upper } => {
                let has_lower = self.has(lower);
                let has_upper = self.has(upper);
                has_lower || has_upper
            }
        }
    }
}
