//! What a picture of the control point tells the units.

ghost use Rattle.std.specs.Prelude.{◌||◌, Bool, false, true};

use crate::picture::Picture;
use hubs::{Group, Hub};

// The first of the counter groups.
pub(crate) const FIRST_GROUP: Group = Group {
    width: 3,
    number: 1,
};

/// The hubs of a picture that are sensed at the control point, as rows from a first hub on: bit k stands for the hub whose number is the
/// first one's and k.
#[derive(Clone, Copy)]
pub struct Orders {
    /// The control hubs of the counter groups, from PL of the first group on.
    pub controls: u128,
    /// The hubs by which storage units read in and out, from SI.1 on. Hubs after these follow.
    pub storage: u128,
    /// The hubs of the carriage, from SP.2 on.
    pub carriage: u128,
}

impl Orders {
    ghost use Rattle.hubs.specs.declared.hub.Hub.{Hub};
    ghost use Rattle.net.specs.HubSets.{has_hub};
    ghost use Rattle.net.specs.Orders.{AreOrdersOf};

    /// No hub is impulsed.
    pub fn none() -> Self
        ensures { AreOrdersOf (λ hub. false) result }
    {
        Orders {
            controls: 0,
            storage: 0,
            carriage: 0,
        }
    }

    // Each hub is impulsed.
    pub(crate) fn all() -> Self
        ensures { AreOrdersOf (λ hub. true) result }
    {
        Orders {
            controls: u128::MAX,
            storage: u128::MAX,
            carriage: u128::MAX,
        }
    }

    /// Those of a picture.
    pub fn of(picture: &Picture) -> Self
        ensures { AreOrdersOf (has_hub picture.now) result }
    {
        Orders {
            controls: picture.row(Hub::PL(FIRST_GROUP)),
            storage: picture.row(Hub::SI(1)),
            carriage: picture.row(Hub::SP(2)),
        }
    }

    /// Those of two pictures together.
    #[inline(always)]
    pub fn joined(&self, more: &Orders) -> Self
        ensures { (one other : Hub → Bool) → AreOrdersOf one self.now → AreOrdersOf other more.now
            → AreOrdersOf (λ hub. one hub || other hub) result }
    {
        Orders {
            controls: self.controls | more.controls,
            storage: self.storage | more.storage,
            carriage: self.carriage | more.carriage,
        }
    }
}
