//! The closed contacts of a cycle.

use net::{Contacts, Point};

// The closed contacts of a cycle but for those of the carries: those of the splits are closed at the rows alone, for digits and for
// zones apart.
#[derive(Clone, Copy)]
pub(crate) struct Closed {
    pub(crate) steady: Contacts,
    pub(crate) digits: Contacts,
    pub(crate) zones: Contacts,
}

impl Closed {
    ghost use Rattle.std.specs.Prelude.{◌≡◌};
    ghost use Rattle.machine.specs.Steady.{closed_at};

    // Those at a point.
    pub(crate) fn at(&self, point: Point) -> &Contacts
        ensures { result.now ≡ closed_at self.now point }
    {
        match point {
            Point::C | Point::K => &self.steady,
            Point::Row(row) => {
                if row.number() <= 9 {
                    &self.digits
                } else {
                    &self.zones
                }
            }
        }
    }
}
