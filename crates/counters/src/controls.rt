//! The controls of a counter group in a cycle.

/// The controls of a counter group. They are sensed at the control point and hold for that cycle.
#[derive(Clone, Copy, Debug, PartialEq, Eq)]
pub struct Controls {
    /// What is entered is added.
    pub plus: bool,
    /// What is entered is subtracted. This rules over plus.
    pub minus: bool,
    /// The digits are emitted, and the group is cleared of them.
    pub read_out: bool,
    /// The balance latch is set or reset at the end of the cycle.
    pub test: bool,
}

impl Controls {
    ghost use Rattle.std.specs.Prelude.{◌≡◌, ◌||◌};
    ghost use Rattle.counters.specs.Counters.{no_controls};

    // No control is on.
    pub(crate) fn none() -> Self
        ensures { result ≡ no_controls }
    {
        Controls {
            plus: false,
            minus: false,
            read_out: false,
            test: false,
        }
    }

    // Whether digits are entered under them.
    pub(crate) fn takes_digits(self) -> bool
        ensures { result ≡ (self.plus || self.minus) }
    {
        self.plus || self.minus
    }
}
