//! How far the form moves for a line.

/// The spacing of a line.
#[derive(Clone, Copy, Debug, PartialEq, Eq)]
pub enum Spacing {
    /// One line.
    Single,
    /// Two lines.
    Double,
    /// Three lines.
    Triple,
}

impl Spacing {
    ghost use Rattle.std.specs.Prelude.{◌≡◌};
    ghost use Rattle.chart_lines.specs.ChartsWords.Spacings.{spacing_number, spacing_with};

    /// How many lines the form moves, 1 to 3.
    pub fn number(self) -> u8
        ensures { result ≡ spacing_number self }
    {
        match self {
            Spacing::Single => 1,
            Spacing::Double => 2,
            Spacing::Triple => 3,
        }
    }

    /// The spacing of so many lines, or `None` where these are not 1 to 3.
    pub fn with_number(number: u16) -> Option<Spacing>
        ensures { result ≡ spacing_with number }
    {
        match number {
            1 => Some(Spacing::Single),
            2 => Some(Spacing::Double),
            3 => Some(Spacing::Triple),
            _ => None,
        }
    }
}
