//! The heading lines of a page.

/// A heading line, by its place on the page.
#[derive(Clone, Copy, Debug, PartialEq, Eq)]
pub enum HeadingLine {
    /// 1.
    First,
    /// 2.
    Second,
    /// 3.
    Third,
}

impl HeadingLine {
    ghost use Rattle.std.specs.Prelude.{◌≡◌};
    ghost use Rattle.chart_lines.specs.ChartsWords.Headings.{heading_number, heading_with};

    /// Its number, 1 to 3.
    pub fn number(self) -> u8
        ensures { result ≡ heading_number self }
    {
        match self {
            HeadingLine::First => 1,
            HeadingLine::Second => 2,
            HeadingLine::Third => 3,
        }
    }

    /// The heading line with a number, or `None` where it is not 1 to 3.
    pub fn with_number(number: u16) -> Option<HeadingLine>
        ensures { result ≡ heading_with number }
    {
        match number {
            1 => Some(HeadingLine::First),
            2 => Some(HeadingLine::Second),
            3 => Some(HeadingLine::Third),
            _ => None,
        }
    }
}
