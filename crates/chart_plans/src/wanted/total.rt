//! The totals of a chart.

use chart_lines::charts::Level;

/// An amount that a total line shows, as the counters see it.
#[derive(Clone, Copy, Debug, PartialEq, Eq)]
pub struct Total {
    /// The level of its line.
    pub level: Level,
    /// The number of its line.
    pub line: u16,
    /// How many counter positions it needs: its digits, and one more where it is signed. Charts have totals of 1 to 16.
    pub need: u32,
}
