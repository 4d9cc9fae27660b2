//! How much is told of a panel.

/// How much is told of a panel that isn't wired for a chart.
#[derive(Clone, Copy, Debug, PartialEq, Eq)]
pub enum Telling {
    /// Which wires, jacks and stops are missing and extra, and how far the panel is.
    Wires,
    /// Lines of both charts and counts alone: so a class isn't given the answer.
    Hints,
}
