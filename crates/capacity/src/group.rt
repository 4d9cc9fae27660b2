//! The counter groups of a machine.

/// A counter group, by its width and its number.
#[derive(Clone, Copy, Debug, PartialEq, Eq)]
pub struct CounterGroup {
    /// How many positions it has: 3, 4, 6 or 8.
    pub width: u8,
    /// Its number among the groups of its width, from 1.
    pub number: u8,
}
